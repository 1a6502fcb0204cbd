// Tests of `overlay_relations`, through its public calls.
#![tactic(auto)]

#[cfg(test)]
mod contacts;
#[cfg(test)]
mod matrix;
#[cfg(test)]
mod pairs;
#[cfg(test)]
mod predicates;

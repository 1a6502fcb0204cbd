// Tests of `overlay_split`, through its public calls.
#![tactic(auto)]

#[cfg(test)]
mod pass;
#[cfg(test)]
mod path;
#[cfg(test)]
mod solver;

// Tests of `overlay_snapping`, through its public calls.
#![tactic(auto)]

#[cfg(test)]
mod solver;

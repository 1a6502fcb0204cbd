// Tests of `overlay_intersections`, `overlay_tree` and `overlay_grid`, through their public calls.
#![tactic(auto)]

#[cfg(test)]
mod cross_solver;
#[cfg(test)]
mod fragment;
#[cfg(test)]
mod fragment_buffer;
#[cfg(test)]
mod solver_list;
#[cfg(test)]
mod solver_tree;
#[cfg(test)]
mod usable;

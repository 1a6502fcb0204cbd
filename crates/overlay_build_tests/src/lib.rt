// Tests of `overlay_sweep` and `overlay_build`, through their public calls.
#![tactic(auto)]

#[cfg(test)]
mod contour_loops;
#[cfg(test)]
mod filters;
#[cfg(test)]
mod graphs;
#[cfg(test)]
mod many_live;
#[cfg(test)]
mod refused_inserts;
#[cfg(test)]
mod scans;
#[cfg(test)]
mod string_graphs;
#[cfg(test)]
mod sweeps;
#[cfg(test)]
mod upstream_geom;
#[cfg(test)]
mod walks;
#[cfg(test)]
mod worked_lines;

// Tests of `overlay_geometry` and `overlay_base`, through their public calls. Tests are in crates
// of their own, since a crate with tests is proved twice.
#![tactic(auto)]

#[cfg(test)]
mod arranged;
#[cfg(test)]
mod balance;
#[cfg(test)]
mod clip_rule;
#[cfg(test)]
mod fault;
#[cfg(test)]
mod fill_rule;
#[cfg(test)]
mod links;
#[cfg(test)]
mod merge;
#[cfg(test)]
mod points;
#[cfg(test)]
mod rule_table;
#[cfg(test)]
mod segments;
#[cfg(test)]
mod solver;
#[cfg(test)]
mod sorts;
#[cfg(test)]
mod string;
#[cfg(test)]
mod v_segments;

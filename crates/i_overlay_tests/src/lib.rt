// Tests of `i_overlay`, `overlay_contours`, `overlay_text` and `overlaps`, through their public calls. Runs of the programs over
// `overlay_text` are in `examples/runs`.
#![tactic(auto)]

#[cfg(test)]
mod chain;
#[cfg(test)]
mod clip;
#[cfg(test)]
mod library;
#[cfg(test)]
mod line_numbers;
#[cfg(test)]
mod measure;
#[cfg(test)]
mod meetings;
#[cfg(test)]
mod provenance;
#[cfg(test)]
mod roundings;
#[cfg(test)]
mod sources;
#[cfg(test)]
mod stop;
#[cfg(test)]
mod words;

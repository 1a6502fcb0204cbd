// Tests of `overlay_tiles`, through its public calls.
#![tactic(auto)]

#[cfg(test)]
mod clip;
#[cfg(test)]
mod overlay;
#[cfg(test)]
mod tile;
#[cfg(test)]
mod tiled;

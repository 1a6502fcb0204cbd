// The grid, the fragments of segments in its columns, and the finder over them.

pub mod axis;
mod blocks;
mod border_contacts;
mod column_parts;
pub mod column_sweep;
pub mod fragment;
pub mod fragment_buffer;
pub mod fragment_memory;
pub mod grid_layout;
mod group_sort;
pub mod laws;
mod reach;
mod rise;
pub mod solver_fragment;
pub mod solver_fragment_within;
mod sort_within;

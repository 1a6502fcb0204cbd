// Raw outlines of contours, and how they wind. This project's own.

pub mod laws;

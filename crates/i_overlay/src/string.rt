// Lines and their graphs. Upstream: `string`.

/// What a clip keeps of lines.
pub mod clip {
    pub use overlay_base::overlay_core::clip_rule::ClipRule;
}

/// The graph of lines cut by polygons.
pub mod graph {
    pub use overlay_build::build::string_graph::StringGraph;
}

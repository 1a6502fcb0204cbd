// Which side of an overlay a shape belongs to. Upstream: `core::overlay::ShapeType`.

/// Whether a shape is a subject or a clip.
#[derive(Clone, Copy, Debug, PartialEq, Eq)]
pub enum ShapeType {
    /// The first of the two: `subj` of a count winds for it.
    Subject,
    /// The second: `clip` of a count winds for it, or, of a count of lines, is the mask of lines.
    Clip,
}

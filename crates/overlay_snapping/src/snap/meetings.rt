// Which hot points each segment meets between its ends, kept for as many segments as there is room for. This project's own.
ghost use Rattle.std.specs.Prelude.{◌≡◌, ◌+◌, ◌<◌, ◌≤◌, ◌++◌, [], true, ℕ, Some, All, OnOk, IfSome, length};
ghost use Rattle.overlay_snapping.specs.declared.snap.meetings.Part.{Part};

use overlay_geometry::geom::point::IntPoint;
use overlay_geometry::num::OverlayInt;
use std::alloc::{AllocError, Global};

/// Points in one list, with a part of it for each of the first segments.
#[derive(Drop)]
pub(crate) struct Meetings<I: OverlayInt> {
    pub(crate) points: Vec<IntPoint<I>>,
    pub(crate) parts: Vec<Part>,
    ghost within: { All (λ (p : Part). (p.start ≤ p.end) × (p.end ≤ length points.items)) parts.items },
}

/// A part of a list.
#[derive(Clone, Copy)]
pub(crate) struct Part {
    pub(crate) start: usize,
    pub(crate) end: usize,
}

impl<I: OverlayInt> Meetings<I> {
    ghost use Rattle.overlay_snapping.specs.steps.Recorded.{recorded};

    /// No parts yet.
    pub(crate) fn new(alloc: Global) -> Self {
        Meetings {
            points: Vec::new(alloc),
            parts: Vec::new(alloc),
        }
    }

    /// Drops all parts, and makes room for so many.
    ///
    /// Returns `AllocError` where a growth is refused; there are no parts then either.
    pub(crate) fn clear(&mut self, count: usize) -> Result<(), AllocError>
        ensures { length self.new.parts.items ≡ 0 }
    {
        self.points.clear();
        self.parts.clear();
        self.parts.reserve(count)
    }

    /// How many parts there are.
    pub(crate) fn len(&self) -> usize
        ensures { result ≡ length self.now.parts.items }
    {
        self.parts.len()
    }

    /// How many points there are in all parts.
    pub(crate) fn points_len(&self) -> usize {
        self.points.len()
    }

    /// Adds a part with these points.
    pub(crate) fn push(&mut self, points: &[IntPoint<I>]) -> Result<(), AllocError>
        ensures added { OnOk result (recorded self.new (length self.old.parts.items) ≡ Some points.now) }
        ensures longer { OnOk result (length self.new.parts.items ≡ length self.old.parts.items + 1) }
        ensures kept { OnOk result ((i : ℕ) → i < length self.old.parts.items → recorded self.new i ≡ recorded self.old i) }
    {
        let start = self.points.len();
        append(&mut self.points, points)?;
        let end = self.points.len();
        self.parts.push(Part { start, end })?;
        Ok(())
    }

    /// Whether a part is there and has no points.
    #[inline(always)]
    pub(crate) fn has_none(&self, index: usize) -> bool
        ensures { result ≡ true → recorded self.now index ≡ Some [] }
    {
        match self.parts.get(index) {
            Some(part) => part.start == part.end,
            None => false,
        }
    }

    /// The points of a part, if it is there.
    pub(crate) fn get(&self, index: usize) -> Option<&[IntPoint<I>]>
        ensures { IfSome result (λ points. recorded self.now index ≡ Some points.now) }
    {
        let part = self.parts.get(index)?;
        self.points.get(part.start..part.end)
    }
}

/// Appends points to others.
pub(crate) fn append<I: OverlayInt>(
    list: &mut Vec<IntPoint<I>>,
    points: &[IntPoint<I>],
) -> Result<(), AllocError>
    ensures appended { OnOk result (list.new.items ≡ list.old.items ++ points.now) }
    ensures longer { length list.old.items ≤ length list.new.items }
{
    for point in points {
        list.push(*point)?;
    }
    Ok(())
}

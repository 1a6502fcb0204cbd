// Relations by which pairs of regions are chosen.
ghost use Rattle.std.specs.Prelude.{◌≡◌};

/// A relation of two regions, by which `related_pairs` chooses pairs.
#[derive(Clone, Copy, Debug, PartialEq, Eq)]
pub enum Predicate {
    /// They share a point, inside or on their boundaries.
    SharePoint,
    /// Some point is inside both.
    InteriorsMeet,
    /// They share a point, and no point is inside both.
    Touch,
    /// Each point inside the second is inside the first, and there is one.
    Covers,
    /// Each point inside the first is inside the second, and there is one.
    IsWithin,
    /// Each point is inside both or inside neither, and some point is inside both.
    SameRegion,
}

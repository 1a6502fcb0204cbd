// Winding counts: what a segment adds to the windings of the places above it. Upstream: `segm::winding`.
ghost use Rattle.std.specs.Prelude.{◌≡◌, ℤ, ◌↔◌, IsTrue, IsOk, IfOk, IfErr};
ghost use Rattle.overlay_base.specs.Windings.{Winding, add, inverse, is_not_empty, is_count_in_range, is_valid};
ghost use Rattle.overlay_base.specs.ShapeWindings.{direct_winding, inverted_winding};

use crate::segm::fault::Fault;
use crate::segm::shape_type::ShapeType;

/// A kind of winding count.
///
/// A count has a meaning, its winding: whole numbers for the subject and for the clip, and the mask of a line.
/// Counts add up as their windings do. An `impl` names the winding, and the count that a winding belongs to.
pub trait WindingCount: Copy {
    ghost winding: { Self → Winding };

    ghost counted: { Winding → Self };

    ghost made: { ℤ → ℤ → Winding };

    /// Whether the count is anything but zero.
    fn is_not_empty(&self) -> bool
        ensures { result ≡ is_not_empty (winding self.now) };

    /// The count that winds `subj` times for the subject and `clip` times for the clip. A count of lines takes of
    /// `clip` whether it is positive, negative or 0.
    fn new(subj: i32, clip: i32) -> Self
        ensures { winding result ≡ made subj clip };

    /// The counts of one contour of the shape, run forward and backward.
    fn with_shape_type(shape_type: ShapeType) -> (Self, Self)
        ensures direct { winding result.0 ≡ direct_winding made shape_type }
        ensures inverted { winding result.1 ≡ inverted_winding made shape_type }
    {
        (
            Self::direct_count(shape_type),
            Self::invert_count(shape_type),
        )
    }

    /// The count of one contour of the shape, run forward.
    fn direct_count(shape_type: ShapeType) -> Self
        ensures { winding result ≡ direct_winding made shape_type }
    {
        match shape_type {
            ShapeType::Subject => Self::new(1, 0),
            ShapeType::Clip => Self::new(0, 1),
        }
    }

    /// The count of one contour of the shape, run backward.
    fn invert_count(shape_type: ShapeType) -> Self
        ensures { winding result ≡ inverted_winding made shape_type }
    {
        match shape_type {
            ShapeType::Subject => Self::new(-1, 0),
            ShapeType::Clip => Self::new(0, -1),
        }
    }

    /// The count of two segments on one pair of ends.
    ///
    /// Returns `Fault::CountOutOfRange` exactly where a number of the sum leaves `-i32::MAX..=i32::MAX`.
    fn add(self, count: Self) -> Result<Self, Fault>
        ensures sum { IfOk result (λ total. winding total ≡ add (winding self) (winding count)) }
        ensures in_range { IsOk result ↔ IsTrue (is_count_in_range (add (winding self) (winding count))) }
        ensures fault { IfErr result (λ fault. fault ≡ Fault.CountOutOfRange) };

    /// The count of the same segment, run the other way. The count has to be valid.
    fn invert(self) -> Self
        requires { IsTrue (is_valid (winding self)) }
        ensures { winding result ≡ inverse (winding self) };

    /// How often the count winds for the subject, and how often for the clip. A mask is left out. This project's own.
    fn numbers(self) -> (i32, i32)
        ensures subj { result.0 ≡ (winding self).subj }
        ensures clip { result.1 ≡ (winding self).clip };

    /// Whether each number lies in `-i32::MAX..=i32::MAX`, and a mask has no more than its two bits.
    fn is_valid(self) -> bool
        ensures { result ≡ is_valid (winding self) };

    ghost told: { (c : Self) → counted (winding c) ≡ c };
}

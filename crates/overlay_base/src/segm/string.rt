// The count of lines that a polygon cuts: a winding number for the polygon, a mask for the lines. Upstream:
// `segm::string`.

use crate::segm::fault::Fault;
use crate::segm::winding::WindingCount;
use std::cmp::Ordering;

/// The bit of a mask for a line that runs from the segment's `a` to its `b`.
pub const STRING_FORWARD_CLIP: u8 = 0b10;

/// The bit of a mask for a line that runs from `b` to `a`.
pub const STRING_BACK_CLIP: u8 = 0b1;

const _: () = prove!(STRING_FORWARD_CLIP == 2);

const _: () = prove!(STRING_BACK_CLIP == 1);

/// How a segment winds for the subject, and which ways lines run along it.
#[derive(Clone, Copy, Debug, PartialEq, Eq)]
pub struct ShapeCountString {
    /// How often it winds for the subject, below 0 where it does so backward.
    pub subj: i32,
    /// The mask: a sum of `STRING_FORWARD_CLIP` and `STRING_BACK_CLIP`, or 0 where no line runs.
    pub clip: u8,
}

impl WindingCount for ShapeCountString {
    ghost use Rattle.std.specs.Prelude.{refl};
    ghost use Rattle.overlay_base.specs.StringWinding.{string_winding, string_counted, string_made};

    ghost winding = { string_winding };

    ghost counted = { string_counted };

    ghost made = { string_made };

    ghost told = { λ c. refl };

    fn is_not_empty(&self) -> bool {
        self.subj != 0 || self.clip != 0
    }

    /// The count that winds `subj` times for the subject, with a line forward where `clip` is positive, and back where
    /// it is negative.
    fn new(subj: i32, clip: i32) -> ShapeCountString {
        let mask = match clip.cmp(&0) {
            Ordering::Greater => STRING_FORWARD_CLIP,
            Ordering::Less => STRING_BACK_CLIP,
            Ordering::Equal => 0,
        };
        ShapeCountString { subj, clip: mask }
    }

    fn add(self, count: ShapeCountString) -> Result<ShapeCountString, Fault> {
        match self.subj.checked_add(count.subj) {
            Some(subj) if subj != i32::MIN => Ok(ShapeCountString {
                subj,
                clip: self.clip | count.clip,
            }),
            _ => Err(Fault::CountOutOfRange),
        }
    }

    fn invert(self) -> ShapeCountString {
        let back = self.clip & STRING_BACK_CLIP;
        let forward = self.clip & STRING_FORWARD_CLIP;
        ShapeCountString {
            subj: -self.subj,
            clip: (back << 1) | (forward >> 1),
        }
    }

    fn numbers(self) -> (i32, i32) {
        (self.subj, 0)
    }

    fn is_valid(self) -> bool {
        self.subj != i32::MIN && self.clip < 4
    }
}

// The count of polygons: one winding number for the subject, one for the clip. Upstream: `segm::boolean`.

use crate::segm::fault::Fault;
use crate::segm::winding::WindingCount;

/// How a segment winds for the subject and for the clip.
#[derive(Clone, Copy, Debug, PartialEq, Eq)]
pub struct ShapeCountBoolean {
    /// How often contours of the subject run from `a` to `b`, less how often they run back.
    pub subj: i32,
    /// The same of the clip.
    pub clip: i32,
}

impl ShapeCountBoolean {
    /// A step of the subject, from `a` to `b`.
    pub const SUBJ_DIRECT: ShapeCountBoolean = ShapeCountBoolean { subj: 1, clip: 0 };

    /// A step of the subject, from `b` to `a`.
    pub const SUBJ_INVERT: ShapeCountBoolean = ShapeCountBoolean { subj: -1, clip: 0 };

    /// A step of the clip, from `a` to `b`.
    pub const CLIP_DIRECT: ShapeCountBoolean = ShapeCountBoolean { subj: 0, clip: 1 };

    /// A step of the clip, from `b` to `a`.
    pub const CLIP_INVERT: ShapeCountBoolean = ShapeCountBoolean { subj: 0, clip: -1 };
}

const _: () = prove!(
    ShapeCountBoolean::SUBJ_DIRECT.subj == 1 && ShapeCountBoolean::SUBJ_DIRECT.clip == 0
);

const _: () = prove!(
    ShapeCountBoolean::SUBJ_INVERT.subj == -1 && ShapeCountBoolean::SUBJ_INVERT.clip == 0
);

const _: () = prove!(
    ShapeCountBoolean::CLIP_DIRECT.subj == 0 && ShapeCountBoolean::CLIP_DIRECT.clip == 1
);

const _: () = prove!(
    ShapeCountBoolean::CLIP_INVERT.subj == 0 && ShapeCountBoolean::CLIP_INVERT.clip == -1
);

impl WindingCount for ShapeCountBoolean {
    ghost use Rattle.std.specs.Prelude.{refl};
    ghost use Rattle.overlay_base.specs.BooleanWinding.{boolean_winding, boolean_counted, boolean_made};

    ghost winding = { boolean_winding };

    ghost counted = { boolean_counted };

    ghost made = { boolean_made };

    ghost told = { λ c. refl };

    fn is_not_empty(&self) -> bool {
        self.subj != 0 || self.clip != 0
    }

    fn new(subj: i32, clip: i32) -> ShapeCountBoolean {
        ShapeCountBoolean { subj, clip }
    }

    fn add(self, count: ShapeCountBoolean) -> Result<ShapeCountBoolean, Fault> {
        let subj = self.subj.checked_add(count.subj);
        let clip = self.clip.checked_add(count.clip);
        match (subj, clip) {
            (Some(subj), Some(clip)) if subj != i32::MIN && clip != i32::MIN => {
                Ok(ShapeCountBoolean { subj, clip })
            }
            _ => Err(Fault::CountOutOfRange),
        }
    }

    fn invert(self) -> ShapeCountBoolean {
        ShapeCountBoolean {
            subj: -self.subj,
            clip: -self.clip,
        }
    }

    fn numbers(self) -> (i32, i32) {
        (self.subj, self.clip)
    }

    fn is_valid(self) -> bool {
        self.subj != i32::MIN && self.clip != i32::MIN
    }
}

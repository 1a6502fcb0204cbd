// Colors whose store counts the calls of its hooks.
ghost use Rattle.std.specs.Prelude.{◌≡◌, ◌+◌, ◌-◌, ◌^◌, ◌==◌, if◌then◌else◌, min};

use crate::shapes::Data;
use i_overlay::num::OverlayInt;
use i_overlay::overlay_core::edge_data::{EdgeDataMerge, EdgeDataSplit, OverlayEdgeData};
use i_overlay::segm::boolean::ShapeCountBoolean;

/// A color with a store. A merge keeps equal colors, and else returns the one that is none.
#[derive(Clone, Copy, Debug, PartialEq, Eq)]
pub struct Color(pub u8);

/// A red subject and a green clip.
pub const COLORS: Data<Color> = Data {
    subject: Color(1),
    clip: Color(2),
};

/// How often hooks were called.
#[derive(Clone, Copy, Debug, PartialEq, Eq, Default, Drop)]
pub struct Calls {
    /// Whether the caller made the store. No hook changes it.
    pub is_given: bool,
    /// Calls of `split`.
    pub splits: u32,
    /// Calls of `reversed`.
    pub reversals: u32,
    /// Calls of `merge`.
    pub merges: u32,
    /// Calls of all three.
    pub all: u32,
}

impl Calls {
    /// The store that is handed to a call.
    pub fn given() -> Calls {
        Calls {
            is_given: true,
            splits: 0,
            reversals: 0,
            merges: 0,
            all: 0,
        }
    }

    /// Whether calls of hooks made this store of the given one: what they keep.
    pub fn is_made_by_hooks(&self) -> bool {
        let parts = self.splits.saturating_add(self.reversals);
        self.is_given && self.all == parts.saturating_add(self.merges)
    }
}

impl OverlayEdgeData<ShapeCountBoolean> for Color {
    type Store = Calls;

    ghost reversed_gives = { λ color store. (
      color,
      record store {
        reversals = min (store.reversals + 1) (2 ^ 32 - 1);
        all = min (store.all + 1) (2 ^ 32 - 1);
      },
    ) };

    ghost split_gives = { λ color _ _ _ store. (
      (color, color),
      record store {
        splits = min (store.splits + 1) (2 ^ 32 - 1);
        all = min (store.all + 1) (2 ^ 32 - 1);
      },
    ) };

    ghost merge_gives = { λ merged store. (
      record { 0 = (if merged.lhs_data.0 == merged.rhs_data.0 then merged.lhs_data.0 else 0) },
      record store {
        merges = min (store.merges + 1) (2 ^ 32 - 1);
        all = min (store.all + 1) (2 ^ 32 - 1);
      },
    ) };

    fn reversed(self, store: &mut Calls) -> Color {
        store.reversals = store.reversals.saturating_add(1);
        store.all = store.all.saturating_add(1);
        self
    }

    fn split<I: OverlayInt>(self, _at: EdgeDataSplit<I>, store: &mut Calls) -> (Color, Color) {
        store.splits = store.splits.saturating_add(1);
        store.all = store.all.saturating_add(1);
        (self, self)
    }

    fn merge(merged: EdgeDataMerge<ShapeCountBoolean, Color>, store: &mut Calls) -> Color
        ensures answer { result ≡ record {
          0 = (if merged.lhs_data.0 == merged.rhs_data.0 then merged.lhs_data.0 else 0);
        } }
        ensures store { store.new ≡ record store.old {
          merges = min (store.old.merges + 1) (2 ^ 32 - 1);
          all = min (store.old.all + 1) (2 ^ 32 - 1);
        } }
    {
        store.merges = store.merges.saturating_add(1);
        store.all = store.all.saturating_add(1);
        if merged.lhs_data == merged.rhs_data {
            merged.lhs_data
        } else {
            Color(0)
        }
    }
}

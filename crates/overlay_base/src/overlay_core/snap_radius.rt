// The snap radius of a pass. Upstream: `split::snap_radius`.
ghost use Rattle.std.specs.Prelude.{◌≡◌, ◌+◌, pos, min};

use overlay_geometry::num::OverlayInt;

/// A squared radius, as a power of two, and how its exponent grows.
#[derive(Clone, Copy)]
pub struct SnapRadius {
    current: usize,
    step: usize,
}

impl SnapRadius {
    ghost use Rattle.overlay_base.specs.Radius.{exponent_of, step_of, squared_radius};

    /// The radius with this exponent, which grows by `step`.
    pub fn new(exponent: usize, step: usize) -> Self
        ensures exponent { exponent_of result ≡ exponent }
        ensures step { step_of result ≡ step }
    {
        SnapRadius {
            current: exponent,
            step,
        }
    }

    /// The radius of the next pass. The exponent stops at `usize::MAX`.
    pub fn increment(&mut self)
        ensures exponent { exponent_of self.new ≡ min (exponent_of self.old + step_of self.old) usize.MAX }
        ensures step { step_of self.new ≡ step_of self.old }
    {
        self.current = self.current.saturating_add(self.step);
    }

    /// The squared distance within which a pass snaps to an end: `2^current`, up to `2^24` for `i16` and `2^56` for
    /// `i32`.
    pub fn radius_squared<I: OverlayInt>(&self) -> i64
        ensures { result ≡ pos (squared_radius I.BITS (exponent_of self.now)) }
    {
        let cap = 2 * (I::BITS - 4) as usize;
        1 << self.current.min(cap)
    }
}

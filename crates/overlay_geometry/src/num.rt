// The integer engines: the types of coordinates, their limits, and their meaning as whole numbers.
// Upstream: `core::integer`.
ghost use Rattle.std.specs.Prelude.{◌≡◌, ℕ, ℤ, pos, ◌≤◌, ◌≤ℤ◌, IsTrue};
ghost use Rattle.std.specs.Ordering.{int_cmp};
ghost use Rattle.overlay_geometry.specs.Coordinates.{is_coordinate, least_coordinate, greatest_coordinate};

/// An integer type whose values are coordinates.
///
/// The limits leave room for the products that the engine forms: a difference of two coordinates stays below 2^31
/// and a turn of three points or a squared distance below 2^63, so they fit an `i64`. The numerator of a crossing
/// point stays below 2^94; it is taken in an `i128`, where a crossing is placed.
///
/// | engine | `MIN_COORD` | `MAX_COORD` | `BITS` |
/// |---|---|---|---|
/// | `i16` | -16384 | 16383 | 16 |
/// | `i32` | -1073741824 | 1073741823 | 32 |
pub trait OverlayInt: Copy + Ord {
    ghost whole: { Self → ℤ };

    ghost BITS: { ℕ };

    ghost ZERO: { Self };

    ghost MIN_COORD: { Self };

    ghost MAX_COORD: { Self };

    /// The width of the type.
    const BITS: u32;

    /// The coordinate 0.
    const ZERO: Self;

    /// The least coordinate.
    const MIN_COORD: Self;

    /// The greatest coordinate.
    const MAX_COORD: Self;

    /// The same number as an `i64`.
    fn to_wide(self) -> i64
        ensures { result ≡ whole self };

    /// The same number as a coordinate. The number has to lie between `MIN_COORD` and `MAX_COORD`.
    fn from_wide(value: i64) -> Self
        requires { IsTrue (is_coordinate (whole MIN_COORD) (whole MAX_COORD) value) }
        ensures { whole result ≡ value };

    /// Whether the number lies between `MIN_COORD` and `MAX_COORD`.
    fn is_in_range(self) -> bool
        ensures { result ≡ is_coordinate (whole MIN_COORD) (whole MAX_COORD) (whole self) };

    ghost injective: { (a b : Self) → whole a ≡ whole b → a ≡ b };

    ghost ordered: { (a b : Self) → Self.cmp a b ≡ int_cmp (whole a) (whole b) };

    ghost least_bits: { 4 ≤ BITS };

    ghost most_bits: { BITS ≤ 32 };

    ghost zero: { whole ZERO ≡ pos 0 };

    ghost lowest: { least_coordinate ≤ℤ whole MIN_COORD };

    ghost highest: { whole MAX_COORD ≤ℤ greatest_coordinate };
}

impl OverlayInt for i16 {
    ghost use Rattle.std.proofs.Common.{rules};
    ghost use Rattle.std.specs.Prelude.{negsuc, refl};

    ghost whole = { λ z. z };

    ghost BITS = { 16 };

    ghost ZERO = { pos 0 };

    ghost MIN_COORD = { negsuc 16383 };

    ghost MAX_COORD = { pos 16383 };

    ghost injective = { λ a b e. e };

    ghost ordered = { λ a b. refl };

    ghost least_bits = { Prim.search rules };

    ghost most_bits = { Prim.search rules };

    ghost zero = { refl };

    ghost lowest = { Prim.search rules };

    ghost highest = { Prim.search rules };

    const BITS: u32 = 16;

    const ZERO: i16 = 0;

    const MIN_COORD: i16 = -16384;

    const MAX_COORD: i16 = 16383;

    fn to_wide(self) -> i64 {
        i64::from(self)
    }

    fn from_wide(value: i64) -> i16 {
        value as i16
    }

    fn is_in_range(self) -> bool {
        i16::MIN_COORD <= self && self <= i16::MAX_COORD
    }
}

impl OverlayInt for i32 {
    ghost use Rattle.std.proofs.Common.{rules};
    ghost use Rattle.std.specs.Prelude.{refl};

    ghost whole = { λ z. z };

    ghost BITS = { 32 };

    ghost ZERO = { pos 0 };

    ghost MIN_COORD = { least_coordinate };

    ghost MAX_COORD = { greatest_coordinate };

    ghost injective = { λ a b e. e };

    ghost ordered = { λ a b. refl };

    ghost least_bits = { Prim.search rules };

    ghost most_bits = { Prim.search rules };

    ghost zero = { refl };

    ghost lowest = { Prim.search rules };

    ghost highest = { Prim.search rules };

    const BITS: u32 = 32;

    const ZERO: i32 = 0;

    const MIN_COORD: i32 = -1_073_741_824;

    const MAX_COORD: i32 = 1_073_741_823;

    fn to_wide(self) -> i64 {
        self as i64
    }

    fn from_wide(value: i64) -> i32 {
        value as i32
    }

    fn is_in_range(self) -> bool {
        i32::MIN_COORD <= self && self <= i32::MAX_COORD
    }
}

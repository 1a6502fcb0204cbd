// Coordinates of an engine, as the numbers of 32 bits that cross to C.
ghost use Rattle.std.specs.Prelude.{◌≡◌, IfSome, is_some};
ghost use Rattle.overlay_geometry.specs.Coordinates.{is_coordinate};
ghost use Rattle.overlay_c.specs.Records.{names_narrow};

use overlay_geometry::num::OverlayInt;

/// An engine whose coordinates cross to C.
pub trait Width: OverlayInt {
    /// The coordinate of a number. `None` where that is out of the engine's range.
    fn from_number(number: i32) -> Option<Self>
        ensures in_range { is_some result
            ≡ is_coordinate (Self.whole Self.MIN_COORD) (Self.whole Self.MAX_COORD) number }
        ensures same { IfSome result (λ coordinate. Self.whole coordinate ≡ number) };

    /// The number of a coordinate.
    fn number(self) -> i32
        ensures { result ≡ Self.whole self };
}

impl Width for i16 {
    fn from_number(number: i32) -> Option<i16> {
        if number < -16_384 || 16_383 < number {
            return None;
        }
        Some(number as i16)
    }

    fn number(self) -> i32 {
        i32::from(self)
    }
}

impl Width for i32 {
    fn from_number(number: i32) -> Option<i32> {
        if number.is_in_range() {
            Some(number)
        } else {
            None
        }
    }

    fn number(self) -> i32 {
        self
    }
}

/// Whether a code names the engine of 16 bits.
pub fn is_narrow(code: u8) -> bool
    ensures { result ≡ names_narrow code }
{
    code != 0
}

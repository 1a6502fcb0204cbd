// How far a crossing point lies from a segment's end: one whole number over another. The products larger than a turn
// are formed here alone, in an `i128`: a numerator stays below 2^94, and twice it plus a divisor below 2^96.
// Upstream: the division of `cross_point` in `split::cross_solver`.
ghost use Rattle.std.specs.Prelude.{◌≡◌, ◌≢◌, ◌≤◌, ◌<◌, ◌*◌, ◌/◌, ◌^◌, ◌*ℤ◌, ◌<ℤ◌, pos, negsuc, neg_ℤ, unsigned_abs, int_le, int_lt, ◌&&◌, if◌then◌else◌};
ghost use Rattle.std.specs.Int.{int_signum, int_div_euclid};
ghost use Rattle.overlay_geometry.specs.Coordinates.{greatest_difference, greatest_product};
ghost use Rattle.overlay_intersections.specs.Crossing.{quotient, truncated, nearest, nearest_upward};
ghost use Rattle.overlay_intersections.specs.steps.Numerators.{greatest_numerator};

use std::alloc::AllocError;

/// How far the exact crossing point lies from the target's first end in x or in y: `top / bottom`.
pub struct Offset {
    top: i128,
    bottom: i128,
    /// How far the target goes along the axis, and about how many 2^32nds of that lie before the point. Quotients are
    /// guessed of these; nothing rests on them.
    length: u64,
    share: u64,
    pub ghost top_bound: { unsigned_abs top ≤ greatest_numerator },
    pub ghost bottom_bound: { unsigned_abs bottom ≤ 2 * greatest_product },
    pub ghost bottom_positive: { pos 0 <ℤ bottom },
}

impl Clone for Offset {
    ghost use Rattle.std.specs.Prelude.{⊤};

    ghost is_clone = { λ v w. w ≡ v };

    ghost is_infallible = { λ _. ⊤ };

    fn clone(&self) -> Result<Offset, AllocError> {
        Ok(*self)
    }
}

impl Copy for Offset {}

impl Offset {
    ghost use Rattle.overlay_intersections.specs.steps.OffsetOf.{quotient_of};

    /// `length * n / d`.
    pub fn new(length: i64, n: i64, d: i64) -> Self
        requires length { unsigned_abs length ≤ greatest_difference }
        requires n { unsigned_abs n ≤ 2 * greatest_product }
        requires d { unsigned_abs d ≤ 2 * greatest_product }
        requires divides { d ≢ pos 0 }
        ensures { quotient_of result ≡ quotient length n d }
    {
        Offset {
            top: with_sign_of(d, numerator(length, n)),
            bottom: d.abs() as i128,
            length: length.unsigned_abs(),
            share: share_of(n.unsigned_abs(), d.unsigned_abs()),
        }
    }

    /// The whole number toward 0.
    pub fn truncated(self) -> i128
        ensures { result ≡ truncated (quotient_of self) }
    {
        let guess = self.length.wrapping_mul(self.share) >> 32;
        signed_as(
            self.top,
            divided(self.top.unsigned_abs(), self.size(), guess),
        )
    }

    /// The nearest whole number, the farther from 0 of two as near.
    pub fn nearest(self) -> i128
        ensures { result ≡ nearest (quotient_of self) }
    {
        let size = self.size();
        let guess = self
            .length
            .wrapping_mul(self.share)
            .wrapping_add(0x8000_0000)
            >> 32;
        signed_as(
            self.top,
            divided(2 * self.top.unsigned_abs() + size as u128, 2 * size, guess),
        )
    }

    /// The nearest whole number, the greater of two as near.
    pub fn nearest_upward(self) -> i128
        ensures { result ≡ nearest_upward (quotient_of self) }
    {
        floor_divided(2 * self.top + self.bottom, 2 * self.bottom)
    }

    /// The divisor, as an unsigned number.
    fn size(&self) -> u64
        ensures value { result ≡ unsigned_abs self.now.bottom }
        ensures positive { 0 < result }
        ensures bound { result ≤ 2 * greatest_product }
    {
        self.bottom as u64
    }
}

/// About how many 2^32nds of the whole a part is, from the first 32 bits of the greater of the two.
fn share_of(part: u64, whole: u64) -> u64 {
    let greater = if part < whole { whole } else { part };
    let shift = 32_u32.saturating_sub(greater.leading_zeros());
    let whole = whole >> shift;
    if whole == 0 {
        0
    } else {
        ((part >> shift) << 32) / whole
    }
}

/// The numerator of an offset along one axis.
fn numerator(length: i64, n: i64) -> i128
    requires length { unsigned_abs length ≤ greatest_difference }
    requires n { unsigned_abs n ≤ 2 * greatest_product }
    ensures value { result ≡ length *ℤ n }
    ensures bound { unsigned_abs result ≤ greatest_numerator }
{
    length as i128 * n as i128
}

/// A numerator with its sign exchanged where the denominator is negative, which then counts as positive.
fn with_sign_of(d: i64, numerator: i128) -> i128
    requires { unsigned_abs numerator ≤ greatest_numerator }
    ensures value { result ≡ int_signum d *ℤ numerator }
    ensures bound { unsigned_abs result ≤ greatest_numerator }
{
    d.signum() as i128 * numerator
}

/// The quotient. A guess is tested, and taken where it or a number beside it is right, since a division of 128 bits takes
/// long.
fn divided(top: u128, bottom: u64, guess: u64) -> u128
    requires { 0 < bottom }
    ensures { result ≡ top / bottom }
{
    let bottom = bottom as u128;
    let guess = guess as u128;
    let below = guess * bottom;
    if below <= top {
        let rest = top - below;
        if rest < bottom {
            return guess;
        }
        if rest - bottom < bottom {
            return guess + 1;
        }
    } else if below - top <= bottom {
        return guess - 1;
    }
    top / bottom
}

/// A number with the sign of another.
fn signed_as(sign: i128, number: u128) -> i128
    requires { number < 2 ^ 127 }
    ensures { result ≡ (if int_lt sign (pos 0) then neg_ℤ (pos number) else pos number) }
{
    if sign < 0 {
        -(number as i128)
    } else {
        number as i128
    }
}

/// The floor of the quotient, by an `i64` where it can be.
fn floor_divided(top: i128, bottom: i128) -> i128
    requires { pos 0 <ℤ bottom }
    ensures { result ≡ int_div_euclid top bottom }
{
    if is_narrow(top) && is_narrow(bottom) {
        (top as i64).div_euclid(bottom as i64) as i128
    } else {
        top.div_euclid(bottom)
    }
}

/// Whether the number fits an `i64`.
fn is_narrow(number: i128) -> bool
    ensures { result ≡ (int_le (negsuc 9223372036854775807) number && int_le number (pos 9223372036854775807)) }
{
    i64::MIN as i128 <= number && number <= i64::MAX as i128
}

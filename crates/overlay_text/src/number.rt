// Decimal numbers in words and lines.
ghost use Rattle.std.specs.Prelude.{◌<◌, ◌≤◌, ◌^◌, pos, length};
ghost use Rattle.std.specs.Option.{SomeIff};
ghost use Rattle.std.specs.Str.Parse.{IsNumeral, digits_value};
ghost use Rattle.overlay_text.specs.Numbers.{IsSignedNumeral, signed_value};

/// The number that a run of digits writes, or `None` for any other text and for a number of more than 64 bits.
pub fn number(text: &str) -> Option<u64>
    ensures { SomeIff result (IsNumeral 10 text.now × (digits_value 10 text.now < 2 ^ 64)) (digits_value 10 text.now) }
{
    // `parse` takes a sign.
    if text.starts_with('+') {
        return None;
    }
    text.parse().ok()
}

/// The number of 1 to 9 digits.
#[tactic(auto, using(crate::proofs::ShortNumerals::nine_digits_are_few))]
pub fn short_number(text: &str) -> Option<u32>
    ensures { SomeIff result (IsNumeral 10 text.now × (length text.now ≤ 9)) (digits_value 10 text.now) }
{
    if text.len() > 9 {
        return None;
    }
    let number = number(text)?;
    Some(number as u32)
}

/// The number of an optional `-` and 1 to 10 digits.
pub fn signed_number(word: &[u8]) -> Option<i64>
    ensures { SomeIff result (IsSignedNumeral word.now) (signed_value word.now) }
{
    match word {
        [b'-', digits @ ..] => {
            let size = size_of_number(digits)?;
            Some(-size)
        }
        _ => size_of_number(word),
    }
}

/// The number of 1 to 10 digits.
fn size_of_number(digits: &[u8]) -> Option<i64>
    ensures { SomeIff result (IsNumeral 10 digits.now × (length digits.now ≤ 10)) (pos (digits_value 10 digits.now)) }
{
    if digits.is_empty() || digits.len() > 10 {
        return None;
    }
    let mut size: u64 = 0;
    for digit in digits {
        if !digit.is_ascii_digit() {
            return None;
        }
        size = 10 * size + (*digit - b'0') as u64;
    }
    Some(size as i64)
}

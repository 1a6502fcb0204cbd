// A line of numbers is put together in an array, from its end to its beginning, and then appended as a whole. This
// project's own.
ghost use Rattle.std.specs.Prelude.{◌≡◌, ◌+◌, ◌≤◌, ◌<◌, ◌++◌, ◌∷◌, codes, length, drop, OnOk, string_bytes};
ghost use Rattle.std.specs.Str.{IsUtf8};
ghost use Rattle.std.specs.Fmt.{decimal, signed_decimal};

use std::alloc::AllocError;
use std::str;

/// LineBuffer for a word and seven numbers of 64 bits, each after a space.
pub const LINE_BUFFER_SIZE: usize = 160;

pub type LineBuffer = [u8; LINE_BUFFER_SIZE];

/// Appends what begins there.
pub fn append(text: &mut String, room: &LineBuffer, begin: usize) -> Result<(), AllocError>
    requires { (begin ≤ 160) × IsUtf8 (drop begin room.now) }
    ensures { OnOk result (string_bytes text.new ≡ string_bytes text.old ++ drop begin room.now) }
{
    let line = str::from_utf8(&room[begin..]).unwrap();
    text.push_str(line)
}

/// Puts the last word of a line, and returns where it begins.
pub fn put_last_word(room: &mut LineBuffer, word: &str) -> usize
    requires { length word.now ≤ 160 }
    ensures begin { result + length word.now ≡ 160 }
    ensures written { drop result room.new ≡ word.now }
    ensures text { IsUtf8 (drop result room.new) }
{
    put_word(room, LINE_BUFFER_SIZE, word)
}

/// Puts a word before what begins at `end`, and returns where that begins now.
pub fn put_word(room: &mut LineBuffer, end: usize, word: &str) -> usize
    requires { (length word.now ≤ end) × (end ≤ 160) }
    ensures begin { result + length word.now ≡ end }
    ensures written { drop result room.new ≡ word.now ++ drop end room.old }
    ensures text { IsUtf8 (drop end room.old) → IsUtf8 (drop result room.new) }
{
    let begin = end - word.len();
    room[begin..end].copy_from_slice(word.as_bytes());
    begin
}

/// Puts a space and a number.
pub fn put_number(room: &mut LineBuffer, end: usize, number: u64) -> usize
    requires { (21 ≤ end) × (end ≤ 160) }
    ensures begin { (end ≤ result + 21) × (result ≤ end) }
    ensures written { drop result room.new ≡ codes " " ++ decimal number ++ drop end room.old }
    ensures text { IsUtf8 (drop end room.old) → IsUtf8 (drop result room.new) }
{
    let begin = put_digits(room, end, number);
    put_byte(room, begin, b' ')
}

/// Puts a space and a number that may be negative.
pub fn put_signed(room: &mut LineBuffer, end: usize, number: i64) -> usize
    requires { (21 ≤ end) × (end ≤ 160) }
    ensures begin { (end ≤ result + 21) × (result ≤ end) }
    ensures written { drop result room.new ≡ codes " " ++ signed_decimal number ++ drop end room.old }
    ensures text { IsUtf8 (drop end room.old) → IsUtf8 (drop result room.new) }
{
    if number >= 0 {
        return put_number(room, end, number as u64);
    }
    let begin = put_digits(room, end, number.unsigned_abs());
    let begin = put_byte(room, begin, b'-');
    put_byte(room, begin, b' ')
}

/// Puts a byte.
fn put_byte(room: &mut LineBuffer, end: usize, byte: u8) -> usize
    requires { (1 ≤ end) × (end ≤ 160) × (byte < 128) }
    ensures begin { result + 1 ≡ end }
    ensures written { drop result room.new ≡ byte ∷ drop end room.old }
{
    room[end - 1] = byte;
    end - 1
}

/// Puts the digits of a number.
fn put_digits(room: &mut LineBuffer, end: usize, number: u64) -> usize
    requires { (length (decimal number) ≤ end) × (end ≤ 160) }
    ensures begin { result + length (decimal number) ≡ end }
    ensures written { drop result room.new ≡ decimal number ++ drop end room.old }
{
    let mut begin = end;
    let mut left = number;
    while left >= 10 {
        begin = put_byte(room, begin, b'0' + (left % 10) as u8);
        left /= 10;
    }
    put_byte(room, begin, b'0' + left as u8)
}

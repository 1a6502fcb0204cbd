// What is wrong with the words of a call or with a line of the input, in a sentence. No clause says what it is: it is
// tested.

ghost use Rattle.std.specs.Prelude.{◌<◌, ◌≤◌, length, IfSome};

use crate::contour_lines::named_shape;
use crate::run::{is_flag, is_for_arrange, is_of_overlay, read_polygon_settings};
use overlay_base::segm::shape_type::ShapeType;
use overlay_text::lines::Lines;
use overlay_text::number::signed_number;
use overlay_text::stop::LineFault;
use std::alloc::{AllocError, Global};

/// The names of settings, and for each the names of its values.
const SETTINGS: [(&str, &[&str]); 5] = [
    (
        "rule",
        &[
            "union",
            "intersect",
            "difference",
            "subject",
            "clip",
            "inverse-difference",
            "xor",
            "table:0",
        ],
    ),
    ("fill", &["nonzero", "evenodd", "positive", "negative"]),
    ("engine", &["i32", "i16"]),
    ("strategy", &["auto", "list", "tree", "frag"]),
    (
        "precision",
        &[
            "absolute",
            "high",
            "medium-high",
            "medium",
            "medium-low",
            "low",
        ],
    ),
];

/// The names before a sign of words that choose by themselves, and for each what its values are, and their names.
const FLAGS: [(&str, &str, &[&str]); 3] = [
    (
        "also",
        "rule that `polygons` adds",
        &[
            "subject",
            "clip",
            "intersect",
            "union",
            "difference",
            "inverse-difference",
            "xor",
        ],
    ),
    (
        "contours",
        "choice for lines of an output, which are of the subject",
        &["clip"],
    ),
    ("format", "format that `polygons` knows", &["wkt"]),
];

/// All names before a sign.
const NAMES: [&str; 8] = [
    "rule",
    "also",
    "fill",
    "engine",
    "strategy",
    "precision",
    "format",
    "contours",
];

/// How many bytes of a word a sentence shows.
const MOST_SHOWN: usize = 40;

/// Why there is no overlay where no rule is chosen.
pub fn no_rule(alloc: Global) -> Result<String, AllocError> {
    String::from_str(
        alloc,
        "no rule is chosen: add rule=union, or another; `polygons help` lists them",
    )
}

/// Why the words choose no overlay: the first that is wrong, and what may be meant.
pub fn explain_words(alloc: Global, words: &[String]) -> Result<String, AllocError> {
    let mut text = String::new(alloc);
    for (index, word) in words.iter().enumerate() {
        if is_flag(word.as_str()) {
            continue;
        }
        let is_known = read_polygon_settings(&words[index..index + 1]).is_ok();
        let is_set_before = read_polygon_settings(&words[..index + 1]).is_err();
        if !is_known {
            explain_word(&mut text, word.as_str())?;
        } else if is_set_before {
            show(&mut text, word.as_bytes())?;
            text.push_str(" sets what a word before it has set")?;
        } else {
            continue;
        }
        return Ok(text);
    }
    for word in words {
        if is_of_overlay(word.as_str()) && words.iter().any(|other| other.as_str() == "relate") {
            show(&mut text, word.as_bytes())?;
            text.push_str(" is for overlays, and `relate` writes none")?;
            return Ok(text);
        }
    }
    text.push_str("`also=NAME` is for contours as lines: leave out `shapes` and `format=wkt`")?;
    Ok(text)
}

/// What is wrong with a word, and what may be meant.
fn explain_word(text: &mut String, word: &str) -> Result<(), AllocError> {
    show(text, word.as_bytes())?;
    if is_for_arrange(word) {
        return text.push_str(" is for `arrange` alone");
    }
    let Some((name, value)) = word.split_once('=') else {
        return explain_lone_word(text, word);
    };
    for (known, values_are, values) in FLAGS {
        if name == known {
            write!(text, " is no {values_are}")?;
            return suggest(text, known, value, values);
        }
    }
    for (known, values) in SETTINGS {
        if name == known {
            write!(text, " is no {known} that `polygons` knows")?;
            return suggest(text, known, value, values);
        }
    }
    text.push_str(" is no setting of `polygons`")?;
    if let Some(near) = nearest(name, &NAMES) {
        write!(text, "; did you mean {near}={value}?")?;
    }
    Ok(())
}

/// What is wrong with a word without a sign.
fn explain_lone_word(text: &mut String, word: &str) -> Result<(), AllocError> {
    for (name, values) in SETTINGS {
        if word == name {
            return write!(text, " needs a value: {name}={}", first_of(values));
        }
    }
    if word.contains('.') || word.contains('/') {
        return text.push_str(
            " is no word of `polygons`, which reads its standard input: polygons rule=union < FILE",
        );
    }
    let (_, rules) = SETTINGS[0];
    text.push_str(" is no word of `polygons`")?;
    match nearest(word, rules) {
        Some(near) => write!(text, "; did you mean rule={near}?"),
        None => text.push_str("; `polygons help` lists all"),
    }
}

/// The value that may be meant, or all of them.
fn suggest(text: &mut String, name: &str, value: &str, values: &[&str]) -> Result<(), AllocError> {
    if let Some(near) = nearest(value, values) {
        return write!(text, "; did you mean {name}={near}?");
    }
    text.push_str("; it may be")?;
    for known in values {
        write!(text, " {known}")?;
    }
    Ok(())
}

/// The first of some names.
fn first_of<'a>(names: &[&'a str]) -> &'a str {
    match names.first() {
        Some(name) => name,
        None => "",
    }
}

/// Of some names the one that has most letters in common with a word from the beginning, three at least.
fn nearest<'a>(word: &str, names: &[&'a str]) -> Option<&'a str> {
    let mut best = None;
    let mut most = 2;
    for name in names {
        let common = common_start(word.as_bytes(), name.as_bytes());
        if common > most {
            most = common;
            best = Some(*name);
        }
    }
    best
}

/// How many letters two names have in common from the beginning, whatever their case, and whatever else is between.
fn common_start(a: &[u8], b: &[u8]) -> usize {
    let (mut i, mut j, mut common) = (0, 0, 0);
    while i < a.len() && j < b.len() {
        if !a[i].is_ascii_alphabetic() {
            i += 1;
        } else if !b[j].is_ascii_alphabetic() {
            j += 1;
        } else if a[i].eq_ignore_ascii_case(&b[j]) {
            i += 1;
            j += 1;
            common += 1;
        } else {
            return common;
        }
    }
    common
}

/// Writes a word between backticks, its beginning if it is long, and `?` for each byte that is no ASCII character.
fn show(text: &mut String, word: &[u8]) -> Result<(), AllocError> {
    text.push_str("`")?;
    for byte in word.iter().take(MOST_SHOWN) {
        let shown = if byte.is_ascii_graphic() || *byte == b' ' {
            *byte as char
        } else {
            '?'
        };
        text.push(shown)?;
    }
    text.push_str(if word.len() > MOST_SHOWN { "..`" } else { "`" })
}

/// Why a line of the input is refused: where, and what is there.
pub fn explain_line(
    alloc: Global,
    bytes: &[u8],
    number: usize,
    fault: LineFault,
    reading: Reading,
) -> Result<String, AllocError> {
    let mut text = String::new(alloc);
    write!(text, "line {number}: ")?;
    for (index, line) in Lines::of(bytes).enumerate() {
        if index + 1 == number {
            explain_text(&mut text, without_carriage_return(line), fault, reading)?;
        }
    }
    Ok(text)
}

/// How the lines of the input are read.
#[derive(Clone, Copy)]
pub struct Reading {
    pub is_wkt: bool,
    /// The least and the greatest coordinate.
    pub range: (i64, i64),
}

/// What is wrong with the text of a line.
fn explain_text(
    text: &mut String,
    line: &[u8],
    fault: LineFault,
    reading: Reading,
) -> Result<(), AllocError> {
    if line.starts_with(b"\xef\xbb\xbf") {
        return text.push_str(
            "column 1: the file begins with a byte order mark: save it without one",
        );
    }
    match fault {
        LineFault::Range => explain_range(text, line, reading.range),
        _ if reading.is_wkt => explain_wkt(text, line),
        _ => explain_form(text, line),
    }
}

/// The first number that is out of range.
fn explain_range(text: &mut String, line: &[u8], range: (i64, i64)) -> Result<(), AllocError> {
    let (least, greatest) = range;
    let mut at = 0;
    while let Some((start, end)) = next_word(line, at, true) {
        let word = &line[start..end];
        if let Some(number) = signed_number(word) {
            if number < least || greatest < number {
                tell(text, start, word)?;
                return write!(
                    text,
                    " is out of range: coordinates are from {least} to {greatest}"
                );
            }
        }
        at = end;
    }
    tell_column(text, 0)?;
    text.push_str("a coordinate is out of range")
}

/// What is wrong with a line that has to be a letter and coordinates.
fn explain_form(text: &mut String, line: &[u8]) -> Result<(), AllocError> {
    let mut at = 0;
    let mut last = 0;
    let mut has_letter = false;
    let mut is_odd = false;
    while let Some((start, end)) = next_word(line, at, false) {
        let word = &line[start..end];
        if !has_letter {
            if named_shape(ShapeType::Subject, word).is_none() {
                return explain_letter(text, start, word);
            }
            has_letter = true;
        } else if signed_number(word).is_none() {
            return explain_number(text, start, word, false);
        } else {
            is_odd = !is_odd;
        }
        last = start;
        at = end;
    }
    tell_column(text, last)?;
    text.push_str(if is_odd {
        "the last point has an x and no y"
    } else {
        "two points are no contour; lines of segments are for `arrange`"
    })
}

/// What is wrong with a word in the place of the letter.
fn explain_letter(text: &mut String, start: usize, word: &[u8]) -> Result<(), AllocError> {
    tell(text, start, word)?;
    text.push_str(match word {
        b"contour" => " begins a line of an output without format=wkt",
        b"shape" => " is a line of its own, of an output without format=wkt",
        b"rule" => " begins a line of an output by several rules: choose one alone",
        b"passes" | b"reach" => " begins a line of a report, which is no input",
        name if is_geometry_name(name) => " is WKT: write `S` or `C` before it, and add format=wkt",
        [b'S' | b'C', ..] => " has to be `S` or `C`, with a space behind it",
        _ => " has to be `S`, for the subject, or `C`, for the clip",
    })
}

/// What is wrong with a word in the place of a number.
fn explain_number(
    text: &mut String,
    start: usize,
    word: &[u8],
    is_wkt: bool,
) -> Result<(), AllocError> {
    tell(text, start, word)?;
    text.push_str(" is no whole number")?;
    text.push_str(if word.contains(&b',') {
        ": put spaces between numbers, and no commas"
    } else if word.contains(&b'\t') {
        ": it has a tab; put spaces between numbers"
    } else if word.contains(&b'.') {
        ": multiply all coordinates by a power of ten"
    } else if is_geometry_name(word) && !is_wkt {
        ": this is WKT; add format=wkt"
    } else if word.iter().all(|byte| byte.is_ascii_digit()) {
        " of at most ten digits"
    } else {
        ""
    })
}

/// Whether a word is `POLYGON` or `MULTIPOLYGON`, in any case.
fn is_geometry_name(word: &[u8]) -> bool {
    word.eq_ignore_ascii_case(b"POLYGON") || word.eq_ignore_ascii_case(b"MULTIPOLYGON")
}

/// What may come next in a line of WKT.
#[derive(Clone, Copy, PartialEq)]
enum Next {
    Letter,
    Name,
    /// A `(`, or `EMPTY`.
    Opening,
    /// A `(`, the `x` of a point, or `EMPTY` in place of a polygon.
    Item,
    /// The `y` of a point.
    Second,
    /// A comma or a `)`.
    Mark,
    Nothing,
}

/// What may come behind a word, if the word may come here.
fn behind(next: Next, word: &[u8]) -> Option<Next> {
    match (next, word) {
        (Next::Letter, b"S" | b"C" | b"s" | b"c") => Some(Next::Name),
        (Next::Name, name) if is_geometry_name(name) => Some(Next::Opening),
        (Next::Opening, name) if name.eq_ignore_ascii_case(b"EMPTY") => Some(Next::Nothing),
        (Next::Item, name) if name.eq_ignore_ascii_case(b"EMPTY") => Some(Next::Mark),
        (Next::Opening | Next::Item, b"(") => Some(Next::Item),
        (Next::Item, _) => signed_number(word).map(|_| Next::Second),
        (Next::Second, _) => signed_number(word).map(|_| Next::Mark),
        (Next::Mark, b",") => Some(Next::Item),
        (Next::Mark, b")") => Some(Next::Mark),
        _ => None,
    }
}

/// What is wrong with a line of WKT.
fn explain_wkt(text: &mut String, line: &[u8]) -> Result<(), AllocError> {
    let mut at = 0;
    let mut depth = 0_usize;
    let mut next = Next::Letter;
    while let Some((start, end)) = next_word(line, at, true) {
        let word = &line[start..end];
        match behind(next, word) {
            Some(then) => next = then,
            None => return explain_place(text, start, word, next),
        }
        depth = depth_behind(depth, word);
        if depth == 0 && next == Next::Mark {
            next = Next::Nothing;
        }
        at = end;
    }
    tell_column(text, line.len())?;
    text.push_str(match next {
        Next::Mark | Next::Nothing => {
            "the parentheses do not fit: a POLYGON has two around points, a MULTIPOLYGON three"
        }
        _ => "it ends too early",
    })
}

/// How many parentheses are open behind a word.
fn depth_behind(depth: usize, word: &[u8]) -> usize {
    match word {
        b"(" => depth.saturating_add(1),
        b")" => depth.saturating_sub(1),
        _ => depth,
    }
}

/// What is wrong with a word of WKT where something else may come.
fn explain_place(
    text: &mut String,
    start: usize,
    word: &[u8],
    next: Next,
) -> Result<(), AllocError> {
    match next {
        Next::Letter => return explain_letter(text, start, word),
        Next::Item | Next::Second => return explain_number(text, start, word, true),
        _ => tell(text, start, word)?,
    }
    text.push_str(match next {
        Next::Name => " has to be POLYGON or MULTIPOLYGON",
        Next::Opening if is_dimension(word) =>
            " is for more than two coordinates, and these have two",
        Next::Opening => " has to be `(` or EMPTY",
        Next::Nothing => " is one word too many",
        _ => " has to be `,` or `)`",
    })
}

/// Whether a word is what WKT writes behind a name where points have more coordinates.
fn is_dimension(word: &[u8]) -> bool {
    word.eq_ignore_ascii_case(b"Z")
        || word.eq_ignore_ascii_case(b"M")
        || word.eq_ignore_ascii_case(b"ZM")
}

/// Writes the column of a word, from 1, and the word.
fn tell(text: &mut String, start: usize, word: &[u8]) -> Result<(), AllocError> {
    tell_column(text, start)?;
    show(text, word)
}

/// Writes the column of a byte, from 1.
fn tell_column(text: &mut String, at: usize) -> Result<(), AllocError> {
    let column = at.saturating_add(1);
    write!(text, "column {column}: ")
}

/// Where the next word begins and ends. Each `(`, `)` and `,` is a word of its own, if marks are split off.
fn next_word(line: &[u8], at: usize, splits_marks: bool) -> Option<(usize, usize)>
    ensures { IfSome result (λ word. (at ≤ word.0) × (word.0 < word.1) × (word.1 ≤ length line.now)) }
{
    let mut start = at;
    while start < line.len() && line[start] == b' ' {
        start += 1;
    }
    if start >= line.len() {
        return None;
    }
    let mut end = start + 1;
    if splits_marks && is_mark(line[start]) {
        return Some((start, end));
    }
    while end < line.len() && line[end] != b' ' && !(splits_marks && is_mark(line[end])) {
        end += 1;
    }
    Some((start, end))
}

/// Whether a byte is `(`, `)` or `,`.
fn is_mark(byte: u8) -> bool {
    matches!(byte, b'(' | b')' | b',')
}

/// A line without the carriage return at its very end, if it has one.
fn without_carriage_return(line: &[u8]) -> &[u8] {
    match line {
        [text @ .., b'\r'] => text,
        _ => line,
    }
}

// The input: each line is `S ax ay bx by` for a step of a subject's contour, or `C ax ay bx by` for one of a clip's.
ghost use Rattle.std.specs.Prelude.{◌≡◌, ◌↔◌, IsTrue, IsSome, IfNone, IfSome, IfOk, IfErr, MatchOption, [], ◌∷◌};
ghost use Rattle.std.specs.Result.{result_err};
ghost use Rattle.std.specs.Str.Lines.{strip_carriage_return};
ghost use Rattle.overlay_geometry.specs.Coordinates.{is_coordinate};
ghost use Rattle.overlay_geometry.specs.PointOf.{point_of};
ghost use Rattle.overlay_base.specs.SegmentOf.{segment_of};
ghost use Rattle.overlay_base.specs.ArrangedOf.{IsSplittable};
ghost use Rattle.overlay_text.specs.Lines.{step_fault, step_segment};
ghost use Rattle.std.specs.Option.{option_map_or};
ghost use Rattle.overlay_geometry.specs.Points.{Point};
ghost use Rattle.overlay_base.specs.declared.segm.shape_type.ShapeType.{ShapeType};
ghost use Rattle.overlay_text.specs.Text.{lines_of, words_of, words_of_line, NamesShape, WritesStep, AsksFor, IsFaulty, AsksForSegments, NamesFirstFault, FitsEngine};
ghost use Rattle.overlay_text.specs.Runs.{IfStopped};

use crate::number::signed_number;
use crate::stop::{LineFault, Stop};
use overlay_base::segm::boolean::ShapeCountBoolean;
use overlay_base::segm::segment::Segment;
use overlay_base::segm::shape_type::ShapeType;
use overlay_geometry::geom::point::IntPoint;
use overlay_geometry::num::OverlayInt;
use std::alloc::Global;

/// The lines of a text. Line feeds are between them, so there is one more line than line feeds.
#[derive(Drop)]
pub struct Lines<'a> {
    rest: Option<&'a [u8]>,
}

impl<'a> Lines<'a> {
    /// All lines of a text.
    pub fn of(bytes: &'a [u8]) -> Self
        ensures { option_map_or (λ rest. lines_of rest.now) result.rest [] ≡ lines_of bytes.now }
    {
        Lines { rest: Some(bytes) }
    }
}

impl<'a> Iterator for Lines<'a> {
    type Item = &'a [u8];

    ghost use Rattle.std.specs.Iterator.{YieldsFirstRef, item_count};

    ghost next_gives = { YieldsFirstRef (λ s. option_map_or (λ rest. lines_of rest.now) s.rest []) };

    ghost remaining = { item_count (λ s. option_map_or (λ rest. lines_of rest.now) s.rest []) };

    fn next(&mut self) -> Option<&'a [u8]> {
        let rest = self.rest?;
        match rest.iter().position(|byte| *byte == b'\n') {
            Some(end) => {
                self.rest = Some(&rest[end + 1..]);
                Some(&rest[..end])
            }
            None => self.rest.take(),
        }
    }
}

/// The words of a line: its longest parts without a space.
#[derive(Drop)]
pub struct Words<'a> {
    rest: &'a [u8],
}

impl<'a> Words<'a> {
    /// The words of a line, without a carriage return at its very end.
    pub fn of(line: &'a [u8]) -> Self
        ensures { words_of result.rest.now ≡ words_of_line line.now }
    {
        Words {
            rest: without_carriage_return(line),
        }
    }
}

impl<'a> Iterator for Words<'a> {
    type Item = &'a [u8];

    ghost use Rattle.std.specs.Iterator.{YieldsFirstRef, item_count};

    ghost next_gives = { YieldsFirstRef (λ s. words_of s.rest.now) };

    ghost remaining = { item_count (λ s. words_of s.rest.now) };

    fn next(&mut self) -> Option<&'a [u8]> {
        let start = self.rest.iter().position(|byte| *byte != b' ')?;
        let text = &self.rest[start..];
        let end = text
            .iter()
            .position(|byte| *byte == b' ')
            .unwrap_or(text.len());
        self.rest = &text[end..];
        Some(&text[..end])
    }
}

/// A line as it is, with numbers of any engine.
#[derive(Clone, Copy)]
struct Line {
    shape_type: ShapeType,
    a: IntPoint<i64>,
    b: IntPoint<i64>,
}

/// The segments that the lines of a text describe, in order. The first faulty line stops the run.
pub fn read_lines<I: OverlayInt>(
    alloc: Global,
    bytes: &[u8],
) -> Result<Vec<Segment<ShapeCountBoolean, I, ()>>, Stop>
    ensures segments { IfOk result (λ segments. AsksForSegments bytes.now segments.items) }
    ensures splittable { IfOk result (λ segments. IsSplittable segments.items) }
    ensures faulty { IfStopped result (NamesFirstFault I.whole I.MIN_COORD I.MAX_COORD bytes.now) }
{
    let mut segments = Vec::new(alloc);
    for (index, line) in Lines::of(bytes).enumerate() {
        match read_line(line) {
            Ok(Some(segment)) => segments.push(segment)?,
            Ok(None) => {}
            Err(fault) => {
                let number = index + 1;
                return Err(Stop::Line { number, fault });
            }
        }
    }
    Ok(segments)
}

/// The segment of a line, or `None` where there is nothing but spaces.
fn read_line<I: OverlayInt>(
    line: &[u8],
) -> Result<Option<Segment<ShapeCountBoolean, I, ()>>, LineFault>
    ensures blank { IfOk result (λ found. IfNone found (words_of_line line.now ≡ [])) }
    ensures segment { IfOk result (λ found. IfSome found (λ segment.
        AsksFor (I.whole I.MIN_COORD) (I.whole I.MAX_COORD) line.now (segment_of segment))) }
    ensures splittable { IfOk result (λ found. IfSome found (λ segment. IsSplittable (segment ∷ []))) }
    ensures faulty { IfErr result (λ fault. IsFaulty (I.whole I.MIN_COORD) (I.whole I.MAX_COORD) line.now fault) }
{
    let mut words = Words::of(line);
    let Some(letter) = words.next() else {
        return Ok(None);
    };
    let Some(line) = parse_line(letter, &mut words) else {
        return Err(LineFault::Form);
    };
    Ok(Some(segment(line)?))
}

/// A line without the carriage return at its very end, if it has one.
fn without_carriage_return(line: &[u8]) -> &[u8]
    ensures { result.now ≡ strip_carriage_return line.now }
{
    match line {
        [text @ .., b'\r'] => text,
        _ => line,
    }
}

/// What a letter and the words behind it write, which have to be four numbers.
fn parse_line(letter: &[u8], words: &mut Words<'_>) -> Option<Line>
    ensures { MatchOption result
        ((shape_type : ShapeType) (a b : Point) → ¬ (WritesStep
        (letter.now ∷ words_of words.old.rest.now) shape_type a b))
        (λ line. WritesStep (letter.now ∷ words_of words.old.rest.now) line.shape_type (point_of (λ z. z) line.a)
        (point_of (λ z. z) line.b)) }
{
    let line = Line {
        shape_type: shape_type(letter)?,
        a: IntPoint {
            x: signed_number(words.next()?)?,
            y: signed_number(words.next()?)?,
        },
        b: IntPoint {
            x: signed_number(words.next()?)?,
            y: signed_number(words.next()?)?,
        },
    };
    match words.next() {
        None => Some(line),
        Some(_) => None,
    }
}

/// The shape that a letter names.
pub fn shape_type(letter: &[u8]) -> Option<ShapeType>
    ensures { MatchOption result ((shape_type : ShapeType) → ¬ (NamesShape letter.now shape_type))
        (NamesShape letter.now) }
{
    match letter {
        b"S" => Some(ShapeType::Subject),
        b"C" => Some(ShapeType::Clip),
        _ => None,
    }
}

/// The segment that a line describes.
fn segment<I: OverlayInt>(line: Line) -> Result<Segment<ShapeCountBoolean, I, ()>, LineFault>
    ensures fault { result_err result ≡ step_fault (I.whole I.MIN_COORD) (I.whole I.MAX_COORD)
        (point_of (λ z. z) line.a) (point_of (λ z. z) line.b) }
    ensures segment { IfOk result (λ segment. segment_of segment
        ≡ step_segment line.shape_type (point_of (λ z. z) line.a) (point_of (λ z. z) line.b)) }
{
    let a = point(line.a).ok_or(LineFault::Range)?;
    let b = point(line.b).ok_or(LineFault::Range)?;
    Segment::try_ab_and_data(a, b, line.shape_type, (), &mut ()).ok_or(LineFault::EqualEnds)
}

/// The point of the engine with these coordinates, or `None` where one is out of range.
pub fn point<I: OverlayInt>(wide: IntPoint<i64>) -> Option<IntPoint<I>>
    ensures in_range { IsSome result ↔ FitsEngine I.whole I.MIN_COORD I.MAX_COORD wide }
    ensures same { IfSome result (λ point. point_of I.whole point ≡ point_of (λ z. z) wide) }
{
    Some(IntPoint::new(coordinate(wide.x)?, coordinate(wide.y)?))
}

/// The coordinate of the engine, or `None` where the number is out of range.
fn coordinate<I: OverlayInt>(number: i64) -> Option<I>
    ensures in_range { IsSome result ↔ IsTrue (is_coordinate (I.whole I.MIN_COORD) (I.whole I.MAX_COORD) number) }
    ensures same { IfSome result (λ coordinate. I.whole coordinate ≡ number) }
{
    if number < I::MIN_COORD.to_wide() || I::MAX_COORD.to_wide() < number {
        return None;
    }
    Some(I::from_wide(number))
}

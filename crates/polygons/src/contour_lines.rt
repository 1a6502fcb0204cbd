// The input: each line is `S X Y X Y ..` for a contour of the subject, or `C X Y X Y ..` for one of the clip. Two points are
// a segment, and no contour. Lines of the output, `contour X Y X Y ..` and `shape`, are input too.
ghost use Rattle.std.specs.Prelude.{◌≡◌, ◌≢◌, ◌⊎◌, List, IsTrue, IsFalse, OnOk, MatchBool, MatchOption, IfOk, IfErr, [], ◌∷◌, ◌++◌};
ghost use Rattle.overlay_geometry.specs.Points.{Point};
ghost use Rattle.overlay_base.specs.declared.segm.fault.Fault.TheVariants.{Memory};
ghost use Rattle.overlay_contours.specs.ContoursOf.{points_of};
ghost use Rattle.overlay_text.specs.Text.{words_of, words_of_line};
ghost use Rattle.polygons.specs.ContourText.{GivenContour, NamesContour, WritePoints, are_in_range, IsShapeLine, AsksForContour, AsksForContours, IsFaultyContour, Keeps, KeepsWritten, NamesFirstFaulty};
ghost use Rattle.overlay_text.specs.Runs.{IfStopped};

use overlay_base::segm::shape_type::ShapeType;
use overlay_contours::contour::IntContour;
use overlay_contours::fault::ContourFault;
use overlay_contours::overlay::Overlay;
use overlay_geometry::geom::point::IntPoint;
use overlay_geometry::num::OverlayInt;
use overlay_text::lines::{Lines, Words, point, shape_type};
use overlay_text::number::signed_number;
use overlay_text::stop::{LineFault, Stop};
use std::alloc::Global;

/// A contour of a shape.
#[derive(Drop)]
pub struct ShapeContour<I: OverlayInt> {
    pub shape_type: ShapeType,
    pub points: IntContour<I>,
}

/// An overlay of the contours that the lines of a text write, in order. Lines of an output are of the chosen shape.
/// The first faulty line stops the run.
pub fn read_contours<I: OverlayInt>(
    alloc: Global,
    chosen: ShapeType,
    bytes: &[u8],
) -> Result<Overlay<I>, Stop>
    ensures contours { IfOk result (KeepsWritten chosen bytes.now) }
    ensures faulty { IfStopped result (NamesFirstFaulty I.whole I.MIN_COORD I.MAX_COORD chosen bytes.now) }
{
    let mut overlay = Overlay::new(alloc);
    let mut wide = Vec::new(alloc);
    for (index, line) in Lines::of(bytes).enumerate() {
        match Words::of(line).next() {
            None => {}
            Some(_) => add_line(alloc, &mut overlay, chosen, index + 1, line, &mut wide)?,
        }
    }
    Ok(overlay)
}

/// Adds the contour of a line that has words, or nothing where the line is `shape`. The list is for its points.
fn add_line<I: OverlayInt>(
    alloc: Global,
    overlay: &mut Overlay<I>,
    chosen: ShapeType,
    number: usize,
    line: &[u8],
    wide: &mut Vec<IntPoint<i64>>,
) -> Result<(), Stop>
    requires some { words_of_line line.now ≢ [] }
    ensures added { OnOk result ((contours : List GivenContour)
        × AsksForContours chosen (I.whole I.MIN_COORD) (I.whole I.MAX_COORD) line.now contours
        × ((given : List GivenContour) → Keeps overlay.old given → Keeps overlay.new (given ++ contours))) }
    ensures faulty { IfErr result (λ stop. (stop ≡ Stop.Refused Memory)
        ⊎ ((fault : LineFault) × (stop ≡ Stop.Line number fault)
        × IsFaultyContour chosen (I.whole I.MIN_COORD) (I.whole I.MAX_COORD) line.now fault)) }
{
    if is_shape_line(line) {
        return Ok(());
    }
    let contour = read_contour(alloc, chosen, number, line, wide)?;
    add_contour(overlay, &contour)
}

/// Whether a line is `shape`.
fn is_shape_line(line: &[u8]) -> bool
    ensures { MatchBool result (IsShapeLine line.now) (¬ (IsShapeLine line.now)) }
{
    let mut words = Words::of(line);
    match words.next() {
        Some(b"shape") => words.next().is_none(),
        _ => false,
    }
}

/// Adds a contour in range behind those that an overlay keeps.
pub fn add_contour<I: OverlayInt>(
    overlay: &mut Overlay<I>,
    contour: &ShapeContour<I>,
) -> Result<(), Stop>
    requires { IsTrue (are_in_range (I.whole I.MIN_COORD) (I.whole I.MAX_COORD)
        (points_of I.whole contour.now.points.items)) }
    ensures added { OnOk result ((given : List GivenContour) → Keeps overlay.old given → Keeps overlay.new
        (given ++ record { shape_type = contour.now.shape_type; points = points_of I.whole contour.now.points.items } ∷ [])) }
    ensures stop { IfErr result (λ stop. stop ≡ Stop.Refused Memory) }
{
    match overlay.add_contour(&contour.points, contour.shape_type) {
        Ok(()) => Ok(()),
        Err(ContourFault::Refused(fault)) => Err(Stop::Refused(fault)),
        // the points are in range
        Err(ContourFault::OutOfRange { .. }) => unreachable!(),
    }
}

/// The contour of a line that has words and is not `shape`. The list is for its points. Two points are none.
fn read_contour<I: OverlayInt>(
    alloc: Global,
    chosen: ShapeType,
    number: usize,
    line: &[u8],
    wide: &mut Vec<IntPoint<i64>>,
) -> Result<ShapeContour<I>, Stop>
    requires some { words_of_line line.now ≢ [] }
    requires no_shape { ¬ (IsShapeLine line.now) }
    ensures contour { IfOk result (λ contour. AsksForContour chosen (I.whole I.MIN_COORD) (I.whole I.MAX_COORD) line.now
        (record { shape_type = contour.shape_type; points = points_of I.whole contour.points.items })) }
    ensures faulty { IfErr result (λ stop. (stop ≡ Stop.Refused Memory)
        ⊎ ((fault : LineFault) × (stop ≡ Stop.Line number fault)
        × IsFaultyContour chosen (I.whole I.MIN_COORD) (I.whole I.MAX_COORD) line.now fault)) }
{
    let mut words = Words::of(line);
    let fault = LineFault::Form;
    let name = words.next().ok_or(Stop::Line { number, fault })?;
    let shape_type = named_shape(chosen, name).ok_or(Stop::Line { number, fault })?;
    wide.clear();
    read_points(words, number, wide)?;
    if wide.len() == 2 {
        return Err(Stop::Line { number, fault });
    }
    let points = contour_points(alloc, number, wide.as_slice())?;
    Ok(ShapeContour { shape_type, points })
}

/// The shape that the first word of a line names: `contour` names the chosen one.
pub fn named_shape(chosen: ShapeType, name: &[u8]) -> Option<ShapeType>
    ensures { MatchOption result ((shape_type : ShapeType) → ¬ (NamesContour chosen name.now shape_type))
        (NamesContour chosen name.now) }
{
    match name {
        b"contour" => Some(chosen),
        _ => shape_type(name),
    }
}

/// Appends the points that the words write.
fn read_points(words: Words<'_>, number: usize, wide: &mut Vec<IntPoint<i64>>) -> Result<(), Stop>
    requires empty { wide.old.items ≡ [] }
    ensures points { OnOk result (WritePoints (words_of words.entry.rest.now)
        (points_of (λ z. z) wide.new.items)) }
    ensures stop { IfErr result (λ stop. (stop ≡ Stop.Refused Memory) ⊎ ((stop ≡ Stop.Line number LineFault.Form)
        × ((points : List Point) → ¬ (WritePoints (words_of words.entry.rest.now) points)))) }
{
    let fault = LineFault::Form;
    let mut before = None;
    for word in words {
        let coordinate = signed_number(word).ok_or(Stop::Line { number, fault })?;
        match before.take() {
            None => before = Some(coordinate),
            Some(x) => wide.push(IntPoint { x, y: coordinate })?,
        }
    }
    match before {
        None => Ok(()),
        Some(_) => Err(Stop::Line { number, fault }),
    }
}

/// The points of the engine with these coordinates.
pub fn contour_points<I: OverlayInt>(
    alloc: Global,
    number: usize,
    wide: &[IntPoint<i64>],
) -> Result<IntContour<I>, Stop>
    ensures points { IfOk result (λ points. points_of I.whole points.items ≡ points_of (λ z. z) wide.now) }
    ensures in_range { OnOk result (IsTrue (are_in_range (I.whole I.MIN_COORD) (I.whole I.MAX_COORD)
        (points_of (λ z. z) wide.now))) }
    ensures stop { IfErr result (λ stop. (stop ≡ Stop.Refused Memory) ⊎ ((stop ≡ Stop.Line number LineFault.Range)
        × IsFalse (are_in_range (I.whole I.MIN_COORD) (I.whole I.MAX_COORD) (points_of (λ z. z) wide.now)))) }
{
    let fault = LineFault::Range;
    let mut points = Vec::with_capacity(alloc, wide.len())?;
    for given in wide {
        let point = point(*given).ok_or(Stop::Line { number, fault })?;
        points.push(point)?;
    }
    Ok(points)
}

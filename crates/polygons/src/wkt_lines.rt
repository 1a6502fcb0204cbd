// The input as WKT: each line is `S` or `C`, and a `POLYGON` or a `MULTIPOLYGON`.
ghost use Rattle.std.specs.Prelude.{◌≡◌, ◌≢◌, ◌⊎◌, List, ℕ, Bool, codes, IsTrue, IsFalse, OnOk, IfOk, IfErr, MatchOption, true, false, if◌then◌else◌, [], ◌∷◌, ◌++◌, flat_map, map, length};
ghost use Rattle.std.specs.List.{list_all};
ghost use Rattle.overlay_geometry.specs.Points.{Point};
ghost use Rattle.overlay_geometry.specs.PointOf.{point_of};
ghost use Rattle.overlay_base.specs.declared.segm.fault.Fault.TheVariants.{Memory};
ghost use Rattle.overlay_contours.specs.Areas.{doubled_area};
ghost use Rattle.overlay_contours.specs.ContoursOf.{points_of, contours_of};
ghost use Rattle.overlay_contours.specs.ShapesOf.{shapes_of};
ghost use Rattle.overlay_text.specs.Text.{words_of, words_of_line};
ghost use Rattle.overlay_text.specs.Runs.{IfStopped};
ghost use Rattle.polygons.specs.ContourText.{GivenContour, are_in_range, Keeps};
ghost use Rattle.polygons.specs.Wkt.{opening, closing, comma, spaced_byte, WriteItems, WritePoint, WriteRing, WritePolygon, EmptyOr, geometry_name, WriteBody, WriteGeometry, WritePolygonsOf, runs_wrong, turned, polygon_contours, contour_of_shape, are_polygons_in_range, AsksForPolygons, AreFaultyPolygons, KeepsPolygons, NamesFirstFaultyPolygons};

use crate::contour_lines::{ShapeContour, add_contour, contour_points};
use overlay_base::segm::shape_type::ShapeType;
use overlay_contours::measure::doubled_area;
use overlay_contours::overlay::Overlay;
use overlay_geometry::geom::point::IntPoint;
use overlay_geometry::num::OverlayInt;
use overlay_text::lines::{Lines, Words, shape_type};
use overlay_text::number::signed_number;
use overlay_text::stop::{LineFault, Stop};
use std::alloc::{AllocError, Global};

/// The points of a ring, with numbers of any engine.
type Ring = Vec<IntPoint<i64>>;

/// An overlay of the polygons that the lines of a text write, in order. The first faulty line stops the run.
pub fn read_wkt<I: OverlayInt>(alloc: Global, bytes: &[u8]) -> Result<Overlay<I>, Stop>
    ensures contours { IfOk result (KeepsPolygons bytes.now) }
    ensures faulty { IfStopped result (NamesFirstFaultyPolygons I.whole I.MIN_COORD I.MAX_COORD bytes.now) }
{
    let mut overlay = Overlay::new(alloc);
    let mut spaced = Vec::new(alloc);
    for (index, line) in Lines::of(bytes).enumerate() {
        match Words::of(line).next() {
            None => {}
            Some(_) => add_line(alloc, &mut overlay, index + 1, line, &mut spaced)?,
        }
    }
    Ok(overlay)
}

/// Adds the polygons of a line that has words. The list is for its text.
fn add_line<I: OverlayInt>(
    alloc: Global,
    overlay: &mut Overlay<I>,
    number: usize,
    line: &[u8],
    spaced: &mut Vec<u8>,
) -> Result<(), Stop>
    requires some { words_of_line line.now ≢ [] }
    ensures added { OnOk result ((contours : List GivenContour)
        × AsksForPolygons (I.whole I.MIN_COORD) (I.whole I.MAX_COORD) line.now contours
        × ((given : List GivenContour) → Keeps overlay.old given → Keeps overlay.new (given ++ contours))) }
    ensures faulty { IfErr result (λ stop. (stop ≡ Stop.Refused Memory)
        ⊎ ((fault : LineFault) × (stop ≡ Stop.Line number fault)
        × AreFaultyPolygons (I.whole I.MIN_COORD) (I.whole I.MAX_COORD) line.now fault)) }
{
    put_spaces(line, spaced)?;
    let (shape_type, polygons) = read_polygons_of(alloc, number, Words::of(spaced.as_slice()))?;
    add_polygons(alloc, overlay, number, shape_type, polygons.as_slice())
}

/// Puts the text of a line in place of what the list had, in capitals, with spaces around each `(`, `)` and `,`.
fn put_spaces(line: &[u8], spaced: &mut Vec<u8>) -> Result<(), AllocError>
    ensures { OnOk result (spaced.new.items ≡ flat_map spaced_byte line.now) }
{
    spaced.clear();
    for byte in line {
        put_spaced(*byte, spaced)?;
    }
    Ok(())
}

/// Appends a byte, a letter as a capital, and between spaces where it is `(`, `)` or `,`.
#[tactic(auto, unfolding(crate::specs::Wkt::spaced_byte))]
fn put_spaced(byte: u8, spaced: &mut Vec<u8>) -> Result<(), AllocError>
    ensures { OnOk result (spaced.new.items ≡ spaced.old.items ++ spaced_byte byte) }
{
    if byte == b'(' || byte == b')' || byte == b',' {
        spaced.push(b' ')?;
        spaced.push(byte)?;
        spaced.push(b' ')?;
    } else {
        spaced.push(byte.to_ascii_uppercase())?;
    }
    Ok(())
}

/// The shape and the polygons that the words write.
fn read_polygons_of(
    alloc: Global,
    number: usize,
    words: Words<'_>,
) -> Result<(ShapeType, Vec<Vec<Ring>>), Stop>
    ensures polygons { IfOk result (λ read. WritePolygonsOf (words_of words.entry.rest.now) read.0
        (shapes_of (λ z. z) read.1.items)) }
    ensures stop { IfErr result (λ stop. (stop ≡ Stop.Refused Memory) ⊎ ((stop ≡ Stop.Line number LineFault.Form)
        × ((shape_type : _) (polygons : List (List (List Point)))
        → ¬ (WritePolygonsOf (words_of words.entry.rest.now) shape_type polygons)))) }
{
    let fault = LineFault::Form;
    let mut words = words;
    let letter = words.next().ok_or(Stop::Line { number, fault })?;
    let shape_type = shape_type(letter).ok_or(Stop::Line { number, fault })?;
    let polygons = read_geometry(alloc, number, words)?;
    Ok((shape_type, polygons))
}

/// The polygons that the words write behind the letter.
fn read_geometry(alloc: Global, number: usize, words: Words<'_>) -> Result<Vec<Vec<Ring>>, Stop>
    ensures polygons { IfOk result (λ polygons. WriteGeometry (words_of words.entry.rest.now)
        (shapes_of (λ z. z) polygons.items)) }
    ensures stop { IfErr result (λ stop. (stop ≡ Stop.Refused Memory) ⊎ ((stop ≡ Stop.Line number LineFault.Form)
        × ((polygons : List (List (List Point))) → ¬ (WriteGeometry (words_of words.entry.rest.now) polygons)))) }
{
    let fault = LineFault::Form;
    let mut words = words;
    let several = pass_name(&mut words).ok_or(Stop::Line { number, fault })?;
    let polygons = read_body(alloc, number, several, &mut words)?;
    match words.next() {
        None => Ok(polygons),
        Some(_) => Err(Stop::Line { number, fault }),
    }
}

/// The polygons that the words write behind the name.
fn read_body(
    alloc: Global,
    number: usize,
    several: bool,
    words: &mut Words<'_>,
) -> Result<Vec<Vec<Ring>>, Stop>
    ensures polygons { IfOk result (λ polygons. WriteBody several (words_of words.old.rest.now)
        (shapes_of (λ z. z) polygons.items) (words_of words.new.rest.now)) }
    ensures stop { IfErr result (λ stop. (stop ≡ Stop.Refused Memory) ⊎ ((stop ≡ Stop.Line number LineFault.Form)
        × ((polygons : List (List (List Point))) (rest : List (List ℕ))
        → ¬ (WriteBody several (words_of words.old.rest.now) polygons rest)))) }
{
    if several {
        return read_several(alloc, number, words);
    }
    let mut polygons = Vec::new(alloc);
    polygons.push(read_polygon(alloc, number, words)?)?;
    Ok(polygons)
}

/// The polygons that the words write, between parentheses, or none for `EMPTY`.
fn read_several(alloc: Global, number: usize, words: &mut Words<'_>) -> Result<Vec<Vec<Ring>>, Stop>
    ensures items { IfOk result (λ items. EmptyOr WritePolygon (words_of words.old.rest.now)
        (shapes_of (λ z. z) items.items) (words_of words.new.rest.now)) }
    ensures stop { IfErr result (λ stop. (stop ≡ Stop.Refused Memory) ⊎ ((stop ≡ Stop.Line number LineFault.Form)
        × ((items : List (List (List Point))) (rest : List (List ℕ))
        → ¬ (EmptyOr WritePolygon (words_of words.old.rest.now) items rest)))) }
{
    let fault = LineFault::Form;
    if pass_mark(words).ok_or(Stop::Line { number, fault })? {
        read_polygons(alloc, number, words)
    } else {
        Ok(Vec::new(alloc))
    }
}

/// The rings of the polygon that the words write, between parentheses, or none for `EMPTY`.
fn read_polygon(alloc: Global, number: usize, words: &mut Words<'_>) -> Result<Vec<Ring>, Stop>
    ensures items { IfOk result (λ items. WritePolygon (words_of words.old.rest.now)
        (contours_of (λ z. z) items.items) (words_of words.new.rest.now)) }
    ensures stop { IfErr result (λ stop. (stop ≡ Stop.Refused Memory) ⊎ ((stop ≡ Stop.Line number LineFault.Form)
        × ((items : List (List Point)) (rest : List (List ℕ))
        → ¬ (WritePolygon (words_of words.old.rest.now) items rest)))) }
{
    let fault = LineFault::Form;
    if pass_mark(words).ok_or(Stop::Line { number, fault })? {
        read_rings(alloc, number, words)
    } else {
        Ok(Vec::new(alloc))
    }
}

/// The points of the ring that the words write, between parentheses, or none for `EMPTY`.
fn read_ring(alloc: Global, number: usize, words: &mut Words<'_>) -> Result<Ring, Stop>
    ensures items { IfOk result (λ items. WriteRing (words_of words.old.rest.now)
        (points_of (λ z. z) items.items) (words_of words.new.rest.now)) }
    ensures stop { IfErr result (λ stop. (stop ≡ Stop.Refused Memory) ⊎ ((stop ≡ Stop.Line number LineFault.Form)
        × ((items : List Point) (rest : List (List ℕ))
        → ¬ (WriteRing (words_of words.old.rest.now) items rest)))) }
{
    let fault = LineFault::Form;
    if pass_mark(words).ok_or(Stop::Line { number, fault })? {
        read_points(alloc, number, words)
    } else {
        Ok(Vec::new(alloc))
    }
}

/// Passes over a name, and returns whether it is that of several polygons.
fn pass_name(words: &mut Words<'_>) -> Option<bool>
    ensures { MatchOption result
        ((several : Bool) (rest : List (List ℕ)) → words_of words.old.rest.now ≢ geometry_name several ∷ rest)
        (λ several. words_of words.old.rest.now ≡ geometry_name several ∷ words_of words.new.rest.now) }
{
    let name = words.next()?;
    if is_word(name, "POLYGON") {
        Some(false)
    } else if is_word(name, "MULTIPOLYGON") {
        Some(true)
    } else {
        None
    }
}

/// Whether a word is this one.
fn is_word(word: &[u8], text: &str) -> bool
    ensures yes { result ≡ true → word.now ≡ text.now }
    ensures no { result ≡ false → word.now ≢ text.now }
{
    word == text.as_bytes()
}

/// Passes over a `(` or `EMPTY`, and returns whether it is a `(`.
fn pass_mark(words: &mut Words<'_>) -> Option<bool>
    ensures { MatchOption result
        ((mark : List ℕ) (rest : List (List ℕ)) → words_of words.old.rest.now ≡ mark ∷ rest
        → (mark ≢ opening) × (mark ≢ codes "EMPTY"))
        (λ opens. words_of words.old.rest.now
        ≡ (if opens then opening else codes "EMPTY") ∷ words_of words.new.rest.now) }
{
    let word = words.next()?;
    if is_word(word, "(") {
        return Some(true);
    }
    is_word(word, "EMPTY").then_some(false)
}

/// The polygons that the words write up to a `)`, with commas between them.
fn read_polygons(
    alloc: Global,
    number: usize,
    words: &mut Words<'_>,
) -> Result<Vec<Vec<Ring>>, Stop>
    ensures items { IfOk result (λ items. WriteItems WritePolygon (words_of words.old.rest.now)
        (shapes_of (λ z. z) items.items) (words_of words.new.rest.now)) }
    ensures stop { IfErr result (λ stop. (stop ≡ Stop.Refused Memory) ⊎ ((stop ≡ Stop.Line number LineFault.Form)
        × ((items : List (List (List Point))) (rest : List (List ℕ))
        → ¬ (WriteItems WritePolygon (words_of words.old.rest.now) items rest)))) }
{
    let fault = LineFault::Form;
    let mut polygons = Vec::new(alloc);
    loop {
        polygons.push(read_polygon(alloc, number, words)?)?;
        if is_end(words).ok_or(Stop::Line { number, fault })? {
            return Ok(polygons);
        }
    }
}

/// The rings that the words write up to a `)`, with commas between them.
fn read_rings(alloc: Global, number: usize, words: &mut Words<'_>) -> Result<Vec<Ring>, Stop>
    ensures items { IfOk result (λ items. WriteItems WriteRing (words_of words.old.rest.now)
        (contours_of (λ z. z) items.items) (words_of words.new.rest.now)) }
    ensures stop { IfErr result (λ stop. (stop ≡ Stop.Refused Memory) ⊎ ((stop ≡ Stop.Line number LineFault.Form)
        × ((items : List (List Point)) (rest : List (List ℕ))
        → ¬ (WriteItems WriteRing (words_of words.old.rest.now) items rest)))) }
{
    let fault = LineFault::Form;
    let mut rings = Vec::new(alloc);
    loop {
        rings.push(read_ring(alloc, number, words)?)?;
        if is_end(words).ok_or(Stop::Line { number, fault })? {
            return Ok(rings);
        }
    }
}

/// The points that the words write up to a `)`, with commas between them.
fn read_points(alloc: Global, number: usize, words: &mut Words<'_>) -> Result<Ring, Stop>
    ensures items { IfOk result (λ items. WriteItems WritePoint (words_of words.old.rest.now)
        (points_of (λ z. z) items.items) (words_of words.new.rest.now)) }
    ensures stop { IfErr result (λ stop. (stop ≡ Stop.Refused Memory) ⊎ ((stop ≡ Stop.Line number LineFault.Form)
        × ((items : List Point) (rest : List (List ℕ))
        → ¬ (WriteItems WritePoint (words_of words.old.rest.now) items rest)))) }
{
    let fault = LineFault::Form;
    let mut points = Vec::new(alloc);
    loop {
        let point = read_point(words).ok_or(Stop::Line { number, fault })?;
        points.push(point)?;
        if is_end(words).ok_or(Stop::Line { number, fault })? {
            return Ok(points);
        }
    }
}

/// The point that the words write.
fn read_point(words: &mut Words<'_>) -> Option<IntPoint<i64>>
    ensures { MatchOption result
        ((point : Point) (rest : List (List ℕ)) → ¬ (WritePoint (words_of words.old.rest.now) point rest))
        (λ point. WritePoint (words_of words.old.rest.now) (point_of (λ z. z) point) (words_of words.new.rest.now)) }
{
    Some(IntPoint {
        x: signed_number(words.next()?)?,
        y: signed_number(words.next()?)?,
    })
}

/// Whether a list ends here, with a `)`, or goes on, with a comma.
fn is_end(words: &mut Words<'_>) -> Option<bool>
    ensures { MatchOption result
        ((mark : List ℕ) (rest : List (List ℕ)) → words_of words.old.rest.now ≡ mark ∷ rest
        → (mark ≢ closing) × (mark ≢ comma))
        (λ is_end. words_of words.old.rest.now
        ≡ (if is_end then closing else comma) ∷ words_of words.new.rest.now) }
{
    let word = words.next()?;
    if is_word(word, ")") {
        return Some(true);
    }
    is_word(word, ",").then_some(false)
}

/// Adds the contours of polygons behind those that an overlay keeps.
fn add_polygons<I: OverlayInt>(
    alloc: Global,
    overlay: &mut Overlay<I>,
    number: usize,
    shape_type: ShapeType,
    polygons: &[Vec<Ring>],
) -> Result<(), Stop>
    ensures in_range { OnOk result (IsTrue (are_polygons_in_range (I.whole I.MIN_COORD) (I.whole I.MAX_COORD)
        (shapes_of (λ z. z) polygons.now))) }
    ensures added { OnOk result ((given : List GivenContour) → Keeps overlay.old given → Keeps overlay.new
        (given ++ flat_map (polygon_contours shape_type) (shapes_of (λ z. z) polygons.now))) }
    ensures stop { IfErr result (λ stop. (stop ≡ Stop.Refused Memory) ⊎ ((stop ≡ Stop.Line number LineFault.Range)
        × IsFalse (are_polygons_in_range (I.whole I.MIN_COORD) (I.whole I.MAX_COORD)
        (shapes_of (λ z. z) polygons.now)))) }
{
    for rings in polygons {
        add_polygon(alloc, overlay, number, shape_type, rings)?;
    }
    Ok(())
}

/// Adds the contours of a polygon behind those that an overlay keeps.
fn add_polygon<I: OverlayInt>(
    alloc: Global,
    overlay: &mut Overlay<I>,
    number: usize,
    shape_type: ShapeType,
    rings: &[Ring],
) -> Result<(), Stop>
    ensures in_range { OnOk result (IsTrue (list_all (are_in_range (I.whole I.MIN_COORD) (I.whole I.MAX_COORD))
        (contours_of (λ z. z) rings.now))) }
    ensures added { OnOk result ((given : List GivenContour) → Keeps overlay.old given → Keeps overlay.new
        (given ++ polygon_contours shape_type (contours_of (λ z. z) rings.now))) }
    ensures stop { IfErr result (λ stop. (stop ≡ Stop.Refused Memory) ⊎ ((stop ≡ Stop.Line number LineFault.Range)
        × IsFalse (list_all (are_in_range (I.whole I.MIN_COORD) (I.whole I.MAX_COORD))
        (contours_of (λ z. z) rings.now)))) }
{
    let Some((outer, holes)) = rings.split_first() else {
        return Ok(());
    };
    add_ring(alloc, overlay, number, shape_type, outer, true)?;
    add_holes(alloc, overlay, number, shape_type, holes)
}

/// Adds rings as holes.
fn add_holes<I: OverlayInt>(
    alloc: Global,
    overlay: &mut Overlay<I>,
    number: usize,
    shape_type: ShapeType,
    holes: &[Ring],
) -> Result<(), Stop>
    ensures in_range { OnOk result (IsTrue (list_all (are_in_range (I.whole I.MIN_COORD) (I.whole I.MAX_COORD))
        (contours_of (λ z. z) holes.now))) }
    ensures added { OnOk result ((given : List GivenContour) → Keeps overlay.old given → Keeps overlay.new
        (given ++ map (λ hole. contour_of_shape shape_type (turned false hole)) (contours_of (λ z. z) holes.now))) }
    ensures stop { IfErr result (λ stop. (stop ≡ Stop.Refused Memory) ⊎ ((stop ≡ Stop.Line number LineFault.Range)
        × IsFalse (list_all (are_in_range (I.whole I.MIN_COORD) (I.whole I.MAX_COORD))
        (contours_of (λ z. z) holes.now)))) }
{
    for hole in holes {
        add_ring(alloc, overlay, number, shape_type, hole, false)?;
    }
    Ok(())
}

/// Adds a ring as an outer boundary or as a hole, in the direction that these run in.
fn add_ring<I: OverlayInt>(
    alloc: Global,
    overlay: &mut Overlay<I>,
    number: usize,
    shape_type: ShapeType,
    ring: &[IntPoint<i64>],
    is_outer: bool,
) -> Result<(), Stop>
    ensures in_range { OnOk result (IsTrue (are_in_range (I.whole I.MIN_COORD) (I.whole I.MAX_COORD)
        (points_of (λ z. z) ring.now))) }
    ensures added { OnOk result ((given : List GivenContour) → Keeps overlay.old given → Keeps overlay.new
        (given ++ contour_of_shape shape_type (turned is_outer (points_of (λ z. z) ring.now)) ∷ [])) }
    ensures stop { IfErr result (λ stop. (stop ≡ Stop.Refused Memory) ⊎ ((stop ≡ Stop.Line number LineFault.Range)
        × IsFalse (are_in_range (I.whole I.MIN_COORD) (I.whole I.MAX_COORD) (points_of (λ z. z) ring.now)))) }
{
    let mut points = contour_points(alloc, number, ring)?;
    turn(&mut points, is_outer);
    add_contour(overlay, &ShapeContour { shape_type, points })
}

/// Turns a ring, unless it runs as an outer boundary or as a hole does.
fn turn<I: OverlayInt>(points: &mut [IntPoint<I>], is_outer: bool)
    requires { IsTrue (are_in_range (I.whole I.MIN_COORD) (I.whole I.MAX_COORD) (points_of I.whole points.old)) }
    ensures turned { points_of I.whole points.new ≡ turned is_outer (points_of I.whole points.old) }
    ensures in_range { IsTrue (are_in_range (I.whole I.MIN_COORD) (I.whole I.MAX_COORD) (points_of I.whole points.new)) }
    ensures length { length points.new ≡ length points.old }
{
    if runs_wrong(points, is_outer) {
        points.reverse();
    }
}

/// Whether a ring runs clockwise as an outer boundary, or counterclockwise as a hole.
fn runs_wrong<I: OverlayInt>(points: &[IntPoint<I>], is_outer: bool) -> bool
    requires { IsTrue (are_in_range (I.whole I.MIN_COORD) (I.whole I.MAX_COORD) (points_of I.whole points.now)) }
    ensures { result ≡ runs_wrong is_outer (doubled_area (points_of I.whole points.now)) }
{
    let area = doubled_area(points);
    if is_outer { area < 0 } else { area > 0 }
}

// The help of the program.
use std::env;
use std::rt::Env;

/// What the program does, its words and its lines.
pub const HELP: &str = "polygons: overlays of polygons, and their relations

usage: polygons rule=NAME [WORD ..] < INPUT > OUTPUT
       polygons relate [WORD ..] < INPUT > OUTPUT

The input has a contour on each line:
  S X Y X Y ..     a contour of the subject
  C X Y X Y ..     a contour of the clip
Lines `contour X Y X Y ..` and `shape` of an output are input too, of the subject unless contours=clip is given.
Coordinates are whole numbers, up to 1073741823 on either side of 0, with spaces between them. Outer contours run
counterclockwise, and holes clockwise; with fill=evenodd a direction changes no more than rounding does.

Under format=wkt each line is S or C and a geometry, whose rings run in any direction:
  S POLYGON ((0 0, 4 0, 4 4, 0 4, 0 0))
  C MULTIPOLYGON (((2 2, 6 2, 6 6, 2 6, 2 2)))

The output has a line `contour X Y X Y ..` for each contour, with the result on its left. With relate it is a line of
nine letters, T where parts of the shapes meet, and else F: the interior, the boundary and the exterior of the
subject, each with those of the clip. Nothing is rounded then.

  rule=NAME        subject, clip, intersect, union, difference, inverse-difference, xor, or table:0 to table:15
  also=NAME        the overlay by another rule with a name too; a line `rule NAME` comes before the contours of each
  fill=NAME        nonzero (unless another is named), evenodd, positive or negative
  contours=clip    lines `contour ..` of the input are of the clip
  shapes           a line `shape` before each outer contour; its holes follow it
  format=wkt       input and output as WKT; the output is one MULTIPOLYGON
  report           at the end `passes N`, and `reach N`: by how many halves of a unit edges may have moved
  pairwise         crossings are rounded pair by pair, as i_overlay does, and not by snap rounding
  engine=NAME      i32 (unless another is named), or i16 with coordinates up to 16383
  strategy=NAME    auto (unless another is named), list, tree or frag
  precision=NAME   high (unless another is named), absolute, medium-high, medium, medium-low or low, for pairwise
  relate           the relation of the shapes, and no overlay: only contours, format, fill and engine go with it
  help, --help     this text

The exit status is 0, or 2 for a wrong word, 3 for a wrong line, 4 where memory or a count runs out, and 5 where the
input or the output fails.
";

/// Whether the only word is that of the help.
pub fn is_help_asked<H: Env + AllocGlobal>(rt: &H) -> bool {
    let Ok(words) = env::args(rt) else {
        return false;
    };
    let mut others = words.skip(1);
    let Some(word) = others.next() else {
        return false;
    };
    matches!(word.as_str(), "help" | "--help" | "-h") && others.next().is_none()
}

// The ends of links in order of their points. Upstream: part of `build::graph`, which sorts them by their points.
ghost use Rattle.std.specs.Prelude.{◌≡◌, ◌++◌, ◌<◌, ◌≤◌, ℕ, List, None, length, map, OnOk, IfOk, IfErr, IfSome, IfNone, IsTrue, All, if◌then◌else◌, pos, ◌+ℤ◌};
ghost use Rattle.std.specs.List.Sorted.{IsStableByKey};
ghost use Rattle.overlay_geometry.specs.Coordinates.{is_coordinate};
ghost use Rattle.overlay_geometry.specs.InRange.{IsPointInRange};
ghost use Rattle.overlay_geometry.specs.Points.{is_vertical, point_cmp, point_lt, pair_cmp};
ghost use Rattle.overlay_geometry.specs.Sorting.{is_strictly_sorted};
ghost use Rattle.overlay_geometry.specs.PointOf.{point_of};
ghost use Rattle.overlay_base.specs.declared.segm.fault.Fault.TheVariants.{Memory};
ghost use Rattle.overlay_build.specs.steps.EndOf.{WholeEnd, unpacked, ends_of};
ghost use Rattle.overlay_build.specs.GraphOf.{link_of, pairs_of_links, with_start, with_end};
ghost use Rattle.overlay_build.specs.steps.LinkEnds.{numbered_ends, ends_where};
ghost use Rattle.overlay_build.specs.steps.LinksOf.{starts_of, by_point, AreEndsInRange, IsKeyAt, IsNextPoint, IsRunAt, indexes_between};
ghost use Rattle.overlay_build.specs.steps.LinksOf.{AreNumberedAt};

use crate::build::end_parts::sort_end_parts;
use crate::build::numbered_link::NumberedLink;
use overlay_base::segm::fault::Fault;
use overlay_geometry::geom::point::IntPoint;
use overlay_geometry::num::OverlayInt;

/// The second end of the link at an index.
#[derive(Clone, Copy)]
pub struct PackedEnd {
    /// The index of the link.
    pub index: usize,
    /// Where the end lies: the point as one number.
    pub key: u64,
}

/// How many numbers each column has.
const ROWS: u64 = 4_294_967_296;

/// A point as one number. These numbers are in the order of the points, so lists of them are sorted faster.
pub fn packed<I: OverlayInt>(point: IntPoint<I>) -> u64
    requires { IsPointInRange I.whole I.MIN_COORD I.MAX_COORD point }
    ensures { unpacked result ≡ point_of I.whole point }
{
    from_least(point.x) * ROWS + from_least(point.y)
}

/// How far a coordinate is above -2^31.
fn from_least<I: OverlayInt>(coordinate: I) -> u64
    requires { IsTrue (is_coordinate (I.whole I.MIN_COORD) (I.whole I.MAX_COORD) (I.whole coordinate)) }
    ensures value { pos result ≡ I.whole coordinate +ℤ pos 2147483648 }
    ensures bound { result < 4294967296 }
{
    (coordinate.to_wide() + 2_147_483_648) as u64
}

/// Collects the second ends of all links, each with its link's index. Those at one point are in the order of their links.
///
/// Where the ends rise from link to link, they keep that order. Elsewhere, if at least one link in eight is vertical, the
/// ends of vertical links come after the others: on a grid of lines along the axes each of the two parts rises, so a sort
/// finds two runs. In other lists each part is sorted by itself.
pub fn collect_ends<L: NumberedLink>(links: &[L], ends: &mut Vec<PackedEnd>) -> Result<(), Fault>
    requires ordered { All (λ l. IsTrue (point_lt (point_of L.Coordinate.whole l.a.point)
        (point_of L.Coordinate.whole l.b.point))) (map L.link links.now) }
    requires sorted { IsTrue (is_strictly_sorted pair_cmp (pairs_of_links L.Coordinate.whole (map L.link links.now))) }
    requires in_range { AreEndsInRange L.Coordinate.whole L.Coordinate.MIN_COORD L.Coordinate.MAX_COORD (map L.link links.now) }
    ensures ends { OnOk result (IsStableByKey (λ e. e.point) point_cmp
        (numbered_ends (pairs_of_links L.Coordinate.whole (map L.link links.now))) (ends_of ends.new.items)) }
    ensures fault { IfErr result (λ fault. fault ≡ Memory) }
{
    ends.clear();
    ends.reserve(links.len())?;
    let shape = append_ends(links, ends)?;
    if shape.do_rise {
        return Ok(());
    }
    if links.len() <= shape.verticals.saturating_mul(8) {
        ends.clear();
        append_ends_where(links, false, ends)?;
        return append_ends_where(links, true, ends);
    }
    sort_end_parts(ends)
}

/// What a walk over the links notes of their second ends.
#[derive(Clone, Copy)]
struct EndsShape {
    /// Whether the ends are in order as the links are.
    do_rise: bool,
    /// How many links are vertical.
    verticals: usize,
}

/// Appends the second ends of all links, each with its link's index. Returns what it notes of them on the way.
fn append_ends<L: NumberedLink>(links: &[L], ends: &mut Vec<PackedEnd>) -> Result<EndsShape, Fault>
    requires { AreEndsInRange L.Coordinate.whole L.Coordinate.MIN_COORD L.Coordinate.MAX_COORD (map L.link links.now) }
    ensures ends { OnOk result (ends_of ends.new.items ≡ ends_of ends.old.items
        ++ numbered_ends (pairs_of_links L.Coordinate.whole (map L.link links.now))) }
    ensures fault { IfErr result (λ fault. fault ≡ Memory) }
{
    let mut do_rise = true;
    let mut verticals = 0;
    let mut last = 0;
    for (index, link) in links.iter().enumerate() {
        let key = packed(link.end());
        do_rise &= last <= key;
        last = key;
        verticals += usize::from(is_vertical(link));
        ends.push(PackedEnd { index, key })?;
    }
    Ok(EndsShape { do_rise, verticals })
}

/// Appends the second ends of the links that are vertical, or of those that are not, each with its link's index.
fn append_ends_where<L: NumberedLink>(
    links: &[L],
    are_vertical: bool,
    ends: &mut Vec<PackedEnd>,
) -> Result<(), Fault>
    requires { AreEndsInRange L.Coordinate.whole L.Coordinate.MIN_COORD L.Coordinate.MAX_COORD (map L.link links.now) }
    ensures ends { OnOk result (ends_of ends.new.items ≡ ends_of ends.old.items
        ++ ends_where are_vertical (pairs_of_links L.Coordinate.whole (map L.link links.now))) }
    ensures fault { IfErr result (λ fault. fault ≡ Memory) }
{
    for (index, link) in links.iter().enumerate() {
        if is_vertical(link) == are_vertical {
            ends.push(PackedEnd {
                index,
                key: packed(link.end()),
            })?;
        }
    }
    Ok(())
}

/// Whether both ends of a link lie in one column.
fn is_vertical<L: NumberedLink>(link: &L) -> bool
    ensures { result ≡ is_vertical (link_of L.Coordinate.whole (L.link link.now)).pair }
{
    link.start().x == link.end().x
}

/// Sorts ends by their points. Ends at one point stay in their order.
pub fn sort_by_point(ends: &mut Vec<PackedEnd>) -> Result<(), Fault>
    ensures sorted { OnOk result (ends_of ends.new.items ≡ by_point (ends_of ends.old.items)) }
    ensures fault { IfErr result (λ fault. fault ≡ Memory) }
{
    ends.sort_by_key(|end| end.key)?;
    Ok(())
}

/// The links that are left, from a place on.
#[derive(Clone, Copy)]
pub struct LinksLeft {
    /// The index of the first of them.
    pub from: usize,
    /// Where its first end lies, as one number, if there is such a link.
    pub key: Option<u64>,
}

/// The links from a place on.
pub fn links_left<L: NumberedLink>(links: &[L], from: usize) -> LinksLeft
    requires { AreEndsInRange L.Coordinate.whole L.Coordinate.MIN_COORD L.Coordinate.MAX_COORD (map L.link links.now) }
    ensures from { result.from ≡ from }
    ensures key { IsKeyAt (starts_of L.Coordinate.whole (map L.link links.now)) from result.key }
{
    if from >= links.len() {
        return LinksLeft { from, key: None };
    }
    let key = Some(packed(links[from].start()));
    LinksLeft { from, key }
}

/// The point of the next node, as one number: the lesser of the first end of a link, if one is left, and of the second
/// end at a place, if there is one.
pub fn next_point(start_key: Option<u64>, ends: &[PackedEnd], end: usize) -> Option<u64>
    ensures point { IfSome result (λ key. (firsts : List WholeEnd) (start : ℕ) → IsKeyAt firsts start start_key
        → IsNextPoint firsts (ends_of ends.now) start end (unpacked key)) }
    ensures none { IfNone result ((start_key ≡ None) × (length ends.now ≤ end)) }
{
    if end >= ends.len() {
        return start_key;
    }
    let second = ends[end].key;
    match start_key {
        Some(first) => Some(second.min(first)),
        None => Some(second),
    }
}

/// Appends the indexes of the links that start at a point, of those that are left, and gives their first ends the number
/// of the node there. Returns the links that are left then.
pub fn number_starts<L: NumberedLink>(
    links: &mut [L],
    left: LinksLeft,
    key: u64,
    id: usize,
    indexes: &mut Vec<usize>,
) -> Result<LinksLeft, Fault>
    requires start { left.from ≤ length links.old }
    requires left { IsKeyAt (starts_of L.Coordinate.whole (map L.link links.old)) left.from left.key }
    requires in_range { AreEndsInRange L.Coordinate.whole L.Coordinate.MIN_COORD L.Coordinate.MAX_COORD (map L.link links.old) }
    ensures run { IfOk result (λ next. IsRunAt (starts_of L.Coordinate.whole (map L.link links.old)) (unpacked key) left.from next.from) }
    ensures left { IfOk result (λ next. IsKeyAt (starts_of L.Coordinate.whole (map L.link links.old)) next.from next.key) }
    ensures indexes { IfOk result (λ next. indexes.new.items ≡ indexes.old.items
        ++ indexes_between (starts_of L.Coordinate.whole (map L.link links.old)) left.from next.from) }
    ensures length { length links.new ≡ length links.old }
    ensures links { IfOk result (λ next. AreNumberedAt (with_start id)
        (indexes_between (starts_of L.Coordinate.whole (map L.link links.old)) left.from next.from)
        (map L.link links.old) (map L.link links.new)) }
    ensures fault { IfErr result (λ fault. fault ≡ Memory) }
{
    let mut next = left;
    while next.key == Some(key) {
        links[next.from].number_start(id);
        indexes.push(next.from)?;
        next = links_left(links, next.from + 1);
    }
    Ok(next)
}

/// Does the same with the second ends that lie at a point, and the indexes of their links. Returns the place after these
/// ends.
pub fn number_ends<L: NumberedLink>(
    links: &mut [L],
    ends: &[PackedEnd],
    end: usize,
    key: u64,
    id: usize,
    indexes: &mut Vec<usize>,
) -> Result<usize, Fault>
    requires end { end ≤ length ends.now }
    requires within { All (λ e. e.index < length links.old) ends.now }
    ensures run { IfOk result (λ next. IsRunAt (ends_of ends.now) (unpacked key) end next) }
    ensures indexes { IfOk result (λ next. indexes.new.items ≡ indexes.old.items
        ++ indexes_between (ends_of ends.now) end next) }
    ensures length { length links.new ≡ length links.old }
    ensures links { IfOk result (λ next. AreNumberedAt (with_end id)
        (indexes_between (ends_of ends.now) end next) (map L.link links.old) (map L.link links.new)) }
    ensures fault { IfErr result (λ fault. fault ≡ Memory) }
{
    let mut next = end;
    while next < ends.len() && ends[next].key == key {
        let index = ends[next].index;
        links[index].number_end(id);
        indexes.push(index)?;
        next += 1;
    }
    Ok(next)
}

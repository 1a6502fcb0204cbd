// The nodes at the ends of links as lists, and their numbers in the links. Upstream: part of `build::graph`.
ghost use Rattle.std.specs.Prelude.{◌≡◌, IsTrue, All, map, OnOk, IfErr};
ghost use Rattle.std.specs.List.{list_all};
ghost use Rattle.overlay_geometry.specs.Coordinates.{is_pair_in_range};
ghost use Rattle.overlay_geometry.specs.Points.{point_lt, pair_cmp};
ghost use Rattle.overlay_geometry.specs.Sorting.{is_strictly_sorted};
ghost use Rattle.overlay_geometry.specs.PointOf.{point_of};
ghost use Rattle.overlay_base.specs.declared.segm.fault.Fault.TheVariants.{Memory};
ghost use Rattle.overlay_build.specs.GraphOf.{HoldLists, graph_with, pairs_of_links};

use crate::build::link_ends::{
    collect_ends, links_left, next_point, number_ends, number_starts, sort_by_point,
};
use crate::build::numbered_link::NumberedLink;
use overlay_base::segm::fault::Fault;
use std::alloc::Global;

/// Gives both ends of each link the number of its node, and lists the nodes in place of what the two lists had: how many
/// links meet at each, and the indexes of these links, node by node.
///
/// The first end of each link has to come before the second, and the links have to be sorted by their ends, no two on the
/// same ends, as the segments of an arrangement are. All ends have to be in range.
///
/// Returns `Fault::Memory` where a growth is refused, and no other fault. The numbers and the lists may be anything then.
pub fn connect_links<L: NumberedLink>(
    alloc: Global,
    links: &mut [L],
    degrees: &mut Vec<usize>,
    indexes: &mut Vec<usize>,
) -> Result<(), Fault>
    requires ordered { All (λ l. IsTrue (point_lt (point_of L.Coordinate.whole l.a.point)
        (point_of L.Coordinate.whole l.b.point))) (map L.link links.old) }
    requires sorted { IsTrue (is_strictly_sorted pair_cmp (pairs_of_links L.Coordinate.whole (map L.link links.old))) }
    requires in_range { IsTrue (list_all (is_pair_in_range (L.Coordinate.whole L.Coordinate.MIN_COORD)
        (L.Coordinate.whole L.Coordinate.MAX_COORD)) (pairs_of_links L.Coordinate.whole (map L.link links.old))) }
    ensures graph { OnOk result (HoldLists L.Coordinate.whole (map L.link links.new) degrees.new.items indexes.new.items
        (graph_with L.Coordinate.whole (map L.link links.old))) }
    ensures edge_data { OnOk result (map (λ l. l.edge_data) (map L.link links.new)
        ≡ map (λ l. l.edge_data) (map L.link links.old)) }
    ensures fault { IfErr result (λ fault. fault ≡ Memory) }
{
    // the links are sorted by their first ends, so only the second ends have to be
    let mut ends = Vec::new(alloc);
    collect_ends(links, &mut ends)?;
    sort_by_point(&mut ends)?;
    degrees.clear();
    degrees.reserve(links.len())?;
    indexes.clear();
    // each link ends at two nodes
    indexes.reserve(links.len().saturating_mul(2))?;
    let mut left = links_left(links, 0);
    let mut end = 0;
    while let Some(key) = next_point(left.key, &ends, end) {
        let first = indexes.len();
        let id = degrees.len();
        left = number_starts(links, left, key, id, indexes)?;
        end = number_ends(links, &ends, end, key, id, indexes)?;
        degrees.push(indexes.len() - first)?;
    }
    Ok(())
}

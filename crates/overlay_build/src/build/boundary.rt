// The boundary of a rule's region as segments of one shape, which a further overlay may be given. This project's own.
ghost use Rattle.std.specs.Prelude.{◌≡◌, IsTrue, IfOk, IfErr};
ghost use Rattle.overlay_geometry.specs.Points.{is_ordered};
ghost use Rattle.overlay_base.specs.Rules.{holds};
ghost use Rattle.overlay_base.specs.SegmentOf.{ends_of, winding_of};
ghost use Rattle.overlay_base.specs.declared.segm.fault.Fault.TheVariants.{Memory};
ghost use Rattle.overlay_build.specs.GraphOf.{link_of};
ghost use Rattle.overlay_build.specs.Boundary.{direction};
ghost use Rattle.overlay_build.specs.ShapedBoundary.{of_shape};
ghost use Rattle.overlay_build.specs.BoundaryOf.{HasLinksInShape, WindsAsLinks, BoundsAgain};

use crate::build::graph::OverlayGraph;
use overlay_base::overlay_core::link::OverlayLink;
use overlay_base::overlay_core::overlay_rule::OverlayRule;
use overlay_base::segm::boolean::ShapeCountBoolean;
use overlay_base::segm::fault::Fault;
use overlay_base::segm::segment::Segment;
use overlay_base::segm::shape_type::ShapeType;
use overlay_base::segm::winding::WindingCount;
use overlay_geometry::num::OverlayInt;
use std::alloc::Global;

/// The links of a graph as segments of one shape, each in its direction: counted once from `a` to
/// `b` where the rule holds of the top of its fill, and else once from `b` to `a`. They are in the
/// order of the links, and carry no data.
///
/// Of the rule's own graph of an arrangement with balanced counts these are the boundary of the
/// rule's region, so that a result can be given again: the list is arranged, as `is_arranged`
/// tests, and balanced, and a split leaves it as it is. Around every place it winds once for the
/// shape where the rule holds and not at all elsewhere, less what the rule says of places outside.
///
/// Takes time linear in links. Returns `Fault::Memory` where a growth is refused.
pub fn directed_segments<I: OverlayInt, D: Copy>(
    alloc: Global,
    graph: &OverlayGraph<'_, I, D>,
    rule: OverlayRule,
    shape_type: ShapeType,
) -> Result<Vec<Segment<ShapeCountBoolean, I, ()>>, Fault>
    ensures segments { IfOk result (λ list. HasLinksInShape shape_type rule graph.now list.items) }
    ensures winds { IfOk result (λ list. WindsAsLinks shape_type rule graph.now list.items) }
    ensures again { IfOk result (λ list. BoundsAgain shape_type rule graph.now list.items) }
    ensures fault { IfErr result (λ fault. fault ≡ Memory) }
{
    let mut segments = Vec::new(alloc);
    for link in graph.links() {
        segments.push(directed_segment(link, rule, shape_type))?;
    }
    Ok(segments)
}

/// A link as a segment of the shape, in its direction.
fn directed_segment<I: OverlayInt, D: Copy>(
    link: &OverlayLink<I, D>,
    rule: OverlayRule,
    shape_type: ShapeType,
) -> Segment<ShapeCountBoolean, I, ()>
    requires { IsTrue (is_ordered (link_of I.whole link.now).pair) }
    ensures pair { ends_of result ≡ (link_of I.whole link.now).pair }
    ensures count { winding_of result ≡ of_shape shape_type (direction (holds rule) link.now.fill) }
{
    let count = if rule.holds_of_top(link.fill) {
        ShapeCountBoolean::direct_count(shape_type)
    } else {
        ShapeCountBoolean::invert_count(shape_type)
    };
    Segment::create_and_validate_with_data(link.a.point, link.b.point, count, (), &mut ())
}

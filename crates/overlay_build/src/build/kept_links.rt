// The links of the kept segments. Upstream: `build_links_all` and `build_links_by_filter` of `build::builder`.
ghost use Rattle.std.specs.Prelude.{◌≡◌, length, OnOk, IfErr};
ghost use Rattle.overlay_base.specs.declared.segm.fault.Fault.TheVariants.{Memory};
ghost use Rattle.overlay_build.specs.steps.LinkRules.{keeps_by};
ghost use Rattle.overlay_build.specs.steps.LinksOf.{AreKept, HaveKeptData};

use overlay_base::overlay_core::clip_rule::ClipRule;
use overlay_base::overlay_core::link::OverlayLink;
use overlay_base::overlay_core::overlay_rule::OverlayRule;
use overlay_base::segm::fault::Fault;
use overlay_base::segm::segment::Segment;
use overlay_base::segm::segment_fill::SegmentFill;
use overlay_base::segm::winding::WindingCount;
use overlay_geometry::geom::id_point::IdPoint;
use overlay_geometry::num::OverlayInt;

/// Which segments become links, by their fills.
#[derive(Clone, Copy)]
pub enum LinkRule {
    /// Every one.
    Every,
    /// Those that an overlay rule keeps.
    Overlay(OverlayRule),
    /// Those that a clip rule keeps.
    Clip(ClipRule),
}

/// Whether a segment with this fill becomes a link.
#[inline(always)]
fn is_kept(rule: LinkRule, fill: SegmentFill) -> bool
    ensures { result ≡ keeps_by rule fill }
{
    match rule {
        LinkRule::Every => true,
        LinkRule::Overlay(rule) => rule.is_included(fill),
        LinkRule::Clip(rule) => rule.is_included(fill),
    }
}

/// Makes a link of each segment whose fill is kept. The fills are those of the segments, in their order.
pub fn collect_links<C: WindingCount, I: OverlayInt, D: Copy>(
    segments: &[Segment<C, I, D>],
    fills: &[SegmentFill],
    rule: LinkRule,
    links: &mut Vec<OverlayLink<I, D>>,
) -> Result<(), Fault>
    requires { length fills.now ≡ length segments.now }
    ensures kept { OnOk result (AreKept rule segments.now fills.now links.new.items) }
    ensures data { OnOk result (HaveKeptData rule segments.now fills.now links.new.items) }
    ensures fault { IfErr result (λ fault. fault ≡ Memory) }
{
    links.clear();
    links.reserve(segments.len())?;
    for index in 0..segments.len() {
        let segment = &segments[index];
        let fill = fills[index];
        if is_kept(rule, fill) {
            let ends = segment.x_segment();
            let a = IdPoint::new(0, ends.a);
            let b = IdPoint::new(0, ends.b);
            links.push(OverlayLink::new_with_data(a, b, fill, segment.edge_data()))?;
        }
    }
    Ok(())
}

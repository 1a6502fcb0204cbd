// What belongs together of a graph's links: a link and the one that leads on from it, and a link and its support where
// the place between them is not like those outside. This project's own.
ghost use Rattle.std.specs.Prelude.{◌≡◌, ◌≢◌, true, false, map, length, OnOk, IfOk, IfErr};
ghost use Rattle.overlay_base.specs.Rules.{holds, top_value};
ghost use Rattle.overlay_base.specs.declared.segm.fault.Fault.TheVariants.{Memory};
ghost use Rattle.overlay_build.specs.GraphOf.{link_of};
ghost use Rattle.overlay_shapes.specs.steps.Joins.{AreJoinsAlong, AddsSupports};

use crate::classes::Join;
use overlay_base::overlay_core::link::OverlayLink;
use overlay_base::overlay_core::overlay_rule::OverlayRule;
use overlay_base::segm::fault::Fault;
use overlay_base::segm::segment_fill::SegmentFill;
use overlay_geometry::num::OverlayInt;
use std::alloc::Global;

/// Joins each link with the one that leads on from it.
pub(crate) fn joins_along(alloc: Global, next: &[usize]) -> Result<Vec<Join>, Fault>
    ensures joins { IfOk result (λ joins. AreJoinsAlong next.now joins.items) }
    ensures fault { IfErr result (λ fault. fault ≡ Memory) }
{
    let mut joins = Vec::new(alloc);
    for index in 0..next.len() {
        joins.push(Join {
            a: index,
            b: next[index],
        })?;
    }
    Ok(joins)
}

/// Joins each link with its support, where the rule says of the place between them something else than of those outside:
/// so it says of the other side of the link what it says of those.
pub(crate) fn join_supports<I: OverlayInt, D: Copy>(
    joins: &mut Vec<Join>,
    links: &[OverlayLink<I, D>],
    rule: OverlayRule,
    supports: &[usize],
) -> Result<(), Fault>
    requires { length supports.now ≡ length links.now }
    ensures joins { OnOk result (AddsSupports (holds rule) (map (link_of I.whole) links.now) supports.now
        (length links.now) joins.old.items joins.new.items) }
    ensures fault { IfErr result (λ fault. fault ≡ Memory) }
{
    for index in 0..links.len() {
        let support = supports[index];
        if support < links.len() && is_like_outside(rule, links[index].fill) {
            joins.push(Join {
                a: index,
                b: support,
            })?;
        }
    }
    Ok(())
}

/// Whether the rule says of the top of a segment with this fill what it says of the places outside.
fn is_like_outside(rule: OverlayRule, fill: SegmentFill) -> bool
    ensures yes { result ≡ true → top_value (holds rule) fill ≡ holds rule false false }
    ensures no { result ≡ false → top_value (holds rule) fill ≢ holds rule false false }
{
    if rule.holds(false, false) {
        rule.holds_of_top(fill)
    } else {
        !rule.holds_of_top(fill)
    }
}

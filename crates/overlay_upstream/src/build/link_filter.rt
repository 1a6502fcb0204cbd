// Which links of a graph an overlay rule keeps. Upstream: `OverlayLinkFilter`, and its functions in `build::boolean`.
ghost use Rattle.std.specs.Prelude.{◌≡◌, [], map, if◌then◌else◌, OnOk, OnErr, IfErr};
ghost use Rattle.overlay_base.specs.declared.segm.fault.Fault.TheVariants.{Memory};
ghost use Rattle.overlay_upstream.specs.VisitStates.{state_by};

use overlay_base::overlay_core::extract::VisitState;
use overlay_base::overlay_core::link::OverlayLink;
use overlay_base::overlay_core::overlay_rule::OverlayRule;
use overlay_base::segm::fault::Fault;

/// Writes one state a link into the buffer: `Unvisited` exactly where the rule says different
/// things of the two sides. What the buffer held is dropped.
///
/// Returns `Fault::Memory` where a growth is refused; the buffer is empty then.
pub fn filter_by_overlay_into<I, D>(
    links: &[OverlayLink<I, D>],
    overlay_rule: OverlayRule,
    buffer: &mut Vec<VisitState>,
) -> Result<(), Fault>
    ensures states { OnOk result (buffer.new.items ≡ map (state_by overlay_rule) links.now) }
    ensures fault { IfErr result (λ fault. fault ≡ Memory) }
    ensures emptied { OnErr result (buffer.new.items ≡ []) }
{
    buffer.clear();
    for link in links {
        let state = VisitState::new(!overlay_rule.is_included(link.fill));
        if buffer.push(state).is_err() {
            buffer.clear();
            return Err(Fault::Memory);
        }
    }
    Ok(())
}

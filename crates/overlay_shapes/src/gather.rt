// Walks, gathered by the classes of their links into shapes. This project's own.
ghost use Rattle.std.specs.Prelude.{◌≡◌, ◌==◌, ◌∷◌, ◌++◌, [], length, if◌then◌else◌, OnOk, IfOk, IfErr};
ghost use Rattle.std.specs.List.{list_any};
ghost use Rattle.overlay_base.specs.declared.segm.fault.Fault.TheVariants.{Memory};
ghost use Rattle.overlay_build.specs.BoundaryOf.{walks_of};
ghost use Rattle.overlay_shapes.specs.Gathered.{AreGathered, groups_of};
ghost use Rattle.overlay_shapes.specs.steps.Fronts.{AreFronts};
ghost use Rattle.overlay_shapes.specs.steps.Gathering.{AreLeading, MayBeGathered, AreNumbered};

use overlay_base::segm::fault::Fault;
use std::alloc::Global;

/// The walks in groups: those whose links have one leader are in one group. Groups are in the order of their leaders, and
/// the first walk of each has the front of its leader.
///
/// Returns `Fault::Memory` where a growth is refused.
pub(crate) fn gather(
    alloc: Global,
    walks: &[Vec<usize>],
    leaders: &[usize],
    fronts: &[usize],
) -> Result<Vec<Vec<Vec<usize>>>, Fault>
    requires leaders { AreLeading leaders.now }
    requires fronts { AreFronts leaders.now fronts.now }
    requires walks { MayBeGathered leaders.now (walks_of walks.now) }
    ensures groups { IfOk result (λ groups. AreGathered leaders.now fronts.now (walks_of walks.now)
        (groups_of groups.items)) }
    ensures fault { IfErr result (λ fault. fault ≡ Memory) }
{
    let mut numbers = vec![in alloc; 0; leaders.len()]?;
    let mut groups = number_leaders(alloc, leaders, &mut numbers)?;
    for walk in walks {
        let leader = leaders[walk[0]];
        add_walk(alloc, &mut groups[numbers[leader]], walk, fronts[leader])?;
    }
    Ok(groups)
}

/// Numbers those that lead themselves, in order, and makes an empty group for each.
fn number_leaders(
    alloc: Global,
    leaders: &[usize],
    numbers: &mut [usize],
) -> Result<Vec<Vec<Vec<usize>>>, Fault>
    requires numbers { length numbers.old ≡ length leaders.now }
    ensures numbered { IfOk result (λ groups. AreNumbered leaders.now numbers.new (groups_of groups.items)) }
    ensures fault { IfErr result (λ fault. fault ≡ Memory) }
{
    let mut groups = Vec::new(alloc);
    for index in 0..leaders.len() {
        if leaders[index] == index {
            numbers[index] = groups.len();
            groups.push(Vec::new(alloc))?;
        }
    }
    Ok(groups)
}

/// Adds a walk to a group: in front if it has the front link, and else at the end.
fn add_walk(
    alloc: Global,
    group: &mut Vec<Vec<usize>>,
    walk: &[usize],
    front: usize,
) -> Result<(), Fault>
    ensures added { OnOk result (walks_of group.new.items ≡ (if list_any (λ i. i == front) walk.now
        then walk.now ∷ walks_of group.old.items else walks_of group.old.items ++ walk.now ∷ [])) }
    ensures fault { IfErr result (λ fault. fault ≡ Memory) }
{
    let mut copy = Vec::new(alloc);
    copy.extend_from_slice(walk)?;
    if has_number(walk, front) {
        group.insert(0, copy)?;
    } else {
        group.push(copy)?;
    }
    Ok(())
}

/// Whether a number is among others.
fn has_number(numbers: &[usize], number: usize) -> bool
    ensures { result ≡ list_any (λ n. n == number) numbers.now }
{
    numbers.iter().any(|n| *n == number)
}

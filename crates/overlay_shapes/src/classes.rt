// The classes into which joins put numbers: a union-find. This project's own.
ghost use Rattle.std.specs.Prelude.{◌≡◌, ℕ, ◌<◌, ◌≤◌, All, length, slice_index, IfOk, IfErr};
ghost use Rattle.overlay_base.specs.declared.segm.fault.Fault.TheVariants.{Memory};
ghost use Rattle.overlay_shapes.specs.Classes.{AreLeaders};
ghost use Rattle.overlay_shapes.specs.steps.Forests.{AreLow, HaveClasses, joined};

use overlay_base::segm::fault::Fault;
use std::alloc::Global;

/// Two numbers that belong together.
#[derive(Clone, Copy, Debug, PartialEq, Eq)]
pub struct Join {
    pub a: usize,
    pub b: usize,
}

/// The classes of the numbers below `count`, by the least number of each: at an index is the least number of the class
/// of that index. Two numbers are in one class exactly where joins link them, one after another.
///
/// Takes time nearly linear in numbers and joins. Returns `Fault::Memory` where a growth is refused.
pub fn leaders_of(alloc: Global, count: usize, joins: &[Join]) -> Result<Vec<usize>, Fault>
    requires within { All (λ j. (j.a < count) × (j.b < count)) joins.now }
    ensures leaders { IfOk result (λ leaders. AreLeaders count joins.now leaders.items) }
    ensures fault { IfErr result (λ fault. fault ≡ Memory) }
{
    let mut parents = numbers_below(alloc, count)?;
    for join in joins {
        join_classes(&mut parents, join.a, join.b);
    }
    let mut leaders = Vec::new(alloc);
    for number in 0..count {
        leaders.push(leader_of(&mut parents, number))?;
    }
    Ok(leaders)
}

/// Each number below `count`, in order.
///
/// Returns `Fault::Memory` where a growth is refused.
pub(crate) fn numbers_below(alloc: Global, count: usize) -> Result<Vec<usize>, Fault>
    ensures each { IfOk result (λ numbers. length numbers.items ≡ count) }
    ensures own { IfOk result (λ numbers. (i : ℕ) → i < count → slice_index numbers.items i ≡ i) }
    ensures fault { IfErr result (λ fault. fault ≡ Memory) }
{
    let mut numbers = Vec::new(alloc);
    for number in 0..count {
        numbers.push(number)?;
    }
    Ok(numbers)
}

/// Puts two classes together. The one with the greater leader comes under the other.
fn join_classes(parents: &mut [usize], a: usize, b: usize)
    requires a { a < length parents.old }
    requires b { b < length parents.old }
    requires low { AreLow parents.old }
    ensures low { AreLow parents.new }
    ensures joined { (classes : ℕ → ℕ) → HaveClasses parents.old classes
        → HaveClasses parents.new (joined classes a b) }
{
    let first = leader_of(parents, a);
    let second = leader_of(parents, b);
    parents[first.max(second)] = first.min(second);
}

/// The least number of a class. On the way there each second number is put under the one above its parent.
fn leader_of(parents: &mut [usize], number: usize) -> usize
    requires number { number < length parents.old }
    requires low { AreLow parents.old }
    ensures within { result < length parents.new }
    ensures low { AreLow parents.new }
    ensures top { slice_index parents.new result ≡ result }
    ensures kept { (classes : ℕ → ℕ) → HaveClasses parents.old classes → HaveClasses parents.new classes }
    ensures leader { (classes : ℕ → ℕ) → HaveClasses parents.old classes → result ≡ classes number }
{
    let mut at = number;
    let mut parent = parents[at];
    while parent != at {
        let above = parents[parent];
        parents[at] = above;
        at = above;
        parent = parents[at];
    }
    at
}

// Which regions of one list are related to which of another. Only those whose boxes share a point are looked at.
ghost use Rattle.std.specs.Prelude.{◌≡◌, ◌↔◌, ◌<◌, ◌++◌, ℕ, true, All, Contains, List, length, map, OnOk, IfOk, IfErr};
ghost use Rattle.overlay_relations.specs.steps.Columns.{members_of, AreAround};
ghost use Rattle.std.specs.List.{AllPairs, slice_index_or};
ghost use Rattle.overlay_relations.specs.Pairs.{Says, pair_of, AreRelatedPairs, IsPairRefusal, IsBoxOfSome};

use crate::columns::{Column, NumberedBox, columns_of, find_meeting};
use crate::predicate::Predicate;
use crate::region::Region;
use overlay_base::overlay_core::solver::Solver;
use overlay_contours::fault::ContourFault;
use overlay_geometry::num::OverlayInt;
use std::alloc::{AllocError, AllocFailed, Global};
use thiserror::Error;

/// The numbers of a first and of a second region.
#[derive(Clone, Copy, Debug, PartialEq, Eq)]
pub struct RelatedPair {
    /// The number of the region in the first list.
    pub first: usize,
    /// The number of the region in the second list.
    pub second: usize,
}

/// Why related pairs were refused.
#[derive(Clone, Copy, Debug, PartialEq, Eq, Error)]
pub enum PairFault {
    /// The relation of two regions was refused.
    #[error("regions {first} and {second}: {cause}")]
    Relation {
        /// The number of the region in the first list.
        first: usize,
        /// The number of the region in the second list.
        second: usize,
        /// Why it was refused.
        cause: ContourFault,
    },
    /// A growth of a list was refused.
    #[error("out of memory")]
    Memory,
}

impl From<AllocError> for PairFault {
    ghost use Rattle.overlay_relations.specs.declared.pairs.PairFault.TheVariants.{Memory};

    ghost from_gives = { λ error fault. fault ≡ Memory };

    fn from(_error: AllocError) -> PairFault {
        PairFault::Memory
    }
}

impl<T: Drop> From<AllocFailed<T>> for PairFault {
    ghost use Rattle.overlay_relations.specs.declared.pairs.PairFault.TheVariants.{Memory};

    ghost from_gives = { λ _ fault. fault ≡ Memory };

    fn from(_error: AllocFailed<T>) -> PairFault {
        PairFault::Memory
    }
}

/// The pairs of a first and a second region that are in a relation, by their numbers: in order, each once.
pub fn related_pairs<I: OverlayInt>(
    alloc: Global,
    first: &[Region<I>],
    second: &[Region<I>],
    predicate: Predicate,
    solver: &Solver,
) -> Result<Vec<RelatedPair>, PairFault>
    ensures pairs { IfOk result (λ pairs. AreRelatedPairs predicate (length first.now) first.now second.now pairs.items) }
    ensures refused { IfErr result (IsPairRefusal first.now second.now) }
{
    let columns = columns_of(alloc, boxes_of(alloc, second)?)?;
    let mut pairs = Vec::new(alloc);
    for number in 0..first.len() {
        let partners = partners_of(alloc, first, number, second, &columns, predicate, solver)?;
        add_pairs(&mut pairs, number, &partners)?;
    }
    Ok(pairs)
}

/// The boxes of regions that have points, with the numbers of the regions.
fn boxes_of<I: OverlayInt>(
    alloc: Global,
    regions: &[Region<I>],
) -> Result<Vec<NumberedBox<I>>, AllocError>
    ensures { IfOk result (λ boxes. (b : NumberedBox I) → Contains boxes.items b ↔ IsBoxOfSome (length regions.now) regions.now b) }
{
    let mut boxes = Vec::new(alloc);
    for number in 0..regions.len() {
        if let Some(bounds) = regions[number].bounds() {
            boxes.push(NumberedBox { number, bounds })?;
        }
    }
    Ok(boxes)
}

/// The numbers of the second regions that are related to one of the first, in order.
fn partners_of<I: OverlayInt>(
    alloc: Global,
    first: &[Region<I>],
    number: usize,
    second: &[Region<I>],
    columns: &[Column<I>],
    predicate: Predicate,
    solver: &Solver,
) -> Result<Vec<usize>, PairFault>
    requires number { number < length first.now }
    requires around { All (AreAround I.whole) columns.now }
    requires boxes { (b : NumberedBox I) → Contains (members_of columns.now) b ↔ IsBoxOfSome (length second.now) second.now b }
    ensures in_order { IfOk result (λ partners. AllPairs (λ x y. x < y) partners.items) }
    ensures numbered { IfOk result (λ partners. All (λ j. j < length second.now) partners.items) }
    ensures exact { IfOk result (λ partners. (j : ℕ) (x y : _) → j < length second.now
        → Says predicate (slice_index_or first.now number x) (slice_index_or second.now j y) (Contains partners.items j)) }
    ensures refused { IfErr result (IsPairRefusal first.now second.now) }
{
    let mut partners = Vec::new(alloc);
    let Some(bounds) = first[number].bounds() else {
        return Ok(partners);
    };
    let near = find_meeting(alloc, columns, &bounds)?;
    for other in &near {
        if is_partner(first, number, second, *other, predicate, solver)? {
            partners.push(*other)?;
        }
    }
    Ok(partners)
}

/// Whether two regions are related, by their numbers.
fn is_partner<I: OverlayInt>(
    first: &[Region<I>],
    number: usize,
    second: &[Region<I>],
    other: usize,
    predicate: Predicate,
    solver: &Solver,
) -> Result<bool, PairFault>
    requires number { number < length first.now }
    requires other { other < length second.now }
    ensures partner { IfOk result (λ found. (x y : _)
        → Says predicate (slice_index_or first.now number x) (slice_index_or second.now other y) (found ≡ true)) }
    ensures refused { IfErr result (IsPairRefusal first.now second.now) }
{
    match first[number].is_related(&second[other], predicate, solver) {
        Ok(found) => Ok(found),
        Err(cause) => Err(PairFault::Relation {
            first: number,
            second: other,
            cause,
        }),
    }
}

/// Adds pairs of a number and each of its partners.
fn add_pairs(
    pairs: &mut Vec<RelatedPair>,
    first: usize,
    partners: &[usize],
) -> Result<(), AllocError>
    ensures { OnOk result (pairs.new.items ≡ pairs.old.items ++ map (pair_of first) partners.now) }
{
    for second in partners {
        pairs.push(RelatedPair {
            first,
            second: *second,
        })?;
    }
    Ok(())
}

// The laws of winding counts, of joins and of stable sorts. Each function has an empty body, and its contract is
// proved for all whole numbers, all lists and all hooks.
ghost use Rattle.overlay_base.specs.Laws.{CountsAddUp, InverseCancels, PolygonCountsAreGroup, InverseTwice, InverseOfSum};
ghost use Rattle.overlay_base.specs.Laws.{JoinIsMap, MapIsItsWindings, JoinIsOnlyMap, JoinDependsOnWindings, JoinOfJoin, JoinOfMap, JoinOfParts, JoinOfPart, JoinOfPermutation, JoinHoldsPair, JoinIsNoLonger, NumbersAreLinear, JoinKeepsSums, JoinKeepsBalance, StableSortKeepsSums, NeighborsTellEqualPairs};
ghost use Rattle.overlay_base.specs.Laws.{BalanceIsTested, BalancedLosesNothing, AnyRayWillDo};
ghost use Rattle.overlay_base.specs.Laws.{DataJoinIsBeside, StoreKeepsWhatHooksKeep, StableSortIsUnique, StablySortedIsStable};

/// Counts are a commutative monoid, and those without a mask a group. A valid count is its inverse's inverse, and an
/// inverted sum is the sum of the inverted.
pub fn winding_laws()
    ensures adds_up { CountsAddUp }
    ensures cancels { InverseCancels }
    ensures group { PolygonCountsAreGroup }
    ensures inverse_twice { InverseTwice }
    ensures inverse_of_sum { InverseOfSum }
{}

/// The join of a bag of segments is the one map from pairs to counts with the windings of the bag. Joining again
/// changes nothing, parts of the bag may be joined beforehand, and the order of the bag does not count. It holds a pair
/// exactly where the counts on that pair do not cancel.
pub fn join_laws()
    ensures is_map { JoinIsMap }
    ensures is_its_windings { MapIsItsWindings }
    ensures is_only_map { JoinIsOnlyMap }
    ensures depends_on_windings { JoinDependsOnWindings }
    ensures of_join { JoinOfJoin }
    ensures of_map { JoinOfMap }
    ensures of_parts { JoinOfParts }
    ensures of_part { JoinOfPart }
    ensures of_permutation { JoinOfPermutation }
    ensures holds_pair { JoinHoldsPair }
    ensures no_longer { JoinIsNoLonger }
{}

/// A join changes no sum over the segments of a number of the pair times a linear number of the count, as `subj` and
/// `clip` are, and no point's balance.
pub fn join_sum_laws()
    ensures linear { NumbersAreLinear }
    ensures sums { JoinKeepsSums }
    ensures balance { JoinKeepsBalance }
{}

/// A stable sort by pair keeps the running sums of the counts at each pair, and with them whether one is too large.
pub fn running_sum_laws()
    ensures { StableSortKeepsSums }
{}

/// Of balanced segments: whatever number a function gives each point, as much of it is lost along
/// them as is gained. So the winding around a place on none of them follows from any of its four
/// rays, straight down, straight up, to the left or to the right: by the segments that the ray
/// meets, each counted by the side to which it crosses the ray.
pub fn ray_laws()
    ensures losses { BalancedLosesNothing }
    ensures any_ray { AnyRayWillDo }
{}

/// A list is balanced exactly where the counts at its ends cancel in a join: each segment's weight at its first end and
/// the inverse at its second one. So one sort and one walk test balance at all points.
pub fn balance_test_laws()
    ensures { BalanceIsTested }
{}

/// After a sort by pair, two neighbors have one pair exactly where two segments of the bag have.
pub fn equal_pair_laws()
    ensures { NeighborsTellEqualPairs }
{}

/// Whatever the hooks do, the join with data is, without its data, the join. Whatever holds of a store and is kept by
/// every hook holds of what calls of the hooks make of it.
pub fn data_join_laws<D, S>()
    ensures beside { DataJoinIsBeside D S }
    ensures keeps { StoreKeepsWhatHooksKeep D S }
{}

/// A list has one stable sort.
pub fn stable_sort_laws<T>()
    ensures unique { StableSortIsUnique T }
    ensures stable { StablySortedIsStable T }
{}

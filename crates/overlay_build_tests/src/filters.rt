// The filters of rules and of clips, by their functions and by their types, over all sixteen fills.

use overlay_base::segm::segment_fill::SegmentFill;
use overlay_upstream::build::clip_filter::*;
use overlay_upstream::build::filter::*;

/// What each filter keeps, in the order of `by_functions`.
const KEPT: [&[SegmentFill]; 11] = [
    &[1, 2, 5, 6, 9, 10, 13, 14],
    &[4, 5, 6, 7, 8, 9, 10, 11],
    &[5, 7, 10, 11, 13, 14],
    &[1, 2, 4, 5, 8, 10],
    &[1, 2, 6, 7, 9, 11],
    &[4, 6, 8, 9, 13, 14],
    &[1, 2, 4, 7, 8, 11, 13, 14],
    &[5, 6, 7, 9, 10, 11, 13, 14, 15],
    &[7, 11, 15],
    &[4, 8, 12],
    &[4, 5, 6, 8, 9, 10, 12, 13, 14],
];

fn by_functions(fill: SegmentFill) -> [bool; 11] {
    [
        is_subject(fill),
        is_clip(fill),
        is_intersect(fill),
        is_union(fill),
        is_difference(fill),
        is_inverse_difference(fill),
        is_xor(fill),
        is_clip_inside_boundary_included(fill),
        is_clip_inside_boundary_excluded(fill),
        is_clip_outside_boundary_included(fill),
        is_clip_outside_boundary_excluded(fill),
    ]
}

fn by_types(fill: SegmentFill) -> [bool; 11] {
    [
        SubjectFilter::is_included(fill),
        ClipFilter::is_included(fill),
        IntersectFilter::is_included(fill),
        UnionFilter::is_included(fill),
        DifferenceFilter::is_included(fill),
        InverseDifferenceFilter::is_included(fill),
        XorFilter::is_included(fill),
        ClipInsideBoundaryIncludedFilter::is_included(fill),
        ClipInsideBoundaryExcludedFilter::is_included(fill),
        ClipOutsideBoundaryIncludedFilter::is_included(fill),
        ClipOutsideBoundaryExcludedFilter::is_included(fill),
    ]
}

#[test]
fn filters_keep_the_fills_of_their_tables(rt: HostRuntime) {
    for fill in 0..16 {
        let wanted = KEPT.map(|kept| kept.contains(&fill));
        let found = [by_functions(fill), by_types(fill)];
        assert_eq!(rt; found, [wanted, wanted], "{fill}");
    }
}

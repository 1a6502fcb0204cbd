// Tests of `overlay_core::clip_rule`.

use overlay_base::overlay_core::clip_rule::*;
use overlay_base::segm::segment_fill::SegmentFill;
use std::test::Fail;

/// Inverted, boundary included, and the fills that are kept.
static TABLES: [(bool, bool, &[SegmentFill]); 4] = [
    (false, true, &[5, 6, 7, 9, 10, 11, 13, 14, 15]),
    (false, false, &[7, 11, 15]),
    (true, true, &[4, 8, 12]),
    (true, false, &[4, 5, 6, 8, 9, 10, 12, 13, 14]),
];

#[test]
fn rules_keep_the_fills_of_their_tables(rt: HostRuntime) -> Result<(), Fail> {
    for (invert, boundary_included, kept) in TABLES {
        let rule = ClipRule {
            invert,
            boundary_included,
        };
        for fill in 0..16 {
            assert_eq!(rt; rule.is_included(fill), kept.contains(&fill));
        }
    }
    Ok(())
}

// Tests of `overlay_core::fill_rule`.

use overlay_base::overlay_core::fill_rule::*;
use std::alloc::AllocError;

#[test]
fn each_rule_has_its_name(rt: HostRuntime) -> Result<(), AllocError> {
    let names = format!(in rt.alloc();
        "{} {} {} {}",
        FillRule::EvenOdd,
        FillRule::default(),
        FillRule::Positive,
        FillRule::Negative
    )?;
    assert_eq!(rt; names.as_str(), "EvenOdd NonZero Positive Negative");
    Ok(())
}

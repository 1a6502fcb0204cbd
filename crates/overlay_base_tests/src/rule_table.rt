// Tests of `overlay_core::rule_table`.
ghost use Rattle.std.specs.Prelude.{◌<◌};

use overlay_base::overlay_core::overlay_rule::OverlayRule;
use overlay_base::overlay_core::rule_table::*;
use std::process::Abort;
use std::test::Fail;

/// Each rule with a name, its table, and the table of the opposite.
const TABLES: [(OverlayRule, u8, u8); 7] = [
    (OverlayRule::Subject, 10, 5),
    (OverlayRule::Clip, 12, 3),
    (OverlayRule::Intersect, 8, 7),
    (OverlayRule::Union, 14, 1),
    (OverlayRule::Difference, 2, 13),
    (OverlayRule::InverseDifference, 4, 11),
    (OverlayRule::Xor, 6, 9),
];

fn table(bits: u8) -> Result<RuleTable, &'static str> {
    RuleTable::new(bits).ok_or("no table")
}

/// Compares the fills that a table keeps with those that a rule keeps, or with none.
fn compare_fills(rt: &impl Abort, bits: u8, rule: Option<OverlayRule>) -> Result<(), Fail> {
    let table = table(bits)?;
    for fill in 0..16 {
        let kept = rule.is_some_and(|rule| rule.is_included(fill));
        assert_eq!(rt; table.is_included(fill), kept, "table {bits}, fill {fill}");
    }
    Ok(())
}

#[test]
fn tables_keep_what_rules_keep(rt: HostRuntime) -> Result<(), Fail> {
    for (rule, bits, opposite) in TABLES {
        compare_fills(&rt, bits, Some(rule))?;
        compare_fills(&rt, opposite, Some(rule))?;
    }
    compare_fills(&rt, 0, None)?;
    compare_fills(&rt, 15, None)?;
    assert_eq!(rt; RuleTable::new(16), None);
    Ok(())
}

#[test]
fn tables_on_the_top_side(rt: HostRuntime) -> Result<(), Fail> {
    let (and, union, nand) = (table(8)?, table(14)?, table(7)?);
    let rows = [
        (OverlayRule::Union, 0, true),
        (OverlayRule::Union, 3, false),
        (OverlayRule::Union, 15, false),
        (OverlayRule::Table(union), 0, false),
        (OverlayRule::Table(union), 3, true),
        (OverlayRule::Table(union), 15, true),
        (OverlayRule::Table(and), 11, false),
        (OverlayRule::Table(nand), 11, true),
    ];
    for (rule, fill, is_top) in rows {
        assert_eq!(rt; (rule, fill, rule.is_fill_top(fill)), (rule, fill, is_top));
    }
    Ok(())
}

#[test]
fn a_table_has_its_number_as_name(rt: HostRuntime) -> Result<(), Fail> {
    let name = format!(in rt.alloc(); "{}", OverlayRule::Table(table(6)?))?;
    assert_eq!(rt; name.as_str(), "Table(6)");
    Ok(())
}

#[test]
fn each_rule_has_its_name(rt: HostRuntime) -> Result<(), Fail> {
    let mut names = Vec::new(rt.alloc());
    for (rule, _, _) in TABLES {
        names.push(format!(in rt.alloc(); "{rule}")?)?;
    }
    let written = [
        "Subject",
        "Clip",
        "Intersect",
        "Union",
        "Difference",
        "InverseDifference",
        "Xor",
    ];
    assert_eq!(rt; names.len(), written.len());
    for (name, text) in names.iter().zip(written) {
        assert_eq!(rt; name.as_str(), text);
    }
    Ok(())
}

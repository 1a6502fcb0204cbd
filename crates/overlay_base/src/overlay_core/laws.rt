// The laws of overlay rules and clip rules. Each function has an empty body, and its contract is proved for all rules.
ghost use Rattle.overlay_base.specs.ClipRules.{ClipRulesAreTheirTables, InvertedKeepsTheRest};
ghost use Rattle.overlay_base.specs.RuleLaws.{SameKeepTheSame, OppositesKeepTheSame, RulesAreTheirTables, ComplementsAreOpposite};

/// Truth functions that say the same, or everywhere the opposite, keep the same segments. Each rule says what its table
/// says, and the table of the other bits says the opposite: tables `t` and `15 - t` keep the same segments.
pub fn rule_laws()
    ensures same { SameKeepTheSame }
    ensures opposite { OppositesKeepTheSame }
    ensures tables { RulesAreTheirTables }
    ensures complement { ComplementsAreOpposite }
{}

/// A clip rule keeps exactly the fills of its table. Of the segments along which a line runs the inverted rule keeps
/// those that the rule with the same boundary drops; no rule keeps another segment.
pub fn clip_rule_laws()
    ensures tables { ClipRulesAreTheirTables }
    ensures inverted { InvertedKeepsTheRest }
{}

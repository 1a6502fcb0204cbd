// The words after the program's name: a command, and then settings as `name=value`.
ghost use Rattle.std.specs.Prelude.{◌≡◌, ◌≢◌, ◌↔◌, ℕ, ℤ, pos, List, Option, codes, None, unwrap_or, map, string_bytes, IsOk, IsNone, IsSome, IfSome, IfOk, IfErr, OnOk, OnErr, MatchOption};
ghost use Rattle.std.specs.Option.{option_map_or};
ghost use Rattle.overlay_text.specs.declared.settings.Command.{Command};
ghost use Rattle.overlay_text.specs.declared.settings.Engine.{Engine};
ghost use Rattle.overlay_text.specs.declared.settings.Rounding.{Rounding};
ghost use Rattle.overlay_base.specs.declared.overlay_core.fill_rule.FillRule.{FillRule};
ghost use Rattle.overlay_base.specs.declared.overlay_core.overlay_rule.OverlayRule.{OverlayRule};
ghost use Rattle.overlay_base.specs.declared.overlay_core.rule_table.RuleTable.{RuleTable};
ghost use Rattle.overlay_base.specs.declared.overlay_core.solver.Precision.{Precision};
ghost use Rattle.overlay_base.specs.declared.overlay_core.solver.Strategy.{Strategy};
ghost use Rattle.overlay_text.specs.Words.{NamesCommand, NamesEngine, NamesStrategy, NamesFillRule, IsRuleName, WritesTable, NamesRule, precision_of, IsPrecisionName, NamesPrecision, WritesLimit, WritesSquare, WritesRadius, NamesRounding, setting, IsName, IsSetting, WordsSet, SetNothing, WordsAsk, AskNothing, ReadsWord};

use crate::number::{number, short_number};
use crate::settings::{Command, Engine, Rounding, Settings, SquaredRadius};
use crate::stop::Stop;
use overlay_base::overlay_core::fill_rule::FillRule;
use overlay_base::overlay_core::overlay_rule::OverlayRule;
use overlay_base::overlay_core::rule_table::RuleTable;
use overlay_base::overlay_core::solver::{Precision, Strategy};

const GREATEST_RADIUS: u64 = 1 << 56;

/// The command and the settings that the words choose. Anything else is `Stop::Usage`.
pub fn read_words(words: &[String]) -> Result<(Command, Settings), Stop>
    ensures asked { IfOk result (λ asked. WordsAsk (map string_bytes words.now) asked.0 asked.1) }
    ensures usage { IfErr result (λ stop. (stop ≡ Stop.Usage) × AskNothing (map string_bytes words.now)) }
{
    let (first, others) = words.split_first().ok_or(Stop::Usage)?;
    let command = command(first.as_str()).ok_or(Stop::Usage)?;
    let settings = read_settings(others)?;
    Ok((command, settings))
}

/// The settings that words of the form `name=value` choose. Anything else is `Stop::Usage`.
pub fn read_settings(words: &[String]) -> Result<Settings, Stop>
    ensures set { IfOk result (λ settings. WordsSet (map string_bytes words.now) settings) }
    ensures usage { IfErr result (λ stop. (stop ≡ Stop.Usage) × SetNothing (map string_bytes words.now)) }
{
    let mut choices = Choices::NONE;
    for word in words {
        choices.read(word.as_str())?;
    }
    Ok(choices.settings())
}

/// The parts of a word `name=value`.
fn name_and_value(word: &str) -> Option<(&str, &str)>
    ensures { MatchOption result ((name value : List ℕ) → word.now ≢ setting name value)
        (λ parts. (word.now ≡ setting parts.0.now parts.1.now) × IsName parts.0.now) }
{
    word.split_once('=')
}

/// The command of that name.
fn command(name: &str) -> Option<Command>
    ensures { MatchOption result ((command : Command) → ¬ (NamesCommand name.now command)) (NamesCommand name.now) }
{
    match name {
        "join" => Some(Command::Join),
        "cross" => Some(Command::Cross),
        "split" => Some(Command::Split),
        "graph" => Some(Command::Graph),
        "walks" => Some(Command::Walks),
        _ => None,
    }
}

/// The engine of that name.
fn engine(name: &str) -> Option<Engine>
    ensures { MatchOption result ((engine : Engine) → ¬ (NamesEngine name.now engine)) (NamesEngine name.now) }
{
    match name {
        "i16" => Some(Engine::I16),
        "i32" => Some(Engine::I32),
        _ => None,
    }
}

/// The strategy of that name.
fn strategy(name: &str) -> Option<Strategy>
    ensures { MatchOption result ((strategy : Strategy) → ¬ (NamesStrategy name.now strategy))
        (NamesStrategy name.now) }
{
    match name {
        "list" => Some(Strategy::List),
        "tree" => Some(Strategy::Tree),
        "frag" => Some(Strategy::Frag),
        "auto" => Some(Strategy::Auto),
        _ => None,
    }
}

/// The rounding of that name.
fn rounding(name: &str) -> Option<Rounding>
    ensures { MatchOption result ((rounding : Rounding) → ¬ (NamesRounding name.now rounding))
        (NamesRounding name.now) }
{
    match name {
        "pairwise" => Some(Rounding::Pairwise),
        "hot_pixels" => Some(Rounding::HotPixels),
        _ => None,
    }
}

/// The fill rule of that name.
fn fill_rule(name: &str) -> Option<FillRule>
    ensures { MatchOption result ((fill_rule : FillRule) → ¬ (NamesFillRule name.now fill_rule))
        (NamesFillRule name.now) }
{
    match name {
        "evenodd" => Some(FillRule::EvenOdd),
        "nonzero" => Some(FillRule::NonZero),
        "positive" => Some(FillRule::Positive),
        "negative" => Some(FillRule::Negative),
        _ => None,
    }
}

/// The rule that a word names: `all` is a graph without a rule, and `table:N` the rule of a table.
fn rule(value: &str) -> Option<Option<OverlayRule>>
    ensures { MatchOption result ((rule : Option OverlayRule) → ¬ (NamesRule value.now rule)) (NamesRule value.now) }
{
    match value.strip_prefix("table:") {
        Some(digits) => match rule_table(digits) {
            Some(table) => Some(Some(OverlayRule::Table(table))),
            None => None,
        },
        None => named_rule(value),
    }
}

/// The rule of that name, or none, which keeps all links.
fn named_rule(name: &str) -> Option<Option<OverlayRule>>
    ensures { MatchOption result ((rule : Option OverlayRule) → ¬ (IsRuleName name.now rule)) (IsRuleName name.now) }
{
    let rule = match name {
        "all" => return Some(None),
        "subject" => OverlayRule::Subject,
        "clip" => OverlayRule::Clip,
        "intersect" => OverlayRule::Intersect,
        "union" => OverlayRule::Union,
        "difference" => OverlayRule::Difference,
        "inverse-difference" => OverlayRule::InverseDifference,
        "xor" => OverlayRule::Xor,
        _ => return None,
    };
    Some(Some(rule))
}

/// The table of the number that the digits write: 0 to 15, without leading zeros.
fn rule_table(digits: &str) -> Option<RuleTable>
    ensures { MatchOption result ((table : RuleTable) → ¬ (WritesTable digits.now table)) (WritesTable digits.now) }
{
    let bits = number(digits)?;
    let wanted = if bits < 10 { 1 } else { 2 };
    if bits > 15 || digits.len() != wanted {
        return None;
    }
    RuleTable::new(bits as u8)
}

/// The settings that words have chosen so far.
#[derive(Clone, Copy)]
pub struct Choices {
    engine: Option<Engine>,
    strategy: Option<Strategy>,
    precision: Option<Precision>,
    fill_rule: Option<FillRule>,
    rule: Option<Option<OverlayRule>>,
    snap_limit: Option<u32>,
    radius: Option<SquaredRadius>,
    rounding: Option<Rounding>,
}

impl Choices {
    /// No choices.
    pub const NONE: Self = Choices {
        engine: None,
        strategy: None,
        precision: None,
        fill_rule: None,
        rule: None,
        snap_limit: None,
        radius: None,
        rounding: None,
    };

    /// Takes one word of the form `name=value`.
    pub fn read(&mut self, word: &str) -> Result<(), Stop>
        ensures known { OnOk result (IsSetting word.now) }
        ensures engine { ReadsWord result (codes "engine") NamesEngine word.now self.old.engine self.new.engine }
        ensures strategy { ReadsWord result
            (codes "strategy") NamesStrategy word.now self.old.strategy self.new.strategy }
        ensures precision { ReadsWord result
            (codes "precision") NamesPrecision word.now self.old.precision self.new.precision }
        ensures fill { ReadsWord result (codes "fill") NamesFillRule word.now self.old.fill_rule self.new.fill_rule }
        ensures rule { ReadsWord result (codes "rule") NamesRule word.now self.old.rule self.new.rule }
        ensures limit { ReadsWord result (codes "limit") WritesLimit word.now self.old.snap_limit self.new.snap_limit }
        ensures radius { ReadsWord result (codes "radius") WritesRadius word.now self.old.radius self.new.radius }
        ensures rounding { ReadsWord result
            (codes "rounding") NamesRounding word.now self.old.rounding self.new.rounding }
        ensures usage { IfErr result (λ stop. stop ≡ Stop.Usage) }
    {
        let (name, value) = name_and_value(word).ok_or(Stop::Usage)?;
        match name {
            "engine" => choose(&mut self.engine, engine(value)),
            "strategy" => choose(&mut self.strategy, strategy(value)),
            "precision" => choose(&mut self.precision, precision(value)),
            "fill" => choose(&mut self.fill_rule, fill_rule(value)),
            "rule" => choose(&mut self.rule, rule(value)),
            "limit" => choose(&mut self.snap_limit, snap_limit(value)),
            "radius" => choose(&mut self.radius, radius(value)),
            "rounding" => choose(&mut self.rounding, rounding(value)),
            _ => Err(Stop::Usage),
        }
    }

    /// What was chosen, and else what holds without a choice.
    pub fn settings(&self) -> Settings
        ensures engine { result.engine ≡ unwrap_or self.now.engine Engine.I32 }
        ensures strategy { result.strategy ≡ unwrap_or self.now.strategy Strategy.Auto }
        ensures precision { result.precision ≡ unwrap_or self.now.precision (precision_of 0 1) }
        ensures fill { result.fill_rule ≡ unwrap_or self.now.fill_rule FillRule.NonZero }
        ensures rule { result.rule ≡ unwrap_or self.now.rule None }
        ensures limit { result.snap_limit ≡ unwrap_or self.now.snap_limit 256 }
        ensures radius { result.radius.squared ≡ option_map_or (λ radius. radius.squared) self.now.radius (pos 1) }
        ensures rounding { result.rounding ≡ unwrap_or self.now.rounding Rounding.Pairwise }
    {
        Settings {
            engine: self.engine.unwrap_or(Engine::I32),
            strategy: self.strategy.unwrap_or(Strategy::Auto),
            precision: self.precision.unwrap_or(Precision::HIGH),
            fill_rule: self.fill_rule.unwrap_or(FillRule::NonZero),
            rule: self.rule.unwrap_or(None),
            snap_limit: self.snap_limit.unwrap_or(256),
            radius: self.radius.unwrap_or(SquaredRadius { squared: 1 }),
            rounding: self.rounding.unwrap_or(Rounding::Pairwise),
        }
    }
}

/// Makes a choice that was not made before.
fn choose<T: Copy>(slot: &mut Option<T>, value: Option<T>) -> Result<(), Stop>
    ensures once { IsOk result ↔ (IsNone slot.old × IsSome value) }
    ensures ok { OnOk result (slot.new ≡ value) }
    ensures err { OnErr result (slot.new ≡ slot.old) }
    ensures usage { IfErr result (λ stop. stop ≡ Stop.Usage) }
{
    if slot.is_some() || value.is_none() {
        return Err(Stop::Usage);
    }
    *slot = value;
    Ok(())
}

/// A precision by its name, or as `START,STEP`.
fn precision(value: &str) -> Option<Precision>
    ensures { MatchOption result ((precision : Precision) → ¬ (NamesPrecision value.now precision))
        (NamesPrecision value.now) }
{
    match value.split_once(',') {
        Some((start, step)) => Some(Precision {
            start: short_number(start)? as usize,
            progression: short_number(step)? as usize,
        }),
        None => named_precision(value),
    }
}

/// The precision of that name.
fn named_precision(name: &str) -> Option<Precision>
    ensures { MatchOption result ((precision : Precision) → ¬ (IsPrecisionName name.now precision))
        (IsPrecisionName name.now) }
{
    match name {
        "absolute" => Some(Precision::ABSOLUTE),
        "high" => Some(Precision::HIGH),
        "medium-high" => Some(Precision::MEDIUM_HIGH),
        "medium" => Some(Precision::MEDIUM),
        "medium-low" => Some(Precision::MEDIUM_LOW),
        "low" => Some(Precision::LOW),
        _ => None,
    }
}

/// The number of passes that a value writes.
fn snap_limit(value: &str) -> Option<u32>
    ensures { MatchOption result ((limit : ℕ) → ¬ (WritesLimit value.now limit)) (WritesLimit value.now) }
{
    u32::try_from(number(value)?).ok()
}

/// The squared radius that a value writes.
fn radius(value: &str) -> Option<SquaredRadius>
    ensures { MatchOption result ((squared : ℤ) → ¬ (WritesSquare value.now squared)) (WritesRadius value.now) }
{
    match number(value)? {
        squared @ 1..=GREATEST_RADIUS => Some(SquaredRadius {
            squared: squared as i64,
        }),
        _ => None,
    }
}

// The program: which words it reads, and what it returns.
ghost use Rattle.std.specs.Prelude.{◌≡◌, ◌⊎◌, ℕ, true, false, List, Ok, Err, codes, IfOk, IfErr, map, string_bytes};
ghost use Rattle.overlay_base.specs.declared.overlay_core.overlay_rule.OverlayRule.{OverlayRule};
ghost use Rattle.overlay_base.specs.declared.segm.fault.Fault.TheVariants.{Memory};
ghost use Rattle.overlay_text.specs.declared.stop.Stop.{Stop};
ghost use Rattle.overlay_text.specs.Words.{setting};
ghost use Rattle.overlay_text.specs.declared.settings.Settings.{Settings};
ghost use Rattle.polygons.specs.RelationText.{IsGivenRelation};
ghost use Rattle.polygons.specs.Run.{IsNotForArrange, Set, is_among, is_flag, without_flags, rounding_by, has_others, is_mixed, sets_rule, is_of_overlay, have_overlay_word, contour_shape_among, others_among, rules_by, adds_rule, IsOverlayText, IsRulesText, IsShapesText, IsWktText, IsContourAnswer, IsWktAnswer, IsRuleAnswer, IsOverlayAnswer, IsRelationAnswer, IsPolygonsAnswer, polygons_behavior};

use crate::contour_lines::read_contours;
use crate::contour_output::{write_contours, write_overlays, write_report, write_shapes};
use crate::explain::{Reading, explain_line, explain_words, no_rule};
use crate::relation_output::relation_text;
use crate::wkt_lines::read_wkt;
use crate::wkt_output::write_multipolygon;
use overlay_base::overlay_core::overlay_rule::OverlayRule;
use overlay_base::segm::shape_type::ShapeType;
use overlay_contours::rounding::Rounding;
use overlay_geometry::num::OverlayInt;
use overlay_text::settings::{Engine, Settings};
use overlay_text::shell::Program;
use overlay_text::stop::Stop;
use overlay_text::words::Choices as SettingChoices;
use std::alloc::{AllocError, Global};

/// What the words choose.
#[derive(Clone, Copy, Debug, PartialEq)]
pub struct Choices {
    /// Whether the contours are put into shapes.
    pub in_shapes: bool,
    /// Whether the output ends with what the run reports.
    pub has_report: bool,
    /// Whether crossings are rounded pair by pair, as upstream does, and not by snap rounding.
    pub is_pairwise: bool,
    /// Whether the input and the output are WKT.
    pub is_wkt: bool,
    /// Whether the output is the relation of both shapes, and not an overlay.
    pub is_relation: bool,
    /// The shape of the contours on lines of an output.
    pub contour_shape: ShapeType,
    /// Of each rule in `OTHER_RULES` whether its overlay is written too.
    pub others: [bool; 7],
    pub settings: Settings,
}

/// The rules that a word `also=NAME` adds, in the order in which their overlays are written.
const OTHER_RULES: [OverlayRule; 7] = [
    OverlayRule::Subject,
    OverlayRule::Clip,
    OverlayRule::Intersect,
    OverlayRule::Union,
    OverlayRule::Difference,
    OverlayRule::InverseDifference,
    OverlayRule::Xor,
];

impl Choices {
    /// How the choices have crossings rounded.
    fn rounding(&self) -> Rounding
        ensures { result ≡ rounding_by self.now }
    {
        if self.is_pairwise {
            Rounding::Pairwise
        } else {
            Rounding::HotPixels
        }
    }

    /// Whether a word adds a rule.
    fn has_others(&self) -> bool
        ensures { result ≡ has_others self.now }
    {
        for is_chosen in &self.others {
            if *is_chosen {
                return true;
            }
        }
        false
    }

    /// Whether a word adds a rule to an output that is not of contours alone.
    fn is_mixed(&self) -> bool
        ensures { result ≡ is_mixed self.now }
    {
        self.has_others() && (self.in_shapes || self.is_wkt)
    }

    /// The rule that is chosen, and behind it those that words add.
    fn rules(&self, alloc: Global, rule: OverlayRule) -> Result<Vec<OverlayRule>, AllocError>
        ensures { IfOk result (λ rules. rules.items ≡ rules_by self.now rule) }
    {
        let mut rules = Vec::new(alloc);
        rules.push(rule)?;
        for (index, is_chosen) in self.others.iter().enumerate() {
            if *is_chosen {
                rules.push(OTHER_RULES[index])?;
            }
        }
        Ok(rules)
    }
}

/// The program `polygons`: the contract of a run is that of `run_over`, with this program's `behavior`.
pub struct PolygonsProgram;

impl Program for PolygonsProgram {
    type Choices = Choices;

    ghost behavior = { polygons_behavior };

    fn usage() -> &'static str {
        "usage: polygons rule=NAME [also=NAME ..] [shapes] [report] [pairwise] [contours=clip] [format=wkt] [fill|engine|precision|strategy=VALUE ..], or polygons relate [contours=clip] [format=wkt] [fill|engine=VALUE ..]"
    }

    fn read_words(words: &[String]) -> Result<Choices, Stop> {
        let settings = read_polygon_settings(words)?;
        let choices = Choices {
            in_shapes: is_among(words, "shapes"),
            has_report: is_among(words, "report"),
            is_pairwise: is_among(words, "pairwise"),
            is_wkt: is_among(words, "format=wkt"),
            is_relation: is_among(words, "relate"),
            contour_shape: contour_shape(words),
            others: other_rules(words),
            settings,
        };
        if choices.is_mixed() {
            return Err(Stop::Usage);
        }
        if choices.is_relation && have_overlay_word(words) {
            return Err(Stop::Usage);
        }
        Ok(choices)
    }

    fn answer(alloc: Global, choices: Choices, bytes: &[u8]) -> Result<String, Stop> {
        match choices.settings.engine {
            Engine::I16 => answer_with::<i16>(alloc, choices, bytes),
            Engine::I32 => answer_with::<i32>(alloc, choices, bytes),
        }
    }

    fn explain(
        alloc: Global,
        words: &[String],
        bytes: &[u8],
        stop: Stop,
    ) -> Result<String, AllocError> {
        match stop {
            Stop::Usage => explain_words(alloc, words),
            Stop::NoRule => no_rule(alloc),
            Stop::Line { number, fault } => {
                let reading = Reading {
                    is_wkt: is_among(words, "format=wkt"),
                    range: if is_among(words, "engine=i16") {
                        (i16::MIN_COORD.to_wide(), i16::MAX_COORD.to_wide())
                    } else {
                        (i32::MIN_COORD.to_wide(), i32::MAX_COORD.to_wide())
                    },
                };
                explain_line(alloc, bytes, number, fault, reading)
            }
            _ => Ok(String::new(alloc)),
        }
    }
}

/// Whether one of the words is this one.
fn is_among(words: &[String], name: &str) -> bool
    ensures { result ≡ is_among (map string_bytes words.now) name.now }
{
    for word in words {
        if word.as_str() == name {
            return true;
        }
    }
    false
}

/// The shape that the words choose for the contours on lines of an output.
fn contour_shape(words: &[String]) -> ShapeType
    ensures { result ≡ contour_shape_among (map string_bytes words.now) }
{
    if is_among(words, "contours=clip") {
        ShapeType::Clip
    } else {
        ShapeType::Subject
    }
}

/// Which of the rules in `OTHER_RULES` the words add.
fn other_rules(words: &[String]) -> [bool; 7]
    ensures { result ≡ others_among (map string_bytes words.now) }
{
    [
        is_among(words, "also=subject"),
        is_among(words, "also=clip"),
        is_among(words, "also=intersect"),
        is_among(words, "also=union"),
        is_among(words, "also=difference"),
        is_among(words, "also=inverse-difference"),
        is_among(words, "also=xor"),
    ]
}

/// Whether a word chooses something by itself.
pub fn is_flag(word: &str) -> bool
    ensures { result ≡ is_flag word.now }
{
    word == "shapes"
        || word == "report"
        || word == "pairwise"
        || word == "format=wkt"
        || word == "contours=clip"
        || word == "relate"
        || adds_rule(word)
}

/// Whether a word adds a rule.
pub fn adds_rule(word: &str) -> bool
    ensures { result ≡ adds_rule word.now }
{
    word == "also=subject"
        || word == "also=clip"
        || word == "also=intersect"
        || word == "also=union"
        || word == "also=difference"
        || word == "also=inverse-difference"
        || word == "also=xor"
}

/// Whether a word chooses something of an overlay: what its output is, how crossings are rounded, or a rule.
pub fn is_of_overlay(word: &str) -> bool
    ensures { result ≡ is_of_overlay word.now }
{
    word == "shapes" || word == "report" || word == "pairwise" || adds_rule(word) || sets_rule(word)
}

/// Whether a word sets the rule.
fn sets_rule(word: &str) -> bool
    ensures { result ≡ sets_rule word.now }
{
    word.starts_with("rule=")
}

/// Whether one of the words does so.
fn have_overlay_word(words: &[String]) -> bool
    ensures { result ≡ have_overlay_word (map string_bytes words.now) }
{
    for word in words {
        if is_of_overlay(word.as_str()) {
            return true;
        }
    }
    false
}

/// The settings that the words choose, but for the flags among them. None of them may set the limit, the radius or
/// the rounding.
pub fn read_polygon_settings(words: &[String]) -> Result<Settings, Stop>
    ensures set { IfOk result (λ settings. Set (without_flags (map string_bytes words.now)) settings) }
    ensures usage { IfErr result (λ stop. (stop ≡ Stop.Usage)
        × ((settings : Settings) → ¬ (Set (without_flags (map string_bytes words.now)) settings))) }
{
    let mut choices = SettingChoices::NONE;
    for word in words {
        let word = word.as_str();
        if is_flag(word) {
            continue;
        }
        if is_for_arrange(word) {
            return Err(Stop::Usage);
        }
        choices.read(word)?;
    }
    Ok(choices.settings())
}

/// Whether a word sets the limit, the radius or the rounding, none of which `polygons` reads: `pairwise` chooses its rounding.
pub fn is_for_arrange(word: &str) -> bool
    ensures some { result ≡ true → (value : List ℕ) × ((word.now ≡ setting (codes "limit") value)
        ⊎ (word.now ≡ setting (codes "radius") value) ⊎ (word.now ≡ setting (codes "rounding") value)) }
    ensures none { result ≡ false → IsNotForArrange word.now }
{
    matches!(
        word.split_once('='),
        Some(("limit" | "radius" | "rounding", _))
    )
}

/// The text of the relation or of the overlay of the contours that the input writes.
fn answer_with<I: OverlayInt>(alloc: Global, choices: Choices, bytes: &[u8]) -> Result<String, Stop>
    ensures text { IfOk result (λ text. IsPolygonsAnswer (I.whole I.MIN_COORD) (I.whole I.MAX_COORD) I.BITS
        choices bytes.now (Ok (string_bytes text))) }
    ensures stop { IfErr result (λ stop. (stop ≡ Stop.Refused Memory)
        ⊎ IsPolygonsAnswer (I.whole I.MIN_COORD) (I.whole I.MAX_COORD) I.BITS choices bytes.now (Err stop)) }
{
    if choices.is_relation {
        relation_of::<I>(alloc, choices, bytes)
    } else {
        overlay_of::<I>(alloc, choices, bytes)
    }
}

/// The text of the relation of the contours that the input writes.
fn relation_of<I: OverlayInt>(alloc: Global, choices: Choices, bytes: &[u8]) -> Result<String, Stop>
    ensures text { IfOk result (λ text. IsRelationAnswer (I.whole I.MIN_COORD) (I.whole I.MAX_COORD)
        choices bytes.now (Ok (string_bytes text))) }
    ensures stop { IfErr result (λ stop. (stop ≡ Stop.Refused Memory)
        ⊎ IsRelationAnswer (I.whole I.MIN_COORD) (I.whole I.MAX_COORD) choices bytes.now (Err stop)) }
{
    if choices.is_wkt {
        wkt_relation::<I>(alloc, choices, bytes)
    } else {
        contours_relation::<I>(alloc, choices, bytes)
    }
}

/// The same, of lines of contours.
fn contours_relation<I: OverlayInt>(
    alloc: Global,
    choices: Choices,
    bytes: &[u8],
) -> Result<String, Stop>
    ensures text { IfOk result (λ text. IsContourAnswer choices.contour_shape (I.whole I.MIN_COORD) (I.whole I.MAX_COORD)
        (IsGivenRelation choices.settings.fill_rule) bytes.now (Ok (string_bytes text))) }
    ensures stop { IfErr result (λ stop. (stop ≡ Stop.Refused Memory)
        ⊎ IsContourAnswer choices.contour_shape (I.whole I.MIN_COORD) (I.whole I.MAX_COORD)
        (IsGivenRelation choices.settings.fill_rule) bytes.now (Err stop)) }
{
    let overlay = read_contours::<I>(alloc, choices.contour_shape, bytes)?;
    relation_text(alloc, &overlay, choices.settings)
}

/// The same, of WKT.
fn wkt_relation<I: OverlayInt>(
    alloc: Global,
    choices: Choices,
    bytes: &[u8],
) -> Result<String, Stop>
    ensures text { IfOk result (λ text. IsWktAnswer (I.whole I.MIN_COORD) (I.whole I.MAX_COORD)
        (IsGivenRelation choices.settings.fill_rule) bytes.now (Ok (string_bytes text))) }
    ensures stop { IfErr result (λ stop. (stop ≡ Stop.Refused Memory)
        ⊎ IsWktAnswer (I.whole I.MIN_COORD) (I.whole I.MAX_COORD)
        (IsGivenRelation choices.settings.fill_rule) bytes.now (Err stop)) }
{
    let overlay = read_wkt::<I>(alloc, bytes)?;
    relation_text(alloc, &overlay, choices.settings)
}

/// The text of the overlay of the contours that the input writes, by the rule that is chosen.
fn overlay_of<I: OverlayInt>(alloc: Global, choices: Choices, bytes: &[u8]) -> Result<String, Stop>
    ensures text { IfOk result (λ text. IsOverlayAnswer (I.whole I.MIN_COORD) (I.whole I.MAX_COORD) I.BITS
        choices bytes.now (Ok (string_bytes text))) }
    ensures stop { IfErr result (λ stop. (stop ≡ Stop.Refused Memory)
        ⊎ IsOverlayAnswer (I.whole I.MIN_COORD) (I.whole I.MAX_COORD) I.BITS choices bytes.now (Err stop)) }
{
    let rule = choices.settings.rule.ok_or(Stop::NoRule)?;
    answer_under::<I>(alloc, choices, rule, bytes)
}

/// The same, under a rule.
fn answer_under<I: OverlayInt>(
    alloc: Global,
    choices: Choices,
    rule: OverlayRule,
    bytes: &[u8],
) -> Result<String, Stop>
    ensures text { IfOk result (λ text. IsRuleAnswer (I.whole I.MIN_COORD) (I.whole I.MAX_COORD) I.BITS
        choices rule bytes.now (Ok (string_bytes text))) }
    ensures stop { IfErr result (λ stop. (stop ≡ Stop.Refused Memory)
        ⊎ IsRuleAnswer (I.whole I.MIN_COORD) (I.whole I.MAX_COORD) I.BITS choices rule bytes.now (Err stop)) }
{
    if choices.has_others() {
        rules_under::<I>(alloc, choices, rule, bytes)
    } else if choices.is_wkt {
        wkt_under::<I>(alloc, choices, rule, bytes)
    } else if choices.in_shapes {
        shapes_under::<I>(alloc, choices, rule, bytes)
    } else {
        contours_under::<I>(alloc, choices, rule, bytes)
    }
}

/// The same, not in shapes.
fn contours_under<I: OverlayInt>(
    alloc: Global,
    choices: Choices,
    rule: OverlayRule,
    bytes: &[u8],
) -> Result<String, Stop>
    ensures text { IfOk result (λ text. IsContourAnswer choices.contour_shape (I.whole I.MIN_COORD) (I.whole I.MAX_COORD)
        (IsOverlayText I.BITS choices rule) bytes.now (Ok (string_bytes text))) }
    ensures stop { IfErr result (λ stop. (stop ≡ Stop.Refused Memory)
        ⊎ IsContourAnswer choices.contour_shape (I.whole I.MIN_COORD) (I.whole I.MAX_COORD)
        (IsOverlayText I.BITS choices rule) bytes.now (Err stop)) }
{
    let settings = choices.settings;
    let mut overlay = read_contours::<I>(alloc, choices.contour_shape, bytes)?;
    overlay.set_rounding(choices.rounding());
    let contours = overlay.overlay(&settings.solver(), settings.fill_rule, rule)?;
    let mut text = String::new(alloc);
    write_contours(&mut text, contours.as_slice())?;
    write_report(&mut text, choices.has_report, &overlay)?;
    Ok(text)
}

/// The same by several rules.
fn rules_under<I: OverlayInt>(
    alloc: Global,
    choices: Choices,
    rule: OverlayRule,
    bytes: &[u8],
) -> Result<String, Stop>
    ensures text { IfOk result (λ text. IsContourAnswer choices.contour_shape (I.whole I.MIN_COORD) (I.whole I.MAX_COORD)
        (IsRulesText I.BITS choices (rules_by choices rule)) bytes.now (Ok (string_bytes text))) }
    ensures stop { IfErr result (λ stop. (stop ≡ Stop.Refused Memory)
        ⊎ IsContourAnswer choices.contour_shape (I.whole I.MIN_COORD) (I.whole I.MAX_COORD)
        (IsRulesText I.BITS choices (rules_by choices rule)) bytes.now (Err stop)) }
{
    let settings = choices.settings;
    let rules = choices.rules(alloc, rule)?;
    let mut overlay = read_contours::<I>(alloc, choices.contour_shape, bytes)?;
    overlay.set_rounding(choices.rounding());
    let overlays = overlay.overlay_by_rules(&settings.solver(), settings.fill_rule, &rules)?;
    let mut text = String::new(alloc);
    write_overlays(&mut text, &rules, &overlays)?;
    write_report(&mut text, choices.has_report, &overlay)?;
    Ok(text)
}

/// The same in shapes.
fn shapes_under<I: OverlayInt>(
    alloc: Global,
    choices: Choices,
    rule: OverlayRule,
    bytes: &[u8],
) -> Result<String, Stop>
    ensures text { IfOk result (λ text. IsContourAnswer choices.contour_shape (I.whole I.MIN_COORD) (I.whole I.MAX_COORD)
        (IsShapesText I.BITS choices rule) bytes.now (Ok (string_bytes text))) }
    ensures stop { IfErr result (λ stop. (stop ≡ Stop.Refused Memory)
        ⊎ IsContourAnswer choices.contour_shape (I.whole I.MIN_COORD) (I.whole I.MAX_COORD)
        (IsShapesText I.BITS choices rule) bytes.now (Err stop)) }
{
    let settings = choices.settings;
    let mut overlay = read_contours::<I>(alloc, choices.contour_shape, bytes)?;
    overlay.set_rounding(choices.rounding());
    let shapes = overlay.overlay_shapes(&settings.solver(), settings.fill_rule, rule)?;
    let mut text = String::new(alloc);
    write_shapes(&mut text, shapes.as_slice())?;
    write_report(&mut text, choices.has_report, &overlay)?;
    Ok(text)
}

/// The same in shapes, where the input and the output are WKT.
fn wkt_under<I: OverlayInt>(
    alloc: Global,
    choices: Choices,
    rule: OverlayRule,
    bytes: &[u8],
) -> Result<String, Stop>
    ensures text { IfOk result (λ text. IsWktAnswer (I.whole I.MIN_COORD) (I.whole I.MAX_COORD)
        (IsWktText I.BITS choices rule) bytes.now (Ok (string_bytes text))) }
    ensures stop { IfErr result (λ stop. (stop ≡ Stop.Refused Memory)
        ⊎ IsWktAnswer (I.whole I.MIN_COORD) (I.whole I.MAX_COORD)
        (IsWktText I.BITS choices rule) bytes.now (Err stop)) }
{
    let settings = choices.settings;
    let mut overlay = read_wkt::<I>(alloc, bytes)?;
    overlay.set_rounding(choices.rounding());
    let solver = settings.solver();
    let shapes = overlay.overlay_shapes(&solver, settings.fill_rule, rule)?;
    let mut text = String::new(alloc);
    write_multipolygon(&mut text, shapes.as_slice())?;
    write_report(&mut text, choices.has_report, &overlay)?;
    Ok(text)
}

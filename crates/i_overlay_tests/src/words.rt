// Each word that chooses a setting, alone after a command, and each command alone.
use overlay_base::overlay_core::fill_rule::FillRule;
use overlay_base::overlay_core::overlay_rule::OverlayRule;
use overlay_base::overlay_core::solver::{Precision, Strategy};
use overlay_text::settings::{Command, Engine, Rounding, Settings, SquaredRadius};
use overlay_text::stop::Stop;
use overlay_text::words::read_words;
use std::alloc::Global;

const UNCHOSEN: Settings = Settings {
    engine: Engine::I32,
    strategy: Strategy::Auto,
    precision: Precision {
        start: 0,
        progression: 1,
    },
    fill_rule: FillRule::NonZero,
    rule: None,
    snap_limit: 256,
    radius: SquaredRadius { squared: 1 },
    rounding: Rounding::Pairwise,
};

/// What one word chooses.
#[derive(Clone, Copy)]
enum Choice {
    Engine(Engine),
    Strategy(Strategy),
    /// The exponent of the first radius, and what each pass adds to it.
    Precision(usize, usize),
    FillRule(FillRule),
    Rule(Option<OverlayRule>),
    Limit(u32),
    Radius(SquaredRadius),
    Rounding(Rounding),
}

const CHOICES: [(&str, Choice); 42] = [
    ("engine=i16", Choice::Engine(Engine::I16)),
    ("engine=i32", Choice::Engine(Engine::I32)),
    ("strategy=list", Choice::Strategy(Strategy::List)),
    ("strategy=tree", Choice::Strategy(Strategy::Tree)),
    ("strategy=frag", Choice::Strategy(Strategy::Frag)),
    ("strategy=auto", Choice::Strategy(Strategy::Auto)),
    ("precision=absolute", Choice::Precision(0, 0)),
    ("precision=high", Choice::Precision(0, 1)),
    ("precision=medium-high", Choice::Precision(1, 1)),
    ("precision=medium", Choice::Precision(0, 2)),
    ("precision=medium-low", Choice::Precision(2, 2)),
    ("precision=low", Choice::Precision(2, 3)),
    ("precision=0,0", Choice::Precision(0, 0)),
    ("precision=3,1", Choice::Precision(3, 1)),
    ("precision=000000003,01", Choice::Precision(3, 1)),
    (
        "precision=999999999,999999999",
        Choice::Precision(999999999, 999999999),
    ),
    ("fill=evenodd", Choice::FillRule(FillRule::EvenOdd)),
    ("fill=nonzero", Choice::FillRule(FillRule::NonZero)),
    ("fill=positive", Choice::FillRule(FillRule::Positive)),
    ("fill=negative", Choice::FillRule(FillRule::Negative)),
    ("rule=subject", Choice::Rule(Some(OverlayRule::Subject))),
    ("rule=clip", Choice::Rule(Some(OverlayRule::Clip))),
    ("rule=intersect", Choice::Rule(Some(OverlayRule::Intersect))),
    ("rule=union", Choice::Rule(Some(OverlayRule::Union))),
    (
        "rule=difference",
        Choice::Rule(Some(OverlayRule::Difference)),
    ),
    (
        "rule=inverse-difference",
        Choice::Rule(Some(OverlayRule::InverseDifference)),
    ),
    ("rule=xor", Choice::Rule(Some(OverlayRule::Xor))),
    ("rule=all", Choice::Rule(None)),
    ("limit=0", Choice::Limit(0)),
    ("limit=1", Choice::Limit(1)),
    ("limit=256", Choice::Limit(256)),
    ("limit=007", Choice::Limit(7)),
    ("limit=4294967295", Choice::Limit(4294967295)),
    (
        "limit=000000000000000000000000000000256",
        Choice::Limit(256),
    ),
    ("radius=1", Choice::Radius(SquaredRadius { squared: 1 })),
    ("radius=5", Choice::Radius(SquaredRadius { squared: 5 })),
    ("radius=0004", Choice::Radius(SquaredRadius { squared: 4 })),
    (
        "radius=72057594037927935",
        Choice::Radius(SquaredRadius {
            squared: 72057594037927935,
        }),
    ),
    (
        "radius=72057594037927936",
        Choice::Radius(SquaredRadius {
            squared: 72057594037927936,
        }),
    ),
    (
        "radius=00000000000000000000000000000000072057594037927936",
        Choice::Radius(SquaredRadius {
            squared: 72057594037927936,
        }),
    ),
    ("rounding=pairwise", Choice::Rounding(Rounding::Pairwise)),
    ("rounding=hot_pixels", Choice::Rounding(Rounding::HotPixels)),
];

const COMMANDS: [(&str, Command); 5] = [
    ("join", Command::Join),
    ("cross", Command::Cross),
    ("split", Command::Split),
    ("graph", Command::Graph),
    ("walks", Command::Walks),
];

/// The settings where a word chooses this, and nothing else is chosen.
fn settings_of(choice: Choice) -> Settings {
    let mut settings = UNCHOSEN;
    match choice {
        Choice::Engine(engine) => settings.engine = engine,
        Choice::Strategy(strategy) => settings.strategy = strategy,
        Choice::Precision(start, progression) => settings.precision = Precision {
            start,
            progression,
        },
        Choice::FillRule(fill_rule) => settings.fill_rule = fill_rule,
        Choice::Rule(rule) => settings.rule = rule,
        Choice::Limit(limit) => settings.snap_limit = limit,
        Choice::Radius(radius) => settings.radius = radius,
        Choice::Rounding(rounding) => settings.rounding = rounding,
    }
    settings
}

/// What a command's word chooses, and one word after it where there is one.
fn chosen(alloc: Global, name: &str, word: Option<&str>) -> Result<(Command, Settings), Stop> {
    let mut words = Vec::new(alloc);
    words.push(String::from_str(alloc, name)?)?;
    if let Some(word) = word {
        words.push(String::from_str(alloc, word)?)?;
    }
    read_words(&words)
}

#[test]
fn words_choose_settings(rt: HostRuntime) {
    for (word, choice) in CHOICES {
        let found = chosen(rt.alloc(), "split", Some(word));
        assert!(rt;
            found == Ok((Command::Split, settings_of(choice))),
            "{word}"
        );
    }
}

#[test]
fn words_choose_commands(rt: HostRuntime) {
    for (name, command) in COMMANDS {
        let found = chosen(rt.alloc(), name, None);
        assert!(rt; found == Ok((command, UNCHOSEN)), "{name}");
    }
}

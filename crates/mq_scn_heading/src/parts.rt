//! The lines of the heading, and those with which sections, scripts, monitors and steps begin: their words and their
//! order.

ghost use Rattle.std.specs.Prelude.{◌≡◌};
ghost use Rattle.mq_scn_heading.specs.Parts.{part_text, part_word_of, stage_rank, from_stage, up_to_stage, stage_behind, is_full, room_of, allowed};

use mq_history::Scenario;
use mq_scn_lines::{Limit, LineFault};

/// The word with which a part begins.
#[derive(Clone, Copy)]
pub enum PartWord {
    Network,
    Moment,
    Manager,
    Cable,
    Mqsc,
    Rules,
    Script,
    Monitor,
    Steps,
}

/// How far the parts have come.
#[derive(Clone, Copy, PartialEq, Eq)]
pub enum Stage {
    /// Nothing was read.
    Start,
    Network,
    Moment,
    Managers,
    Cables,
    /// Sections, scripts and monitors, in any order.
    Sections,
    Steps,
}

/// Every word of a part.
pub const PART_WORDS: [PartWord; 9] = [
    PartWord::Network,
    PartWord::Moment,
    PartWord::Manager,
    PartWord::Cable,
    PartWord::Mqsc,
    PartWord::Rules,
    PartWord::Script,
    PartWord::Monitor,
    PartWord::Steps,
];

fn part_text(word: PartWord) -> &'static str
    ensures { result.now ≡ part_text word }
{
    match word {
        PartWord::Network => "NETWORK",
        PartWord::Moment => "MOMENT",
        PartWord::Manager => "QMGR",
        PartWord::Cable => "CABLE",
        PartWord::Mqsc => "MQSC",
        PartWord::Rules => "RULES",
        PartWord::Script => "SCRIPT",
        PartWord::Monitor => "MONITOR",
        PartWord::Steps => "STEPS",
    }
}

/// The part that begins with a word.
#[tactic(auto, unfolding(crate::specs::Parts::part_word_of))]
pub fn part_word_of(word: &[u8]) -> Option<PartWord>
    ensures { result ≡ part_word_of word.now }
{
    PART_WORDS
        .iter()
        .copied()
        .find(|part| part_text(*part).as_bytes() == word)
}

fn stage_rank(stage: Stage) -> u8
    ensures { result ≡ stage_rank stage }
{
    match stage {
        Stage::Start => 0,
        Stage::Network => 1,
        Stage::Moment => 2,
        Stage::Managers => 3,
        Stage::Cables => 4,
        Stage::Sections => 5,
        Stage::Steps => 6,
    }
}

/// The first stage at which a part may stand.
fn from_stage(word: PartWord) -> Stage
    ensures { result ≡ from_stage word }
{
    match word {
        PartWord::Network => Stage::Start,
        PartWord::Moment | PartWord::Manager => Stage::Network,
        PartWord::Cable
        | PartWord::Mqsc
        | PartWord::Rules
        | PartWord::Script
        | PartWord::Monitor
        | PartWord::Steps => Stage::Managers,
    }
}

/// The last stage at which a part may stand.
fn up_to_stage(word: PartWord) -> Stage
    ensures { result ≡ up_to_stage word }
{
    match word {
        PartWord::Network => Stage::Start,
        PartWord::Moment => Stage::Network,
        PartWord::Manager => Stage::Managers,
        PartWord::Cable => Stage::Cables,
        PartWord::Mqsc | PartWord::Rules | PartWord::Script | PartWord::Monitor | PartWord::Steps =>
            Stage::Sections,
    }
}

/// The stage behind a part.
fn stage_behind(word: PartWord) -> Stage
    ensures { result ≡ stage_behind word }
{
    match word {
        PartWord::Network => Stage::Network,
        PartWord::Moment => Stage::Moment,
        PartWord::Manager => Stage::Managers,
        PartWord::Cable => Stage::Cables,
        PartWord::Mqsc | PartWord::Rules | PartWord::Script | PartWord::Monitor => Stage::Sections,
        PartWord::Steps => Stage::Steps,
    }
}

fn room_of(count: usize, most: usize, limit: Limit) -> Option<Limit>
    ensures { result ≡ room_of count most limit }
{
    if count < most { None } else { Some(limit) }
}

/// The limit that one more such part would pass.
fn is_full(scenario: &Scenario, word: PartWord) -> Option<Limit>
    ensures { result ≡ is_full scenario.now word }
{
    match word {
        PartWord::Manager => room_of(scenario.managers.len(), 8, Limit::Managers),
        PartWord::Cable => room_of(scenario.cables.len(), 32, Limit::Cables),
        PartWord::Script => room_of(scenario.scripts.len(), 64, Limit::Scripts),
        PartWord::Mqsc | PartWord::Rules => room_of(
            scenario.sections.len().saturating_add(scenario.rules.len()),
            64,
            Limit::Sections,
        ),
        PartWord::Monitor => room_of(scenario.monitors.len(), 16, Limit::Monitors),
        PartWord::Network | PartWord::Moment | PartWord::Steps => None,
    }
}

/// The stage behind a part, where there is room for it and it may stand here.
///
/// # Errors
///
/// The limit that it would pass; else `Order`.
pub fn allowed(scenario: &Scenario, stage: Stage, word: PartWord) -> Result<Stage, LineFault>
    ensures { result ≡ allowed scenario.now stage word }
{
    if let Some(limit) = is_full(scenario, word) {
        return Err(LineFault::Limit(limit));
    }
    let rank = stage_rank(stage);
    if rank < stage_rank(from_stage(word)) || stage_rank(up_to_stage(word)) < rank {
        return Err(LineFault::Order);
    }
    Ok(stage_behind(word))
}

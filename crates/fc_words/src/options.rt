//! Each word that a subcommand may have: its name, its help and its default in one item, and how its value is read in the
//! function below.

ghost use Rattle.std.specs.Prelude.{◌≤◌, IfSome};

use crate::bound_names::{BOUND_NAMES, bound_of_name};
use crate::commands::{BestSearchWords, FileWord, GameWords, SearchWords};
use crate::expansion_names::{EXPANSION_NAMES, expansion_of_name, usual_expansion};
use crate::faults::WordsFault;
use crate::forms::{COLOURS_NAMES, Colours, EntriesForm, MovesForm};
use crate::game_names::GameName;
use crate::weights::weight_of;
use clap::ArgMatches;
use fc_home::GREATEST_RULE;
use fc_methods::{BoundKind, Expansion, HomeRule, MOST_BUDGET, Weight};
use fc_typed::read_count;

/// What a word of a subcommand is.
#[derive(Clone, Copy)]
pub(crate) enum Kind {
    /// An option with a number in a range; help calls it by the value's name.
    Number {
        value: &'static str,
        range: (u8, u8),
        default: &'static str,
    },
    /// An option with one of these names, the first of which is the default.
    Name(&'static [&'static str]),
    /// An option with one of these names, and the one that is meant where none is told hangs on other words.
    NameByOthers(&'static [&'static str]),
    /// An option with a text, and the text where none is given.
    Text {
        value: &'static str,
        default: Option<&'static str>,
    },
    /// A flag.
    Flag,
    /// A flag in place of the words of these names.
    FlagInPlaceOf(&'static [&'static str]),
    /// An option with the number of a deal, in place of the word of this name.
    DealInPlaceOf(&'static str),
    /// An option with the number of an entry, from 1 on, in place of the words of these names.
    EntryInPlaceOf(&'static [&'static str]),
    /// The number of a deal, which must stand there.
    DealNumber,
    /// The number of a deal, which must stand there but where the option of this name does.
    DealNumberUnless(&'static str),
    /// An option with the paths of one file or more.
    Files,
    /// An option with the paths of one file or more, in place of the words of these names.
    FilesInPlaceOf(&'static [&'static str]),
    /// A word that must stand there.
    Needed,
    /// A word that must stand there but where the option of this name does.
    NeededUnless(&'static str),
    /// A word that may stand there.
    Optional,
}

/// A word of a subcommand, and its help.
#[derive(Clone, Copy)]
pub(crate) struct Word {
    pub(crate) name: &'static str,
    pub(crate) kind: Kind,
    pub(crate) help: &'static str,
}

pub(crate) const GAME: Word = Word {
    name: "game",
    kind: Kind::Name(&GameName::NAMES),
    help: "freecell (in turning colours) or bakers (in suit)",
};

fn game_name(words: &ArgMatches<'_>) -> Option<GameName> {
    GameName::of_name(words.get_str(GAME.name)?)
}

pub(crate) const KINGS: Word = Word {
    name: "kings",
    kind: Kind::Flag,
    help: "Only kings may go to an empty column",
};

pub(crate) const CELLS: Word = Word {
    name: "cells",
    kind: Kind::Number {
        value: "N",
        range: (0, MOST_CELLS),
        default: "4",
    },
    help: "How many cells there are, 0 to 4",
};

/// The most cells of a game.
pub(crate) const MOST_CELLS: u8 = 4;

fn cells(words: &ArgMatches<'_>) -> Option<u8>
    ensures most { IfSome result (λ cells. cells ≤ MOST_CELLS) }
{
    let cells = words.get_one::<u8>(CELLS.name)?;
    (cells <= MOST_CELLS).then_some(cells)
}

/// The game that the words name.
pub(crate) fn game(words: &ArgMatches<'_>) -> Option<GameWords>
    ensures cells { IfSome result (λ game. game.cells ≤ MOST_CELLS) }
{
    Some(GameWords {
        game: game_name(words)?,
        kings: words.get_flag(KINGS.name),
        cells: cells(words)?,
    })
}

/// `--budget` of one search.
pub(crate) const BUDGET: Word = Word {
    name: BUDGET_NAME,
    kind: Kind::Text {
        value: "B",
        default: Some(USUAL_BUDGET),
    },
    help: "Positions to keep before giving up, to 4M or max",
};

/// `--budget` of all searches for the best answer.
pub(crate) const BEST_BUDGET: Word = Word {
    name: BUDGET_NAME,
    kind: Kind::Text {
        value: "B",
        default: Some(USUAL_BEST_BUDGET),
    },
    help: "Positions to keep before giving up, to 16M; max is 4M",
};

/// `--budget` of either.
pub(crate) const BATCH_BUDGET: Word = Word {
    name: BUDGET_NAME,
    kind: Kind::Text {
        value: "B",
        default: None,
    },
    help: "Positions to keep, to 4M: 100000; by --best to 16M: 500000",
};

const BUDGET_NAME: &str = "budget";

const USUAL_BUDGET: &str = "100000";

const USUAL_BEST_BUDGET: &str = "500000";

// The budget that is told, else the usual one.
fn budget(words: &ArgMatches<'_>, usual: &str) -> Result<u32, WordsFault> {
    match words.get_str(BUDGET_NAME).unwrap_or(usual) {
        "max" => Ok(MOST_BUDGET),
        text => read_count(text.as_bytes()).ok_or(WordsFault::NoBudget),
    }
}

pub(crate) const RULE: Word = Word {
    name: "rule",
    kind: Kind::Number {
        value: "R",
        range: (0, GREATEST_RULE),
        default: "2",
    },
    help: "Cards sent home at once: none (0); those on which no card that is
left may stand (1); those on which none may but such (2)",
};

fn rule(words: &ArgMatches<'_>) -> Option<HomeRule> {
    HomeRule::new(words.get_one::<u8>(RULE.name)?)
}

pub(crate) const WITHIN: Word = Word {
    name: "within",
    kind: Kind::Text {
        value: "W",
        default: Some("1"),
    },
    help: "At most W times the fewest moves, 1.0 to 10.0; found sooner",
};

fn weight(words: &ArgMatches<'_>) -> Result<Weight, WordsFault> {
    match words.get_str(WITHIN.name) {
        Some(text) => weight_of(text.as_bytes()).ok_or(WordsFault::NoWeight),
        None => Err(WordsFault::Missing),
    }
}

pub(crate) const BOUND: Word = Word {
    name: "bound",
    kind: Kind::Name(&BOUND_NAMES),
    help: "How to look ahead: plain, or clearing, which answers more",
};

fn bound(words: &ArgMatches<'_>) -> Option<BoundKind> {
    bound_of_name(words.get_str(BOUND.name)?)
}

pub(crate) const EXPAND: Word = Word {
    name: "expand",
    kind: Kind::NameByOthers(&EXPANSION_NAMES),
    help: "What to keep: full, or partial, fewer positions in more time",
};

// The expansion that is told, else the usual one by this bound.
fn expansion(words: &ArgMatches<'_>, bound: BoundKind) -> Option<Expansion> {
    match words.get_str(EXPAND.name) {
        Some(name) => expansion_of_name(name),
        None => Some(usual_expansion(bound)),
    }
}

/// How the words ask to search.
pub(crate) fn search(words: &ArgMatches<'_>) -> Result<SearchWords, WordsFault> {
    let budget = budget(words, USUAL_BUDGET)?;
    let weight = weight(words)?;
    let (Some(rule), Some(bound)) = (rule(words), bound(words)) else {
        return Err(WordsFault::Missing);
    };
    let Some(expansion) = expansion(words, bound) else {
        return Err(WordsFault::Missing);
    };
    Ok(SearchWords {
        rule,
        weight,
        bound,
        expansion,
        budget,
    })
}

/// How the words ask to search for the best answer.
pub(crate) fn best_search(words: &ArgMatches<'_>) -> Result<BestSearchWords, WordsFault> {
    let budget = budget(words, USUAL_BEST_BUDGET)?;
    let Some(rule) = rule(words) else {
        return Err(WordsFault::Missing);
    };
    Ok(BestSearchWords { rule, budget })
}

pub(crate) const BOARDS: Word = Word {
    name: "boards",
    kind: Kind::FlagInPlaceOf(&["words", "json"]),
    help: "Tells the moves in words, and draws the board after each",
};

pub(crate) const WORDS: Word = Word {
    name: "words",
    kind: Kind::FlagInPlaceOf(&["boards", "json"]),
    help: "Tells the moves in words, a line each",
};

pub(crate) const IN_SEQUENCES: Word = Word {
    name: "sequences",
    kind: Kind::FlagInPlaceOf(&["json"]),
    help: "Joins moves that carry several cards, as a player's hand does",
};

pub(crate) const IN_JSON: Word = Word {
    name: "json",
    kind: Kind::FlagInPlaceOf(&["boards", "words", "sequences"]),
    help: "Prints the answer as a JSON object, for other programs",
};

/// How the moves of an answer are to be told.
pub(crate) fn form(words: &ArgMatches<'_>) -> MovesForm {
    if words.get_flag(IN_SEQUENCES.name) {
        MovesForm::Sequences(entries_form(words))
    } else if words.get_flag(BOARDS.name) {
        MovesForm::Boards
    } else if words.get_flag(WORDS.name) {
        MovesForm::InWords
    } else if words.get_flag(IN_JSON.name) {
        MovesForm::Json
    } else {
        MovesForm::Letters
    }
}

// How entries that may move several cards are to be told.
fn entries_form(words: &ArgMatches<'_>) -> EntriesForm {
    if words.get_flag(BOARDS.name) {
        EntriesForm::Boards
    } else if words.get_flag(WORDS.name) {
        EntriesForm::InWords
    } else {
        EntriesForm::Letters
    }
}

pub(crate) const COLOR: Word = Word {
    name: "color",
    kind: Kind::Name(&COLOURS_NAMES),
    help: "Red suits in red: auto, always (as for less -R) or never",
};

/// When red suits are to be in red.
pub(crate) fn colours(words: &ArgMatches<'_>) -> Option<Colours> {
    Colours::of_name(words.get_str(COLOR.name)?)
}

pub(crate) const QUIET: Word = Word {
    name: "quiet",
    kind: Kind::Flag,
    help: "Doesn't say on a terminal how far the search is",
};

pub(crate) const SEQUENCES: Word = Word {
    name: "sequences",
    kind: Kind::Flag,
    help: "Expands entries that move several cards, as other solvers print them",
};

pub(crate) const MOVES: Word = Word {
    name: MOVES_NAME,
    kind: Kind::Needed,
    help: MOVES_HELP,
};

pub(crate) const MOVES_NAME: &str = "MOVES";

pub(crate) const MOVES_HELP: &str =
    "A file of moves, or - for standard input: two letters each, or what `solve` prints";

/// What the word of this name names.
pub(crate) fn file<'a>(words: &ArgMatches<'a>, name: &str) -> Option<FileWord<'a>> {
    match words.get_str(name)? {
        "-" => Some(FileWord::Input),
        path => Some(FileWord::File(path)),
    }
}

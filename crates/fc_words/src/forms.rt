ghost use Rattle.std.specs.Prelude.{◌≡◌, IfSome, IfNone};
ghost use Rattle.fc_words.specs.Names.{are_shown, colours_name};
ghost use Rattle.fc_words.specs.declared.forms.Colours.{Colours};

use crate::name_places::place_of;

/// How the moves of an answer are told.
#[derive(Clone, Copy)]
pub enum MovesForm {
    /// By two letters each, in one line.
    Letters,
    /// In words, a line each.
    InWords,
    /// In words, with the board drawn after each.
    Boards,
    /// As entries that may move several cards.
    Sequences(EntriesForm),
    /// By two letters each, in a JSON object with the answer.
    Json,
}

/// How entries that may move several cards are told.
#[derive(Clone, Copy)]
pub enum EntriesForm {
    /// By two letters each, and how many cards where that isn't plain, in one line.
    Letters,
    /// In words, a line each.
    InWords,
    /// In words, with the board drawn after each.
    Boards,
}

/// What is printed of a replay.
#[derive(Clone, Copy)]
pub enum ReplayForm {
    /// The board after each move.
    Boards,
    /// The same, below a line with the number and the move.
    Numbered,
    /// The board drawn after each move, or each entry that may move several cards, below a line with its number and it in words.
    Drawn(Colours),
    /// The one-card moves alone, in one line.
    Expanded,
    /// The board alone after so many entries of the list.
    BoardAfter(u32),
    /// The one-card moves and how the list ended, or why it stopped, in a JSON object.
    Json,
}

/// When red suits are shown in red.
#[derive(Clone, Copy)]
pub enum Colours {
    /// On a terminal.
    Auto,
    /// Everywhere.
    Always,
    /// Nowhere.
    Never,
}

/// Each choice's name, in the order of the choices; the first is meant where none is told.
pub(crate) const COLOURS_NAMES: [&str; 3] = ["auto", "always", "never"];

// The choices.
const COLOURS: [Colours; 3] = [Colours::Auto, Colours::Always, Colours::Never];

impl Colours {
    /// The name of the choice.
    pub fn name(self) -> &'static str
        ensures value { result.now ≡ colours_name self }
    {
        COLOURS_NAMES[self as usize]
    }

    /// The choice of this name; `None` where it is none's.
    pub fn of_name(name: &str) -> Option<Colours>
        ensures named { IfSome result (λ colours. colours_name colours ≡ name.now) }
        ensures unknown { IfNone result ((colours : Colours) → colours_name colours ≡ name.now → ⊥) }
    {
        let place = place_of(COLOURS_NAMES.as_slice(), name)?;
        COLOURS.get(place).copied()
    }

    /// Whether red suits are shown in red.
    pub fn are_shown(self, is_terminal: bool) -> bool
        ensures value { result ≡ are_shown self is_terminal }
    {
        match self {
            Colours::Auto => is_terminal,
            Colours::Always => true,
            Colours::Never => false,
        }
    }
}

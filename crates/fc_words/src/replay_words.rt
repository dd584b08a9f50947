//! `replay`: its words, its help, and how what it asks for is read.

ghost use Rattle.std.specs.Prelude.{◌≤◌, IfOk};
ghost use Rattle.fc_words.specs.Sound.{HasOneInput};
ghost use Rattle.fc_words.specs.declared.options.TheConstants.{MOST_CELLS};

use crate::board_words::{GUESS, NEEDED_BOARD, ROWS, needed_board};
use crate::commands::{BoardWord, FileWord, ReplayWords};
use crate::faults::WordsFault;
use crate::forms::{Colours, ReplayForm};
use crate::link_words::PLAIN_LINK;
use crate::options::{
    CELLS, COLOR, GAME, KINGS, Kind, MOVES, SEQUENCES, Word, colours, file, game,
};
use crate::subcommands::Subcommand;
use clap::ArgMatches;

// `replay`: its words and its help.
pub(crate) static REPLAYING: Subcommand = Subcommand {
    about: "Prints the board after each move, up to the first that isn't allowed",
    after_help: "It says on standard error whether the board is won at the end, or which entry of the list is
refused, on which line it stands, and why.

With --sequences an entry may move several cards, --drawn draws the board after each entry, and a
list in the words of Freecell Solver is read too. Where it isn't told how many cards go to an
empty column, it is so many that the whole list can be played; before entry N there may then be
several boards: --board-at N prints the one to which the entries before it lead where they are
the whole list.

Status: 0 the list was replayed, 1 it doesn't win, where it must, 3 something asked or read isn't
right, 4 want of memory, 5 reading or writing failed.

Examples:
  fc_solve replay boards/three-spades.txt moves.txt
  fc_solve 941 | fc_solve replay 941 -
  fc_solve 941 | fc_solve replay --drawn 941 -
  fc-solve -m -sn board.txt | fc_solve replay --sequences board.txt -
  fc-solve -m board.txt | fc_solve replay --sequences --expanded board.txt -",
    words: &[
        NUMBERED,
        DRAWN,
        EXPANDED,
        BOARD_AT,
        REPLAY_IN_JSON,
        SEQUENCES,
        MUST_WIN,
        PLAIN_LINK,
        COLOR,
        GAME,
        KINGS,
        CELLS,
        ROWS,
        GUESS,
        NEEDED_BOARD,
        MOVES,
    ],
};

const NUMBERED: Word = Word {
    name: "numbered",
    kind: Kind::FlagInPlaceOf(&["drawn", "expanded", "board-at", "json"]),
    help: "Prints the number and the move above each board",
};

const DRAWN: Word = Word {
    name: "drawn",
    kind: Kind::FlagInPlaceOf(&["numbered", "expanded", "board-at", "json"]),
    help: "Draws each board as `show` does, below the move in words",
};

const EXPANDED: Word = Word {
    name: "expanded",
    kind: Kind::FlagInPlaceOf(&["numbered", "drawn", "board-at", "json"]),
    help: "Prints the one-card moves alone, on one line, as `solve` does",
};

const BOARD_AT: Word = Word {
    name: "board-at",
    kind: Kind::EntryInPlaceOf(&["numbered", "drawn", "expanded", "must-win", "json"]),
    help: "Prints only the board before entry N of the list, from 1 on",
};

const REPLAY_IN_JSON: Word = Word {
    name: "json",
    kind: Kind::FlagInPlaceOf(&["numbered", "drawn", "expanded", "board-at", "link"]),
    help: "Prints how the list ended, and its moves, as a JSON object",
};

const MUST_WIN: Word = Word {
    name: "must-win",
    kind: Kind::FlagInPlaceOf(&["board-at"]),
    help: "Ends with status 1 where the board isn't won at the end",
};

// What is to be printed of a replay.
fn form(words: &ArgMatches<'_>) -> ReplayForm {
    if let Some(entry) = words.get_one::<u32>(BOARD_AT.name) {
        // (the table of words lets no number below 1 through)
        ReplayForm::BoardAfter(entry.saturating_sub(1))
    } else if words.get_flag(REPLAY_IN_JSON.name) {
        ReplayForm::Json
    } else if words.get_flag(EXPANDED.name) {
        ReplayForm::Expanded
    } else if words.get_flag(DRAWN.name) {
        // (the table of words has a choice where none is told)
        ReplayForm::Drawn(colours(words).unwrap_or(Colours::Auto))
    } else if words.get_flag(NUMBERED.name) {
        ReplayForm::Numbered
    } else {
        ReplayForm::Boards
    }
}

/// What `replay` asks for.
pub(crate) fn replay<'a>(words: &ArgMatches<'a>) -> Result<ReplayWords<'a>, WordsFault>
    ensures cells { IfOk result (λ replay. replay.game.cells ≤ MOST_CELLS) }
    ensures one_input { IfOk result (λ replay. HasOneInput replay.board.word replay.moves) }
{
    let (Some(game), Some(board), Some(moves)) = (
        game(words),
        needed_board(words),
        file(words, MOVES.name),
    ) else {
        return Err(WordsFault::Missing);
    };
    if let (BoardWord::Input, FileWord::Input) = (board.word, moves) {
        return Err(WordsFault::OneInput(MOVES.name));
    }
    Ok(ReplayWords {
        game,
        board,
        moves,
        form: form(words),
        has_link: words.get_flag(PLAIN_LINK.name),
        has_sequences: words.get_flag(SEQUENCES.name),
        must_win: words.get_flag(MUST_WIN.name),
    })
}

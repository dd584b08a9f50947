//! The words that name a board, and say how its text is read.

use crate::commands::{BoardWord, BoardWords, TextWords};
use crate::options::{Kind, Word};
use clap::ArgMatches;

pub(crate) const BOARD: &str = "BOARD";

pub(crate) const BOARD_HELP: &str =
    "A file, - for standard input, or the number of a deal. A board's text
has a line a column, the deepest card first; a card is its rank,
A 2 to 9 T J Q K, and its suit, C D H S: `4S TD 9C`. An empty line
is an empty column. What is home and in the cells may be told too:
`Foundations: H-J C-K D-K S-J` and `Freecells: KH QS`. A `#` begins
a comment. With --rows a line is a row across the columns instead";

/// `[BOARD]`.
pub(crate) const OPTIONAL_BOARD: Word = Word {
    name: BOARD,
    kind: Kind::Optional,
    help: BOARD_HELP,
};

/// `BOARD`.
pub(crate) const NEEDED_BOARD: Word = Word {
    name: BOARD,
    kind: Kind::Needed,
    help: BOARD_HELP,
};

/// `--deal N`, in place of `[BOARD]`.
pub(crate) const DEAL: Word = Word {
    name: "deal",
    kind: Kind::DealInPlaceOf(BOARD),
    help: "The numbered deal in place of BOARD, 1 to 1000000",
};

pub(crate) const ROWS: Word = Word {
    name: "rows",
    kind: Kind::Flag,
    help: "Reads BOARD in rows across the table, as `show` draws it",
};

pub(crate) const GUESS: Word = Word {
    name: "guess",
    kind: Kind::Flag,
    help: "Takes for home what BOARD lacks, where it is runs from the aces",
};

/// How the words ask to read the texts of boards.
pub(crate) fn text(words: &ArgMatches<'_>) -> TextWords {
    TextWords {
        is_in_rows: words.get_flag(ROWS.name),
        is_guessed: words.get_flag(GUESS.name),
    }
}

/// The board that `--deal N` or `[BOARD]` names: standard input where neither is there.
pub(crate) fn optional_board<'a>(words: &ArgMatches<'a>) -> BoardWords<'a> {
    let word = match words.get_one::<u32>(DEAL.name) {
        Some(number) => BoardWord::Deal(number),
        None => board_word(words).unwrap_or(BoardWord::Input),
    };
    BoardWords {
        word,
        text: text(words),
    }
}

/// The board that `BOARD` names.
pub(crate) fn needed_board<'a>(words: &ArgMatches<'a>) -> Option<BoardWords<'a>> {
    Some(BoardWords {
        word: board_word(words)?,
        text: text(words),
    })
}

// What names the board, where `BOARD` does.
fn board_word<'a>(words: &ArgMatches<'a>) -> Option<BoardWord<'a>> {
    match words.get_str(BOARD)? {
        "-" => Some(BoardWord::Input),
        word => Some(BoardWord::Named(word)),
    }
}

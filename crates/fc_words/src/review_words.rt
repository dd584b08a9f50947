//! `review`: its words, its help, and how what it asks for is read.

ghost use Rattle.std.specs.Prelude.{◌≤◌, IfOk};
ghost use Rattle.fc_words.specs.Sound.{ReviewsInputOnce};
ghost use Rattle.fc_words.specs.declared.options.TheConstants.{MOST_CELLS};

use crate::batch_words::has_input_twice;
use crate::board_words::{BOARD, BOARD_HELP, GUESS, ROWS, needed_board, text};
use crate::commands::{BoardWord, FileWord, ReviewLists, ReviewWords};
use crate::faults::WordsFault;
use crate::link_words::PLAIN_LINK;
use crate::options::{
    BEST_BUDGET, CELLS, GAME, KINGS, Kind, MOVES_HELP, MOVES_NAME, RULE, SEQUENCES, Word,
    best_search, file, game,
};
use crate::subcommands::{Subcommand, cert};
use clap::ArgMatches;
use std::alloc::Global;

// `review`: its words and its help.
pub(crate) static REVIEWING: Subcommand = Subcommand {
    about: "Tells which move of a list loses, or how good a list is that wins",
    after_help: "Of a list that doesn't win it tells the last board that can be won and the move after which none
can; of one that wins, how many moves the best solution found has, and the fewest that any has, as
far as that is shown, and how many entries are left to a player's hands where cards go home by
themselves. Moves home that the list leaves out are put in where it goes on only with them. A move
is two letters, or as in `3D to a`, `3D a`, `3-a`; numbers in front of moves are passed over.

A file of --lists has a list a line, its board in front: `617: 1a 2b 3c 4d`. A row is printed of
each: its board, what became of it, its moves, entries by hand, after how many moves the board
stands from which the best list known has so many and each list at least as many as follow, the
move that loses, and after how many moves no list wins.

Status: 0 told, 1 the board can't be won from the start, 2 gave up on the way, 3 something asked or
read isn't right, 4 want of memory, 5 reading or writing failed; of several lists the greatest.

Examples:
  echo 1a 2b 3c 4d | fc_solve review 617 -
  fc_solve review --cert mine.cert 617 moves.txt",
    words: &[
        ALL,
        REVIEW_IN_JSON,
        LISTS,
        REVIEW_CERT,
        CERTS,
        PLAIN_LINK,
        SEQUENCES,
        BEST_BUDGET,
        GAME,
        KINGS,
        CELLS,
        RULE,
        ROWS,
        GUESS,
        LISTED_BOARD,
        LISTED_MOVES,
    ],
};

const ALL: Word = Word {
    name: "all",
    kind: Kind::Flag,
    help: "Answers the board after each move, a line each",
};

const REVIEW_IN_JSON: Word = Word {
    name: "json",
    kind: Kind::FlagInPlaceOf(&["all", "link"]),
    help: "Prints a JSON object a list, for other programs",
};

// `BOARD`, but where lists of files are asked for.
const LISTED_BOARD: Word = Word {
    name: BOARD,
    kind: Kind::NeededUnless(LISTS_NAME),
    help: BOARD_HELP,
};

// `MOVES`, but where lists of files are asked for.
const LISTED_MOVES: Word = Word {
    name: MOVES_NAME,
    kind: Kind::NeededUnless(LISTS_NAME),
    help: MOVES_HELP,
};

const LISTS_NAME: &str = "lists";

const LISTS: Word = Word {
    name: LISTS_NAME,
    kind: Kind::FilesInPlaceOf(&["all", "cert", "certs", "link"]),
    help: "The lists of these files, a line each, - for standard input",
};

const REVIEW_CERT: Word = Word {
    name: "cert",
    kind: Kind::Text {
        value: "FILE",
        default: None,
    },
    help: "Writes a proof of how good the list is that wins to FILE",
};

const CERTS: Word = Word {
    name: "certs",
    kind: Kind::Text {
        value: "FOLDER",
        default: None,
    },
    help: "Writes the boards around the move that loses, and proofs, there",
};

// Which lists the words of `review` name.
fn review_lists<'a>(alloc: Global, words: &ArgMatches<'a>) -> Result<ReviewLists<'a>, WordsFault>
    ensures once { IfOk result ReviewsInputOnce }
{
    if let Some(files) = words.get_strs(LISTS.name) {
        if has_input_twice(files) {
            return Err(WordsFault::InputTwice("lists"));
        }
        return Ok(ReviewLists::Files(Vec::from_slice(alloc, files)?));
    }
    let (Some(board), Some(moves)) = (needed_board(words), file(words, MOVES_NAME)) else {
        return Err(WordsFault::Missing);
    };
    if let (BoardWord::Input, FileWord::Input) = (board.word, moves) {
        return Err(WordsFault::OneInput(MOVES_NAME));
    }
    Ok(ReviewLists::One { board, moves })
}

/// What `review` asks for.
pub(crate) fn review<'a>(
    alloc: Global,
    words: &ArgMatches<'a>,
) -> Result<ReviewWords<'a>, WordsFault>
    ensures cells { IfOk result (λ review. review.game.cells ≤ MOST_CELLS) }
    ensures once { IfOk result (λ review. ReviewsInputOnce review.lists) }
{
    let search = best_search(words)?;
    let cert = cert(words)?;
    let lists = review_lists(alloc, words)?;
    let Some(game) = game(words) else {
        return Err(WordsFault::Missing);
    };
    Ok(ReviewWords {
        game,
        lists,
        text: text(words),
        search,
        has_sequences: words.get_flag(SEQUENCES.name),
        has_all: words.get_flag(ALL.name),
        is_json: words.get_flag(REVIEW_IN_JSON.name),
        has_link: words.get_flag(PLAIN_LINK.name),
        cert,
        certs: words.get_str(CERTS.name),
    })
}

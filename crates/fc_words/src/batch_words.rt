//! `batch`: its words and its help, and how what it asks for is read.

ghost use Rattle.std.specs.Prelude.{◌≤◌, ◌↔◌, IfOk, IsTrue};
ghost use Rattle.fc_words.specs.Sound.{HasInputOnce, ReadsInputOnce};
ghost use Rattle.fc_words.specs.declared.options.TheConstants.{MOST_CELLS};

use crate::board_words::{GUESS, ROWS, text};
use crate::commands::{BatchBoards, BatchForm, BatchSearch, BatchWords};
use crate::faults::WordsFault;
use crate::name_places::place_of;
use crate::options::{
    BATCH_BUDGET, BOUND, CELLS, EXPAND, GAME, KINGS, Kind, RULE, WITHIN, Word, best_search, game,
    search,
};
use crate::subcommands::Subcommand;
use clap::ArgMatches;
use std::alloc::Global;

/// `batch`: its words and its help.
pub(crate) static BATCHING: Subcommand = Subcommand {
    about: "Solves several deals, or boards of files: a line or a row of each",
    after_help: "Without --table or what needs one, at most 32 deals are searched side by side, in turns, and each
gets a line. They hold the memory of as many searches: up to 12 GB by `--budget max`. With
--table they go one after the other, any number of them, and hold the memory of one.

A file has one board or more, parted by lines of three dashes, `---`, since an empty line is an
empty column. A row is named by its file and the board's place in it: `boards.txt:3`.

Status: the greatest of the lines': 0 a solution, 1 can't be won, 2 gave up, 3 no board, 4 want
of memory; and 3 for what was asked and isn't right, 5 where reading or writing failed.

Examples:
  fc_solve batch 11982 11982
  fc_solve batch --table --best 1 1000
  fc_solve batch --best --boards boards/two-kings.txt boards/one-king.txt",
    words: &[
        FROM,
        TO,
        TABLE,
        ROWS_IN_JSON,
        FILES,
        ROWS,
        GUESS,
        CERTS,
        TOTALS,
        BATCH_BUDGET,
        BEST,
        WITHIN,
        BOUND,
        EXPAND,
        GAME,
        KINGS,
        CELLS,
        RULE,
    ],
};

const FROM: Word = Word {
    name: "FROM",
    kind: Kind::DealNumberUnless(FILES_NAME),
    help: "The number of the first deal, 1 to 1000000",
};

const TO: Word = Word {
    name: "TO",
    kind: Kind::DealNumberUnless(FILES_NAME),
    help: "The number of the last deal",
};

const TABLE: Word = Word {
    name: "table",
    kind: Kind::Flag,
    help: "Prints a table parted by tabs, with numbers of each search",
};

const ROWS_IN_JSON: Word = Word {
    name: "json",
    kind: Kind::FlagInPlaceOf(&["table", "totals"]),
    help: "Prints a JSON object a line in place of a table's rows",
};

const FILES_NAME: &str = "boards";

const FILES: Word = Word {
    name: FILES_NAME,
    kind: Kind::Files,
    help: "The boards of these files in place of deals, - for standard input",
};

const CERTS: Word = Word {
    name: "certs",
    kind: Kind::Text {
        value: "FOLDER",
        default: None,
    },
    help: "Writes proofs of the answers: N.cert, or list.txt:2.cert",
};

const TOTALS: Word = Word {
    name: "totals",
    kind: Kind::Flag,
    help: "Ends the table with how many of each answer there are",
};

const BEST: Word = Word {
    name: "best",
    kind: Kind::FlagInPlaceOf(&["within", "bound", "expand"]),
    help: "The best answer that the budget gives of each deal, as by `best`",
};

// How the words of `batch` ask to search.
fn batch_search(words: &ArgMatches<'_>) -> Result<BatchSearch, WordsFault> {
    if words.get_flag(BEST.name) {
        Ok(BatchSearch::Best(best_search(words)?))
    } else {
        Ok(BatchSearch::By(search(words)?))
    }
}

/// Whether standard input is more than one of the files.
pub(crate) fn has_input_twice(files: &[&str]) -> bool
    ensures value { IsTrue result ↔ (HasInputOnce files.now → ⊥) }
{
    match place_of(files, "-") {
        Some(place) => place_of(&files[place + 1..], "-").is_some(),
        None => false,
    }
}

// Which boards the words of `batch` name.
fn batch_boards<'a>(alloc: Global, words: &ArgMatches<'a>) -> Result<BatchBoards<'a>, WordsFault>
    ensures once { IfOk result ReadsInputOnce }
{
    if let Some(files) = words.get_strs(FILES.name) {
        if has_input_twice(files) {
            return Err(WordsFault::InputTwice(FILES_NAME));
        }
        return Ok(BatchBoards::Files(Vec::from_slice(alloc, files)?));
    }
    let (Some(from), Some(to)) = (
        words.get_one::<u32>(FROM.name),
        words.get_one::<u32>(TO.name),
    ) else {
        return Err(WordsFault::Missing);
    };
    Ok(BatchBoards::Deals { from, to })
}

// How the words of `batch` ask to print: what lines can't tell asks for a table.
fn batch_form(words: &ArgMatches<'_>) -> BatchForm {
    let needs_table = words.get_flag(TABLE.name)
        || words.get_flag(TOTALS.name)
        || words.get_str(CERTS.name).is_some()
        || words.get_strs(FILES.name).is_some();
    match (words.get_flag(ROWS_IN_JSON.name), needs_table) {
        (true, _) => BatchForm::Json,
        (false, true) => BatchForm::Table,
        (false, false) => BatchForm::Lines,
    }
}

/// What `batch` asks for.
pub(crate) fn batch<'a>(alloc: Global, words: &ArgMatches<'a>) -> Result<BatchWords<'a>, WordsFault>
    ensures cells { IfOk result (λ batch. batch.game.cells ≤ MOST_CELLS) }
    ensures once { IfOk result (λ batch. ReadsInputOnce batch.boards) }
{
    let search = batch_search(words)?;
    let boards = batch_boards(alloc, words)?;
    let Some(game) = game(words) else {
        return Err(WordsFault::Missing);
    };
    Ok(BatchWords {
        game,
        boards,
        text: text(words),
        search,
        form: batch_form(words),
        certs: words.get_str(CERTS.name),
        has_totals: words.get_flag(TOTALS.name),
    })
}

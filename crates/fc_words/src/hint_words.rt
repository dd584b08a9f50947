//! `hint`: its words, its help, and how what it asks for is read.

ghost use Rattle.std.specs.Prelude.{◌≤◌, IfOk};
ghost use Rattle.fc_words.specs.declared.options.TheConstants.{MOST_CELLS};

use crate::board_words::{DEAL, GUESS, OPTIONAL_BOARD, ROWS, optional_board};
use crate::commands::HintWords;
use crate::faults::WordsFault;
use crate::link_words::PLAIN_LINK;
use crate::options::{
    BEST_BUDGET, CELLS, COLOR, GAME, KINGS, Kind, QUIET, RULE, Word, best_search, colours, game,
};
use crate::subcommands::Subcommand;
use clap::ArgMatches;

// `hint`: its words and its help.
pub(crate) static HINTING: Subcommand = Subcommand {
    about: "Tells the next move of the best solution that a moment's work gives",
    after_help: "It tells the move in words and in two letters, how many moves win with it, and the fewest that
any solution has, as far as that is shown.

Status: 0 a move, or the board is won, 1 can't be won, 2 gave up, 3 something asked or read isn't
right, 4 want of memory, 5 reading or writing failed.

Examples:
  fc_solve hint board.txt
  fc_solve hint --more 5 617   the first five moves",
    words: &[
        MORE,
        HINT_IN_JSON,
        PLAIN_LINK,
        BEST_BUDGET,
        COLOR,
        QUIET,
        GAME,
        KINGS,
        CELLS,
        RULE,
        DEAL,
        ROWS,
        GUESS,
        OPTIONAL_BOARD,
    ],
};

const MORE: Word = Word {
    name: "more",
    kind: Kind::Number {
        value: "N",
        range: (1, u8::MAX),
        default: "1",
    },
    help: "How many moves to tell, 1 to 255",
};

const HINT_IN_JSON: Word = Word {
    name: "json",
    kind: Kind::FlagInPlaceOf(&["link"]),
    help: "Prints the answer and its next moves as a JSON object",
};

/// What `hint` asks for.
pub(crate) fn hint<'a>(words: &ArgMatches<'a>) -> Result<HintWords<'a>, WordsFault>
    ensures cells { IfOk result (λ hint. hint.game.cells ≤ MOST_CELLS) }
{
    let search = match best_search(words) {
        Ok(search) => search,
        Err(fault) => return Err(fault),
    };
    let (Some(game), Some(colours), Some(count)) = (
        game(words),
        colours(words),
        words.get_one::<u8>(MORE.name),
    ) else {
        return Err(WordsFault::Missing);
    };
    Ok(HintWords {
        game,
        board: optional_board(words),
        search,
        count,
        is_json: words.get_flag(HINT_IN_JSON.name),
        has_link: words.get_flag(PLAIN_LINK.name),
        colours,
        is_quiet: words.get_flag(QUIET.name),
    })
}

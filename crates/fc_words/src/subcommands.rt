//! Each subcommand: its words and its help in one item, and how what it asks for is read in the function below.

ghost use Rattle.std.specs.Prelude.{◌≤◌, IfOk, IfSome};
ghost use Rattle.fc_words.specs.Sound.{HasOneInput};
ghost use Rattle.fc_words.specs.declared.options.TheConstants.{MOST_CELLS};

use crate::batch_words::BATCHING;
use crate::board_words::{
    DEAL, GUESS, NEEDED_BOARD, OPTIONAL_BOARD, ROWS, needed_board, optional_board,
};
use crate::commands::{
    BestWords, BoardWord, CheckWords, DealWords, FileWord, ShowWords, SolveWords,
};
use crate::faults::WordsFault;
use crate::hint_words::HINTING;
use crate::link_words::{LINK, LINK_HELP};
use crate::options::{
    BEST_BUDGET, BOARDS, BOUND, BUDGET, CELLS, COLOR, EXPAND, GAME, IN_JSON, IN_SEQUENCES, KINGS,
    Kind, QUIET, RULE, WITHIN, WORDS, Word, best_search, colours, file, form, game, search,
};
use crate::replay_words::REPLAYING;
use crate::review_words::REVIEWING;
use crate::tasks::Task;
use clap::ArgMatches;

/// A subcommand's words, and its help above them and below.
#[derive(Clone, Copy)]
pub(crate) struct Subcommand {
    pub(crate) about: &'static str,
    pub(crate) after_help: &'static str,
    pub(crate) words: &'static [Word],
}

/// The subcommand of a task.
pub(crate) fn subcommand_of(task: Task) -> &'static Subcommand {
    match task {
        Task::Deal => &DEALING,
        Task::Show => &SHOWING,
        Task::Best => &BEST_SOLVING,
        Task::Hint => &HINTING,
        Task::Solve => &SOLVING,
        Task::Check => &CHECKING,
        Task::Replay => &REPLAYING,
        Task::Review => &REVIEWING,
        Task::Batch => &BATCHING,
    }
}

// `deal`: its words and its help.
static DEALING: Subcommand = Subcommand {
    about: "Prints a numbered deal: eight columns, each from its deepest card on",
    after_help: "Example: fc_solve deal 617",
    words: &[NUMBER],
};

const NUMBER: Word = Word {
    name: "N",
    kind: Kind::DealNumber,
    help: "The number of the deal, 1 to 1000000",
};

/// What `deal` asks for.
pub(crate) fn deal(words: &ArgMatches<'_>) -> Option<DealWords> {
    Some(DealWords {
        number: words.get_one::<u32>(NUMBER.name)?,
    })
}

// `show`: its words and its help.
static SHOWING: Subcommand = Subcommand {
    about: "Draws a board as it is read, its columns downward",
    after_help: "Example: fc_solve show 617",
    words: &[
        PLAIN,
        COLOR,
        GAME,
        KINGS,
        CELLS,
        DEAL,
        ROWS,
        GUESS,
        OPTIONAL_BOARD,
    ],
};

const PLAIN: Word = Word {
    name: "plain",
    kind: Kind::Flag,
    help: "Prints the board's text, which every command reads",
};

/// What `show` asks for.
pub(crate) fn show<'a>(words: &ArgMatches<'a>) -> Option<ShowWords<'a>>
    ensures cells { IfSome result (λ show. show.game.cells ≤ MOST_CELLS) }
{
    Some(ShowWords {
        game: game(words)?,
        board: optional_board(words),
        is_plain: words.get_flag(PLAIN.name),
        colours: colours(words)?,
    })
}

// `best`: its words and its help.
static BEST_SOLVING: Subcommand = Subcommand {
    about: "Prints the best solution a moment gives, and how near the shortest",
    after_help: "The answer is one of four, with the moves of a solution below it:
  shortest N         a solution of N moves; none has fewer
  won N, at least L  a solution of N moves; none has fewer than L
  can't be won       there is no solution
  gave up B          no answer; more than B positions can be reached

A budget of 100k positions takes up to 0.5 s and 11 MB, 500k 3 s and 25 MB, 4M 29 s and 242 MB, 16M
140 s and 940 MB, on a processor of 2.5 GHz.

Moves are two letters, from where to where: columns 1 to 8, cells a to d, home h. Each takes
one card. `show` draws the board as it is read.

Status: 0 a solution, 1 can't be won, 2 gave up, 3 something asked or read isn't right,
4 want of memory, 5 reading or writing failed.

Examples:
  fc_solve best 617
  fc_solve 617       the same",
    words: &[
        BEST_BUDGET,
        EACH,
        BEST_LINK,
        CERT_OPTION,
        WORDS,
        BOARDS,
        IN_SEQUENCES,
        IN_JSON,
        COLOR,
        STATS,
        QUIET,
        GAME,
        KINGS,
        CELLS,
        RULE,
        DEAL,
        ROWS,
        GUESS,
        OPTIONAL_BOARD,
    ],
};

/// What `best` asks for.
pub(crate) fn best<'a>(words: &ArgMatches<'a>) -> Result<BestWords<'a>, WordsFault>
    ensures cells { IfOk result (λ best. best.game.cells ≤ MOST_CELLS) }
{
    let search = match best_search(words) {
        Ok(search) => search,
        Err(fault) => return Err(fault),
    };
    let cert = cert(words)?;
    let (Some(game), Some(colours)) = (game(words), colours(words)) else {
        return Err(WordsFault::Missing);
    };
    Ok(BestWords {
        game,
        board: optional_board(words),
        search,
        cert,
        form: form(words),
        colours,
        is_each: words.get_flag(EACH.name),
        has_link: words.get_flag(BEST_LINK.name),
        has_stats: words.get_flag(STATS.name),
        is_quiet: words.get_flag(QUIET.name),
    })
}

const BEST_LINK: Word = Word {
    name: "link",
    kind: Kind::FlagInPlaceOf(&["json", "each"]),
    help: LINK_HELP,
};

const EACH: Word = Word {
    name: "each",
    kind: Kind::Flag,
    help: "Writes each better answer as it comes; the last one is the answer",
};

// `solve`: its words and its help.
static SOLVING: Subcommand = Subcommand {
    about: "Prints a shortest solution, or that none wins, or that it gave up",
    after_help: "A budget of 100k positions takes up to 0.1 s and 11 MB by the plain bound, 500k 0.5 s and 31 MB, 4M
7 s and 231 MB; by the clearing bound 0.5, 3 and 29 s, on a processor of 2.5 GHz.

Moves are two letters, from where to where: columns 1 to 8, cells a to d, home h. Each takes
one card. `show` draws the board as it is read.

Status: 0 a solution, 1 can't be won, 2 gave up, 3 something asked or read isn't right,
4 want of memory, 5 reading or writing failed.

Examples:
  fc_solve solve 941                            a shortest solution of deal 941
  fc_solve solve --within 2 --bound clearing 1  one of deal 1, at most twice as long
  fc_solve solve --game bakers --cells 3 boards/one-king.txt",
    words: &[
        BUDGET,
        CERT_OPTION,
        WITHIN,
        BOUND,
        EXPAND,
        LINK,
        WORDS,
        BOARDS,
        IN_SEQUENCES,
        IN_JSON,
        COLOR,
        STATS,
        QUIET,
        GAME,
        KINGS,
        CELLS,
        RULE,
        DEAL,
        ROWS,
        GUESS,
        OPTIONAL_BOARD,
    ],
};

const CERT_OPTION: Word = Word {
    name: "cert",
    kind: Kind::Text {
        value: "FILE",
        default: None,
    },
    help: "Writes a proof of the answer to FILE, for `check`",
};

/// The file that takes the certificate, if one is asked for.
pub(crate) fn cert<'a>(words: &ArgMatches<'a>) -> Result<Option<&'a str>, WordsFault> {
    match words.get_str(CERT_OPTION.name) {
        Some("-") => Err(WordsFault::CertInAnswer),
        cert => Ok(cert),
    }
}

const STATS: Word = Word {
    name: "stats",
    kind: Kind::Flag,
    help: "Ends with a line of numbers of the search, on standard error",
};

/// What `solve` asks for.
pub(crate) fn solve<'a>(words: &ArgMatches<'a>) -> Result<SolveWords<'a>, WordsFault>
    ensures cells { IfOk result (λ solve. solve.game.cells ≤ MOST_CELLS) }
{
    let search = match search(words) {
        Ok(search) => search,
        Err(fault) => return Err(fault),
    };
    let cert = cert(words)?;
    let (Some(game), Some(colours)) = (game(words), colours(words)) else {
        return Err(WordsFault::Missing);
    };
    Ok(SolveWords {
        game,
        board: optional_board(words),
        search,
        cert,
        form: form(words),
        colours,
        has_link: words.get_flag(LINK.name),
        has_stats: words.get_flag(STATS.name),
        is_quiet: words.get_flag(QUIET.name),
    })
}

// `check`: its words and its help.
static CHECKING: Subcommand = Subcommand {
    about: "Says what a certificate proves of a board, without any search",
    after_help: "Status: 0 accepted, 3 refused, 4 want of memory, 5 reading or writing failed.

Examples:
  fc_solve check boards/locked.txt boards/locked.cert
  zstd -dc 46.cert.zst | fc_solve check 46 -
  fc_solve check list.txt:2 certs/list.txt:2.cert   the second board of a list",
    words: &[
        CLAIM_IN_JSON,
        GAME,
        KINGS,
        CELLS,
        ROWS,
        GUESS,
        NEEDED_BOARD,
        CERT,
    ],
};

const CLAIM_IN_JSON: Word = Word {
    name: "json",
    kind: Kind::Flag,
    help: "Prints what is proved, or why nothing is, as a JSON object",
};

const CERT: Word = Word {
    name: "CERT",
    kind: Kind::Needed,
    help: "The certificate's file, as `solve --cert` writes it, or - for standard input",
};

/// What `check` asks for.
pub(crate) fn check<'a>(words: &ArgMatches<'a>) -> Result<CheckWords<'a>, WordsFault>
    ensures cells { IfOk result (λ check. check.game.cells ≤ MOST_CELLS) }
    ensures one_input { IfOk result (λ check. HasOneInput check.board.word check.cert) }
{
    let (Some(game), Some(board), Some(cert)) = (
        game(words),
        needed_board(words),
        file(words, CERT.name),
    ) else {
        return Err(WordsFault::Missing);
    };
    if let (BoardWord::Input, FileWord::Input) = (board.word, cert) {
        return Err(WordsFault::OneInput(CERT.name));
    }
    Ok(CheckWords {
        game,
        board,
        cert,
        is_json: words.get_flag(CLAIM_IN_JSON.name),
    })
}

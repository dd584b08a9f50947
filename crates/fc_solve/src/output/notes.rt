//! Prints where a board's fault lies and what would mend it: the line after the fault's own.

ghost use Rattle.std.specs.Prelude.{◌≤◌};

use crate::output::token_fronts::{front_of, rest_of};
use fc_cards::Card;
use fc_notes::{BoardText, FaultNote, Reason, TokenPlace, fault_note};
use fc_text::BoardFault;
use fc_typed::GuessedText;

/// Says on standard error where the fault of a board's text lies, that was read for a game with so many cells, and why it
/// is one. What is quoted is quoted as it was typed.
pub fn add_note(rt: &HostRuntime, fault: BoardFault, text: &BoardText<'_>, cells: u8)
    requires cells { cells ≤ 4 }
{
    let Some(said) = fault_note(text, fault, cells) else {
        return;
    };
    match said {
        FaultNote::TooLong => note(
            rt,
            "a board's text has at most 4096 bytes: keep the lines of one board alone",
        ),
        FaultNote::RepeatedLine(line) => {
            let _told = eprintln!(rt;
                "fc_solve: line {line}: a line above tells it already: keep one board alone"
            );
        }
        FaultNote::AtHome(at, card) => {
            let TokenPlace { line, place } = at;
            let _told = eprintln!(rt;
                "fc_solve: line {line}, word {place}: '{card}' is home already, by its foundation"
            );
        }
        FaultNote::Twice(first, last, card) => tell_twice(rt, first, last, card),
        FaultNote::Guess(guess) => tell_guess(rt, &guess),
        FaultNote::Missing(cards) => tell_missing(rt, cards.as_slice()),
        FaultNote::Token(at, token, reason) => tell_token(rt, at, token, words_of(reason)),
    }
}

fn note(rt: &HostRuntime, words: &str) {
    let _told = eprintln!(rt; "fc_solve: {words}");
}

// Says where a card stands twice.
fn tell_twice(rt: &HostRuntime, first: TokenPlace, last: TokenPlace, card: Card) {
    let (line, place) = (first.line, first.place);
    let (last_line, last_place) = (last.line, last.place);
    let _told = eprintln!(rt;
        "fc_solve: line {line}, word {place}, and line {last_line}, word {last_place}: '{card}' is one card"
    );
}

// Says by which foundation line the text is a board.
fn tell_guess(rt: &HostRuntime, guess: &GuessedText) {
    let line = guess.line().escape_ascii();
    let _told = eprintln!(rt; "fc_solve: with this line it is a board: {line}");
    let _told = eprintln!(rt; "fc_solve: --guess adds it");
}

// Says which cards are missing.
fn tell_missing(rt: &HostRuntime, missing: &[Card]) {
    if missing.len() > 1 {
        let _told = eprint!(rt; "fc_solve: missing are");
        for card in missing {
            let _told = eprint!(rt; " {card}");
        }
        let _told = eprintln!(rt; "");
    }
    note(
        rt,
        "a board has 52 cards: in its columns, in its cells, or home on its foundations",
    );
}

// Says where a token stands, and what is wrong with it.
fn tell_token(rt: &HostRuntime, at: TokenPlace, token: &[u8], reason: &str) {
    let TokenPlace { line, place } = at;
    let (shown, more) = (front_of(token).escape_ascii(), rest_of(token));
    let _told = eprintln!(rt; "fc_solve: line {line}, word {place}: '{shown}{more}' {reason}");
}

// What is said of a token that makes its line faulty.
fn words_of(reason: Reason) -> &'static str {
    match reason {
        Reason::OfSolver => "is a solver's: keep the lines of one board alone, and cut the others",
        Reason::Label => "numbers a column out of order: they go 1: to 8:, or have no numbers",
        Reason::NoCard => "is no card: a card is its rank, A 2 to 9 T J Q K, and its suit, C D H S",
        Reason::NoFoundation => { "is no foundation: each suit stands once, as in H-0 C-A D-7 S-T" }
        Reason::PastCells => "stands past the last cell of the game",
        Reason::NinthColumn => {
            "stands in a ninth column: a line is a column, an empty line an empty one"
        }
    }
}

//! Why the token at which a board's fault lies makes its line faulty.

ghost use Rattle.std.specs.Prelude.{◌≡◌, map};
ghost use Rattle.std.specs.List.{list_any};
ghost use Rattle.std.specs.Str.{bytes_eq};
ghost use Rattle.fc_notes.specs.TokenNote.{begins_drawn, is_label, is_of_solver, reason_of, solvers_words};

use fc_text::BoardFault;

/// Why a token makes its line faulty.
#[derive(Clone, Copy, Debug, PartialEq, Eq)]
pub enum Reason {
    /// It is one that solvers print beside boards.
    OfSolver,
    /// It numbers a column out of order.
    Label,
    /// It is no card.
    NoCard,
    /// It is no foundation.
    NoFoundation,
    /// It stands past the last cell of the game.
    PastCells,
    /// It stands in a ninth column.
    NinthColumn,
}

/// Why a token makes the line faulty in which it has this number, from 1.
pub(crate) fn reason_of(fault: &BoardFault, place: usize, token: &[u8]) -> Reason
    ensures value { result ≡ reason_of fault.now place token.now }
{
    match fault {
        BoardFault::BadCard(_) if is_of_solver(place, token) => Reason::OfSolver,
        BoardFault::BadCard(_) if is_label(token) => Reason::Label,
        BoardFault::BadCard(_) => Reason::NoCard,
        BoardFault::BadFoundation(_) => Reason::NoFoundation,
        BoardFault::TooManyCells(_) => Reason::PastCells,
        _ => Reason::NinthColumn,
    }
}

// Whether a token is one that solvers print beside boards, first in its line.
fn is_of_solver(place: usize, token: &[u8]) -> bool
    ensures value { result ≡ is_of_solver place token.now }
{
    place == 1 && (begins_drawn(token) || is_one_of(&SOLVERS_WORDS, token))
}

// Whether a token begins a line that a solver draws.
fn begins_drawn(token: &[u8]) -> bool
    ensures value { result ≡ begins_drawn token.now }
{
    matches!(
        token,
        [b'=', b'=', ..] | [b'-', b'=', ..] | [b'-', b'-', ..]
    )
}

// The words that lines of Freecell Solver begin with, other than those of a board.
const SOLVERS_WORDS: [&[u8]; 9] = [
    b"Move",
    b"This",
    b"Total",
    b"I",
    b"Iteration:",
    b"Depth:",
    b"Stored-States:",
    b"Scan:",
    b"Standard",
];

// Whether a token is one of these words.
fn is_one_of(words: &[&[u8]], token: &[u8]) -> bool
    ensures value { result ≡ list_any (λ word. bytes_eq word token.now) (map (λ word. word.now) words.now) }
{
    for word in words {
        if is_word(word, token) {
            return true;
        }
    }
    false
}

// Whether a token is this word.
fn is_word(word: &[u8], token: &[u8]) -> bool
    ensures value { result ≡ bytes_eq word.now token.now }
{
    word == token
}

// Whether a token is a number with a colon.
fn is_label(token: &[u8]) -> bool
    ensures value { result ≡ is_label token.now }
{
    match token {
        [digit, b':', ..] => digit.is_ascii_digit(),
        _ => false,
    }
}

//! Answers as JSON objects, for other programs.

use crate::output::endings::Ending;
use crate::output::found_answers::Answered;
use fc_answers::Verdict;
use fc_cert::Claim;
use fc_json::{ToldBoard, object_text};
use fc_runs::{Far, Row};
use fc_words::BoardWord;
use std::alloc::{AllocError, Global};

/// What a board is called in an object.
#[derive(Clone, Copy)]
pub enum Name<'a> {
    /// By the number of its deal.
    Deal(u32),
    /// By its file.
    Board(&'a str),
}

impl<'a> Name<'a> {
    /// What the board is called that a word means, which is this numbered deal, if any.
    pub fn of(word: &BoardWord<'a>, deal: Option<u32>) -> Self {
        match (*word, deal) {
            (_, Some(number)) | (BoardWord::Deal(number), None) => Name::Deal(number),
            (BoardWord::Named(path), None) => Name::Board(path),
            (BoardWord::Input, None) => Name::Board("-"),
        }
    }

    /// The number of the deal.
    pub fn deal(self) -> Option<u32> {
        match self {
            Name::Deal(number) => Some(number),
            Name::Board(_) => None,
        }
    }

    /// What another board is called.
    pub fn board(self) -> Option<&'a str> {
        match self {
            Name::Deal(_) => None,
            Name::Board(name) => Some(name),
        }
    }

    /// The name as a cell of a table: in it nothing parts cells or rows.
    pub fn cell(self, alloc: Global) -> Result<String, AllocError> {
        let name = match self {
            Name::Deal(number) => return format!(in alloc; "{number}"),
            Name::Board(name) => name,
        };
        let mut text = String::new(alloc);
        for c in name.chars() {
            text.push(if c.is_control() { '?' } else { c })?;
        }
        Ok(text)
    }
}

/// What searches told last, and how many classes they might store.
#[derive(Clone, Copy)]
pub struct Searched {
    pub budget: u32,
    pub far: Far,
}

/// The numbers that an object has beside an answer: those of the searches, and how many entries of its list are left to a player's
/// hands.
#[derive(Clone, Copy)]
pub struct Beside {
    pub searched: Option<Searched>,
    pub by_hand: Option<u64>,
}

// An answer of this name, of a board of that one.
fn told_of<'a>(name: Name<'a>, answer: &'a str) -> ToldBoard<'a> {
    let mut told = ToldBoard::new(answer);
    told.deal = name.deal();
    told.board = name.board();
    told
}

// The numbers of searches put beside an answer.
fn put_searched(told: &mut ToldBoard<'_>, searched: Searched) {
    let Searched { budget, far } = searched;
    told.budget = Some(budget);
    told.stored = Some(far.classes);
    told.turns = Some(far.turns);
    told.most_open = Some(u64::try_from(far.most_open).unwrap_or(u64::MAX));
}

/// The object of an answer, and of the next moves of its list where they are asked for, on a line.
pub fn answer_line<'a>(
    alloc: Global,
    name: Name<'a>,
    answered: &'a Answered,
    hint: Option<&'a str>,
    beside: Beside,
) -> Result<String, Ending> {
    let mut told = told_of(name, answered.name());
    told.moves = answered.count();
    told.floor = answered.floor();
    told.list = text_of(answered.letters());
    told.hint = hint;
    told.by_hand = beside.by_hand;
    if let Some(searched) = beside.searched {
        put_searched(&mut told, searched);
        if let Verdict::GaveUp(_) = answered.verdict() {
            told.floor = Some(searched.far.at_least);
        }
    }
    line_of(alloc, &told)
}

/// The object of a claim that is proved, with the moves of its list, if it has one, on a line.
pub fn claim_line<'a>(
    alloc: Global,
    name: Name<'a>,
    claim: Claim,
    letters: Option<&'a str>,
) -> Result<String, Ending> {
    let (answer, moves, floor) = match claim {
        Claim::Shortest(moves) => ("shortest", Some(moves), Some(moves)),
        Claim::Between { floor, moves } => ("won", Some(moves), Some(floor)),
        Claim::CannotWin => ("can't be won", None, None),
    };
    let mut told = told_of(name, answer);
    told.moves = moves;
    told.floor = floor;
    told.list = letters;
    line_of(alloc, &told)
}

/// The object of a row, and how many entries of its list are left to a player's hands, on a line.
pub fn row_line(
    alloc: Global,
    name: Name<'_>,
    row: &Row,
    by_hand: Option<u64>,
) -> Result<String, Ending> {
    let letters = match &row.list {
        Some(list) => list.text(alloc)?,
        None => Vec::new(alloc),
    };
    told_row(alloc, name, row, letters.as_slice(), by_hand)
}

// The object of a row whose list has this line, if it has one.
fn told_row<'a>(
    alloc: Global,
    name: Name<'a>,
    row: &Row,
    letters: &'a [u8],
    by_hand: Option<u64>,
) -> Result<String, Ending> {
    let mut told = told_of(name, row.answer_name());
    told.moves = row.moves();
    told.floor = row.floor();
    told.list = text_of(letters);
    told.by_hand = by_hand;
    told.budget = Some(row.budget);
    if let Some(far) = row.far {
        let budget = row.budget;
        put_searched(&mut told, Searched { budget, far });
    }
    line_of(alloc, &told)
}

/// The object of a board without an answer, and why, on a line.
pub fn fault_line<'a>(
    alloc: Global,
    name: Name<'a>,
    answer: &'static str,
    fault: Option<&'a str>,
) -> Result<String, Ending> {
    let mut told = told_of(name, answer);
    told.fault = fault;
    line_of(alloc, &told)
}

/// The object of a list that was replayed, its one-card moves and how many there are, and how many entries are left to a player's
/// hands, on a line.
pub fn list_line<'a>(
    alloc: Global,
    name: Name<'a>,
    answer: &'static str,
    moves: u32,
    list: &'a [u8],
    by_hand: u64,
) -> Result<String, Ending> {
    let mut told = told_of(name, answer);
    told.moves = Some(moves);
    told.list = std::str::from_utf8(list).ok();
    told.by_hand = Some(by_hand);
    line_of(alloc, &told)
}

// The line of a list of moves, if there is one.
fn text_of(list: &[u8]) -> Option<&str> {
    let line = list.strip_suffix(b"\n")?;
    std::str::from_utf8(line).ok()
}

// An object on a line.
fn line_of(alloc: Global, told: &ToldBoard<'_>) -> Result<String, Ending> {
    let mut text = object_text(alloc, told)?;
    text.push_str("\n")?;
    Ok(text)
}

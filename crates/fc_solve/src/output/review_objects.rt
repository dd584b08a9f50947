//! What an object or a row tells of a list of moves.

use crate::input::moves::letters_at;
use crate::output::answer_objects::Name;
use crate::output::endings::Ending;
use fc_answers::Verdict;
use fc_json::{ToldList, review_object_text};
use fc_review::{Finding, Rating, Review};
use std::alloc::{AllocError, Global};

/// A list that was reviewed.
#[derive(Drop)]
pub struct FoundList {
    /// Its moves, three bytes each.
    pub letters: Vec<u8>,
    /// How many moves home are put in that it leaves out.
    pub inserted: u64,
    /// How many of its entries are left to a player's hands.
    pub by_hand: u64,
    /// What is found of it.
    pub finding: Finding,
    /// The exit status that goes with that.
    pub status: u8,
}

impl FoundList {
    /// All that is told of it and of its board's name.
    pub fn reviewed<'a>(&'a self, name: Name<'a>) -> ToldList<'a> {
        let count = (self.letters.len() / 3) as u64;
        let mut told = match &self.finding {
            Finding::Rated { rating, .. } => reviewed_of_rating(rating, count),
            Finding::Traced(review) => reviewed_of_review(review, self.letters.as_slice()),
        };
        told.deal = name.deal();
        told.board = name.board();
        told.list = std::str::from_utf8(self.letters.trim_ascii_end()).ok();
        told.moves = Some(count);
        told.inserted = Some(self.inserted);
        told.by_hand = Some(self.by_hand);
        told
    }
}

// What is told of a list of so many moves that wins: `best` and `floor` are those of its first board.
fn reviewed_of_rating(rating: &Rating, count: u64) -> ToldList<'static> {
    let mut told = ToldList::new("won");
    told.after = Some(0);
    let (found, _) = numbers_of(&rating.best);
    told.best = Some(found.map_or(count, |best| best.min(count)));
    if let Some(own) = &rating.own {
        let (_, floor) = numbers_of(own);
        told.floor = floor;
    }
    told
}

// What is told of a list that doesn't win: `best` and `floor` are those of the last board that is known to be won.
fn reviewed_of_review<'a>(review: &Review, letters: &'a [u8]) -> ToldList<'a> {
    let losing = review.losing_move();
    let mut told = ToldList::new(match (losing, &review.won, review.lost) {
        (Some(_), ..) => "loses",
        (None, None, Some(0)) => "can't be won",
        (None, Some(won), None) if won.after >= letters.len() / 3 => "not lost",
        _ => "gave up",
    });
    told.losing = losing.map(|place| letters_at(letters, place));
    told.lost_after = review.lost.map(|after| after as u64);
    if let Some(won) = &review.won {
        let (best, floor) = numbers_of(&won.verdict);
        told.after = Some(won.after as u64);
        told.best = best;
        told.floor = floor;
    }
    told
}

// How many moves the list of a verdict has, and how many each list has at least.
fn numbers_of(verdict: &Verdict) -> (Option<u64>, Option<u64>) {
    match verdict {
        Verdict::Shortest(moves) => {
            let count = moves.len() as u64;
            (Some(count), Some(count))
        }
        Verdict::Won { moves, floor } => (Some(moves.len() as u64), Some(u64::from(*floor))),
        Verdict::CannotWin | Verdict::GaveUp(_) => (None, None),
    }
}

/// The object of a list, on a line.
pub fn review_line(alloc: Global, told: &ToldList<'_>) -> Result<String, Ending> {
    let mut text = review_object_text(alloc, told)?;
    text.push_str("\n")?;
    Ok(text)
}

/// The names of a table's columns.
pub const REVIEW_HEAD: &str =
    "board\treview\tmoves\tinserted\tby_hand\tafter\tbest\tfloor\tlosing\tlost_after\n";

/// The row of a list.
pub fn review_row(alloc: Global, told: &ToldList<'_>) -> Result<String, AllocError> {
    let name = match told.deal {
        Some(number) => Name::Deal(number),
        None => Name::Board(told.board.unwrap_or("")),
    };
    let mut row = name.cell(alloc)?;
    row.push('\t')?;
    row.push_str(told.review)?;
    for number in [
        told.moves,
        told.inserted,
        told.by_hand,
        told.after,
        told.best,
        told.floor,
    ] {
        push_number(alloc, &mut row, number)?;
    }
    row.push('\t')?;
    row.push_str(told.losing.unwrap_or(""))?;
    push_number(alloc, &mut row, told.lost_after)?;
    row.push('\n')?;
    Ok(row)
}

// Appends a cell with a number, if there is one.
fn push_number(alloc: Global, row: &mut String, number: Option<u64>) -> Result<(), AllocError> {
    match number {
        Some(number) => {
            let cell = format!(in alloc; "\t{number}")?;
            row.push_str(cell.as_str())
        }
        None => row.push('\t'),
    }
}

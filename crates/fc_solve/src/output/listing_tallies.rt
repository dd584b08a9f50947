//! How many boards of a table are done, told on a line of the terminal that is taken away before each row.

ghost use Rattle.std.specs.Prelude.{◌≡◌, ◌<◌};
ghost use Rattle.fc_solve.specs.inner.Tally.{IsCounted, answer_place};

use crate::output::watching::Line;
use fc_answers::Outcome;
use fc_runs::{Row, RowListener};

/// What is told in place of an answer where there is no board.
pub const NO_BOARD: &str = "no board";

/// What the answers of rows are called, in the order in which they are counted.
pub static ANSWERS: [&str; 6] = [
    "shortest",
    "won",
    "can't be won",
    "gave up",
    "want of memory",
    NO_BOARD,
];

/// How many boards are done, and how they were answered.
#[derive(Drop)]
pub struct RowTally<'a> {
    line: &'a Line<'a>,
    is_shown: bool,
    total: Option<u32>,
    done: u64,
    answers: [u64; 6],
}

impl<'a> RowTally<'a> {
    /// Nothing done of so many boards, if that is known; on a terminal the line is shown.
    pub fn new(line: &'a Line<'a>, is_shown: bool, total: Option<u32>) -> Self {
        RowTally {
            line,
            is_shown,
            total,
            done: 0,
            answers: [0; 6],
        }
    }

    /// How many answers there were of each kind.
    pub fn answers(&self) -> &[u64; 6] {
        &self.answers
    }

    /// How many boards are done.
    pub fn done(&self) -> u64 {
        self.done
    }

    /// Counts what is no board.
    pub fn note_no_board(&mut self)
        ensures counted { IsCounted 5 (record { done = self.old.done; answers = self.old.answers }) (record { done = self.new.done; answers = self.new.answers }) }
    {
        self.count(5);
    }

    // Counts an answer that stands there among `ANSWERS`.
    fn count(&mut self, place: usize)
        requires place { place < 6 }
        ensures counted { IsCounted place (record { done = self.old.done; answers = self.old.answers }) (record { done = self.new.done; answers = self.new.answers }) }
    {
        self.done = self.done.saturating_add(1);
        self.answers[place] = self.answers[place].saturating_add(1);
        if self.is_shown {
            self.line.show_done(self.done, self.total, self.answers[0]);
        }
    }
}

impl RowListener for RowTally<'_> {
    ghost use Rattle.fc_solve.specs.inner.Tally.{IsCounted, answer_place};

    ghost hears = { λ old row new. IsCounted (answer_place row.told) (record { done = old.done; answers = old.answers }) (record { done = new.done; answers = new.answers }) };

    fn hear_row(&mut self, row: &Row) {
        self.count(place_of(row));
    }
}

// Where a row's answer stands among `ANSWERS`.
fn place_of(row: &Row) -> usize
    ensures place { result ≡ answer_place row.now.told }
    ensures within { result < 6 }
{
    match row.told {
        Some(Outcome::Shortest(_)) => 0,
        Some(Outcome::Won { .. }) => 1,
        Some(Outcome::CannotWin) => 2,
        Some(Outcome::GaveUp(_)) => 3,
        None => 4,
    }
}

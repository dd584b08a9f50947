ghost use Rattle.std.specs.Prelude.{◌≡◌, ◌<◌, ◌↔◌, [], length, Some, slice_get, IsTrue};

use crate::closed_tables::{MOST_CLASSES, Table};
use fc_moves::Move;
use std::marker::Model;

/// The most moves of a list that is answered: a step for each class that a table may list, and the cards that go home with them.
pub const MOST_MOVES: u32 = MOST_CLASSES + 1_000;

/// What is answered of a position and a budget: a verdict, and the classes that back it.
#[derive(Drop)]
pub struct Answer {
    /// What is told of the position and the budget.
    pub verdict: Verdict,
    /// The classes that show that no list of moves is shorter, or below the floor, or that none wins. Giving up has none.
    pub table: Option<Table>,
}

/// What is told of a position and a budget.
#[derive(Drop)]
pub enum Verdict {
    /// Moves that win, no list of moves that wins being shorter.
    Shortest(MoveList),
    /// Moves that win, and a number of moves that no list that wins is below. Of one search by a weight they are no more than the
    /// weight times a shortest list; of the best answer of several nothing of the kind is said.
    Won { moves: MoveList, floor: u32 },
    /// No list of moves wins.
    CannotWin,
    /// More positions than the budget, which is told, can be reached: that of the search, or of one of several, its share.
    GaveUp(u32),
}

/// A verdict without its moves.
#[derive(Clone, Copy, Debug, PartialEq, Eq)]
pub enum Outcome {
    /// So many moves win, and no fewer do.
    Shortest(u32),
    /// So many moves win, and a number of moves that no list that wins is below; of one search by a weight no more than the weight
    /// times a shortest list.
    Won { moves: u32, floor: u32 },
    /// No list of moves wins.
    CannotWin,
    /// More positions than the budget, which is told, can be reached: that of the search, or of one of several, its share.
    GaveUp(u32),
}

/// A list of moves.
#[derive(Drop)]
pub struct MoveList {
    moves: Vec<Move>,
}

impl Model for MoveList {
    ghost use Rattle.std.specs.Prelude.{List};
    ghost use Rattle.fc_moves.specs.declared.steps.Move.{Move};

    ghost Value = { List Move };

    ghost view = { λ s. s.moves.items };
}

impl MoveList {
    /// These moves.
    pub fn new(moves: Vec<Move>) -> Self
        ensures value { result ≡ moves.items }
    {
        MoveList { moves }
    }

    /// The moves.
    pub fn as_slice(&self) -> &[Move]
        ensures value { result.now ≡ self.now }
    {
        self.moves.as_slice()
    }

    /// How many moves there are.
    pub fn len(&self) -> usize
        ensures value { result ≡ length self.now }
    {
        self.moves.len()
    }

    /// Whether there is no move.
    pub fn is_empty(&self) -> bool
        ensures value { IsTrue result ↔ (self.now ≡ []) }
    {
        self.moves.is_empty()
    }

    /// The move with this number, from 0 to below `len`.
    pub fn get(&self, i: usize) -> Move
        requires within { i < length self.now }
        ensures value { slice_get self.now i ≡ Some result }
    {
        self.moves[i]
    }
}

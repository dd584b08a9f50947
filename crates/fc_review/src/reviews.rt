//! Where a list of moves lost the game.

ghost use Rattle.std.specs.Prelude.{◌≡◌, IfOk, IfSome, IfNone, List};
ghost use Rattle.fc_position.specs.Board.{Board};
ghost use Rattle.fc_moves.specs.GameRules.{IsPositionOf};
ghost use Rattle.fc_moves.specs.Run.{Run};
ghost use Rattle.fc_methods.specs.Method.{QuestionData};
ghost use Rattle.fc_moves.specs.declared.steps.Move.{Move};
ghost use Rattle.fc_review.specs.Review.{IsReview, IsUnsettled, Loses};
ghost use Rattle.fc_review.specs.Texts.{losing_of};

use crate::judges::{Judge, trace};
use crate::known_boards::{KnownBoard, known_after};
use fc_methods::Question;
use fc_moves::{Game, Move};
use fc_position::Position;
use std::alloc::{AllocError, Global};

/// What is known of a list of moves, of those of its boards that were asked.
#[derive(Drop)]
pub struct Review {
    /// The last board from which a list is told that wins.
    pub won: Option<KnownBoard>,
    /// How many moves lead to the first board from which none does.
    pub lost: Option<usize>,
}

impl Review {
    /// How many moves of the list stand before the one that loses, if it is known which: a list wins from the board before it, and
    /// none from the board after it.
    pub fn losing_move(&self) -> Option<usize>
        ensures value { result ≡ losing_of self.now.won self.now.lost }
        ensures loses { (q : QuestionData) (b : Board) (moves : List Move) → IsReview q b moves self.now → IfSome result (Loses q.game b moves) }
        ensures known { (q : QuestionData) (b : Board) (moves : List Move) → IsReview q b moves self.now → IfNone result (IsUnsettled q b moves) }
    {
        match (&self.won, self.lost) {
            (Some(won), Some(lost)) if won.after < lost && lost - won.after == 1 => Some(won.after),
            _ => None,
        }
    }
}

/// Where a list of moves that the rules allow from a position of the question's game loses: of the boards that are asked, the last one
/// from which a list is told that wins, and the first one from which none does, each by the best verdict within the question's
/// budget. Those that are asked between the two gave up. Lost boards stay lost, so it is found by halving.
///
/// # Errors
/// A growth was refused.
pub fn review_of<G: Game + Drop>(
    alloc: Global,
    question: &Question<G>,
    start: &Position,
    moves: &[Move],
) -> Result<Review, AllocError>
    requires position { IsPositionOf question.now.game start.now }
    requires run { (c : Board) × Run question.now.game start.now moves.now c }
    ensures review { IfOk result (IsReview question.now start.now moves.now) }
{
    let mut way = Way {
        alloc,
        question,
        start,
        moves,
    };
    trace(&mut way, moves.len())
}

// The boards along a list of moves, by their best verdicts.
#[derive(Drop)]
struct Way<'a, G: Game + Drop> {
    alloc: Global,
    question: &'a Question<G>,
    start: &'a Position,
    moves: &'a [Move],
}

impl<G: Game + Drop> Judge for Way<'_, G> {
    ghost use Rattle.std.specs.Prelude.{◌≡◌, ◌≤◌, length};
    ghost use Rattle.fc_position.specs.Board.{Board};
    ghost use Rattle.fc_moves.specs.GameRules.{IsPositionOf};
    ghost use Rattle.fc_moves.specs.Run.{Run};
    ghost use Rattle.fc_review.specs.Review.{IsKnownAlong};

    ghost can = { λ way n. IsPositionOf way.question.now.game way.start.now × ((c : Board) × Run way.question.now.game way.start.now way.moves.now c) × (n ≤ length way.moves.now) };

    ghost says = { λ old known new. (new ≡ old) × IsKnownAlong old.question.now old.start.now old.moves.now known };

    fn judge(&mut self, after: usize) -> Result<KnownBoard, AllocError> {
        known_after(self.alloc, self.question, self.start, self.moves, after)
    }
}

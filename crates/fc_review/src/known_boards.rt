//! What is known of a board along a list of moves.

ghost use Rattle.std.specs.Prelude.{◌≡◌, ◌≤◌, ◌↔◌, length, IfOk, IsTrue};
ghost use Rattle.fc_position.specs.Board.{Board};
ghost use Rattle.fc_moves.specs.GameRules.{IsPositionOf};
ghost use Rattle.fc_moves.specs.Run.{Run, Wins};
ghost use Rattle.fc_review.specs.Review.{IsBoardAfter, IsKnownAlong};

use fc_answers::Verdict;
use fc_best::{Unheard, best};
use fc_methods::Question;
use fc_moves::{Game, Move, apply};
use fc_position::Position;
use std::alloc::{AllocError, Global};

/// The best verdict of the board after so many moves of a list.
#[derive(Drop)]
pub struct KnownBoard {
    /// How many moves lead to the board.
    pub after: usize,
    /// Its best verdict.
    pub verdict: Verdict,
}

/// The best verdict, within the question's budget, of the board after the first so many moves of a list that the rules allow
/// from a position of the question's game.
///
/// # Errors
/// A growth was refused.
pub fn known_after<G: Game + Drop>(
    alloc: Global,
    question: &Question<G>,
    start: &Position,
    moves: &[Move],
    after: usize,
) -> Result<KnownBoard, AllocError>
    requires position { IsPositionOf question.now.game start.now }
    requires run { (c : Board) × Run question.now.game start.now moves.now c }
    requires within { after ≤ length moves.now }
    ensures known { IfOk result (IsKnownAlong question.now start.now moves.now) }
    ensures after { IfOk result (λ known. known.after ≡ after) }
{
    let board = board_after(question.game(), start, moves, after);
    let answer = best(alloc, question, &board, false, &mut Unheard)?;
    Ok(KnownBoard {
        after,
        verdict: answer.verdict,
    })
}

/// The board after the first so many moves of a list that the rules allow from a position of the game.
pub fn board_after<G: Game>(game: &G, start: &Position, moves: &[Move], after: usize) -> Position
    requires position { IsPositionOf (G.game game.now) start.now }
    requires run { (c : Board) × Run (G.game game.now) start.now moves.now c }
    requires within { after ≤ length moves.now }
    ensures after { IsBoardAfter (G.game game.now) start.now moves.now after result }
    ensures position { IsPositionOf (G.game game.now) result }
{
    let (front, _) = moves.split_at(after);
    position_after(game, start, front)
}

/// Whether a list of moves wins that the rules allow from a position of the game.
pub fn wins<G: Game>(game: &G, start: &Position, moves: &[Move]) -> bool
    requires position { IsPositionOf (G.game game.now) start.now }
    requires run { (c : Board) × Run (G.game game.now) start.now moves.now c }
    ensures value { IsTrue result ↔ Wins (G.game game.now) start.now moves.now }
{
    position_after(game, start, moves).is_won()
}

// The position that these moves lead to.
fn position_after<G: Game>(game: &G, position: &Position, moves: &[Move]) -> Position
    requires position { IsPositionOf (G.game game.now) position.now }
    requires run { (c : Board) × Run (G.game game.now) position.now moves.now c }
    ensures there { Run (G.game game.now) position.now moves.now result }
    ensures position { IsPositionOf (G.game game.now) result }
{
    let mut board = position.copy();
    for m in moves {
        apply(game, &mut board, *m);
    }
    board
}

//! What became of a game: where a list of moves lost it, or how good a list is that wins.
ghost use Rattle.std.specs.Prelude.{◌≡◌, ◌≤◌, List, All, None, IfOk, IfErr, IfSome, length};
ghost use Rattle.fc_position.specs.Board.{Board};
ghost use Rattle.fc_moves.specs.GameRules.{IsPositionOf};
ghost use Rattle.fc_moves.specs.MoveText.{HasText};
ghost use Rattle.fc_moves.specs.Run.{Run};
ghost use Rattle.fc_moves.specs.declared.steps.Move.{Move};
ghost use Rattle.fc_methods.specs.Method.{QuestionData};
ghost use Rattle.fc_replay.specs.Token.{move_tokens};
ghost use Rattle.fc_review.specs.Finding.{IsFinding};
ghost use Rattle.fc_review.specs.Review.{Loses};
ghost use Rattle.fc_library.specs.Reviews.{IsFoundTold, IsReviewRefused, IsReviewTold, IsUnwoven, IsWovenFrom, capped_number, capped_outcome, losing_before, losing_place, review_outcome};

use crate::bests::asked;
use crate::call_refusals::CallRefusal;
use crate::game_names::GameName;
use crate::sinks::ToVec;
use crate::spelled_lists::moves_of;
use crate::told_answers::Told;
use fc_answers::{Outcome, Verdict};
use fc_lists::{LONGEST_MOVES, WeaveFault, weave};
use fc_methods::Question;
use fc_moves::{Game, Move};
use fc_position::Position;
use fc_replay::ReplayFault;
use fc_review::{Finding, find, finding_text};
use std::alloc::Global;

/// What is found of a list of moves, from a board of the game of this name, by best answers within a budget of 1 to 16,000,000
/// classes of positions: the line that the program prints; the number of the move that loses, as the place, 0 where none is
/// known to; and the numbers of what is told of a list that wins, else those of the best answer from the last board on the way
/// from which a list is told, if there is one. Moves home that the list leaves out are put in. The status is 0 where all is known,
/// 1 where the board can't be won, 2 where searches gave up.
///
/// # Errors
/// In this order: `Game`; `Budget`; `Board`; `TooLong` for a list of more than 1,048,576 bytes; `Moves` for the first token that is
/// no move, and else for the first move that isn't allowed; `Memory`.
pub fn review(
    alloc: Global,
    name: GameName,
    board: &[u8],
    list: &[u8],
    budget: u32,
) -> Result<Told, CallRefusal>
    ensures told { IfOk result (IsReviewTold name board.now list.now budget) }
    ensures refused { IfErr result (IsReviewRefused name board.now list.now budget) }
{
    let (question, start) = asked(name, board, budget)?;
    if list.len() > LONGEST_MOVES {
        return Err(CallRefusal::TooLong);
    }
    let moves = woven_of(alloc, question.game(), &start, list)?;
    tell(alloc, &question, &start, moves.as_slice())
}

// The moves of a text, with the moves home that it leaves out.
fn woven_of<G: Game>(
    alloc: Global,
    game: &G,
    start: &Position,
    list: &[u8],
) -> Result<Vec<Move>, CallRefusal>
    requires position { IsPositionOf (G.game game.now) start.now }
    requires short { length list.now ≤ LONGEST_MOVES }
    ensures woven { IfOk result (λ moves. IsWovenFrom (G.game game.now) start.now (move_tokens list.now) moves.items) }
    ensures run { IfOk result (λ moves. (c : Board) × Run (G.game game.now) start.now moves.items c) }
    ensures texts { IfOk result (λ moves. All HasText moves.items) }
    ensures refused { IfErr result (IsUnwoven (G.game game.now) start.now (move_tokens list.now)) }
{
    let given = moves_of(alloc, list)?;
    match weave(alloc, game, start, given.as_slice()) {
        Ok(moves) => Ok(moves),
        Err(WeaveFault::Refused(step)) => Err(CallRefusal::Moves(ReplayFault::NotAllowed(step))),
        Err(WeaveFault::Memory) => Err(CallRefusal::Memory),
    }
}

// What is found of a list of moves that the rules allow from a position.
fn tell<G: Game + Drop>(
    alloc: Global,
    question: &Question<G>,
    start: &Position,
    moves: &[Move],
) -> Result<Told, CallRefusal>
    requires position { IsPositionOf question.now.game start.now }
    requires run { (c : Board) × Run question.now.game start.now moves.now c }
    requires texts { All HasText moves.now }
    ensures told { IfOk result (IsFoundTold question.now start.now moves.now) }
    ensures refused { IfErr result (λ refusal. refusal ≡ CallRefusal.Memory) }
{
    let none: Option<&mut ToVec> = None;
    let Ok(finding) = find(alloc, question, start, moves, none) else {
        return Err(CallRefusal::Memory);
    };
    match finding_text(alloc, question.game(), start, moves, &finding) {
        Ok(text) => Ok(Told {
            status: finding.status(moves),
            place: losing_place(&finding),
            outcome: review_outcome(&finding),
            text,
        }),
        Err(_) => Err(CallRefusal::Memory),
    }
}

// The number of the move that loses, from 1; 0 where none is known to.
fn losing_place(finding: &Finding) -> u32
    ensures value { result ≡ losing_place finding.now }
    ensures loses { (q : QuestionData) (b : Board) (moves : List Move) → IsFinding q b moves None finding.now → IfSome (losing_before finding.now) (Loses q.game b moves) }
{
    match finding {
        Finding::Rated { .. } => 0,
        Finding::Traced(review) => match review.losing_move() {
            Some(before) => capped_number(before).saturating_add(1),
            None => 0,
        },
    }
}

// What is told of a list that wins, or else from the last board on its way from which a list is told.
fn review_outcome(finding: &Finding) -> Option<Outcome>
    ensures value { result ≡ review_outcome finding.now }
{
    match finding {
        Finding::Rated { rating, .. } => match &rating.own {
            Some(own) => Some(capped_outcome(own)),
            None => Some(capped_outcome(&rating.best)),
        },
        Finding::Traced(review) => match &review.won {
            Some(won) => Some(capped_outcome(&won.verdict)),
            None => None,
        },
    }
}

// A verdict without its moves.
fn capped_outcome(verdict: &Verdict) -> Outcome
    ensures value { result ≡ capped_outcome verdict.now }
{
    match verdict {
        Verdict::Shortest(moves) => Outcome::Shortest(capped_number(moves.len())),
        Verdict::Won { moves, floor } => Outcome::Won {
            moves: capped_number(moves.len()),
            floor: *floor,
        },
        Verdict::CannotWin => Outcome::CannotWin,
        Verdict::GaveUp(budget) => Outcome::GaveUp(*budget),
    }
}

// A number of four bytes: the greatest one for any that is greater.
fn capped_number(number: usize) -> u32
    ensures value { result ≡ capped_number number }
{
    number.min(u32::MAX as usize) as u32
}

//! The best answer of a board.
ghost use Rattle.std.specs.Prelude.{◌≡◌, ◌≢◌, IfOk, IfErr};
ghost use Rattle.fc_moves.specs.GameRules.{IsPositionOf};
ghost use Rattle.fc_library.specs.Bests.{CanBeAsked, IsBestCertified, IsBestRefused, IsBestTold, asked_best};

use crate::call_refusals::CallRefusal;
use crate::game_names::{AnyGame, GameName, game_of};
use crate::told_answers::{Certified, Told, certify, tell};
use crate::typed_boards::start_of;
use fc_methods::{GreatBudget, HomeRule, Method, Question, Sought};
use fc_position::Position;
use std::alloc::Global;

/// The best answer, within a budget of 1 to 16,000,000 classes of positions, for a board of the game of this name: the text that the
/// program prints, and its numbers.
///
/// # Errors
/// In this order: `Game`, `Budget`, `Board`, `Memory`.
pub fn best(alloc: Global, name: GameName, board: &[u8], budget: u32) -> Result<Told, CallRefusal>
    ensures told { IfOk result (IsBestTold name board.now budget) }
    ensures refused { IfErr result (IsBestRefused name board.now budget) }
{
    let (question, start) = asked(name, board, budget)?;
    tell(alloc, &question, &start)
}

/// The same, with the certificate of the answer.
///
/// # Errors
/// Those of `best`.
pub fn best_certified(
    alloc: Global,
    name: GameName,
    board: &[u8],
    budget: u32,
) -> Result<Certified, CallRefusal>
    ensures told { IfOk result (IsBestCertified name board.now budget) }
    ensures refused { IfErr result (IsBestRefused name board.now budget) }
{
    let (question, start) = asked(name, board, budget)?;
    certify(alloc, &question, &start)
}

// What is asked: the question, and the position to start from.
pub(crate) fn asked(
    name: GameName,
    board: &[u8],
    budget: u32,
) -> Result<(Question<AnyGame>, Position), CallRefusal>
    ensures asked { IfOk result (λ asked. CanBeAsked name board.now budget asked.1 × (asked.0 ≡ asked_best name budget)) }
    ensures position { IfOk result (λ asked. IsPositionOf asked.0.game asked.1) }
    ensures refused { IfErr result (IsBestRefused name board.now budget) }
    ensures given { IfErr result (λ refusal. refusal ≢ CallRefusal.Memory) }
{
    let Some(game) = game_of(name) else {
        return Err(CallRefusal::Game);
    };
    let Some(budget) = GreatBudget::new(budget) else {
        return Err(CallRefusal::Budget);
    };
    match start_of(board, name.cells) {
        Ok(start) => Ok((
            Question::new(&game, Sought::Best, Method::best(HomeRule::FREE, budget)),
            start,
        )),
        Err(fault) => Err(CallRefusal::Board(fault)),
    }
}

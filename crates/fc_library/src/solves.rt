//! A board, solved by a method.
ghost use Rattle.std.specs.Prelude.{◌≡◌, ◌≢◌, IfOk, IfErr};
ghost use Rattle.fc_moves.specs.GameRules.{IsPositionOf};
ghost use Rattle.fc_library.specs.Solves.{CanBeSolved, IsSolvedCertified, IsSolvedTold, IsSolveRefused};

use crate::call_refusals::CallRefusal;
use crate::game_names::{AnyGame, GameName, game_of};
use crate::method_names::{MethodName, method_of};
use crate::told_answers::{Certified, Told, certify, tell};
use crate::typed_boards::start_of;
use fc_methods::{Question, Sought};
use fc_position::Position;
use std::alloc::Global;

/// The answer of one search by a method, for a board of the game of this name: the text that the program prints, and its numbers.
///
/// # Errors
/// In this order: `Game`; `Rule`, `Bound`, `Weight`, `Expansion`, `Budget`; `Board`; `Memory`.
pub fn solve(
    alloc: Global,
    name: GameName,
    method: MethodName,
    board: &[u8],
) -> Result<Told, CallRefusal>
    ensures told { IfOk result (IsSolvedTold name method board.now) }
    ensures refused { IfErr result (IsSolveRefused name method board.now) }
{
    let (question, start) = asked(name, method, board)?;
    tell(alloc, &question, &start)
}

/// The same, with the certificate of the answer.
///
/// # Errors
/// Those of `solve`.
pub fn solve_certified(
    alloc: Global,
    name: GameName,
    method: MethodName,
    board: &[u8],
) -> Result<Certified, CallRefusal>
    ensures told { IfOk result (IsSolvedCertified name method board.now) }
    ensures refused { IfErr result (IsSolveRefused name method board.now) }
{
    let (question, start) = asked(name, method, board)?;
    certify(alloc, &question, &start)
}

// What is asked: the question, and the position to start from.
fn asked(
    name: GameName,
    method: MethodName,
    board: &[u8],
) -> Result<(Question<AnyGame>, Position), CallRefusal>
    ensures asked { IfOk result (λ asked. CanBeSolved name method board.now asked.0 asked.1) }
    ensures position { IfOk result (λ asked. IsPositionOf asked.0.game asked.1) }
    ensures refused { IfErr result (IsSolveRefused name method board.now) }
    ensures given { IfErr result (λ refusal. refusal ≢ CallRefusal.Memory) }
{
    let Some(game) = game_of(name) else {
        return Err(CallRefusal::Game);
    };
    let method = method_of(method)?;
    match start_of(board, name.cells) {
        Ok(start) => Ok((Question::new(&game, Sought::ByMethod, method), start)),
        Err(fault) => Err(CallRefusal::Board(fault)),
    }
}

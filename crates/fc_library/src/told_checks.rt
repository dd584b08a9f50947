//! Certificates checked for boards.
ghost use Rattle.std.specs.Prelude.{IfOk, IfErr};
ghost use Rattle.fc_library.specs.Checks.{IsCheckTold, IsCheckRefused};

use crate::call_refusals::CallRefusal;
use crate::figures::claimed_outcome;
use crate::game_names::{GameName, game_of};
use crate::told_answers::Told;
use crate::typed_boards::start_of;
use fc_answer_text::accepted_text;
use fc_cert::LONGEST_CERTIFICATE;
use fc_checker::check;
use fc_moves::Game;
use std::alloc::Global;

/// The text of the claim that the bytes prove of a board of the game of this name, as the program prints it, and its numbers.
/// Nothing is searched.
///
/// # Errors
/// In this order: `Game`; `Board`; `TooLong` for more than 1 GiB; `Certificate`, the first thing that is asked of one and
/// doesn't hold, or want of memory; `Memory`.
pub fn check_bytes(
    alloc: Global,
    name: GameName,
    board: &[u8],
    bytes: &[u8],
) -> Result<Told, CallRefusal>
    ensures accepted { IfOk result (IsCheckTold name board.now bytes.now) }
    ensures refused { IfErr result (IsCheckRefused name board.now bytes.now) }
{
    let Some(game) = game_of(name) else {
        return Err(CallRefusal::Game);
    };
    let start = match start_of(board, name.cells) {
        Ok(start) => start,
        Err(fault) => return Err(CallRefusal::Board(fault)),
    };
    if bytes.len() > LONGEST_CERTIFICATE {
        return Err(CallRefusal::TooLong);
    }
    match check(alloc, &game, &start, bytes) {
        Ok(claim) => match accepted_text(alloc, claim) {
            Ok(text) => Ok(Told {
                status: 0,
                place: 0,
                outcome: Some(claimed_outcome(claim)),
                text,
            }),
            Err(_) => Err(CallRefusal::Memory),
        },
        Err(fault) => Err(CallRefusal::Certificate(fault)),
    }
}

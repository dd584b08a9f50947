//! Lists of moves whose entries may move several cards, played on boards.
ghost use Rattle.std.specs.Prelude.{◌≡◌, IfOk, IfErr};
ghost use Rattle.fc_library.specs.Sequences.{IsSequencesRefused, IsSequencesTold};
ghost use Rattle.fc_library.specs.inner.Fault.{refusal_of};

use crate::call_refusals::CallRefusal;
use crate::game_names::{GameName, game_of};
use crate::sinks::ToVec;
use crate::told_answers::Told;
use crate::typed_boards::start_of;
use fc_lists::{LONGEST_MOVES, PlayFault, expand_entries};
use fc_moves::Game;
use fc_replay::{Page, ReplayFault, play};
use std::alloc::Global;

/// The boards after the first one-card move of a list, the second, and so on, from a board of the game of this name; an entry of
/// the list may move several cards, and `v` and a hexadecimal number behind its letters says how many. The status tells whether the
/// last board is won: 0, or 3 where it isn't.
///
/// # Errors
/// In this order: `Game`; `Board`; `TooLong` for a list of more than 1,048,576 bytes; `Moves` for the first token that is no entry;
/// `Moves` for the first step up to which no numbers of cards let the entries be played, or `TooManyWays` for one up to which they
/// lead to more than 1,000 boards; `TooLong` for more than 4,294,967,295 one-card moves; `Memory`.
pub fn replay_sequences(
    alloc: Global,
    name: GameName,
    board: &[u8],
    list: &[u8],
) -> Result<Told, CallRefusal>
    ensures told { IfOk result (IsSequencesTold name board.now list.now) }
    ensures refused { IfErr result (IsSequencesRefused name board.now list.now) }
{
    let Some(game) = game_of(name) else {
        return Err(CallRefusal::Game);
    };
    let start = match start_of(board, name.cells) {
        Ok(start) => start,
        Err(fault) => return Err(CallRefusal::Board(fault)),
    };
    if list.len() > LONGEST_MOVES {
        return Err(CallRefusal::TooLong);
    }
    let expansion = match expand_entries(alloc, &game, &start, list, LONGEST_MOVES) {
        Ok(expansion) => expansion,
        Err(fault) => return Err(refusal_of(fault)),
    };
    let mut boards = ToVec::new(alloc);
    match play(
        &game,
        &start,
        expansion.moves.as_slice(),
        Page::Board,
        &mut boards,
    ) {
        Ok(ended) => Ok(Told {
            status: if ended.is_won { 0 } else { 3 },
            place: 0,
            outcome: None,
            text: boards.into_bytes(),
        }),
        // (writing to memory fails for want of it alone)
        Err(_) => Err(CallRefusal::Memory),
    }
}

// The refusal that tells a fault of entries; a whole list never ends too soon.
fn refusal_of(fault: PlayFault) -> CallRefusal
    ensures value { result ≡ refusal_of fault }
{
    match fault {
        PlayFault::NoEntry(step) => CallRefusal::Moves(ReplayFault::BadMove(step)),
        PlayFault::NotAllowed(step) => CallRefusal::Moves(ReplayFault::NotAllowed(step)),
        PlayFault::TooManyWays(step) => CallRefusal::TooManyWays(step),
        PlayFault::TooLong => CallRefusal::TooLong,
        PlayFault::ListEnds(_) | PlayFault::Memory => CallRefusal::Memory,
    }
}

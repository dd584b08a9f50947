//! Lists of moves as people and other programs write them: what they leave out and how they name moves is made good.
ghost use Rattle.std.specs.Prelude.{All, IfOk};
ghost use Rattle.fc_position.specs.Board.{Board};
ghost use Rattle.fc_moves.specs.GameRules.{IsPositionOf};
ghost use Rattle.fc_moves.specs.MoveText.{HasText};
ghost use Rattle.fc_moves.specs.Run.{Run};

use crate::input::moves::moves_played;
use crate::output::endings::{Ending, tell};
use crate::output::refused_entries::tell_sequence;
use fc_lists::{
    EntriesFault, Entry, WeaveFault, Woven, entries_alone, read_entries, weave_entries,
};
use fc_moves::{Game, Move};
use fc_position::Position;
use fc_replay::ReplayFault;
use fc_runs::ProgramFault;
use std::alloc::Global;

/// The moves of a list's text that are played on a position of the game, with the moves home that it leaves out; what is wrong with it
/// is told.
pub fn list_of<G: Game>(
    rt: &HostRuntime,
    game: &G,
    start: &Position,
    text: &[u8],
    has_sequences: bool,
) -> Result<Woven, Ending>
    requires position { IsPositionOf (G.game game.now) start.now }
    ensures run { IfOk result (λ list. (c : Board) × Run (G.game game.now) start.now list.moves.items c) }
    ensures texts { IfOk result (λ list. All HasText list.moves.items) }
{
    let alloc = rt.alloc();
    let bare = entries_alone(alloc, text, has_sequences)?;
    let entries = if has_sequences {
        expanded(rt, game, start, bare.as_slice())?
    } else {
        match read_entries(alloc, bare.as_slice()) {
            Ok(entries) => entries,
            Err(fault) => return Err(no_entry(fault)),
        }
    };
    if entries.len() > u32::MAX as usize {
        return Err(Ending::Fault(ProgramFault::Memory));
    }
    match weave_entries(alloc, game, start, entries.as_slice()) {
        Ok(list) => Ok(list),
        Err(WeaveFault::Memory) => Err(Ending::Fault(ProgramFault::Memory)),
        Err(WeaveFault::Refused(step)) => Err(Ending::Fault(not_allowed(step))),
    }
}

// The fault of a move that isn't allowed, by its step.
fn not_allowed(step: u32) -> ProgramFault {
    ProgramFault::Moves(ReplayFault::NotAllowed(step))
}

// The one-card moves of a list whose entries may move several cards, each as an entry; what is wrong with it is told.
fn expanded<G: Game>(
    rt: &HostRuntime,
    game: &G,
    start: &Position,
    list: &[u8],
) -> Result<Vec<Entry>, Ending>
    requires position { IsPositionOf (G.game game.now) start.now }
{
    match moves_played(rt.alloc(), game, start, list, true) {
        Ok(moves) => moves_alone(rt.alloc(), moves.as_slice()),
        Err(fault) => {
            let status = tell(rt, &fault);
            tell_sequence(rt, game, start, list, fault);
            Err(Ending::Told(status))
        }
    }
}

// Moves as entries.
fn moves_alone(alloc: Global, moves: &[Move]) -> Result<Vec<Entry>, Ending> {
    let mut entries = Vec::new(alloc);
    for m in moves {
        let Ok(()) = entries.push(Entry::Move(*m)) else {
            return Err(Ending::Fault(ProgramFault::Memory));
        };
    }
    Ok(entries)
}

// The fault of a list that people write.
fn no_entry(fault: EntriesFault) -> Ending {
    match fault {
        EntriesFault::NoMove(step) => {
            Ending::Fault(ProgramFault::Moves(ReplayFault::BadMove(step)))
        }
        EntriesFault::Memory => Ending::Fault(ProgramFault::Memory),
    }
}

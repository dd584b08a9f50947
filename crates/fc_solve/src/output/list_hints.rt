//! What helps where a list is refused for what it is, and not for a move of it.
ghost use Rattle.fc_moves.specs.GameRules.{IsPositionOf};

use crate::input::pair_lists::expand_list;
use fc_lists::{LONGEST_MOVES, entries_alone};
use fc_moves::Game;
use fc_position::Position;
use fc_replay::ReplayFault;

/// Says of a list's text that is refused so what helps: that it plays once its entries may move several cards; that it has boards
/// and no moves; or that a solver found none.
pub fn tell_list_hint<G: Game>(
    rt: &HostRuntime,
    game: &G,
    start: &Position,
    text: &[u8],
    has_sequences: bool,
    fault: ReplayFault,
)
    requires position { IsPositionOf (G.game game.now) start.now }
{
    if has_line(text, b"I could not solve this game") {
        let _told = eprintln!(rt;
            "fc_solve: Freecell Solver found no solution there: fc-solve --load-config lg finds nearly each"
        );
    } else if !has_sequences && plays_in_sequences(rt, game, start, text) {
        let _told = eprintln!(rt; "fc_solve: with --sequences the whole list can be played");
    } else if matches!(fault, ReplayFault::BadMove(1)) && has_line(text, b"Foundations:") {
        let _told = eprintln!(rt;
            "fc_solve: there are boards, and no moves that are read: fc-solve prints moves by -m -sn"
        );
    }
}

// Whether a line of a text begins so.
fn has_line(text: &[u8], front: &[u8]) -> bool {
    text.split(|byte| *byte == b'\n')
        .any(|line| line.starts_with(front))
}

// Whether the whole of a list can be played whose entries may move several cards.
fn plays_in_sequences<G: Game>(rt: &HostRuntime, game: &G, start: &Position, text: &[u8]) -> bool
    requires position { IsPositionOf (G.game game.now) start.now }
{
    if text.len() > LONGEST_MOVES {
        return false;
    }
    match entries_alone(rt.alloc(), text, true) {
        Ok(list) => expand_list(rt.alloc(), game, start, list.as_slice()).is_ok(),
        Err(_) => false,
    }
}

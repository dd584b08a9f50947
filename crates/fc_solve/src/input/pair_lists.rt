//! Lists whose entries may move several cards: their entries, the one-card moves to which these come, and how many of the moves
//! each entry takes.
ghost use Rattle.fc_moves.specs.GameRules.{IsPositionOf};

use fc_cards::Place;
use fc_lists::{Expansion, LONGEST_MOVES, expand_entries};
use fc_moves::{Game, Move, allows, apply};
use fc_position::Position;
use fc_runs::{Input, ProgramFault};
use fc_sequences::Pair;
use std::alloc::Global;

/// The entries of a list, and the one-card moves to which they come.
///
/// # Errors
/// Those of `run_replay_sequences` before it writes.
pub fn expand_list<G: Game>(
    alloc: Global,
    game: &G,
    start: &Position,
    list: &[u8],
) -> Result<Expansion, ProgramFault>
    requires position { IsPositionOf (G.game game.now) start.now }
{
    if list.len() > LONGEST_MOVES {
        return Err(ProgramFault::TooLong(Input::Moves));
    }
    Ok(expand_entries(alloc, game, start, list, LONGEST_MOVES)?)
}

/// How many cards an entry moved, and how many moves it took.
#[derive(Clone, Copy)]
pub struct Carried {
    pub cards: usize,
    pub moves: usize,
}

/// Makes those of the moves, which are left of a list's, that are this entry's.
pub fn play_entry<G: Game>(game: &G, board: &mut Position, pair: &Pair, moves: &[Move]) -> Carried {
    let most = match (pair.from, pair.to) {
        (Place::Column(_), Place::Column(_)) => moves.len(),
        _ => moves.len().min(1),
    };
    let (source, target) = (cards_at(board, pair.from), cards_at(board, pair.to));
    let mut carried = Carried { cards: 1, moves: 0 };
    let mut has_come = false;
    for m in &moves[..most] {
        if !allows(game, board, *m) {
            return carried;
        }
        apply(game, board, *m);
        carried.moves = carried.moves.saturating_add(1);
        if !has_come && m.to == pair.to {
            // (the deepest card comes first, when all the others have left their column too)
            carried.cards = source.saturating_sub(cards_at(board, pair.from));
            has_come = true;
        }
        if has_come && cards_at(board, pair.to).saturating_sub(target) >= carried.cards {
            return carried;
        }
    }
    carried
}

// How many cards there are in a column, and nowhere else any.
fn cards_at(board: &Position, place: Place) -> usize {
    match place {
        Place::Column(column) if column < 8 => board.column(column).len(),
        _ => 0,
    }
}

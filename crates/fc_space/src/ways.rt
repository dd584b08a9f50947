//! The way from a position to the class of a code, found again by trying its moves.

ghost use Rattle.std.specs.Prelude.{◌≡◌, ◌+◌, ◌≤◌, ◌++◌, ℕ, List, length, OnOk, MatchOption};
ghost use Rattle.fc_moves.specs.declared.steps.Move.{Move};
ghost use Rattle.fc_moves.specs.GameRules.{IsPositionOf};
ghost use Rattle.fc_moves.specs.Run.{Run};
ghost use Rattle.fc_moves.specs.Step.{Allows};
ghost use Rattle.fc_codes.specs.State.{IsCodeOf};
ghost use Rattle.fc_space.specs.Children.{frame_by};
ghost use Rattle.fc_space.specs.Ways.{LeadsWithin};
ghost use Rattle.fc_space.specs.inner.Ways.{LeadsOn};

use crate::class_space::Positions;
use crate::coded::settle_coded;
use arrayvec::ArrayVec;
use fc_codes::Code;
use fc_moves::{Game, Move, apply, moves};
use fc_position::Position;
use std::alloc::AllocError;

// A move, the home moves that follow it, and where they lead.
#[derive(Drop)]
struct WayOn {
    m: Move,
    settling: ArrayVec<Move, 52>,
    position: Position,
}

/// From a position with the one code, makes a move that leads to the class of the other, with the home moves that follow it by
/// the space's rule, at most so many moves in all, and notes them.
///
/// # Errors
/// A growth was refused; the moves and the position are then unknown.
pub fn follow<G: Game + Drop>(
    space: &Positions<G>,
    position: &mut Position,
    from: &Code,
    to: &Code,
    most: usize,
    made: &mut Vec<Move>,
) -> Result<(), AllocError>
    requires fits { IsPositionOf (G.game space.now.rules.game) position.old }
    requires from { IsCodeOf space.now.start position.old from.now }
    requires leads { (m : Move) × LeadsWithin (frame_by G.game space.now.rules space.now.start) position.old to.now most m }
    ensures led { OnOk result ((more : List Move) × (made.new.items ≡ made.old.items ++ more) × Run (G.game space.now.rules.game) position.old more position.new × (length more ≤ most)) }
    ensures there { OnOk result (IsCodeOf space.now.start position.new to.now) }
    ensures fits { OnOk result (IsPositionOf (G.game space.now.rules.game) position.new) }
{
    let way = way_on(space, position, from, to, most).unwrap();
    made.push(way.m)?;
    made.extend_from_slice(way.settling.as_slice())?;
    *position = way.position;
    Ok(())
}

// The way from a position with the one code by the first move that leads to the class of the other, with the home moves
// that follow it, by at most so many moves.
fn way_on<G: Game + Drop>(
    space: &Positions<G>,
    position: &Position,
    from: &Code,
    to: &Code,
    most: usize,
) -> Option<WayOn>
    requires from { IsCodeOf space.now.start position.now from.now }
    ensures first { MatchOption result ((m : Move) → LeadsWithin (frame_by G.game space.now.rules space.now.start) position.now to.now most m → ⊥)
        (LeadsOn (frame_by G.game space.now.rules space.now.start) position.now to.now most) }
{
    for m in moves(&space.rules.game, position).as_slice() {
        let way = way_by(space, position, from, *m, to, most);
        if way.is_some() {
            return way;
        }
    }
    None
}

// The way from a position with the one code by an allowed move, if it leads to the class of the other, with the home moves
// that follow it, by at most so many moves.
fn way_by<G: Game + Drop>(
    space: &Positions<G>,
    position: &Position,
    from: &Code,
    m: Move,
    to: &Code,
    most: usize,
) -> Option<WayOn>
    requires from { IsCodeOf space.now.start position.now from.now }
    requires allowed { Allows (G.game space.now.rules.game) position.now m }
    ensures value { MatchOption result (LeadsWithin (frame_by G.game space.now.rules space.now.start) position.now to.now most m → ⊥)
        (LeadsOn (frame_by G.game space.now.rules space.now.start) position.now to.now most) }
{
    let after = space.layout.moved(from, position, m);
    let mut next = position.copy();
    apply(&space.rules.game, &mut next, m);
    let (settling, code) = settle_coded(&space.rules.game, space.rules.rule, &mut next, after);
    if settling.len() < most && code == *to {
        return Some(WayOn {
            m,
            settling,
            position: next,
        });
    }
    None
}

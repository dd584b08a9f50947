ghost use Rattle.std.specs.Prelude.{IfSome, IfNone};
ghost use Rattle.fc_position.specs.Board.{Board};
ghost use Rattle.fc_moves.specs.declared.steps.Move.{Move};
ghost use Rattle.fc_moves.specs.Step.{Step};
ghost use Rattle.fc_canonical.specs.Key.{IsKeyOf};

use crate::keys::{Key, key};
use fc_moves::{Game, Move, apply, moves};
use fc_position::Position;

/// An allowed move whose result has this key; `None` where none has.
pub fn find_move<G: Game>(game: &G, position: &Position, target: &Key) -> Option<Move>
    ensures found { IfSome result (λ m. (x : Board) × Step (G.game game.now) position.now m x × IsKeyOf x target.now.items) }
    ensures none { IfNone result ((m : Move) (x : Board) → Step (G.game game.now) position.now m x
        → IsKeyOf x target.now.items → ⊥) }
{
    let list = moves(game, position);
    for m in list.as_slice() {
        let mut next = position.copy();
        apply(game, &mut next, *m);
        if key(&next).as_slice() == target.as_slice() {
            return Some(*m);
        }
    }
    None
}

ghost use Rattle.std.specs.Prelude.{◌≡◌, ℕ, ◌+◌, ◌*◌, ◌<◌, ◌≤◌, Some};
ghost use Rattle.arrayvec.specs.ArrayVec.{array_vec_len};
ghost use Rattle.fc_position.specs.Board.{playable};
ghost use Rattle.fc_position.specs.Position.{IsPosition};
ghost use Rattle.fc_moves.specs.MoveText.{IsThere};
ghost use Rattle.fc_moves.specs.Step.{ListsMoves, place_number};
ghost use Rattle.fc_moves.specs.inner.Step.{most_from, ListsBelow};

use crate::games::Game;
use crate::steps::{Move, joins, takes};
use arrayvec::ArrayVec;
use fc_cards::{Card, Place};
use fc_position::Position;

/// Every move that the rules of the game allow, once, by source, the columns and then the cells, rising, and then by
/// destination, the columns, the cells and home.
pub fn moves<G: Game>(game: &G, position: &Position) -> ArrayVec<Move, 132>
    ensures { ListsMoves (G.game game.now) position.now result.items }
{
    let mut list = ArrayVec::new();
    for number in 0..12 {
        let from = place_of(number);
        if let Some(card) = position.playable(from) {
            list_moves_from(game, position, from, card, &mut list);
        }
    }
    list
}

// Adds the moves of the playable card of a place, after those of the places before it.
fn list_moves_from<G: Game>(
    game: &G,
    position: &Position,
    from: Place,
    card: Card,
    list: &mut ArrayVec<Move, 132>,
)
    requires whole { IsPosition position.now }
    requires card { playable position.now from ≡ Some card }
    requires before { ListsBelow (G.game game.now) position.now (place_number from * 13) list.old.items }
    requires room { array_vec_len list.old + most_from from ≤ 132 }
    ensures after { ListsBelow (G.game game.now) position.now (place_number from * 13 + 13) list.new.items }
    ensures count { array_vec_len list.new ≤ array_vec_len list.old + most_from from }
{
    for number in 0..13 {
        let to = place_of(number);
        if joins(from, to) && takes(game, position, card, to) {
            list.push(Move { from, to });
        }
    }
}

// The place with this number: the columns from 0 on, the cells from 8 on, and home at 12.
fn place_of(number: u8) -> Place
    requires { number < 13 }
    ensures number { place_number result ≡ number }
    ensures there { IsThere result }
{
    match number {
        0..8 => Place::Column(number),
        8..12 => Place::Cell(number - 8),
        _ => Place::Home,
    }
}

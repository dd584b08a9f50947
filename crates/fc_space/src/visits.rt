//! Which moves a visit lists: at a first one only those that may lead on at no greater number than is asked.

ghost use Rattle.std.specs.Prelude.{◌≡◌, ◌≢◌, ◌↔◌, ℕ, false, true, IsTrue, List, [], Some};
ghost use Rattle.std.specs.Int.{bit_at};
ghost use Rattle.fc_cards.specs.declared.places.Place.{Place};
ghost use Rattle.fc_cards.specs.Suit.{suit_index};
ghost use Rattle.fc_position.specs.Board.{IsNext, playable};
ghost use Rattle.fc_position.specs.Position.{IsPosition};
ghost use Rattle.fc_moves.specs.declared.steps.Move.{Move};
ghost use Rattle.fc_bound.specs.Rows.{IsTableOf};
ghost use Rattle.fc_space.specs.inner.Idle.{IsIdle, IsNextIn, LeavesIdle};

use arrayvec::ArrayVec;
use fc_bound::ColumnTable;
use fc_canonical::{list_distinct_moves, list_wanted_moves};
use fc_cards::Suit;
use fc_moves::{Game, Move};
use fc_position::Position;

// Lists moves to each class to which a move leads, but at a first visit none of an idle card, and tells whether there are such.
#[inline(always)]
pub(crate) fn list_moves<G: Game>(
    game: &G,
    position: &Position,
    table: &ColumnTable,
    note: u64,
    is_first: bool,
    list: &mut ArrayVec<Move, 132>,
) -> bool
    requires whole { IsPosition position.now }
    requires table { is_first ≡ true → IsTableOf position.now.columns table.now }
    ensures lists { (left : List Move) × LeavesIdle (G.game game.now) position.now note left list.new.items × (IsTrue result ↔ (left ≢ [])) }
    ensures later { is_first ≡ false → result ≡ false }
{
    if is_first {
        let wanted = wanted_cards(position, table, note);
        return list_wanted_moves(game, position, wanted, list);
    }
    list_distinct_moves(game, position, list);
    false
}

// The cards, one bit for each, of which a first visit lists the moves: all playable ones that aren't idle, and what is noted.
fn wanted_cards(position: &Position, table: &ColumnTable, note: u64) -> u64
    requires whole { IsPosition position.now }
    requires table { IsTableOf position.now.columns table.now }
    ensures idle { (from : Place) (u : ℕ) → playable position.now from ≡ Some u → bit_at result u ≡ 0 → IsIdle position.now note from u }
{
    let next = next_cards(position);
    note | table.held() | next | table.covers(next)
}

// The cards that are next in their suits, one bit for each.
fn next_cards(position: &Position) -> u64
    ensures value { (c : ℕ) → (bit_at result c ≡ 1) ↔ IsNext position.now.homes c }
{
    next_of(position, Suit::C)
        | next_of(position, Suit::D)
        | next_of(position, Suit::H)
        | next_of(position, Suit::S)
}

// The bit of the card of a suit that is next, and one past all cards where the suit is home.
#[inline(always)]
fn next_of(position: &Position, suit: Suit) -> u64
    ensures value { (c : ℕ) → (bit_at result c ≡ 1) ↔ IsNextIn position.now.homes (suit_index suit) c }
{
    1 << (4 * position.home(suit) + suit.index())
}

//! Entries of a list, as people and programs write them.

ghost use Rattle.std.specs.Prelude.{◌≡◌, ◌↔◌, IfOk, IsTrue, MatchOption, map};
ghost use Rattle.fc_moves.specs.Step.{Allows};
ghost use Rattle.fc_lists.specs.Weaving.{AllowsEntry, IsEntryFor, IsHomeBefore};
ghost use Rattle.fc_lists.specs.declared.written_entries.Entry.TheVariants as entry;

use fc_cards::{Card, Place};
use fc_moves::{Game, Move, allows, moves};
use fc_position::Position;
use std::alloc::{AllocError, Global};

/// An entry of a list.
#[derive(Clone, Copy, Debug)]
pub enum Entry {
    /// A move, from where to where.
    Move(Move),
    /// A card, from where it lies then, and where it goes.
    Card(Card, Place),
}

// The moves as entries.
pub(crate) fn entries_of(alloc: Global, list: &[Move]) -> Result<Vec<Entry>, AllocError>
    ensures entries { IfOk result (λ entries. entries.items ≡ map entry.Move list.now) }
{
    let mut entries = Vec::new(alloc);
    for m in list {
        entries.push(Entry::Move(*m))?;
    }
    Ok(entries)
}

// The move that an entry is on a position, if the rules allow it.
pub(crate) fn move_for<G: Game>(game: &G, position: &Position, e: &Entry) -> Option<Move>
    ensures allowed { MatchOption result (AllowsEntry (G.game game.now) position.now e.now → ⊥)
        (λ m. IsEntryFor position.now e.now m × Allows (G.game game.now) position.now m) }
{
    match *e {
        Entry::Move(m) => move_itself(game, position, m),
        Entry::Card(card, to) => move_of_card(game, position, card, to),
    }
}

// A move, if the rules allow it.
fn move_itself<G: Game>(game: &G, position: &Position, m: Move) -> Option<Move>
    ensures allowed { MatchOption result (AllowsEntry (G.game game.now) position.now (entry.Move m) → ⊥)
        (λ n. IsEntryFor position.now (entry.Move m) n × Allows (G.game game.now) position.now n) }
{
    if allows(game, position, m) {
        Some(m)
    } else {
        None
    }
}

// The move that takes a card to a place, if the rules allow it.
fn move_of_card<G: Game>(game: &G, position: &Position, card: Card, to: Place) -> Option<Move>
    ensures allowed { MatchOption result (AllowsEntry (G.game game.now) position.now (entry.Card card to) → ⊥)
        (λ m. IsEntryFor position.now (entry.Card card to) m × Allows (G.game game.now) position.now m) }
{
    let list = moves(game, position);
    for m in list.as_slice() {
        if takes_card(position, *m, card, to) {
            return Some(*m);
        }
    }
    None
}

// Whether a move takes a card to a place.
fn takes_card(position: &Position, m: Move, card: Card, to: Place) -> bool
    ensures value { IsTrue result ↔ IsEntryFor position.now (entry.Card card to) m }
{
    m.to == to && position.playable(m.from) == Some(card)
}

// Whether an entry sends a card home that is there.
pub(crate) fn is_home_before(position: &Position, e: &Entry) -> bool
    ensures value { IsTrue result ↔ IsHomeBefore position.now e.now }
{
    match *e {
        Entry::Move(_) => false,
        Entry::Card(card, to) => goes_home_again(position, card, to),
    }
}

// Whether a card that is home goes there.
fn goes_home_again(position: &Position, card: Card, to: Place) -> bool
    ensures value { IsTrue result ↔ IsHomeBefore position.now (entry.Card card to) }
{
    match to {
        Place::Home => card.rank() <= position.home(card.suit()),
        Place::Column(_) | Place::Cell(_) => false,
    }
}

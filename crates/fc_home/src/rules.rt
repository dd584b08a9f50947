ghost use Rattle.std.specs.Prelude.{◌↔◌, IsTrue};
ghost use Rattle.fc_position.specs.Board.{IsHome};
ghost use Rattle.fc_home.specs.HomeRule.{IsForced, IsFree, GoesHome};
ghost use Rattle.fc_home.specs.inner.Known.{IsKnown, IsLevel};

use crate::known::Known;
use fc_cards::{Card, Suit};
use fc_moves::Game;
use fc_position::Position;

/// Whether a card is free: it is next in its suit, and each card that the game lets stand on it is home or itself free.
/// Where the card lies doesn't matter.
pub fn free<G: Game>(game: &G, position: &Position, card: Card) -> bool
    ensures value { IsTrue result ↔ IsFree (G.game game.now) position.now.homes card }
{
    is_free(game, position, card, &mut Known::new())
}

// Whether the card goes home by the rule, wherever it lies.
pub(crate) fn goes_home<G: Game>(
    game: &G,
    position: &Position,
    rule: u8,
    card: Card,
    known: &mut Known,
) -> bool
    requires known { IsKnown (G.game game.now) position.now.homes known.old }
    ensures value { IsTrue result ↔ GoesHome rule (G.game game.now) position.now.homes card }
    ensures known { IsKnown (G.game game.now) position.now.homes known.new }
{
    match rule {
        0 => false,
        1 => is_forced(game, position, card),
        _ => is_free(game, position, card, known),
    }
}

// Whether the card is next, and each card that may stand on it is home.
fn is_forced<G: Game>(game: &G, position: &Position, card: Card) -> bool
    ensures value { IsTrue result ↔ IsForced (G.game game.now) position.now.homes card }
{
    if !position.is_next(card) {
        return false;
    }
    if is_level(position, card) {
        return true;
    }
    let hosts = game.hosts_of(card);
    for host in hosts.as_slice() {
        if !is_home(position, *host) {
            return false;
        }
    }
    true
}

// Whether the card is free. What is known of the next cards isn't asked again, and what is found out is kept.
fn is_free<G: Game>(game: &G, position: &Position, card: Card, known: &mut Known) -> bool
    requires known { IsKnown (G.game game.now) position.now.homes known.old }
    ensures value { IsTrue result ↔ IsFree (G.game game.now) position.now.homes card }
    ensures known { IsKnown (G.game game.now) position.now.homes known.new }
{
    if !position.is_next(card) {
        return false;
    }
    if is_level(position, card) {
        return true;
    }
    if let Some(answer) = known.of(card.suit()) {
        return answer;
    }
    let hosts = game.hosts_of(card);
    for host in hosts.as_slice() {
        if !is_home(position, *host) && !is_free(game, position, *host, known) {
            return known.keep(card.suit(), false);
        }
    }
    known.keep(card.suit(), true)
}

// Whether the card is home.
fn is_home(position: &Position, card: Card) -> bool
    ensures value { IsTrue result ↔ IsHome position.now.homes card }
{
    card.rank() <= position.home(card.suit())
}

// Whether every card of a lower rank is home, so that no game has a card left to stand on this one.
fn is_level(position: &Position, card: Card) -> bool
    ensures value { IsTrue result ↔ IsLevel position.now.homes card }
{
    let lower = card.rank() - 1;
    lower <= position.home(Suit::C)
        && lower <= position.home(Suit::D)
        && lower <= position.home(Suit::H)
        && lower <= position.home(Suit::S)
}

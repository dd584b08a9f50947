//! How the code of a position changes by what settles: the cards that went home are marked in it, and no other is looked at.

ghost use Rattle.std.specs.Prelude.{◌≡◌, ℕ, ◌<◌, ◌≤◌, length, slice_index};
ghost use Rattle.fc_cards.specs.Suit.{suit_index};
ghost use Rattle.fc_position.specs.Board.{Board};
ghost use Rattle.fc_position.specs.Position.{IsPosition};
ghost use Rattle.fc_bound.specs.Landings.{IsLanding};
ghost use Rattle.fc_codes.specs.Moved.{Moves};
ghost use Rattle.fc_codes.specs.State.{IsCodeOf};
ghost use Rattle.fc_home.specs.Settles.{SettlesBy};
ghost use Rattle.fc_space.specs.inner.Codes.{IsSent, IsBetween, WentHome};

use arrayvec::ArrayVec;
use fc_bound::Landing;
use fc_cards::{Card, Place, Suit};
use fc_codes::{Code, Layout};
use fc_home::{HomeRule, settle};
use fc_moves::{Game, Move};
use fc_position::Position;

// The code of where a move lands, from a position with this code.
#[inline(always)]
pub(crate) fn code_after(layout: &Layout, code: &Code, landing: &Landing) -> Code
    ensures value { (b c : Board) (card : ℕ) → IsLanding b landing.now → Moves layout.now code.now card b landing.now.m c → IsCodeOf layout.now c result }
{
    match (landing.m.to, landing.host) {
        (Place::Column(_), Some(host)) => layout.on_card(code, landing.card, host),
        (Place::Column(_), None) => layout.on_table(code, landing.card),
        (Place::Cell(_), _) => code.in_cell(landing.card),
        (Place::Home, _) => *code,
    }
}

// Settles a position with this code. The moves that it made, and the code of where they led.
pub(crate) fn settle_coded<G: Game>(
    game: &G,
    rule: HomeRule,
    position: &mut Position,
    code: Code,
) -> (ArrayVec<Move, 52>, Code)
    ensures settled { SettlesBy (G.game game.now) rule position.old result.0.items position.new }
    ensures coded { (s : Board) → IsCodeOf s position.old code → IsCodeOf s position.new result.1 }
    ensures whole { IsPosition position.new }
{
    let before = counts(position);
    let settling = settle(game, position, rule.get());
    (settling, with_sent(code, &before, position))
}

// How many cards of each suit are home.
#[inline]
fn counts(position: &Position) -> [u8; 4]
    ensures value { result ≡ position.now.homes }
    ensures whole { IsPosition position.now }
{
    [
        position.home(Suit::C),
        position.home(Suit::D),
        position.home(Suit::H),
        position.home(Suit::S),
    ]
}

// The code with the state 1, home, for the cards that went home since these counts.
fn with_sent(code: Code, before: &[u8; 4], position: &Position) -> Code
    ensures value { (c : ℕ) → c < 52 → IsSent (WentHome before.now position.now.homes c) (slice_index code c) (slice_index result c) }
    ensures count { length code ≡ 52 → length result ≡ 52 }
{
    let [clubs, diamonds, hearts, spades] = *before;
    let code = with_suit(code, Suit::C, clubs, position.home(Suit::C));
    let code = with_suit(code, Suit::D, diamonds, position.home(Suit::D));
    let code = with_suit(code, Suit::H, hearts, position.home(Suit::H));
    with_suit(code, Suit::S, spades, position.home(Suit::S))
}

// The code with the state 1, home, for the cards of a suit above one rank and up to another.
#[inline]
fn with_suit(code: Code, suit: Suit, low: u8, high: u8) -> Code
    requires most { high ≤ 13 }
    ensures value { (c : ℕ) → c < 52 → IsSent (IsBetween (suit_index suit) low high c) (slice_index code c) (slice_index result c) }
    ensures count { length code ≡ 52 → length result ≡ 52 }
{
    let mut code = code;
    for rank in low..high {
        if let Some(card) = Card::new(rank + 1, suit) {
            code = code.at_home(card);
        }
    }
    code
}

//! Boards to which moves can lead from a deal.

ghost use Rattle.std.specs.Prelude.{◌≡◌, ℕ, ◌<◌, ◌↔◌, IsTrue, cond, nat_lt};
ghost use Rattle.fc_position.specs.Board.{column};
ghost use Rattle.fc_notes.specs.Length.{CanBePlayedTo, IsPlayedBy, IsPlayedColumn, StandsBy, dealt_count};

use fc_cards::Card;
use fc_position::Position;

/// By what a card stands on one a rank higher.
#[derive(Clone, Copy, Debug, PartialEq, Eq)]
pub(crate) enum Rule {
    /// By their colours, which differ.
    Colours,
    /// By their suit.
    Suits,
}

/// Whether moves can lead from a deal to a board: each card past those of its column that were dealt, seven in the first four
/// and six in the others, stands on the card before it, by the colours throughout or by the suits.
pub(crate) fn can_be_played_to(start: &Position) -> bool
    ensures value { IsTrue result ↔ CanBePlayedTo start.now }
{
    is_played(start, Rule::Colours) || is_played(start, Rule::Suits)
}

// Whether each card past those that were dealt stands so on the card before it.
fn is_played(start: &Position, rule: Rule) -> bool
    ensures value { IsTrue result ↔ IsPlayedBy rule start.now }
{
    for column in 0..8 {
        if !is_played_column(start.column(column), dealt_count(column), rule) {
            return false;
        }
    }
    true
}

/// How many cards of a column are dealt.
pub(crate) fn dealt_count(column: u8) -> usize
    ensures value { result ≡ dealt_count column }
{
    if column < 4 { 7 } else { 6 }
}

// Whether each card past so many stands on the card before it.
fn is_played_column(cards: &[Card], dealt: usize, rule: Rule) -> bool
    requires some { 0 < dealt }
    ensures value { IsTrue result ↔ IsPlayedColumn rule dealt cards.now }
{
    for depth in dealt..cards.len() {
        if !stands(cards[depth], cards[depth - 1], rule) {
            return false;
        }
    }
    true
}

// Whether a card may stand on another one.
fn stands(card: Card, host: Card, rule: Rule) -> bool
    ensures value { IsTrue result ↔ StandsBy rule card host }
{
    let is_next = card.rank() + 1 == host.rank();
    match rule {
        Rule::Colours => is_next && card.is_red() != host.is_red(),
        Rule::Suits => is_next && card.suit() == host.suit(),
    }
}

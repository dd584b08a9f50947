ghost use Rattle.std.specs.Prelude.{◌≡◌, ℕ, ◌+◌, ◌-◌, ◌*◌, ◌/◌, ◌<◌, ◌≤◌, ◌↔◌, Some, IsSome, IfSome, IfNone};
ghost use Rattle.fc_cards.specs.Card.{rank, suit, is_red};
ghost use Rattle.fc_cards.specs.Suit.{suit_index};
ghost use Rattle.fc_cards.specs.Texts.{card_text, IsRank, IsCardText};

use crate::ranks::{rank_letter, read_rank};
use crate::suits::Suit;
use std::fmt;
use std::fmt::Write;
use std::marker::Model;

/// A playing card, seen by contracts as its number: four times its rank less one, plus its suit, 0 to 51. Cards are
/// ordered by that number; the least, the ace of clubs, is the default.
#[derive(Clone, Copy, Debug, PartialEq, Eq, PartialOrd, Ord, Hash, Default)]
pub struct Card {
    index: u8,
}

impl Model for Card {
    ghost Value = { ℕ };

    ghost view = { λ c. c.index };

    ghost invariant = { λ c. c.index < 52 };

    ghost inverse = { λ n. record { index = n } };
}

impl Card {
    /// The card with this rank, 1 (ace) to 13 (king), and suit; `None` at any other rank.
    pub fn new(rank: u8, suit: Suit) -> Option<Card>
        ensures valid { IsSome result ↔ IsRank rank }
        ensures value { IfSome result (λ c. c ≡ (rank - 1) * 4 + suit_index suit) }
    {
        if (1..=13).contains(&rank) {
            Some(Card {
                index: (rank - 1) * 4 + suit.index(),
            })
        } else {
            None
        }
    }

    /// The card with this number; `None` from 52 on.
    #[inline]
    pub fn from_index(index: u8) -> Option<Card>
        ensures valid { IsSome result ↔ (index < 52) }
        ensures value { IfSome result (λ c. c ≡ index) }
    {
        if index < 52 {
            Some(Card { index })
        } else {
            None
        }
    }

    /// The card's number, 0 to 51.
    #[inline]
    pub fn index(self) -> u8
        ensures value { result ≡ self }
        ensures below { result < 52 }
    {
        self.index
    }

    /// The rank, 1 (ace) to 13 (king).
    #[inline]
    pub fn rank(self) -> u8
        ensures value { result ≡ rank self }
        ensures within { IsRank result }
    {
        self.index / 4 + 1
    }

    /// The suit.
    #[inline]
    pub fn suit(self) -> Suit
        ensures { suit_index result ≡ suit self }
    {
        match self.index % 4 {
            0 => Suit::C,
            1 => Suit::D,
            2 => Suit::H,
            _ => Suit::S,
        }
    }

    /// Whether the suit is diamonds or hearts.
    #[inline]
    pub fn is_red(self) -> bool
        ensures value { result ≡ is_red self }
    {
        matches!(self.suit(), Suit::D | Suit::H)
    }

    /// The card's rank of `A23456789TJQK`, then its suit of `CDHS`.
    pub fn text(self) -> [u8; 2]
        ensures { result ≡ card_text self }
    {
        [rank_letter(self.rank()), self.suit().letter()]
    }

    /// The card that a text spells: a rank, then a suit and nothing else, in either case, ten as `T` or `10`. `None`
    /// at any other text.
    pub fn read(text: &[u8]) -> Option<Card>
        ensures read { IfSome result (λ c. (c < 52) × IsCardText c text.now) }
        ensures refused { IfNone result ((c : ℕ) → c < 52 → IsCardText c text.now → ⊥) }
    {
        let (suit, rank) = text.split_last()?;
        Card::new(read_rank(rank)?, Suit::read(*suit)?)
    }
}

impl fmt::Display for Card {
    ghost output = { λ c. Some (card_text c) };

    fn fmt<W: fmt::Write>(&self, f: &mut fmt::Formatter<W>) -> fmt::Result {
        f.write_char(rank_letter(self.rank()) as char)?;
        f.write_char(self.suit().letter() as char)
    }
}

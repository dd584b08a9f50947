ghost use Rattle.std.specs.Prelude.{◌≡◌, ℕ, ◌<◌, IfSome, IfNone};
ghost use Rattle.fc_cards.specs.Suit.{suit_index};
ghost use Rattle.fc_cards.specs.Texts.{suit_letter, IsSuitText};

/// A suit, in the order of their numbers: clubs 0, diamonds 1, hearts 2, spades 3.
#[derive(Clone, Copy, Debug, PartialEq, Eq, PartialOrd, Ord, Hash)]
pub enum Suit {
    C,
    D,
    H,
    S,
}

impl Suit {
    /// The four suits, by rising number.
    pub const ALL: [Suit; 4] = [Suit::C, Suit::D, Suit::H, Suit::S];

    /// The suit's number, 0 to 3.
    #[inline]
    pub fn index(self) -> u8
        ensures value { result ≡ suit_index self }
        ensures below { result < 4 }
    {
        self as u8
    }

    /// The suit's letter, one of `CDHS`.
    pub fn letter(self) -> u8
        ensures value { result ≡ suit_letter (suit_index self) }
        ensures ascii { result < 128 }
    {
        match self {
            Suit::C => b'C',
            Suit::D => b'D',
            Suit::H => b'H',
            Suit::S => b'S',
        }
    }

    /// The suit whose letter this is, in either case; `None` at any other byte.
    pub fn read(letter: u8) -> Option<Suit>
        ensures read { IfSome result (λ suit. IsSuitText (suit_index suit) letter) }
        ensures refused { IfNone result ((suit : ℕ) → suit < 4 → IsSuitText suit letter → ⊥) }
    {
        match letter.to_ascii_uppercase() {
            b'C' => Some(Suit::C),
            b'D' => Some(Suit::D),
            b'H' => Some(Suit::H),
            b'S' => Some(Suit::S),
            _ => None,
        }
    }
}

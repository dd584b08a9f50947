ghost use Rattle.std.specs.Prelude.{◌≡◌, ℕ, ◌+◌, ◌*◌, ◌/◌, ◌%◌, ◌^◌, ◌<◌, length, slice_index, slice_set};
ghost use Rattle.fc_cards.specs.declared.places.Place.{Place};
ghost use Rattle.fc_position.specs.Board.{Board};
ghost use Rattle.fc_moves.specs.declared.steps.Move.{Move};
ghost use Rattle.fc_codes.specs.Moved.{Moves};
ghost use Rattle.fc_codes.specs.State.{IsCodeOf};
ghost use Rattle.fc_codes.specs.Words.{digit, numbers_of};
ghost use Rattle.fc_codes.specs.inner.Words.{AreWords, with_number};

use fc_cards::Card;
use fc_keys::ExactKey;
use std::hash::{Hash, Hasher};
use std::marker::Model;

/// The code of a position: a state of three bits for each card. Contracts see it as the list of the 52 states, each from
/// 0 to 7, by card. It takes 20 bytes.
#[derive(Clone, Copy)]
pub struct Code {
    // Three words of 21, 21 and 10 states, the first one lowest; the other bits are 0. Of the first two words the lower half lies
    // first: so a code lies wherever a number of 32 bits may.
    halves: [u32; 5],
}

impl Model for Code {
    ghost use Rattle.std.specs.Prelude.{ℕ, List};
    ghost use Rattle.fc_codes.specs.Words.{numbers_of, words_of, words_of_halves, halves_of_words};
    ghost use Rattle.fc_codes.specs.inner.Words.{AreHalves};
    ghost use Rattle.fc_codes.specs.inner.Packing.{halves_back};

    ghost Value = { List ℕ };

    ghost view = { λ c. numbers_of (words_of_halves c.halves) };

    ghost invariant = { λ c. AreHalves c.halves };

    ghost inverse = { λ states. record { halves = halves_of_words (words_of states) } };

    ghost inverse_ok = { λ c h i. record { halves = halves_back c.halves h i } };
}

impl PartialEq for Code {
    ghost use Rattle.std.specs.Prelude.{nat_eq};
    ghost use Rattle.std.specs.Cmp.{partial_equiv_from_equiv};
    ghost use Rattle.std.specs.Cmp.Lexicographic.{pointwise, nat_list_eq_equiv};

    ghost eq = { pointwise nat_eq };

    ghost laws = { partial_equiv_from_equiv nat_list_eq_equiv };

    fn eq(&self, other: &Code) -> bool {
        self.words() == other.words()
    }
}

impl Eq for Code {
    ghost use Rattle.std.specs.Cmp.Lexicographic.{nat_list_eq_equiv};

    ghost laws = { nat_list_eq_equiv };
}

impl Hash for Code {
    ghost use Rattle.std.specs.Prelude.{◌++◌};
    ghost use Rattle.std.specs.Hash as fed;
    ghost use Rattle.std.proofs.Common.{rules};
    ghost use Rattle.std.specs.Cmp.Rules.{hashing};
    ghost use Rattle.fc_codes.specs.Words.{word_of};

    ghost hash_input = { λ states. fed.u64 (word_of states 0 21) ++ fed.u64 (word_of states 21 21) ++ fed.u64 (word_of states 42 10) };

    ghost respects_eq = { Prim.search (hashing, rules) };

    // Three words are written, and not 52 states.
    fn hash<H: Hasher>(&self, state: &mut H) {
        let [first, second, third] = self.words();
        state.write_u64(first);
        state.write_u64(second);
        state.write_u64(third);
    }
}

impl ExactKey for Code {
    ghost use Rattle.fc_codes.specs.inner.Packing.{states_exact};

    ghost exact = { states_exact };
}

impl Code {
    // The three words.
    #[inline(always)]
    fn words(&self) -> [u64; 3]
        ensures value { numbers_of result ≡ self.now }
        ensures words { AreWords result }
    {
        let [a, b, c, d, e] = self.halves;
        [whole(a, b), whole(c, d), e as u64]
    }

    // The code with these words.
    #[inline(always)]
    fn of(words: [u64; 3]) -> Code
        requires words { AreWords words }
        ensures value { result ≡ numbers_of words }
    {
        let [first, second, third] = words;
        Code {
            halves: [
                lower(first),
                upper(first),
                lower(second),
                upper(second),
                lower(third),
            ],
        }
    }

    // The code with the state 0 for each card.
    pub(crate) fn unmoved() -> Code
        ensures value { (c : ℕ) → c < 52 → slice_index result c ≡ 0 }
        ensures count { length result ≡ 52 }
    {
        Code::of([0; 3])
    }

    /// The code with the state 1, home, for each card.
    #[inline]
    pub fn all_home() -> Code
        ensures value { (c : ℕ) → c < 52 → slice_index result c ≡ 1 }
        ensures count { length result ≡ 52 }
    {
        Code::of([
            0o1_1111_1111_1111_1111_1111,
            0o1_1111_1111_1111_1111_1111,
            0o11_1111_1111,
        ])
    }

    /// The code after a move of a card to a cell, from a position with this code.
    #[inline]
    pub fn in_cell(&self, card: Card) -> Code
        ensures value { (s b c : Board) (m : Move) (j : ℕ) → Moves s self.now card b m c → m.to ≡ Place.Cell j
            → IsCodeOf s c result }
    {
        self.with_state(card, 2)
    }

    /// The code after a move of a card to its foundation, from a position with this code.
    #[inline]
    pub fn at_home(&self, card: Card) -> Code
        ensures value { (s b c : Board) (m : Move) → Moves s self.now card b m c → m.to ≡ Place.Home → IsCodeOf s c result }
        ensures state { result ≡ slice_set self.now card 1 }
        ensures count { length self.now ≡ 52 }
    {
        self.with_state(card, 1)
    }

    // The states of the 21, 21 or 10 cards of a word, three bits each, the first one lowest.
    #[inline]
    pub(crate) fn word(&self, index: u8) -> u64
        requires there { index < 3 }
        ensures value { (place : ℕ) → place < 21 → digit result place ≡ slice_index self.now (21 * index + place) }
        ensures small { result < 2 ^ 63 }
    {
        self.words()[index as usize]
    }

    // The card's state, 0 to 7.
    #[inline]
    pub(crate) fn state(&self, card: Card) -> u8
        ensures value { result ≡ slice_index self.now card }
        ensures below { result < 8 }
        ensures card { card < 52 }
    {
        let index = card.index() as usize;
        (self.words()[index / 21] >> (3 * (index % 21)) & 7) as u8
    }

    // The code with another state, 0 to 7, for one card.
    #[inline]
    pub(crate) fn with_state(&self, card: Card, state: u8) -> Code
        requires below { state < 8 }
        ensures value { result ≡ slice_set self.now card state }
        ensures count { length self.now ≡ 52 }
        ensures card { card < 52 }
    {
        let index = card.index() as usize;
        let mut words = self.words();
        let word = &mut words[index / 21];
        *word = with_digit(*word, index % 21, state);
        Code::of(words)
    }
}

// How many of the numbers of a word are 0 before the first that isn't.
#[inline]
pub(crate) fn unmoved_before(word: u64) -> u8
    requires some { 0 < word }
    ensures below { result < 22 }
    ensures unmoved { (i : ℕ) → i < result → digit word i ≡ 0 }
    ensures moved { digit word result ≡ 0 → ⊥ }
{
    word.trailing_zeros() as u8 / 3
}

// The word with another number, 0 to 7, at one of its 21 places.
#[inline]
fn with_digit(word: u64, place: usize, number: u8) -> u64
    requires place { place < 21 }
    requires number { number < 8 }
    requires small { word < 2 ^ 63 }
    ensures value { result ≡ with_number word place number }
{
    let shift = 3 * place;
    word - ((word >> shift & 7) << shift) + ((number as u64) << shift)
}

// The word with these halves.
#[inline(always)]
fn whole(low: u32, high: u32) -> u64
    ensures value { result ≡ low + high * 2 ^ 32 }
{
    low as u64 + ((high as u64) << 32)
}

// The lower half of a word.
#[inline(always)]
fn lower(word: u64) -> u32
    ensures value { result ≡ word % 2 ^ 32 }
{
    (word & 0xFFFF_FFFF) as u32
}

// The upper half of a word.
#[inline(always)]
fn upper(word: u64) -> u32
    ensures value { result ≡ word / 2 ^ 32 }
{
    (word >> 32) as u32
}

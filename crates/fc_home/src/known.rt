ghost use Rattle.std.specs.Prelude.{◌≡◌, ◌≢◌, ℕ, Bool, true, Some, None};
ghost use Rattle.fc_cards.specs.Suit.{suit_index};
ghost use Rattle.fc_home.specs.inner.Known.{answer_of, lasting_answer};

use fc_cards::Suit;
use std::marker::Model;

// Whether the next card of each suit is free, as far as it was asked, in the order of the suits.
#[derive(Drop)]
pub(crate) struct Known {
    answers: [Option<bool>; 4],
}

impl Model for Known {
    ghost use Rattle.std.specs.Prelude.{◌≡◌, Bool, Option, List, length};

    ghost Value = { List (Option Bool) };

    ghost view = { λ k. k.answers };

    ghost invariant = { λ k. length k.answers ≡ 4 };
}

impl Known {
    // Nothing was asked.
    pub fn new() -> Known
        ensures nothing { (s : ℕ) → answer_of result s ≡ None }
    {
        Known { answers: [None; 4] }
    }

    // The answer for the next card of the suit.
    pub fn of(&self, suit: Suit) -> Option<bool>
        ensures value { result ≡ answer_of self.now (suit_index suit) }
    {
        self.answers[suit.index() as usize]
    }

    // Keeps the answer for the next card of the suit, and gives it back.
    pub fn keep(&mut self, suit: Suit, free: bool) -> bool
        ensures value { result ≡ free }
        ensures kept { answer_of self.new (suit_index suit) ≡ Some free }
        ensures rest { (s : ℕ) → s ≢ suit_index suit → answer_of self.new s ≡ answer_of self.old s }
    {
        self.answers[suit.index() as usize] = Some(free);
        free
    }

    // Keeps what stays true where the next card of the suit goes home: that cards of other suits are free. One that
    // wasn't free may be so now.
    pub fn send(&mut self, suit: Suit)
        ensures left { (s : ℕ) (free : Bool) → answer_of self.new s ≡ Some free
            → (free ≡ true) × (answer_of self.old s ≡ Some true) × (s ≢ suit_index suit) }
        ensures kept { (s : ℕ) → answer_of self.old s ≡ Some true → s ≢ suit_index suit → answer_of self.new s ≡ Some true }
    {
        for answer in &mut self.answers {
            *answer = lasting(*answer);
        }
        self.answers[suit.index() as usize] = None;
    }
}

// The answer, if it is that a card is free.
fn lasting(answer: Option<bool>) -> Option<bool>
    ensures value { result ≡ lasting_answer answer }
{
    match answer {
        Some(true) => answer,
        _ => None,
    }
}

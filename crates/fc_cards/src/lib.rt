//! Playing cards: ranks, suits, cards and the places where a card may stand.
//!
//! A card is a number from 0 to 51, four times its rank less one, plus its suit. Every crate above speaks of cards as
//! these numbers.
#![tactic(auto)]

pub use cards::Card;
pub use places::Place;
pub use ranks::{rank_letter, read_rank};
pub use suits::Suit;

mod cards;
pub mod laws;
mod places;
mod ranks;
mod suits;

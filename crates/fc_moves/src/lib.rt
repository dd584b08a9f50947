//! What the rules allow, and why they refuse a move: games, one-card moves, what lists of moves lead to, and classes of
//! positions, which differ in the order of their columns and cells alone and so step and win alike.
//!
//! A game is plain data to contracts: which cards may stand on which, which may go to an empty column, how many cells
//! there are. Everything here is generic over it. No call allocates.
#![tactic(auto)]

pub use bakers_game::BakersGame;
pub use either::EitherGame;
pub use free_cell::FreeCell;
pub use games::Game;
pub use lists::moves;
pub use only_kings::Kings;
pub use refusals::{Refusal, refusal_of};
pub use steps::{Move, allows, apply, may_land};
pub use texts::{move_text, read_move};

mod bakers_game;
mod either;
mod free_cell;
mod games;
pub mod laws;
mod lists;
mod only_kings;
mod refusals;
mod steps;
mod texts;

//! What the program reads: boards, lists of moves, and of which game they are.

pub mod apart;
pub mod board_lists;
pub mod board_sources;
pub mod column_lengths;
pub mod command_games;
pub mod moves;
pub mod pair_lists;
pub mod streams;
pub mod written_lists;

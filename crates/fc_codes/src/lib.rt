//! The code of a position: three bits for each card, which say where it stands as seen from the position that a search
//! starts from. Positions that can be reached from one start have the same code exactly where they are of one class, so
//! a code stands for a class in 20 bytes. No call allocates.
#![tactic(auto)]

pub use codes::Code;
pub use start_layouts::Layout;

mod codes;
pub mod laws;
mod seats;
mod stacks;
mod start_layouts;

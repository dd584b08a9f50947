//! The positions of a game as a question of the search: classes of settled positions, known by names, as a graph. Names are
//! keys, or codes as seen from the start.
//!
//! An edge is a step and what settles after it, and costs one for each move. That a search of the graph answers what
//! lists of moves can do is a law.
#![tactic(auto)]

pub mod laws;

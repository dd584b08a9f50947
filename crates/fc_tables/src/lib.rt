//! Closed tables: classes and costs that prove that no winning list is short, or that there is none.
//!
//! The laws hold over any lower bound: any number that no winning list from a position is shorter than, and that is the same
//! for boards of one class.
#![tactic(auto)]

pub mod laws;

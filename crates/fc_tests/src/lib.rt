//! Tests of the public calls of the crates below the search, and the boards and the game that all tests share.
#![tactic(auto)]

pub mod boards;
#[cfg(test)]
mod bound;
#[cfg(test)]
mod canonical;
#[cfg(test)]
mod canonical_moves;
#[cfg(test)]
mod cards;
#[cfg(test)]
mod codes;
#[cfg(test)]
mod deal;
#[cfg(test)]
mod frontier;
pub mod games;
#[cfg(test)]
mod given;
#[cfg(test)]
mod home;
#[cfg(test)]
mod io;
#[cfg(test)]
mod json;
#[cfg(test)]
mod moves;
#[cfg(test)]
mod position;
pub mod queues;
#[cfg(test)]
mod replay;
#[cfg(test)]
mod row_text;
#[cfg(test)]
mod sequences;
#[cfg(test)]
mod text;
#[cfg(test)]
mod typed;

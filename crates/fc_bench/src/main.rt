//! Measures calls of the library on the start of deal 1: nanoseconds a call, and how that compares with copying as many
//! bytes as a position has. The argument is how often each call is made; at 0 nothing is measured.
//!
//! With two arguments, how often and a certificate's file, reading it and finding its keys is measured, and nothing else;
//! with three, how often, a board's file and a certificate's, checking it.
#![tactic(auto)]

mod certificates;
mod checks;
mod measures;
mod rounds;

use crate::certificates::bench_certificate;
use crate::checks::bench_check;
use crate::measures::{Copies, nanos_of, report};
use crate::rounds::Work;
use fc_deal::deal;
use fc_moves::FreeCell;
use fc_position::Position;
use std::{env, io};

/// What is measured on the start of deal 1: its name, how many calls a round makes, and what it is.
const WORKS: [(&str, u64, Work); 5] = [
    ("copy of the bytes", 1, Work::CopyBytes),
    ("Position::copy", 1, Work::CopyPositions),
    ("key", 1, Work::Keys),
    ("distinct_moves", 1, Work::DistinctMoves),
    ("push and pop_least", 2, Work::Queue),
];

/// Measures each call so often.
fn bench(rt: &HostRuntime, position: &Position, game: &FreeCell, rounds: u32) -> io::Result<()> {
    let bytes = Copies {
        nanos: nanos_of(rt, Work::CopyBytes, game, position, rounds)?,
        count: u64::from(rounds),
    };
    for (name, calls, work) in &WORKS {
        let nanos = nanos_of(rt, *work, game, position, rounds)?;
        let calls = calls.saturating_mul(u64::from(rounds));
        report(rt, name, calls, nanos, bytes)?;
    }
    Ok(())
}

/// The number that a word says, 0 where it says none.
fn number(word: &str) -> u32 {
    word.parse().unwrap_or(0)
}

fn main(rt: HostRuntime) -> io::Result<()> {
    let words: Vec<String> = env::args(&rt)?.skip(1).collect(rt.alloc())?;
    match words.as_slice() {
        [rounds, path] => bench_certificate(&rt, path.as_str(), number(rounds.as_str())),
        [rounds, board, path] => {
            bench_check(&rt, number(rounds.as_str()), board.as_str(), path.as_str())
        }
        words => {
            let rounds = words.first().map_or(0, |word| number(word.as_str()));
            bench_calls(&rt, rounds)
        }
    }
}

/// Measures each call so often, on the start of deal 1.
fn bench_calls(rt: &HostRuntime, rounds: u32) -> io::Result<()> {
    match (deal(1), FreeCell::new(4)) {
        (Some(position), Some(game)) => bench(rt, &position, &game, rounds),
        _ => println!(rt; "no deal"),
    }
}

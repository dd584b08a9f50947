//! How long something takes, and how that compares with copying.

use crate::rounds::{BYTES, Work};
use fc_moves::FreeCell;
use fc_position::Position;
use std::io;
use std::time::Instant;

/// How long so many copies of the bytes took.
#[derive(Clone, Copy)]
pub struct Copies {
    pub nanos: u64,
    pub count: u64,
}

/// How many nanoseconds it takes to do this on a position so often; what is computed is looked at, so that it is not left out.
pub fn nanos_of(
    rt: &HostRuntime,
    work: Work,
    game: &FreeCell,
    position: &Position,
    rounds: u32,
) -> io::Result<u64> {
    let start = Instant::now(rt)?;
    let outcome = work.done(rt.alloc(), game, position, rounds);
    let nanos = start.elapsed(rt)?.as_nanos();
    if outcome == usize::MAX {
        println!(rt; "more was done than can be counted")?;
    }
    Ok(u64::try_from(nanos).unwrap_or(u64::MAX))
}

/// Prints a measurement: tenths of nanoseconds a call, and hundredths of a copy of the bytes.
pub fn report(
    rt: &HostRuntime,
    name: &str,
    calls: u64,
    nanos: u64,
    copies: Copies,
) -> io::Result<()> {
    if calls == 0 || copies.nanos == 0 || copies.count == 0 {
        return println!(rt; "{name}: not measured");
    }
    let tenths = nanos.saturating_mul(10) / calls;
    let ratio = (nanos.saturating_mul(100) / calls).saturating_mul(copies.count) / copies.nanos;
    let (whole, part) = (tenths / 10, tenths % 10);
    let (times, hundredths) = (ratio / 100, ratio % 100);
    println!(rt;
        "{name}: {whole}.{part} ns a call, {times}.{hundredths:02} times a copy of {BYTES} bytes"
    )
}

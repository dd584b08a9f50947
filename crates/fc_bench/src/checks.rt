//! Measures how long checking a certificate takes.

ghost use Rattle.std.specs.Prelude.{◌≤◌, length};

use crate::certificates::tell_peak;
use fc_cert::LONGEST_CERTIFICATE;
use fc_checker::{CheckFault, Claim, check};
use fc_moves::FreeCell;
use fc_text::read_board;
use std::time::Instant;
use std::{fs, io};

/// Checks the certificate in a file so often; prints what it proves of the board in another, or its fault, the seconds of
/// all checks, and the peak of resident memory.
pub fn bench_check(rt: &HostRuntime, rounds: u32, board: &str, path: &str) -> io::Result<()> {
    let text = fs::read(rt, board)?;
    let bytes = fs::read(rt, path)?;
    let (Ok(position), Some(game)) = (read_board(text.as_slice(), 4), FreeCell::new(4)) else {
        return println!(rt; "no board");
    };
    if bytes.len() > LONGEST_CERTIFICATE {
        return println!(rt; "too long");
    }
    let began = Instant::now(rt)?;
    for _ in 1..rounds {
        let _ = check(rt.alloc(), &game, &position, bytes.as_slice());
    }
    let checked = check(rt.alloc(), &game, &position, bytes.as_slice());
    let nanos = began.elapsed(rt)?.as_nanos();
    tell_claim(rt, checked)?;
    println!(rt; "nanoseconds {nanos}")?;
    tell_peak(rt)
}

/// Prints what was proved, or the fault.
fn tell_claim(rt: &HostRuntime, checked: Result<Claim, CheckFault>) -> io::Result<()> {
    match checked {
        Ok(Claim::Shortest(moves)) => println!(rt; "accepted: shortest {moves}"),
        Ok(Claim::CannotWin) => println!(rt; "accepted: can't be won"),
        Ok(Claim::Between { floor, moves }) => println!(rt;
            "accepted: won {moves}, at least {floor}"
        ),
        Err(fault) => println!(rt; "certificate refused: {fault}"),
    }
}

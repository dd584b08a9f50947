//! Checking a certificate, over any sources and any sink.

ghost use Rattle.std.specs.Prelude.{◌≡◌, ◌+◌, IfOk, IfErr};
ghost use Rattle.fc_io.specs.Moves.{GivesAtMost};
ghost use Rattle.fc_position.specs.Position.{Fits};
ghost use Rattle.fc_board_runs.specs.Devices.{change};
ghost use Rattle.fc_runs.specs.Checking.{IsChecked, IsCheckedOf, IsRefusal, IsRefusalOf};
ghost use Rattle.fc_runs.specs.inner.Checking.{check_fault};

use fc_answer_text::accepted_text;
use fc_board_runs::{Input, LONGEST_BOARD, Output, ProgramFault, read_fault, read_position};
use fc_cert::LONGEST_CERTIFICATE;
use fc_checker::{CheckFault, check};
use fc_io::{Sink, Source, read_to_vec, write_all};
use fc_moves::Game;
use fc_position::Position;
use std::alloc::Global;

/// Reads a certificate, and writes the claim that it proves of a position that fits the game. The status is 0. Nothing is
/// searched.
///
/// # Errors
/// In this order: a certificate that can't be read, is longer than 1 GiB, or want of memory, whichever is met first; the first
/// thing that is asked of a certificate and doesn't hold, or want of memory; a text that can't be written, of which a front
/// may be. After any other fault nothing is written.
pub fn run_check_of<G: Game, C: Source, K: Sink>(
    alloc: Global,
    game: &G,
    start: &Position,
    cert: &mut C,
    out: &mut K,
) -> Result<u8, ProgramFault>
    requires fits { Fits (G.game game.now).cells start.now }
    ensures checked { IfOk result (IsCheckedOf (G.game game.now) start.now
        (change C.told C.has_failed cert.old cert.new)
        (change K.held K.has_failed out.old out.new)) }
    ensures fault { IfErr result (IsRefusalOf (G.game game.now) start.now
        (change C.told C.has_failed cert.old cert.new)
        (change K.held K.has_failed out.old out.new)) }
    ensures taken_cert { GivesAtMost (C.told cert.old) (C.told cert.new) (LONGEST_CERTIFICATE + 1) }
{
    let bytes = match read_to_vec(alloc, cert, LONGEST_CERTIFICATE) {
        Ok(bytes) => bytes,
        Err(fault) => return Err(read_fault(Input::Cert, fault)),
    };
    let claim = match check(alloc, game, start, bytes.as_slice()) {
        Ok(claim) => claim,
        Err(fault) => return Err(check_fault(fault)),
    };
    let text = accepted_text(alloc, claim)?;
    match write_all(out, text.as_slice()) {
        Ok(()) => Ok(0),
        Err(_) => Err(ProgramFault::Write(Output::Answer)),
    }
}

// The fault of bytes that weren't accepted.
fn check_fault(fault: CheckFault) -> ProgramFault
    ensures value { result ≡ check_fault fault }
{
    match fault {
        CheckFault::Memory => ProgramFault::Memory,
        fault => ProgramFault::Cert(fault),
    }
}

//! `check`: a certificate is checked for a board.

ghost use Rattle.std.specs.Prelude.{◌≤◌, length};
ghost use Rattle.fc_position.specs.Position.{Fits};

use crate::input::board_sources::{find_board, read_start};
use crate::input::command_games::InGame;
use crate::input::moves::{FileSource, find_file, push_letters};
use crate::output::answer_forms::tell_whole;
use crate::output::answer_objects::{Name, claim_line, fault_line};
use crate::output::endings::{Ending, tell};
use crate::output::outputs::Out;
use fc_cert::{CertFault, Certificate, LONGEST_CERTIFICATE};
use fc_checker::{CheckFault, check};
use fc_io::{FromReader, ReadFault, Source, read_to_vec};
use fc_moves::Game;
use fc_position::Position;
use fc_runs::{Input, ProgramFault, run_check_of};
use fc_words::CheckWords;
use std::alloc::{AllocError, Global};

impl InGame for CheckWords<'_> {
    fn perform<G: Game + Drop>(&self, rt: &HostRuntime, game: &G) -> Result<u8, Ending> {
        let source = find_board(rt, &self.board)?;
        // (a file that can't be opened is told before the board is read)
        let cert = find_file(rt, &self.cert, Input::Cert)?;
        let name = Name::of(&self.board.word, source.deal());
        let start = read_start(rt, source, game.cells())?;
        let name = self.is_json.then_some(name);
        match cert {
            FileSource::File(mut file) => check_from(rt, name, game, &start, &mut file),
            FileSource::Input => {
                check_from(rt, name, game, &start, &mut FromReader::new(rt.stdin()))
            }
        }
    }
}

// Checks the certificate that a source gives, and tells what it proves: as an object, where the board has a name.
fn check_from<G: Game, S: Source>(
    rt: &HostRuntime,
    name: Option<Name<'_>>,
    game: &G,
    start: &Position,
    cert: &mut S,
) -> Result<u8, Ending>
    requires fits { Fits (G.game game.now).cells start.now }
{
    if let Some(name) = name {
        return check_to_object(rt, name, game, start, cert);
    }
    let mut out = Out::new(rt);
    match run_check_of(rt.alloc(), game, start, cert, &mut out) {
        Ok(status) => Ok(status),
        Err(ProgramFault::Cert(fault)) => Err(tell_refusal(rt, fault)),
        Err(fault) => Err(out.ending_of(fault)),
    }
}

// Checks the certificate that a source gives, and writes as an object what it proves of a board, with its list, or why it is refused;
// that is told on standard error, too.
fn check_to_object<G: Game, S: Source>(
    rt: &HostRuntime,
    name: Name<'_>,
    game: &G,
    start: &Position,
    cert: &mut S,
) -> Result<u8, Ending>
    requires fits { Fits (G.game game.now).cells start.now }
{
    let alloc = rt.alloc();
    let bytes = match read_to_vec(alloc, cert, LONGEST_CERTIFICATE) {
        Ok(bytes) => bytes,
        Err(fault) => return Err(Ending::Fault(unread(fault))),
    };
    let claim = match check(alloc, game, start, bytes.as_slice()) {
        Ok(claim) => claim,
        Err(CheckFault::Memory) => return Err(Ending::Fault(ProgramFault::Memory)),
        Err(fault) => return Err(tell_refused(rt, name, fault)?),
    };
    let letters = letters_of(alloc, bytes.as_slice())?;
    let letters = match &letters {
        Some(letters) => std::str::from_utf8(letters.as_slice()).ok(),
        None => None,
    };
    let line = claim_line(alloc, name, claim, letters)?;
    tell_whole(rt, line.as_bytes())?;
    Ok(0)
}

// Why a certificate isn't read.
fn unread(fault: ReadFault) -> ProgramFault {
    match fault {
        ReadFault::Failed => ProgramFault::Read(Input::Cert),
        ReadFault::TooLong => ProgramFault::TooLong(Input::Cert),
        ReadFault::Memory => ProgramFault::Memory,
    }
}

// The letters of a certificate's list, if it has one.
fn letters_of(alloc: Global, bytes: &[u8]) -> Result<Option<Vec<u8>>, AllocError>
    requires limit { length bytes.now ≤ LONGEST_CERTIFICATE }
{
    // (it is accepted, so memory alone can be wanted)
    let Ok(cert) = Certificate::read(alloc, bytes) else {
        return Err(AllocError);
    };
    if cert.kind() == NO_LIST {
        return Ok(None);
    }
    let mut moves = Vec::new(alloc);
    for i in 0..cert.move_count() {
        moves.push(cert.move_at(i))?;
    }
    let mut letters = Vec::new(alloc);
    push_letters(&mut letters, moves.as_slice())?;
    Ok(Some(letters))
}

// The kind of a certificate that has no list, since none wins.
const NO_LIST: u8 = 2;

// Writes as an object why a certificate is refused, after the lines that say it.
fn tell_refused(rt: &HostRuntime, name: Name<'_>, fault: CheckFault) -> Result<Ending, Ending> {
    let ending = tell_refusal(rt, fault);
    let reason = format!(in rt.alloc(); "{fault}")?;
    let line = fault_line(rt.alloc(), name, "refused", Some(reason.as_str()))?;
    tell_whole(rt, line.as_bytes())?;
    Ok(ending)
}

// Says that a certificate is refused, and what that means.
fn tell_refusal(rt: &HostRuntime, fault: CheckFault) -> Ending {
    let status = tell(rt, &ProgramFault::Cert(fault));
    let reason = reason_of(fault);
    let _told = eprintln!(rt; "fc_solve: {reason}");
    Ending::Told(status)
}

// What it means that a certificate is refused.
fn reason_of(fault: CheckFault) -> &'static str {
    match fault {
        CheckFault::Form(fault) => reason_of_form(fault),
        CheckFault::OtherGame => {
            "it is of another game, or of another number of cells: --game, --kings and --cells say which"
        }
        CheckFault::NotAllowed(_) => {
            "the rules don't allow the move of this step: another board, or a changed certificate?"
        }
        CheckFault::NotHome =>
            "its moves leave cards that aren't home: another board, or a changed certificate?",
        CheckFault::StartOpen => {
            "its table doesn't list the board that the search began with: another board, or a cut certificate?"
        }
        CheckFault::WonListed(_) =>
            "a board that its table lists, the records counted from 0, is won already",
        CheckFault::Open(_) => {
            "from a board of its table, the records counted from 0, a move leads to one that it doesn't list"
        }
        CheckFault::Memory => "there was too little memory to check it",
    }
}

// What it means that bytes don't have the form of a certificate.
fn reason_of_form(fault: CertFault) -> &'static str {
    match fault {
        CertFault::BadMagic => "this is no certificate: one begins with FCC1, FCC2 or FCC3",
        CertFault::Short => "it ends too soon: it was cut, or not written to its end",
        CertFault::Trailing => "something stands behind its end",
        _ => "its bytes aren't those of a certificate: they were changed",
    }
}

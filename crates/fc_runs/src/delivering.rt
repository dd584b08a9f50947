//! An answer delivered: its certificate first, whole, and then its text, over any sinks.

ghost use Rattle.std.specs.Prelude.{◌≡◌, Some, None, IfOk, IfErr, OnOk};
ghost use Rattle.fc_moves.specs.GameRules.{IsPositionOf};
ghost use Rattle.fc_position.specs.Position.{Fits};
ghost use Rattle.fc_best.specs.Answering.{HearsOfThem};
ghost use Rattle.fc_board_runs.specs.Devices.{IsHandedBack, change, lent};
ghost use Rattle.fc_runs.specs.Solving.{HearsAnswered, IsAnsweredFor, IsUnansweredFor};

use crate::certifying::write_certificate;
use fc_answer_text::{verdict_status, verdict_text};
use fc_best::{Listener, Wants, answer};
use fc_board_runs::{Output, ProgramFault};
use fc_io::{Sink, write_all};
use fc_methods::Question;
use fc_moves::Game;
use fc_position::Position;
use std::alloc::Global;

/// Answers a question for a position of its game, and writes the answer. By its method, the moves of a list that wins, with weight 1
/// a shortest one and else one of at most the weight times the fewest moves and a number of moves that each such list has at least; or
/// the best answer within its budget, by falling weights whatever its own weight is, a shortest list where that is shown and else one
/// with such a number. Or that no list of moves wins; or that more positions can be reached than the budget, or what is told of it.
/// The status tells which: 0, 1 or 2. Where `cert` is given, the certificate of the answer is written to it first, whole; giving up
/// has none. Without it no table of classes is made. The listener hears how far the searches are, while they run and when they end: of
/// the very searches whose answer is written, their end last.
///
/// # Errors
/// In this order: want of memory; a certificate that can't be written, of which a front may be written; an answer that can't
/// be written, of which a front may be written after its whole certificate. After any other fault nothing is.
pub fn run_answer<G: Game + Drop, K: Sink, C: Sink, L: Listener>(
    alloc: Global,
    question: &Question<G>,
    start: &Position,
    out: &mut K,
    cert: Option<&mut C>,
    listener: &mut L,
) -> Result<u8, ProgramFault>
    requires position { IsPositionOf question.now.game start.now }
    ensures answered { IfOk result (IsAnsweredFor question.now start.now (lent C.held C.has_failed cert.entry cert.exit)
        (change K.held K.has_failed out.old out.new)) }
    ensures fault { IfErr result (IsUnansweredFor question.now start.now (lent C.held C.has_failed cert.entry cert.exit)
        (change K.held K.has_failed out.old out.new)) }
    ensures back { IsHandedBack cert.entry cert.exit }
    ensures heard { HearsOfThem L.hears question.now.sought question.now start.now listener.old listener.new }
    ensures ended { OnOk result (HearsAnswered L.hears question.now start.now (change K.held K.has_failed out.old out.new) listener.old listener.new) }
{
    match cert {
        Some(cert) => certify(alloc, question, start, out, cert, listener),
        None => tell(alloc, question, start, out, listener),
    }
}

// Writes the answer for a position, without a table.
pub(crate) fn tell<G: Game + Drop, K: Sink, L: Listener>(
    alloc: Global,
    question: &Question<G>,
    start: &Position,
    out: &mut K,
    listener: &mut L,
) -> Result<u8, ProgramFault>
    requires fits { Fits question.now.game.cells start.now }
    ensures answered { IfOk result (IsAnsweredFor question.now start.now None (change K.held K.has_failed out.old out.new)) }
    ensures fault { IfErr result (IsUnansweredFor question.now start.now None (change K.held K.has_failed out.old out.new)) }
    ensures heard { HearsOfThem L.hears question.now.sought question.now start.now listener.old listener.new }
    ensures ended { OnOk result (HearsAnswered L.hears question.now start.now (change K.held K.has_failed out.old out.new) listener.old listener.new) }
{
    let answer = answer(alloc, question, start, Wants::Verdict, listener)?;
    let text = verdict_text(alloc, &answer.verdict)?;
    match write_all(out, text.as_slice()) {
        Ok(()) => Ok(verdict_status(&answer.verdict)),
        Err(_) => Err(ProgramFault::Write(Output::Answer)),
    }
}

// Writes the certificate of the answer for a position, and then the answer.
pub(crate) fn certify<G: Game + Drop, K: Sink, C: Sink, L: Listener>(
    alloc: Global,
    question: &Question<G>,
    start: &Position,
    out: &mut K,
    cert: &mut C,
    listener: &mut L,
) -> Result<u8, ProgramFault>
    requires position { IsPositionOf question.now.game start.now }
    ensures answered { IfOk result (IsAnsweredFor question.now start.now (Some (change C.held C.has_failed cert.old cert.new))
        (change K.held K.has_failed out.old out.new)) }
    ensures fault { IfErr result (IsUnansweredFor question.now start.now (Some (change C.held C.has_failed cert.old cert.new))
        (change K.held K.has_failed out.old out.new)) }
    ensures heard { HearsOfThem L.hears question.now.sought question.now start.now listener.old listener.new }
    ensures ended { OnOk result (HearsAnswered L.hears question.now start.now (change K.held K.has_failed out.old out.new) listener.old listener.new) }
{
    let answer = answer(alloc, question, start, Wants::Table, listener)?;
    let text = verdict_text(alloc, &answer.verdict)?;
    let Ok(_) = write_certificate(question.game(), &answer, cert) else {
        return Err(ProgramFault::Write(Output::Cert));
    };
    match write_all(out, text.as_slice()) {
        Ok(()) => Ok(verdict_status(&answer.verdict)),
        Err(_) => Err(ProgramFault::Write(Output::Answer)),
    }
}

//! The best answers of several numbered deals, over any sink.

ghost use Rattle.std.specs.Prelude.{◌+◌, ◌≤◌, IfOk, IfErr, OnErr};
ghost use Rattle.fc_deal.specs.Deal.{IsDealNumber};
ghost use Rattle.fc_board_runs.specs.Devices.{change};
ghost use Rattle.fc_methods.specs.declared.methods.Sought.{Sought};
ghost use Rattle.fc_runs.specs.Batches.{AreCutShort, AreTold, IsBatchedBy, IsBatchFaultBy, IsBestLine};

use crate::deal_batches::deals_of;
use fc_answer_text::{line_text, outcome_of, told_status};
use fc_answers::Outcome;
use fc_best::{Unheard, best};
use fc_board_runs::{Output, ProgramFault};
use fc_deal::deal;
use fc_io::{Failed, Sink, write_all};
use fc_methods::Question;
use fc_moves::Game;
use std::alloc::Global;

// Best answers of the deals `from` to `to`, one after the other.
pub(crate) fn run_one_by_one<G: Game + Drop, K: Sink>(
    alloc: Global,
    question: &Question<G>,
    from: u32,
    to: u32,
    out: &mut K,
) -> Result<u8, ProgramFault>
    ensures batched { IfOk result (IsBatchedBy Sought.Best question.now from to (change K.held K.has_failed out.old out.new)) }
    ensures fault { IfErr result (IsBatchFaultBy Sought.Best question.now from to (change K.held K.has_failed out.old out.new)) }
{
    let count = deals_of(from, to)?;
    match write_best_lines(alloc, question, from, count, out) {
        Ok(status) => Ok(status),
        Err(_) => Err(ProgramFault::Write(Output::Answer)),
    }
}

// Writes a line for each of so many deals; the greatest status of the lines.
fn write_best_lines<G: Game + Drop, K: Sink>(
    alloc: Global,
    question: &Question<G>,
    from: u32,
    count: u32,
    out: &mut K,
) -> Result<u8, Failed>
    requires some { 1 ≤ count }
    requires first { 1 ≤ from }
    requires last { from + count ≤ 1000001 }
    ensures told { IfOk result (AreTold (IsBestLine question.now) from count (change K.held K.has_failed out.old out.new)) }
    ensures cut { OnErr result (AreCutShort (IsBestLine question.now) from count (change K.held K.has_failed out.old out.new)) }
{
    let mut greatest = 0;
    for i in 0..count {
        let told = best_told(alloc, question, from + i);
        let Ok(()) = write_all(out, line_text(from + i, told).as_bytes()) else {
            return Err(Failed);
        };
        greatest = greatest.max(told_status(told));
    }
    Ok(greatest)
}

// What is told of a deal, whose best answer is searched for without a table.
pub(crate) fn best_told<G: Game + Drop>(
    alloc: Global,
    question: &Question<G>,
    number: u32,
) -> Option<Outcome>
    requires deal { IsDealNumber number }
    ensures told { IsBestLine question.now number result }
{
    let position = deal(number).unwrap();
    let answer = best(alloc, question, &position, false, &mut Unheard).ok()?;
    Some(outcome_of(&answer.verdict))
}

//! A table of numbered deals, which are searched one after the other, over any sink.

ghost use Rattle.std.specs.Prelude.{◌≡◌, ◌+◌, ◌≤◌, None, IfOk, IfErr, OnErr};
ghost use Rattle.fc_deal.specs.Deal.{IsDealNumber, dealt_board};
ghost use Rattle.fc_board_runs.specs.Devices.{change};
ghost use Rattle.fc_runs.specs.Rows.{IsRowOf};
ghost use Rattle.fc_runs.specs.Tabling.{AreTabled, HearsRows, IsTableAsked, IsTabled, IsTableCutShort, IsTableFault, IsTableUnasked, names_text, row_text};

use crate::answer_rows::{Row, plain_row};
use arrayvec::ArrayString;
use fc_board_runs::{Output, ProgramFault};
use fc_deal::{deal, is_deal_number};
use fc_io::{Failed, Sink, write_all};
use fc_methods::Question;
use fc_moves::Game;
use itoa::Buffer;
use std::alloc::Global;

/// Who hears of the rows of a table, of each as soon as it is written.
pub trait RowListener {
    ghost use Rattle.fc_runs.specs.declared.answer_rows.Row.{Row};

    /// What hearing of a row does to the listener.
    ghost hears: { Self → Row → Self → Type 0 };

    /// Hears of a row.
    fn hear_row(&mut self, row: &Row)
        ensures heard { hears self.old row.now self.new };
}

/// The first line of a table of deals: the names of the columns.
pub fn table_head() -> &'static str
    ensures value { result.now ≡ names_text }
{
    "deal\tanswer\tmoves\tfloor\tbudget\tstored\tturns\topen\n"
}

/// Searches the deals `from` to `to` of the question's game, any number of them and one after the other, each for what it seeks,
/// and writes a table parted by tabs: a line of the columns' names, and a row for each deal, rising, as soon as its search has
/// ended. A row has the number of the deal, and the cells that `Row::cells` tells. Where memory is wanted for one deal, the next
/// one goes on. The status is the greatest of the rows': 0 for a solution, 1 where a deal can't be won, 2 on giving up, 4 for want
/// of memory. No list of moves wins a row's deal in fewer than its floor. Nothing of one deal is kept for the next. The listener hears
/// of each row that is written, in their order, and of nothing else.
///
/// # Errors
/// In this order: a number outside 1 to 1,000,000, `from` before `to`; no deal, and nothing is written; or a table that can't be
/// written, of which a front may be: the listener heard of the rows before the one that couldn't be.
pub fn run_table<G: Game + Drop, K: Sink, L: RowListener>(
    alloc: Global,
    question: &Question<G>,
    from: u32,
    to: u32,
    out: &mut K,
    listener: &mut L,
) -> Result<u8, ProgramFault>
    ensures tabled { IfOk result (IsTabled question.now from to
        (change K.held K.has_failed out.old out.new) (HearsRows L.hears listener.old listener.new)) }
    ensures fault { IfErr result (IsTableFault question.now from to
        (change K.held K.has_failed out.old out.new) (HearsRows L.hears listener.old listener.new)) }
{
    let count = table_deals(from, to)?;
    match write_table(alloc, question, from, count, out, listener) {
        Ok(status) => Ok(status),
        Err(_) => Err(ProgramFault::Write(Output::Answer)),
    }
}

/// How many deals a table from the one number to the other has.
///
/// # Errors
/// In this order: a number outside 1 to 1,000,000, `from` before `to`; or `Range` where they are none.
pub fn table_deals(from: u32, to: u32) -> Result<u32, ProgramFault>
    ensures asked { IfOk result (IsTableAsked from to) }
    ensures fault { IfErr result (IsTableUnasked from to) }
{
    if !is_deal_number(from) {
        return Err(ProgramFault::Number(from));
    }
    if !is_deal_number(to) {
        return Err(ProgramFault::Number(to));
    }
    if from > to {
        return Err(ProgramFault::Range);
    }
    Ok(to - from + 1)
}

// Writes the names of the columns, and a row for each of so many deals; the greatest status of the rows.
fn write_table<G: Game + Drop, K: Sink, L: RowListener>(
    alloc: Global,
    question: &Question<G>,
    from: u32,
    count: u32,
    out: &mut K,
    listener: &mut L,
) -> Result<u8, Failed>
    requires first { 1 ≤ from }
    requires last { from + count ≤ 1000001 }
    ensures tabled { IfOk result (AreTabled question.now from count
        (change K.held K.has_failed out.old out.new) (HearsRows L.hears listener.old listener.new)) }
    ensures cut { OnErr result (IsTableCutShort question.now from count
        (change K.held K.has_failed out.old out.new) (HearsRows L.hears listener.old listener.new)) }
{
    write_all(out, table_head().as_bytes())?;
    let mut greatest = 0;
    for i in 0..count {
        let row = deal_row(alloc, question, from + i);
        let Ok(()) = write_all(out, row_text(from + i, &row).as_bytes()) else {
            return Err(Failed);
        };
        listener.hear_row(&row);
        greatest = greatest.max(row.status());
    }
    Ok(greatest)
}

// The row of a deal.
#[tactic(auto, using(fc_deal::proofs::DealLemmas::dealt_fits))]
fn deal_row<G: Game + Drop>(alloc: Global, question: &Question<G>, number: u32) -> Row
    requires deal { IsDealNumber number }
    ensures row { IsRowOf question.now (dealt_board number) None result }
{
    plain_row(alloc, question, &deal(number).unwrap())
}

// The text of a deal's row.
fn row_text(deal: u32, row: &Row) -> ArrayString<320>
    ensures text { result.bytes ≡ row_text record { deal = deal; row = row.now } }
{
    let mut buffer = Buffer::new();
    let mut text = ArrayString::new();
    text.push_str(buffer.format(deal));
    text.push_str(row.cells().as_str());
    text
}

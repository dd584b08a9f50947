//! What a row tells of a board: its answer, the list of it, and what its search told last.

ghost use Rattle.std.specs.Prelude.{◌≡◌, ◌+◌, ◌≤◌, ◌++◌, Some, None, length, IfOk, IfErr};
ghost use Rattle.arrayvec.specs.ArrayString.{array_string_len};
ghost use Rattle.fc_moves.specs.GameRules.{IsPositionOf};
ghost use Rattle.fc_answers.specs.Verdict.{CanBeWritten, outcome_of};
ghost use Rattle.fc_board_runs.specs.Devices.{IsHandedBack, change, lent};
ghost use Rattle.fc_answer_text.specs.AnswerText.{told_status};
ghost use Rattle.fc_runs.specs.Lists.{list_of};
ghost use Rattle.fc_runs.specs.Rows.{IsNoRow, IsRowOf, answer_name, cells_text, far_text, floor_of, moves_of, number_text};

use crate::certifying::write_certificate;
use crate::printable_lists::{PrintableList, list_of};
use arrayvec::ArrayString;
use fc_answer_text::{outcome_of, told_status};
use fc_answers::{MoveList, Outcome, Verdict};
use fc_best::{Listener, Progress, Wants, answer};
use fc_board_runs::{Output, ProgramFault};
use fc_io::Sink;
use fc_methods::Question;
use fc_moves::Game;
use fc_position::Position;
use itoa::Buffer;
use std::alloc::Global;

/// What a search, or the searches for a best answer together, told last.
#[derive(Clone, Copy)]
pub struct Far {
    /// How many classes of positions were stored.
    pub classes: u64,
    /// How many turns there were.
    pub turns: u64,
    /// The most entries that were open in one search, whenever it was told.
    pub most_open: u128,
    /// No list of fewer moves wins.
    pub at_least: u32,
}

/// What a row tells of a board.
#[derive(Drop)]
pub struct Row {
    /// How many classes might be stored, 1 to 16,000,000.
    pub budget: u32,
    /// The answer without moves, or `None` where memory was wanted.
    pub told: Option<Outcome>,
    /// The moves of its list that wins, if one was found.
    pub list: Option<PrintableList>,
    /// What was told last, which may be nothing only where memory was wanted.
    pub far: Option<Far>,
}

impl Row {
    /// What the answer is called: `shortest`, `won`, `can't be won`, `gave up` or `want of memory`.
    pub fn answer_name(&self) -> &'static str
        ensures value { result.now ≡ answer_name self.now.told }
        ensures short { length result.now ≤ 14 }
    {
        match self.told {
            Some(Outcome::Shortest(_)) => "shortest",
            Some(Outcome::Won { .. }) => "won",
            Some(Outcome::CannotWin) => "can't be won",
            Some(Outcome::GaveUp(_)) => "gave up",
            None => "want of memory",
        }
    }

    /// How many moves the list has that wins, if one was found.
    pub fn moves(&self) -> Option<u32>
        ensures value { result ≡ moves_of self.now.told }
    {
        match self.told {
            Some(Outcome::Shortest(moves) | Outcome::Won { moves, .. }) => Some(moves),
            _ => None,
        }
    }

    /// How many moves each list that wins has at least: as the answer tells it, or else the search.
    pub fn floor(&self) -> Option<u32>
        ensures value { result ≡ floor_of self.now.told self.now.far }
    {
        match self.told {
            Some(Outcome::Shortest(floor) | Outcome::Won { floor, .. }) => Some(floor),
            Some(Outcome::CannotWin) => None,
            _ => Some(self.far?.at_least),
        }
    }

    /// The exit status that tells the row: 0 for a solution, 1 where the board can't be won, 2 on giving up, 4 for want of
    /// memory.
    pub fn status(&self) -> u8
        ensures value { result ≡ told_status self.now.told }
    {
        told_status(self.told)
    }

    /// The row behind its name, as a table has it: a tab before each cell, and an end of line. The cells are the answer's name,
    /// the moves, the floor, the budget, and how many classes were stored, the turns and the most that was open; a cell is empty
    /// where there is nothing to tell.
    pub fn cells(&self) -> ArrayString<320>
        ensures text { result.bytes ≡ cells_text self.now }
        ensures short { length result.bytes ≤ 261 }
    {
        let mut text = ArrayString::new();
        text.push_str("\t");
        text.push_str(self.answer_name());
        text.push_str("\t");
        push_number(&mut text, self.moves());
        text.push_str("\t");
        push_number(&mut text, self.floor());
        text.push_str("\t");
        push_number(&mut text, Some(self.budget));
        text.push_str("\t");
        push_far(&mut text, self.far);
        text
    }
}

// Appends a number, if there is one.
fn push_number(text: &mut ArrayString<320>, number: Option<u32>)
    requires room { array_string_len text.old ≤ 200 }
    ensures text { text.new.bytes ≡ text.old.bytes ++ number_text number }
    ensures short { array_string_len text.new ≤ array_string_len text.old + 40 }
{
    let mut buffer = Buffer::new();
    if let Some(number) = number {
        text.push_str(buffer.format(number));
    }
}

// Appends what a search told of itself, and the end of a row.
fn push_far(text: &mut ArrayString<320>, far: Option<Far>)
    requires room { array_string_len text.old ≤ 139 }
    ensures text { text.new.bytes ≡ text.old.bytes ++ far_text far }
    ensures short { array_string_len text.new ≤ array_string_len text.old + 122 }
{
    let mut buffer = Buffer::new();
    let Some(far) = far else {
        text.push_str("\t\t\n");
        return;
    };
    text.push_str(buffer.format(far.classes));
    text.push_str("\t");
    text.push_str(buffer.format(far.turns));
    text.push_str("\t");
    text.push_str(buffer.format(far.most_open));
    text.push_str("\n");
}

/// Who keeps what is told last.
#[derive(Clone, Copy)]
struct Last {
    far: Option<Far>,
}

impl Listener for Last {
    ghost use Rattle.fc_runs.specs.inner.Rows.{LastKeeps};

    ghost hears = { LastKeeps };

    fn hear(&mut self, far: Progress) {
        self.far = Some(Far {
            classes: far.classes as u64,
            turns: far.turns,
            most_open: far.most_open,
            at_least: far.at_least,
        });
    }

    fn hear_list(&mut self, _moves: &MoveList, _at_least: u32) {}
}

/// The row of a position of the question's game. Where `cert` is given, the certificate of the answer is
/// written to it, whole; giving up has none, and want of memory neither. No list of moves wins in fewer than the row's floor, also
/// where the search gave up or memory was wanted. What it tells of its searches is what they told last; of those for a best answer
/// the classes, the turns and the most that was open are only tested.
///
/// # Errors
/// A certificate that can't be written, of which a front may be.
pub fn answer_row<G: Game + Drop, C: Sink>(
    alloc: Global,
    question: &Question<G>,
    start: &Position,
    cert: Option<&mut C>,
) -> Result<Row, ProgramFault>
    requires position { IsPositionOf question.now.game start.now }
    ensures row { IfOk result (IsRowOf question.now start.now (lent C.held C.has_failed cert.entry cert.exit)) }
    ensures fault { IfErr result (IsNoRow question.now start.now (lent C.held C.has_failed cert.entry cert.exit)) }
    ensures back { IsHandedBack cert.entry cert.exit }
{
    match cert {
        Some(cert) => certified_row(alloc, question, start, cert),
        None => Ok(plain_row(alloc, question, start)),
    }
}

// The row of a position, without a certificate.
pub(crate) fn plain_row<G: Game + Drop>(
    alloc: Global,
    question: &Question<G>,
    start: &Position,
) -> Row
    requires position { IsPositionOf question.now.game start.now }
    ensures row { IsRowOf question.now start.now None result }
{
    let mut last = Last { far: None };
    match answer(alloc, question, start, Wants::Verdict, &mut last) {
        Ok(answer) => row_of(question, answer.verdict, last.far),
        Err(_) => row_of_memory(question, last.far),
    }
}

// The row of a verdict for the question, whose searches told this last.
fn row_of<G: Game + Drop>(question: &Question<G>, verdict: Verdict, far: Option<Far>) -> Row
    requires written { CanBeWritten verdict }
    ensures budget { result.budget ≡ question.now.method.strategy.budget }
    ensures told { result.told ≡ Some (outcome_of verdict) }
    ensures list { result.list ≡ list_of verdict }
    ensures far { result.far ≡ far }
{
    Row {
        budget: budget_of(question),
        told: Some(outcome_of(&verdict)),
        list: list_of(verdict),
        far,
    }
}

// The row of want of memory, before which the searches told this last.
fn row_of_memory<G: Game + Drop>(question: &Question<G>, far: Option<Far>) -> Row
    ensures budget { result.budget ≡ question.now.method.strategy.budget }
    ensures told { result.told ≡ None }
    ensures list { result.list ≡ None }
    ensures far { result.far ≡ far }
{
    Row {
        budget: budget_of(question),
        told: None,
        list: None,
        far,
    }
}

// How many classes may be stored for the question.
fn budget_of<G: Game + Drop>(question: &Question<G>) -> u32
    ensures value { result ≡ question.now.method.strategy.budget }
{
    question.method().strategy.budget.get()
}

// The row of a position, once its certificate is written.
fn certified_row<G: Game + Drop, C: Sink>(
    alloc: Global,
    question: &Question<G>,
    start: &Position,
    cert: &mut C,
) -> Result<Row, ProgramFault>
    requires position { IsPositionOf question.now.game start.now }
    ensures row { IfOk result (IsRowOf question.now start.now (Some (change C.held C.has_failed cert.old cert.new))) }
    ensures fault { IfErr result (IsNoRow question.now start.now (Some (change C.held C.has_failed cert.old cert.new))) }
{
    let mut last = Last { far: None };
    let Ok(answer) = answer(alloc, question, start, Wants::Table, &mut last) else {
        return Ok(row_of_memory(question, last.far));
    };
    let Ok(_) = write_certificate(question.game(), &answer, cert) else {
        return Err(ProgramFault::Write(Output::Cert));
    };
    Ok(row_of(question, answer.verdict, last.far))
}

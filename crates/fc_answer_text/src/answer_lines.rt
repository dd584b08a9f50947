//! How a verdict, a claim and what a batch tells of a deal are printed, and the exit status that goes with it.

ghost use Rattle.std.specs.Prelude.{◌≡◌, ◌≤◌, ◌++◌, length, IfOk, OnOk, All};
ghost use Rattle.fc_moves.specs.MoveText.{HasText};
ghost use Rattle.fc_answers.specs.Verdict.{CanBeWritten, outcome_of};
ghost use Rattle.arrayvec.specs.ArrayString.{array_string_len};
ghost use Rattle.fc_lists.specs.ListText.{moves_line};
ghost use Rattle.fc_answer_text.specs.AnswerText.{line_text, told_status, told_text, accepted_text, answer_text, shortest_line, won_line, gave_up_text, status_of};

use arrayvec::ArrayString;
use fc_answers::{Outcome, Verdict};
use fc_cert::Claim;
use fc_lists::push_moves_line;
use fc_moves::Move;
use itoa::Buffer;
use std::alloc::{AllocError, Global};

/// The lines that tell a verdict: `shortest N` or `won N, at least L` and the moves, `can't be won`, or `gave up B`.
///
/// # Errors
/// A growth of memory was refused.
pub fn verdict_text(alloc: Global, verdict: &Verdict) -> Result<Vec<u8>, AllocError>
    requires texts { CanBeWritten verdict.now }
    ensures text { IfOk result (λ t. t.items ≡ answer_text verdict.now) }
{
    match verdict {
        Verdict::Shortest(moves) => shortest_text(alloc, moves.as_slice()),
        Verdict::Won { moves, floor } => won_text(alloc, moves.as_slice(), *floor),
        Verdict::CannotWin => Vec::from_slice(alloc, b"can't be won\n"),
        Verdict::GaveUp(budget) => gave_up_text(alloc, *budget),
    }
}

/// The exit status that tells a verdict: 0 for moves that win, 1 where no list wins, 2 on giving up.
pub fn verdict_status(verdict: &Verdict) -> u8
    ensures value { result ≡ status_of verdict.now }
{
    match verdict {
        Verdict::Shortest(_) | Verdict::Won { .. } => 0,
        Verdict::CannotWin => 1,
        Verdict::GaveUp(_) => 2,
    }
}

/// The line that tells a claim that was accepted.
///
/// # Errors
/// A growth of memory was refused.
pub fn accepted_text(alloc: Global, claim: Claim) -> Result<Vec<u8>, AllocError>
    ensures text { IfOk result (λ t. t.items ≡ accepted_text claim) }
{
    let mut text = Vec::from_slice(alloc, b"accepted: ")?;
    match claim {
        Claim::Shortest(count) => push_shortest(&mut text, count as usize)?,
        Claim::CannotWin => text.extend_from_slice(b"can't be won\n")?,
        Claim::Between { floor, moves } => push_won(&mut text, moves as usize, floor)?,
    }
    Ok(text)
}

/// The line of a deal in a batch: its number, and its answer without moves, or `want of memory` where nothing is told.
pub fn line_text(deal: u32, told: Option<Outcome>) -> ArrayString<128>
    ensures text { result.bytes ≡ line_text record { deal = deal; told = told } }
{
    let mut buffer = Buffer::new();
    let mut text = ArrayString::new();
    text.push_str(buffer.format(deal));
    text.push_str(" ");
    push_told(&mut text, told);
    text
}

/// A verdict without its moves: how many there are.
pub fn outcome_of(verdict: &Verdict) -> Outcome
    requires texts { CanBeWritten verdict.now }
    ensures value { result ≡ outcome_of verdict.now }
{
    match verdict {
        Verdict::Shortest(moves) => Outcome::Shortest(moves.len() as u32),
        Verdict::Won { moves, floor } => Outcome::Won {
            moves: moves.len() as u32,
            floor: *floor,
        },
        Verdict::CannotWin => Outcome::CannotWin,
        Verdict::GaveUp(budget) => Outcome::GaveUp(*budget),
    }
}

/// The exit status that tells what is told of a deal in a batch.
pub fn told_status(told: Option<Outcome>) -> u8
    ensures value { result ≡ told_status told }
{
    match told {
        Some(Outcome::Shortest(_) | Outcome::Won { .. }) => 0,
        Some(Outcome::CannotWin) => 1,
        Some(Outcome::GaveUp(_)) => 2,
        None => 4,
    }
}

// Appends what is told of a deal.
fn push_told(text: &mut ArrayString<128>, told: Option<Outcome>)
    requires room { array_string_len text.old ≤ 41 }
    ensures text { text.new.bytes ≡ text.old.bytes ++ told_text told }
{
    let mut buffer = Buffer::new();
    match told {
        Some(Outcome::Shortest(count)) => {
            text.push_str("shortest ");
            text.push_str(buffer.format(count));
            text.push_str("\n");
        }
        Some(Outcome::Won { moves, floor }) => {
            text.push_str("won ");
            text.push_str(buffer.format(moves));
            text.push_str(", at least ");
            text.push_str(buffer.format(floor));
            text.push_str("\n");
        }
        Some(Outcome::CannotWin) => text.push_str("can't be won\n"),
        Some(Outcome::GaveUp(budget)) => {
            text.push_str("gave up ");
            text.push_str(buffer.format(budget));
            text.push_str("\n");
        }
        None => text.push_str("want of memory\n"),
    }
}

// The lines of a shortest list.
fn shortest_text(alloc: Global, moves: &[Move]) -> Result<Vec<u8>, AllocError>
    requires texts { All HasText moves.now }
    ensures text { IfOk result (λ t. t.items ≡ shortest_line (length moves.now) ++ moves_line moves.now) }
{
    let mut text = Vec::new(alloc);
    push_shortest(&mut text, moves.len())?;
    push_moves_line(&mut text, moves)?;
    Ok(text)
}

// Appends how many moves a shortest list has.
fn push_shortest(text: &mut Vec<u8>, count: usize) -> Result<(), AllocError>
    ensures text { OnOk result (text.new.items ≡ text.old.items ++ shortest_line count) }
{
    let mut buffer = Buffer::new();
    text.extend_from_slice(b"shortest ")?;
    text.extend_from_slice(buffer.format(count).as_bytes())?;
    text.extend_from_slice(b"\n")?;
    Ok(())
}

// The lines of a list that wins, where each such list has at least so many moves.
fn won_text(alloc: Global, moves: &[Move], floor: u32) -> Result<Vec<u8>, AllocError>
    requires texts { All HasText moves.now }
    ensures text { IfOk result (λ t. t.items ≡ won_line (length moves.now) floor ++ moves_line moves.now) }
{
    let mut text = Vec::new(alloc);
    push_won(&mut text, moves.len(), floor)?;
    push_moves_line(&mut text, moves)?;
    Ok(text)
}

// Appends how many moves a list has that wins, and how many each such list has at least.
fn push_won(text: &mut Vec<u8>, count: usize, floor: u32) -> Result<(), AllocError>
    ensures text { OnOk result (text.new.items ≡ text.old.items ++ won_line count floor) }
{
    let mut buffer = Buffer::new();
    text.extend_from_slice(b"won ")?;
    text.extend_from_slice(buffer.format(count).as_bytes())?;
    text.extend_from_slice(b", at least ")?;
    text.extend_from_slice(buffer.format(floor).as_bytes())?;
    text.extend_from_slice(b"\n")?;
    Ok(())
}

// The line of a search that gave up.
fn gave_up_text(alloc: Global, budget: u32) -> Result<Vec<u8>, AllocError>
    ensures text { IfOk result (λ t. t.items ≡ gave_up_text budget) }
{
    let mut buffer = Buffer::new();
    let mut text = Vec::from_slice(alloc, b"gave up ")?;
    text.extend_from_slice(buffer.format(budget).as_bytes())?;
    text.extend_from_slice(b"\n")?;
    Ok(text)
}

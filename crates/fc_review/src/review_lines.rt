//! What is told of a list of moves, on a line, and the exit status that goes with it.

ghost use Rattle.std.specs.Prelude.{◌≡◌, ◌+◌, ◌++◌, nat_eq, decimal, IfOk, OnOk};
ghost use Rattle.fc_review.specs.Texts.{beside_phrase, between_text, best_phrase, count_phrase, floor_phrase, found_phrase, from_here_text, list_phrase, lost_behind_text, lost_text, loses_text, moves_phrase, open_text, own_phrase, rating_status, rating_text, review_status, review_text, up_to_text, wins_phrase};

use crate::known_boards::KnownBoard;
use crate::ratings::Rating;
use crate::reviews::Review;
use fc_answers::Verdict;
use itoa::Buffer;
use std::alloc::{AllocError, Global};

/// What is told of a list of so many moves that doesn't win; the move that loses, where it is known which one does, in these
/// words.
///
/// # Errors
/// A growth was refused.
pub fn review_text(
    alloc: Global,
    losing: &[u8],
    count: usize,
    review: &Review,
) -> Result<Vec<u8>, AllocError>
    ensures text { IfOk result (λ t. t.items ≡ review_text losing.now count review.now) }
{
    let mut text = Vec::new(alloc);
    match (&review.won, review.lost) {
        (Some(won), Some(lost)) if is_behind(won, lost) => push_loses(&mut text, losing, won)?,
        (Some(won), Some(lost)) => push_between(&mut text, won, lost)?,
        (Some(won), None) => push_open(&mut text, count, won)?,
        (None, Some(lost)) => push_lost(&mut text, lost)?,
        (None, None) => push(&mut text, "gave up: no list was found on the way\n")?,
    }
    Ok(text)
}

/// The exit status of what is told of a list of so many moves that doesn't win: 0 where all is known, 1 where the board can't be
/// won from the start, 2 where something gave up.
pub fn review_status(count: usize, review: &Review) -> u8
    ensures value { result ≡ review_status count review.now }
{
    match (&review.won, review.lost) {
        (Some(won), Some(lost)) if is_behind(won, lost) => 0,
        (Some(won), None) if won.after >= count => 0,
        (None, Some(0)) => 1,
        _ => 2,
    }
}

/// What is told of a list of so many moves that wins, of which so many entries are left to a player's hands.
///
/// # Errors
/// A growth was refused.
pub fn rating_text(
    alloc: Global,
    count: usize,
    by_hand: usize,
    rating: &Rating,
) -> Result<Vec<u8>, AllocError>
    ensures text { IfOk result (λ t. t.items ≡ rating_text count by_hand rating.now) }
{
    let mut text = Vec::new(alloc);
    push(&mut text, "won in ")?;
    push_moves(&mut text, count)?;
    push(&mut text, ", ")?;
    push_number(&mut text, by_hand)?;
    push(&mut text, " by hand; ")?;
    push_own(&mut text, count, rating)?;
    push(&mut text, "\n")?;
    Ok(text)
}

/// The exit status of what is told of a list that wins: 0, or 2 where the searches gave up.
pub fn rating_status(rating: &Rating) -> u8
    ensures value { result ≡ rating_status rating.now }
{
    if rating.own.is_some() { 0 } else { 2 }
}

// Whether the board after so many moves is the one behind the last won one.
fn is_behind(won: &KnownBoard, lost: usize) -> bool
    ensures value { result ≡ nat_eq lost (won.now.after + 1) }
{
    lost as u128 == won.after as u128 + 1
}

// Appends that the move behind a board loses.
fn push_loses(text: &mut Vec<u8>, losing: &[u8], won: &KnownBoard) -> Result<(), AllocError>
    ensures text { OnOk result (text.new.items ≡ text.old.items ++ loses_text losing.now won.now) }
{
    push(text, "move ")?;
    push_behind(text, won)?;
    push(text, ", ")?;
    text.extend_from_slice(losing)?;
    push(text, ", loses: ")?;
    push_count(text, &won.verdict)?;
    push(text, " before it, none after\n")?;
    Ok(())
}

// Appends that one of the moves loses from a board to one from which none wins.
fn push_between(text: &mut Vec<u8>, won: &KnownBoard, lost: usize) -> Result<(), AllocError>
    ensures text { OnOk result (text.new.items ≡ text.old.items ++ between_text won.now lost) }
{
    push(text, "one of the moves ")?;
    push_behind(text, won)?;
    push(text, " to ")?;
    push_number(text, lost)?;
    push(text, " loses: before move ")?;
    push_behind(text, won)?;
    push(text, " ")?;
    push_list(text, &won.verdict)?;
    push(text, ", after move ")?;
    push_number(text, lost)?;
    push(text, " none; in between the searches gave up\n")?;
    Ok(())
}

// Appends that none of the moves loses up to a board, of a list with so many.
fn push_open(text: &mut Vec<u8>, count: usize, won: &KnownBoard) -> Result<(), AllocError>
    ensures text { OnOk result (text.new.items ≡ text.old.items ++ open_text count won.now) }
{
    if count == 0 {
        return push_from_here(text, "there are no moves", won);
    }
    if won.after < count {
        return push_up_to(text, won);
    }
    push_from_here(text, "none of these moves loses", won)
}

// Appends what is known from the last board, behind this.
fn push_from_here(text: &mut Vec<u8>, told: &str, won: &KnownBoard) -> Result<(), AllocError>
    ensures text { OnOk result (text.new.items ≡ text.old.items ++ from_here_text told.now won.now) }
{
    push(text, told)?;
    push(text, ": from here ")?;
    push_list(text, &won.verdict)?;
    push(text, "\n")?;
    Ok(())
}

// Appends that none of the moves loses up to a board, behind which the searches gave up.
fn push_up_to(text: &mut Vec<u8>, won: &KnownBoard) -> Result<(), AllocError>
    ensures text { OnOk result (text.new.items ≡ text.old.items ++ up_to_text won.now) }
{
    push(text, "no move loses up to move ")?;
    push_number(text, won.after)?;
    push(text, ": from there ")?;
    push_list(text, &won.verdict)?;
    push(text, "; behind it the searches gave up\n")?;
    Ok(())
}

// Appends that no list wins after so many moves.
fn push_lost(text: &mut Vec<u8>, lost: usize) -> Result<(), AllocError>
    ensures text { OnOk result (text.new.items ≡ text.old.items ++ lost_text lost) }
{
    if lost == 0 {
        return push(text, "can't be won, before any of these moves\n");
    }
    push_lost_behind(text, lost)
}

// Appends that no list wins after so many moves, before which the searches gave up.
fn push_lost_behind(text: &mut Vec<u8>, lost: usize) -> Result<(), AllocError>
    ensures text { OnOk result (text.new.items ≡ text.old.items ++ lost_behind_text lost) }
{
    push(text, "no list wins after move ")?;
    push_number(text, lost)?;
    push(text, "; before it the searches gave up\n")?;
    Ok(())
}

// Appends what the floor says of a list of so many moves.
fn push_own(text: &mut Vec<u8>, count: usize, rating: &Rating) -> Result<(), AllocError>
    ensures text { OnOk result (text.new.items ≡ text.old.items ++ own_phrase count rating.now.own rating.now.best) }
{
    match &rating.own {
        Some(Verdict::Won { floor, .. }) => push_floor(text, count, *floor as usize, &rating.best),
        Some(_) => push(text, "no list wins in fewer"),
        None => push(text, "the searches for a shorter list gave up"),
    }
}

// Appends a floor, and what is known beside a list of so many moves.
fn push_floor(
    text: &mut Vec<u8>,
    count: usize,
    floor: usize,
    best: &Verdict,
) -> Result<(), AllocError>
    ensures text { OnOk result (text.new.items ≡ text.old.items ++ floor_phrase count floor best.now) }
{
    push(text, "no list wins in fewer than ")?;
    push_number(text, floor)?;
    push_beside(text, count, best)?;
    Ok(())
}

// Appends what is known beside a list of so many moves.
fn push_beside(text: &mut Vec<u8>, count: usize, best: &Verdict) -> Result<(), AllocError>
    ensures text { OnOk result (text.new.items ≡ text.old.items ++ beside_phrase count best.now) }
{
    match best {
        Verdict::Shortest(moves) | Verdict::Won { moves, .. } => push_best(
            text,
            count,
            moves.len(),
        ),
        _ => push(text, "; none shorter was found"),
    }
}

// Appends the fewest moves that are known to win beside a list of so many.
fn push_best(text: &mut Vec<u8>, count: usize, found: usize) -> Result<(), AllocError>
    ensures text { OnOk result (text.new.items ≡ text.old.items ++ best_phrase count found) }
{
    if found < count {
        return push_found(text, found);
    }
    push(text, "; none shorter was found")
}

// Appends that a list of so many moves was found.
fn push_found(text: &mut Vec<u8>, found: usize) -> Result<(), AllocError>
    ensures text { OnOk result (text.new.items ≡ text.old.items ++ found_phrase found) }
{
    push(text, "; the best one found has ")?;
    push_number(text, found)?;
    Ok(())
}

// Appends how many moves the list has that a verdict tells.
fn push_count(text: &mut Vec<u8>, verdict: &Verdict) -> Result<(), AllocError>
    ensures text { OnOk result (text.new.items ≡ text.old.items ++ count_phrase verdict.now) }
{
    match verdict {
        Verdict::Shortest(moves) | Verdict::Won { moves, .. } => push_wins(text, moves.len()),
        _ => push(text, "no list is told"),
    }
}

// Appends that, and how many moves each list has at least that wins.
fn push_list(text: &mut Vec<u8>, verdict: &Verdict) -> Result<(), AllocError>
    ensures text { OnOk result (text.new.items ≡ text.old.items ++ list_phrase verdict.now) }
{
    match verdict {
        Verdict::Shortest(moves) => {
            push_wins(text, moves.len())?;
            push(text, ", and none fewer")?;
            Ok(())
        }
        Verdict::Won { moves, floor } => {
            push_wins(text, moves.len())?;
            push(text, ", at least ")?;
            push_number(text, *floor as usize)?;
            Ok(())
        }
        _ => push(text, "no list is told"),
    }
}

// Appends that so many moves win.
fn push_wins(text: &mut Vec<u8>, count: usize) -> Result<(), AllocError>
    ensures text { OnOk result (text.new.items ≡ text.old.items ++ wins_phrase count) }
{
    push_number(text, count)?;
    if count == 1 {
        return push(text, " move wins");
    }
    push(text, " moves win")
}

// Appends so many moves.
fn push_moves(text: &mut Vec<u8>, count: usize) -> Result<(), AllocError>
    ensures text { OnOk result (text.new.items ≡ text.old.items ++ moves_phrase count) }
{
    push_number(text, count)?;
    if count == 1 {
        return push(text, " move");
    }
    push(text, " moves")
}

// Appends the number of the move behind a board.
fn push_behind(text: &mut Vec<u8>, won: &KnownBoard) -> Result<(), AllocError>
    ensures text { OnOk result (text.new.items ≡ text.old.items ++ decimal (won.now.after + 1)) }
{
    let mut buffer = Buffer::new();
    text.extend_from_slice(buffer.format(won.after as u128 + 1).as_bytes())
}

// Appends a number.
fn push_number(text: &mut Vec<u8>, number: usize) -> Result<(), AllocError>
    ensures text { OnOk result (text.new.items ≡ text.old.items ++ decimal number) }
{
    let mut buffer = Buffer::new();
    text.extend_from_slice(buffer.format(number).as_bytes())
}

// Appends a text.
fn push(text: &mut Vec<u8>, piece: &str) -> Result<(), AllocError>
    ensures text { OnOk result (text.new.items ≡ text.old.items ++ piece.now) }
{
    text.extend_from_slice(piece.as_bytes())
}

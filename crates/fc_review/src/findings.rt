//! What is found of a list of moves, and the line that tells it.

ghost use Rattle.std.specs.Prelude.{◌≡◌, ◌<◌, ◌^◌, All, Some, None, IfOk, IfErr, length};
ghost use Rattle.fc_position.specs.Board.{Board};
ghost use Rattle.fc_moves.specs.GameRules.{IsPositionOf};
ghost use Rattle.fc_moves.specs.MoveText.{HasText};
ghost use Rattle.fc_moves.specs.Run.{Run};
ghost use Rattle.fc_board_runs.specs.Devices.{IsHandedBack, change, lent};
ghost use Rattle.fc_review.specs.Finding.{IsFinding, IsReviewed, IsFindingTold, IsUnreviewed, IsFindingUntold, NamesLosing, TellsFinding, finding_status, named_text};
ghost use Rattle.fc_review.specs.Hands.{IsByHand};
ghost use Rattle.fc_review.specs.Rating.{IsUnrated};

use crate::hands::count_by_hand;
use crate::known_boards::{board_after, wins};
use crate::ratings::{Rating, certify, rate_alone};
use crate::review_lines::{rating_status, rating_text, review_status, review_text};
use crate::reviews::{Review, review_of};
use fc_answers::MOST_MOVES;
use fc_io::{Sink, write_all};
use fc_methods::Question;
use fc_moves::{Game, Move, move_text};
use fc_position::Position;
use fc_replay::ToldMove;
use fc_runs::{Output, ProgramFault};
use std::alloc::{AllocError, Global};

/// What is found of a list of moves.
#[derive(Drop)]
pub enum Finding {
    /// It wins, and is so good; so many of its entries are left to a player's hands.
    Rated { rating: Rating, by_hand: usize },
    /// So much is known of the boards of a list that doesn't win, or that has more moves than an answer may have.
    Traced(Review),
}

impl Finding {
    /// The exit status that goes with what is told of a list: 0 where all is known, 1 where its board can't be won, 2 where
    /// searches gave up.
    pub fn status(&self, moves: &[Move]) -> u8
        ensures value { result ≡ finding_status moves.now self.now }
    {
        match self {
            Finding::Rated { rating, .. } => rating_status(rating),
            Finding::Traced(review) => review_status(moves.len(), review),
        }
    }
}

/// What is found of a list of moves that the rules allow from a position of the question's game, by best answers within the
/// question's budget. Where `cert` is given and the list wins, the certificate of what is told of it is written there.
///
/// # Errors
/// Want of memory, and nothing is written; a certificate that can't be written, of which a front may be.
pub fn find<G: Game + Drop, C: Sink>(
    alloc: Global,
    question: &Question<G>,
    start: &Position,
    moves: &[Move],
    cert: Option<&mut C>,
) -> Result<Finding, ProgramFault>
    requires position { IsPositionOf question.now.game start.now }
    requires run { (c : Board) × Run question.now.game start.now moves.now c }
    requires texts { All HasText moves.now }
    ensures found { IfOk result (IsFinding question.now start.now moves.now (lent C.held C.has_failed cert.entry cert.exit)) }
    ensures fault { IfErr result (IsUnrated question.now start.now moves.now (lent C.held C.has_failed cert.entry cert.exit)) }
    ensures back { IsHandedBack cert.entry cert.exit }
{
    match cert {
        Some(cert) => find_certified(alloc, question, start, moves, cert),
        None => find_alone(alloc, question, start, moves),
    }
}

// What is found of a list, without a certificate.
fn find_alone<G: Game + Drop>(
    alloc: Global,
    question: &Question<G>,
    start: &Position,
    moves: &[Move],
) -> Result<Finding, ProgramFault>
    requires position { IsPositionOf question.now.game start.now }
    requires run { (c : Board) × Run question.now.game start.now moves.now c }
    ensures found { IfOk result (IsFinding question.now start.now moves.now None) }
    ensures fault { IfErr result (IsUnrated question.now start.now moves.now None) }
{
    if moves.len() > MOST_MOVES as usize || !wins(question.game(), start, moves) {
        return Ok(Finding::Traced(review_of(alloc, question, start, moves)?));
    }
    let by_hand = hands_of(alloc, question, start, moves)?;
    let rating = rate_alone(alloc, question, start, moves)?;
    Ok(Finding::Rated { rating, by_hand })
}

// What is found of a list, with the certificate of one that wins.
fn find_certified<G: Game + Drop, C: Sink>(
    alloc: Global,
    question: &Question<G>,
    start: &Position,
    moves: &[Move],
    cert: &mut C,
) -> Result<Finding, ProgramFault>
    requires position { IsPositionOf question.now.game start.now }
    requires run { (c : Board) × Run question.now.game start.now moves.now c }
    requires texts { All HasText moves.now }
    ensures found { IfOk result (IsFinding question.now start.now moves.now (Some (change C.held C.has_failed cert.old cert.new))) }
    ensures fault { IfErr result (IsUnrated question.now start.now moves.now (Some (change C.held C.has_failed cert.old cert.new))) }
{
    if moves.len() > MOST_MOVES as usize || !wins(question.game(), start, moves) {
        return Ok(Finding::Traced(review_of(alloc, question, start, moves)?));
    }
    let by_hand = hands_of(alloc, question, start, moves)?;
    let rating = certify(alloc, question, start, moves, cert)?;
    Ok(Finding::Rated { rating, by_hand })
}

// How many entries of a list are left to a player's hands, by the question's home rule.
fn hands_of<G: Game + Drop>(
    alloc: Global,
    question: &Question<G>,
    start: &Position,
    moves: &[Move],
) -> Result<usize, AllocError>
    requires position { IsPositionOf question.now.game start.now }
    requires few { length moves.now < 2 ^ 32 }
    ensures count { IfOk result (IsByHand question.now.method.rule question.now.game start.now moves.now) }
{
    match count_by_hand(alloc, question.game(), start, moves, question.method().rule) {
        Ok(count) => Ok(count),
        // (of moves that are allowed nothing else is refused)
        Err(_) => Err(AllocError),
    }
}

/// The line that tells what is found of a list of moves that the rules allow from a position of the game.
///
/// # Errors
/// A growth was refused.
pub fn finding_text<G: Game>(
    alloc: Global,
    game: &G,
    start: &Position,
    moves: &[Move],
    finding: &Finding,
) -> Result<Vec<u8>, AllocError>
    requires position { IsPositionOf (G.game game.now) start.now }
    requires run { (c : Board) × Run (G.game game.now) start.now moves.now c }
    requires texts { All HasText moves.now }
    ensures text { IfOk result (λ t. TellsFinding (G.game game.now) start.now moves.now finding.now t.items) }
{
    match finding {
        Finding::Rated { rating, by_hand } => rating_text(alloc, moves.len(), *by_hand, rating),
        Finding::Traced(review) => {
            let losing = losing_text(alloc, game, start, moves, review)?;
            review_text(alloc, losing.as_slice(), moves.len(), review)
        }
    }
}

// The move that a review says loses, by its letters and in words; nothing where it names none.
fn losing_text<G: Game>(
    alloc: Global,
    game: &G,
    start: &Position,
    moves: &[Move],
    review: &Review,
) -> Result<Vec<u8>, AllocError>
    requires position { IsPositionOf (G.game game.now) start.now }
    requires run { (c : Board) × Run (G.game game.now) start.now moves.now c }
    requires texts { All HasText moves.now }
    ensures named { IfOk result (λ t. NamesLosing (G.game game.now) start.now moves.now review.now t.items) }
{
    let Some(place) = review.losing_move() else {
        return Ok(Vec::new(alloc));
    };
    let Some(m) = moves.get(place) else {
        return Ok(Vec::new(alloc));
    };
    let before = board_after(game, start, moves, place);
    named_text(alloc, &before, *m)
}

// A move by its letters, and in words in brackets, from the board before it.
fn named_text(alloc: Global, before: &Position, m: Move) -> Result<Vec<u8>, AllocError>
    requires text { HasText m }
    ensures named { IfOk result (λ t. t.items ≡ named_text before.now m) }
{
    let mut text = Vec::from_slice(alloc, &move_text(m))?;
    text.extend_from_slice(b" (")?;
    text.extend_from_slice(&ToldMove::of(1, before, m).phrase(false))?;
    text.extend_from_slice(b")")?;
    Ok(text)
}

/// Reviews a list of moves that the rules allow from a position of the question's game, and writes a line of what is found:
/// which move loses, from the board before which some list wins, and none from the board after it; or how good a list is that
/// wins. The status is 0 where that is known, 1 where the board can't be won from the start, 2 where searches gave up. Where
/// `cert` is given and the list wins, the certificate of what is told of it, with that very list, is written first.
///
/// # Errors
/// Want of memory, and no line is written; a certificate that can't be written, of which a front may be, and no line is; a line
/// that can't be written, of which a front may be.
pub fn run_review<G: Game + Drop, K: Sink, C: Sink>(
    alloc: Global,
    question: &Question<G>,
    start: &Position,
    moves: &[Move],
    out: &mut K,
    cert: Option<&mut C>,
) -> Result<u8, ProgramFault>
    requires position { IsPositionOf question.now.game start.now }
    requires run { (c : Board) × Run question.now.game start.now moves.now c }
    requires texts { All HasText moves.now }
    ensures reviewed { IfOk result (IsReviewed question.now start.now moves.now (lent C.held C.has_failed cert.entry cert.exit)
        (change K.held K.has_failed out.old out.new)) }
    ensures fault { IfErr result (IsUnreviewed question.now start.now moves.now (lent C.held C.has_failed cert.entry cert.exit)
        (change K.held K.has_failed out.old out.new)) }
    ensures back { IsHandedBack cert.entry cert.exit }
{
    match cert {
        Some(cert) => review_certified(alloc, question, start, moves, out, cert),
        None => review_alone(alloc, question, start, moves, out),
    }
}

// Reviews a list, and writes its line.
fn review_alone<G: Game + Drop, K: Sink>(
    alloc: Global,
    question: &Question<G>,
    start: &Position,
    moves: &[Move],
    out: &mut K,
) -> Result<u8, ProgramFault>
    requires position { IsPositionOf question.now.game start.now }
    requires run { (c : Board) × Run question.now.game start.now moves.now c }
    requires texts { All HasText moves.now }
    ensures reviewed { IfOk result (IsReviewed question.now start.now moves.now None (change K.held K.has_failed out.old out.new)) }
    ensures fault { IfErr result (IsUnreviewed question.now start.now moves.now None (change K.held K.has_failed out.old out.new)) }
{
    let finding = find_alone(alloc, question, start, moves)?;
    write_finding(alloc, question.game(), start, moves, &finding, out)
}

// Reviews a list, and writes its certificate, if it wins, and then its line.
fn review_certified<G: Game + Drop, K: Sink, C: Sink>(
    alloc: Global,
    question: &Question<G>,
    start: &Position,
    moves: &[Move],
    out: &mut K,
    cert: &mut C,
) -> Result<u8, ProgramFault>
    requires position { IsPositionOf question.now.game start.now }
    requires run { (c : Board) × Run question.now.game start.now moves.now c }
    requires texts { All HasText moves.now }
    ensures reviewed { IfOk result (IsReviewed question.now start.now moves.now (Some (change C.held C.has_failed cert.old cert.new))
        (change K.held K.has_failed out.old out.new)) }
    ensures fault { IfErr result (IsUnreviewed question.now start.now moves.now (Some (change C.held C.has_failed cert.old cert.new))
        (change K.held K.has_failed out.old out.new)) }
{
    let finding = find_certified(alloc, question, start, moves, cert)?;
    write_finding(alloc, question.game(), start, moves, &finding, out)
}

// Writes the line of what is found of a list; its status.
fn write_finding<G: Game, K: Sink>(
    alloc: Global,
    game: &G,
    start: &Position,
    moves: &[Move],
    finding: &Finding,
    out: &mut K,
) -> Result<u8, ProgramFault>
    requires position { IsPositionOf (G.game game.now) start.now }
    requires run { (c : Board) × Run (G.game game.now) start.now moves.now c }
    requires texts { All HasText moves.now }
    ensures told { IfOk result (IsFindingTold (G.game game.now) start.now moves.now finding.now (change K.held K.has_failed out.old out.new)) }
    ensures fault { IfErr result (IsFindingUntold (G.game game.now) start.now moves.now finding.now (change K.held K.has_failed out.old out.new)) }
{
    let text = finding_text(alloc, game, start, moves, finding)?;
    match write_all(out, text.as_slice()) {
        Ok(()) => Ok(finding.status(moves)),
        Err(_) => Err(ProgramFault::Write(Output::Answer)),
    }
}

//! Lists played: the one-card moves to which their entries come, and the board after so many of them.

ghost use Rattle.std.specs.Prelude.{◌≡◌, ◌+◌, ◌≤◌, ◌<◌, ℕ, length, take, All, IfOk, IfErr};
ghost use Rattle.fc_position.specs.Board.{Board};
ghost use Rattle.fc_moves.specs.GameRules.{IsPositionOf};
ghost use Rattle.fc_moves.specs.MoveText.{HasText};
ghost use Rattle.fc_moves.specs.Run.{Run};
ghost use Rattle.fc_replay.specs.Token.{move_tokens};
ghost use Rattle.fc_lists.specs.Plays.{AreMoves, ComeTo, HasEntries, IsListBoard, IsListStop, IsListUnanswered, wanted_tokens};

use crate::expansions::{expand_entries, no_entry};
use crate::faults::PlayFault;
use fc_moves::{Game, Move, allows, apply};
use fc_position::Position;
use fc_replay::{MoveGaps, read_token};
use fc_text::Tokens;
use std::alloc::Global;

/// The most bytes that a text of moves may have.
pub const LONGEST_MOVES: usize = 1_048_576;

/// What is asked of a list of moves.
#[derive(Clone, Copy, Debug, PartialEq, Eq)]
pub enum ListWants {
    /// Its one-card moves, on one line.
    Line,
    /// The board after so many of its entries, as it is printed.
    BoardAfter(u32),
}

/// A question about a list of moves.
#[derive(Clone, Copy, Debug, PartialEq, Eq)]
pub struct ListQuestion {
    /// What is asked.
    pub wants: ListWants,
    /// Whether an entry may move several cards, as in standard notation; else each moves one.
    pub has_sequences: bool,
}

/// The board after the entries of a list that are asked of, which are played from a position of the game: each moves one card, or, where
/// they may move several, as in standard notation. Where it isn't told how many cards go to an empty column, they are so many that the
/// entries that are played can be.
///
/// # Errors
/// In this order: fewer entries than are asked of; then, of entries of one card, the first that is no move or isn't allowed, or want of
/// memory, whichever is met first; of others the first that is none; then the first step up to which no numbers of cards let them be
/// played, or one up to which they lead to more than 1,000 boards, or want of memory, whichever is met first; and more than
/// 4,294,967,295 one-card moves.
pub fn list_board<G: Game>(
    alloc: Global,
    game: &G,
    start: &Position,
    list: &[u8],
    question: ListQuestion,
) -> Result<Position, PlayFault>
    requires fits { IsPositionOf (G.game game.now) start.now }
    requires short { length list.now ≤ LONGEST_MOVES }
    ensures board { IfOk result (IsListBoard question (G.game game.now) start.now (move_tokens list.now)) }
    ensures fits { IfOk result (IsPositionOf (G.game game.now)) }
    ensures fault { IfErr result (IsListUnanswered question (G.game game.now) start.now (move_tokens list.now)) }
{
    let steps = list_moves(alloc, game, start, list, question)?;
    Ok(last_board(game, start, steps.as_slice()))
}

/// The one-card moves to which the entries of a list come that are asked of, at most 4,294,967,295: they are played from a position of
/// the game as `list_board` plays them.
///
/// # Errors
/// Those of `list_board`.
pub fn list_moves<G: Game>(
    alloc: Global,
    game: &G,
    start: &Position,
    list: &[u8],
    question: ListQuestion,
) -> Result<Vec<Move>, PlayFault>
    requires fits { IsPositionOf (G.game game.now) start.now }
    requires short { length list.now ≤ LONGEST_MOVES }
    ensures there { IfOk result (λ _. HasEntries question.wants (move_tokens list.now)) }
    ensures come { IfOk result (λ moves. ComeTo question.has_sequences (G.game game.now) start.now
        (wanted_tokens question.wants (move_tokens list.now)) moves.items) }
    ensures texts { IfOk result (λ moves. All HasText moves.items) }
    ensures few { IfOk result (λ moves. length moves.items ≤ 4294967295) }
    ensures fault { IfErr result (IsListUnanswered question (G.game game.now) start.now (move_tokens list.now)) }
{
    let most = most_entries(question.wants, list)?;
    if question.has_sequences {
        Ok(expand_entries(alloc, game, start, list, most)?.moves)
    } else {
        make_moves(alloc, game, start, list, most)
    }
}

// The most entries of a text that are to be played.
fn most_entries(wants: ListWants, text: &[u8]) -> Result<usize, PlayFault>
    requires short { length text.now ≤ LONGEST_MOVES }
    ensures taken { IfOk result (λ most. take most (move_tokens text.now) ≡ wanted_tokens wants (move_tokens text.now)) }
    ensures there { IfOk result (λ _. HasEntries wants (move_tokens text.now)) }
    ensures fault { IfErr result (λ fault. (fault ≡ PlayFault.ListEnds (length (move_tokens text.now)))
        × ((n : ℕ) × (wants ≡ ListWants.BoardAfter n) × (length (move_tokens text.now) < n))) }
{
    match wants {
        ListWants::Line => Ok(LONGEST_MOVES),
        ListWants::BoardAfter(entries) => {
            let count = count_entries(text);
            if count < entries {
                return Err(PlayFault::ListEnds(count));
            }
            Ok(entries as usize)
        }
    }
}

// How many entries a text has.
fn count_entries(text: &[u8]) -> u32
    requires short { length text.now ≤ LONGEST_MOVES }
    ensures value { result ≡ length (move_tokens text.now) }
{
    let mut count = 0;
    for _token in Tokens::new(text, MoveGaps) {
        count += 1;
    }
    count
}

// The moves of the first entries of a text, at most so many, each of which moves one card.
fn make_moves<G: Game>(
    alloc: Global,
    game: &G,
    position: &Position,
    text: &[u8],
    most: usize,
) -> Result<Vec<Move>, PlayFault>
    requires fits { IsPositionOf (G.game game.now) position.now }
    requires short { length text.now ≤ LONGEST_MOVES }
    ensures made { IfOk result (λ moves. AreMoves (G.game game.now) position.now (take most (move_tokens text.now)) moves.items) }
    ensures texts { IfOk result (λ moves. All HasText moves.items) }
    ensures few { IfOk result (λ moves. length moves.items ≤ 4294967295) }
    ensures fault { IfErr result (IsListStop (G.game game.now) position.now (take most (move_tokens text.now))) }
{
    let mut board = position.copy();
    let mut moves = Vec::new(alloc);
    for token in Tokens::new(text, MoveGaps) {
        if moves.len() >= most {
            return Ok(moves);
        }
        let Some(m) = read_token(token) else {
            return Err(no_entry(moves.len()));
        };
        if !allows(game, &board, m) {
            return Err(refused_move(moves.len()));
        }
        apply(game, &mut board, m);
        let Ok(()) = moves.push(m) else {
            return Err(PlayFault::Memory);
        };
    }
    Ok(moves)
}

// The fault of a move that isn't allowed, behind so many that are.
fn refused_move(before: usize) -> PlayFault
    requires few { before ≤ LONGEST_MOVES }
    ensures value { result ≡ PlayFault.NotAllowed (before + 1) }
{
    PlayFault::NotAllowed(before as u32 + 1)
}

/// The board to which moves lead that run from a position.
pub fn last_board<G: Game>(game: &G, start: &Position, moves: &[Move]) -> Position
    requires fits { IsPositionOf (G.game game.now) start.now }
    requires run { (c : Board) × Run (G.game game.now) start.now moves.now c }
    ensures run { Run (G.game game.now) start.now moves.now result }
    ensures fits { IsPositionOf (G.game game.now) result }
{
    let mut board = start.copy();
    for m in moves {
        apply(game, &mut board, *m);
    }
    board
}

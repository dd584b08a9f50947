//! Lists of moves in memory.
ghost use Rattle.std.specs.Prelude.{◌≡◌, ◌+◌, ◌≤◌, IfOk, IfErr, length, position};
ghost use Rattle.fc_text.specs.Line.{is_line_end};
ghost use Rattle.fc_replay.specs.Played.{SpellMoves};
ghost use Rattle.fc_replay.specs.Token.{move_tokens};
ghost use Rattle.fc_library.specs.Lists.{IsMisspelled, below_first_line, moves_in};

use crate::call_refusals::CallRefusal;
use fc_lists::LONGEST_MOVES;
use fc_moves::Move;
use fc_replay::{MoveGaps, ReplayFault, read_token};
use fc_text::Tokens;
use std::alloc::Global;

/// The moves of a text, which may be the answer that `best` or `solve` tells of a board that is won: then they stand below its first
/// line.
pub fn moves_in(text: &[u8]) -> &[u8]
    ensures value { result.now ≡ moves_in text.now }
{
    if text.starts_with(b"shortest ") || text.starts_with(b"won ") {
        below_first_line(text)
    } else {
        text
    }
}

// What stands below the first line, nothing where there is no other.
fn below_first_line(text: &[u8]) -> &[u8]
    ensures value { result.now ≡ below_first_line text.now }
{
    match line_len(text) {
        Some(len) => &text[len + 1..],
        None => &[],
    }
}

// How many bytes stand before the first LF, if there is one.
fn line_len(text: &[u8]) -> Option<usize>
    ensures { result ≡ position is_line_end text.now }
{
    text.iter().position(|byte| *byte == b'\n')
}

// The moves that the tokens of a text spell.
pub(crate) fn moves_of(alloc: Global, list: &[u8]) -> Result<Vec<Move>, CallRefusal>
    requires short { length list.now ≤ LONGEST_MOVES }
    ensures spelled { IfOk result (λ moves. SpellMoves (move_tokens list.now) moves.items) }
    ensures few { IfOk result (λ moves. length moves.items ≤ LONGEST_MOVES) }
    ensures refused { IfErr result (IsMisspelled (move_tokens list.now)) }
{
    let mut moves = Vec::new(alloc);
    for token in Tokens::new(list, MoveGaps) {
        let Some(m) = read_token(token) else {
            return Err(no_move(moves.len()));
        };
        let Ok(()) = moves.push(m) else {
            return Err(CallRefusal::Memory);
        };
    }
    Ok(moves)
}

// The refusal of a token that is no move, behind so many that are.
fn no_move(before: usize) -> CallRefusal
    requires few { before ≤ LONGEST_MOVES }
    ensures value { result ≡ CallRefusal.Moves (ReplayFault.BadMove (before + 1)) }
{
    CallRefusal::Moves(ReplayFault::BadMove(before as u32 + 1))
}

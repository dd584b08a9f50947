//! How the boards of a list of moves are answered, a line each.
ghost use Rattle.fc_moves.specs.MoveText.{HasText};

use fc_answers::Verdict;
use fc_moves::{Move, move_text};
use fc_position::Position;
use fc_replay::ToldMove;
use std::alloc::{AllocError, Global};

/// What is said of so many moves.
pub fn moves_win(count: usize) -> &'static str {
    if count == 1 { "move wins" } else { "moves win" }
}

/// A move from this board by its letters, and in words.
pub fn told_move(alloc: Global, board: &Position, m: Move) -> Result<Vec<u8>, AllocError>
    requires text { HasText m }
{
    let mut text = Vec::from_slice(alloc, &move_text(m))?;
    text.extend_from_slice(b" (")?;
    text.extend_from_slice(&ToldMove::of(1, board, m).phrase(false))?;
    text.push(b')')?;
    Ok(text)
}

/// The line of the board after so many moves: their number, the last of them, and the answer.
pub fn line_of(
    alloc: Global,
    after: usize,
    last: &[u8],
    verdict: &Verdict,
) -> Result<Vec<u8>, AllocError> {
    let answer = match verdict {
        Verdict::Shortest(moves) => {
            let count = moves.len();
            format!(in alloc; "shortest {count}")?
        }
        Verdict::Won { moves, floor } => {
            let count = moves.len();
            format!(in alloc; "won {count}, at least {floor}")?
        }
        Verdict::CannotWin => String::from_str(alloc, "can't be won")?,
        Verdict::GaveUp(budget) => format!(in alloc; "gave up {budget}")?,
    };
    let number = format!(in alloc; "{after}\t")?;
    let mut line = Vec::from_slice(alloc, number.as_bytes())?;
    line.extend_from_slice(last)?;
    line.push(b'\t')?;
    line.extend_from_slice(answer.as_bytes())?;
    line.push(b'\n')?;
    Ok(line)
}

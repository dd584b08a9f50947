//! Moves in letters, as they are printed: two each, with a blank between two moves.

ghost use Rattle.std.specs.Prelude.{◌≡◌, ◌++◌, IfOk, OnOk, All};
ghost use Rattle.fc_moves.specs.MoveText.{HasText};
ghost use Rattle.fc_lists.specs.ListText.{list_text, moves_line};

use fc_moves::{Move, move_text};
use std::alloc::{AllocError, Global};

/// The line of moves: the text of each, with a blank between two.
///
/// # Errors
/// A growth of memory was refused.
pub fn moves_text(alloc: Global, moves: &[Move]) -> Result<Vec<u8>, AllocError>
    requires texts { All HasText moves.now }
    ensures text { IfOk result (λ t. t.items ≡ moves_line moves.now) }
{
    let mut line = Vec::new(alloc);
    push_moves_line(&mut line, moves)?;
    Ok(line)
}

/// Appends the line of the moves to a text.
///
/// # Errors
/// A growth of memory was refused: the text may have a front of the line.
pub fn push_moves_line(text: &mut Vec<u8>, moves: &[Move]) -> Result<(), AllocError>
    requires texts { All HasText moves.now }
    ensures text { OnOk result (text.new.items ≡ text.old.items ++ moves_line moves.now) }
{
    push_moves(text, moves)?;
    text.extend_from_slice(b"\n")?;
    Ok(())
}

/// Appends the texts of moves to a text, with a blank between two.
///
/// # Errors
/// A growth of memory was refused: the text may have those of the first moves.
pub fn push_moves(text: &mut Vec<u8>, moves: &[Move]) -> Result<(), AllocError>
    requires texts { All HasText moves.now }
    ensures text { OnOk result (text.new.items ≡ text.old.items ++ list_text moves.now) }
{
    let Some((first, rest)) = moves.split_first() else {
        return Ok(());
    };
    text.extend_from_slice(&move_text(*first))?;
    for m in rest {
        text.extend_from_slice(b" ")?;
        text.extend_from_slice(&move_text(*m))?;
    }
    Ok(())
}

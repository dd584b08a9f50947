//! Lists of moves that can be printed.

ghost use Rattle.std.specs.Prelude.{◌≡◌, All, IfOk};
ghost use Rattle.fc_moves.specs.MoveText.{HasText};
ghost use Rattle.fc_answers.specs.Verdict.{CanBeWritten};
ghost use Rattle.fc_lists.specs.ListText.{moves_line};
ghost use Rattle.fc_runs.specs.Lists.{list_of};

use fc_answers::{MoveList, Verdict};
use fc_lists::moves_text;
use fc_moves::Move;
use std::alloc::{AllocError, Global};
use std::marker::Model;

/// A list of moves, each of which has a text.
#[derive(Drop)]
pub struct PrintableList {
    moves: MoveList,
}

impl Model for PrintableList {
    ghost use Rattle.std.specs.Prelude.{All, List};
    ghost use Rattle.fc_moves.specs.MoveText.{HasText};
    ghost use Rattle.fc_moves.specs.declared.steps.Move.{Move};

    ghost Value = { List Move };

    ghost view = { λ s. s.moves };

    ghost invariant = { λ s. All HasText s.moves };
}

impl PrintableList {
    /// The moves.
    pub fn as_slice(&self) -> &[Move]
        ensures value { result.now ≡ self.now }
        ensures texts { All HasText result.now }
    {
        self.moves.as_slice()
    }

    /// The line of the moves: the text of each, with a blank between two, and an end of line.
    ///
    /// # Errors
    /// A growth of memory was refused.
    pub fn text(&self, alloc: Global) -> Result<Vec<u8>, AllocError>
        ensures text { IfOk result (λ t. t.items ≡ moves_line self.now) }
    {
        moves_text(alloc, self.moves.as_slice())
    }
}

// The list that a verdict tells, if it tells one.
pub(crate) fn list_of(verdict: Verdict) -> Option<PrintableList>
    requires written { CanBeWritten verdict }
    ensures value { result ≡ list_of verdict }
{
    match verdict {
        Verdict::Shortest(moves) => Some(PrintableList { moves }),
        Verdict::Won { moves, .. } => Some(PrintableList { moves }),
        Verdict::CannotWin | Verdict::GaveUp(_) => None,
    }
}

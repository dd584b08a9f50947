ghost use Rattle.std.specs.Prelude.{◌≤◌, IfOk, IfErr};
ghost use Rattle.fc_position.specs.Position.{Fits};
ghost use Rattle.fc_library.specs.Boards.{SpellsOnceTidy, IsTextFault};

use fc_position::Position;
use fc_text::{BoardFault, read_board};
use fc_typed::{MOST_BYTES, TidyText};

/// The position that a text spells, as people write one, for a game with so many cells: the text is made tidy first.
///
/// # Errors
/// A text of more than 16,384 bytes, or of more than 4,096 once it is tidy; else its first fault, of the tidy text's lines.
pub fn start_of(text: &[u8], cells: u8) -> Result<Position, BoardFault>
    requires game { cells ≤ 4 }
    ensures read { IfOk result (SpellsOnceTidy cells text.now) }
    ensures fits { IfOk result (Fits cells) }
    ensures fault { IfErr result (IsTextFault cells text.now) }
{
    if text.len() > MOST_BYTES {
        return Err(BoardFault::TooLong);
    }
    let tidy = TidyText::of(text).unwrap();
    read_board(tidy.bytes(), cells)
}

//! Files of several boards, or of several lists of moves.

use crate::input::board_sources::open;
use crate::output::endings::{Ending, tell, tell_of_reading};
use fc_io::{FromReader, ReadFault, read_to_vec};
use fc_notes::{ListedBoard, ListedBoards};
use fc_runs::{Input, ProgramFault};

// The most bytes that such a file may have.
const LONGEST_LIST: usize = 1 << 26;

/// The text of a file of boards or of lists, or of standard input where it is called `-`.
pub fn read_list(rt: &HostRuntime, path: &str, input: Input) -> Result<Vec<u8>, Ending> {
    let read = if path == "-" {
        read_to_vec(rt.alloc(), &mut FromReader::new(rt.stdin()), LONGEST_LIST)
    } else {
        read_to_vec(rt.alloc(), &mut open(rt, path, input)?, LONGEST_LIST)
    };
    match read {
        Ok(text) => Ok(text),
        Err(ReadFault::Failed) => Err(tell_of_reading(rt, input, path)),
        Err(ReadFault::TooLong) => {
            let status = tell(rt, &ProgramFault::TooLong(input));
            Err(Ending::Told(status))
        }
        Err(ReadFault::Memory) => Err(Ending::Fault(ProgramFault::Memory)),
    }
}

/// The text of the board in a list that stands behind so many others, and how many lines stand above it; what has nothing but blanks
/// is no board.
pub fn board_behind(list: &[u8], before: u64) -> Option<(&[u8], u32)> {
    let mut left = before;
    for board in ListedBoards::of(list) {
        if left == 0 {
            return Some((board.text, lines_above(&board)));
        }
        left -= 1;
    }
    None
}

/// How many lines of its file stand above a board.
pub fn lines_above(board: &ListedBoard<'_>) -> u32 {
    u32::try_from(board.above).unwrap_or(u32::MAX)
}

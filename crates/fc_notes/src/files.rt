//! Files of several boards: lines of dashes part them.
ghost use Rattle.std.specs.Prelude.{◌≡◌, ℕ, ◌+◌, ◌<◌, ◌≤◌};
ghost use Rattle.std.specs.Iterator.{YieldsFirstBy, item_count};
ghost use Rattle.fc_notes.specs.File.{listed_boards};
ghost use Rattle.fc_notes.specs.Listed.{IsCountable, boards_left, listed_of};

use crate::file_lines::{is_blank, split_part};

/// One of a file's boards.
#[derive(Clone, Copy, Debug)]
pub struct ListedBoard<'a> {
    /// Its text, with the ends of its lines.
    pub text: &'a [u8],
    /// How many lines of the file stand above it.
    pub above: usize,
}

/// The boards of a file, in their order: what stands between lines of dashes, where it has more than blanks.
#[derive(Debug, Drop)]
pub struct ListedBoards<'a> {
    // What is left, and how many lines stand above it.
    rest: &'a [u8],
    above: usize,
}

impl<'a> ListedBoards<'a> {
    /// The boards of a file with this text. A line of three dashes or more, with blanks about them, parts them.
    pub fn of(text: &'a [u8]) -> ListedBoards<'a>
        ensures boards { boards_left result ≡ listed_boards text.now }
        ensures countable { IsCountable result }
    {
        ListedBoards {
            rest: text,
            above: 0,
        }
    }
}

impl<'a> Iterator for ListedBoards<'a> {
    type Item = ListedBoard<'a>;

    ghost can_next = { IsCountable };

    ghost next_gives = { YieldsFirstBy listed_of boards_left };

    ghost remaining = { item_count boards_left };

    fn next(&mut self) -> Option<ListedBoard<'a>> {
        while !self.rest.is_empty() {
            let above = self.above;
            let (text, lines, rest) = split_part(self.rest);
            self.rest = rest;
            self.above += lines;
            if !is_blank(text) {
                return Some(ListedBoard { text, above });
            }
        }
        None
    }
}

//! `review --lists`: many lists of moves are reviewed, each with its board on a line of a file.

use crate::input::board_lists::read_list;
use crate::input::board_sources::{find_board, read_start};
use crate::input::written_lists::list_of;
use crate::output::answer_forms::UNWRITTEN;
use crate::output::answer_objects::Name;
use crate::output::endings::{Ending, REFUSED, tell};
use crate::output::outputs::Out;
use crate::output::review_objects::{REVIEW_HEAD, review_line, review_row};
use crate::task::review_task::found_of;
use fc_io::write_all;
use fc_json::ToldList;
use fc_methods::Question;
use fc_moves::Game;
use fc_runs::{Input, ProgramFault};
use fc_words::{BoardWord, BoardWords, ReviewWords};

/// A row or an object for each list of the files; the greatest of the lists' statuses.
pub fn review_files<G: Game + Drop>(
    rt: &HostRuntime,
    words: &ReviewWords<'_>,
    question: &Question<G>,
    paths: &[&str],
) -> Result<u8, Ending> {
    let mut desk = ListDesk {
        rt,
        words,
        question,
        out: Out::new(rt),
        is_begun: false,
        status: 0,
    };
    for path in paths {
        desk.review_file(*path)?;
    }
    desk.begin()?;
    Ok(desk.status)
}

// Where lists are reviewed and their rows are written.
#[derive(Drop)]
struct ListDesk<'a, G: Game + Drop> {
    rt: &'a HostRuntime,
    words: &'a ReviewWords<'a>,
    question: &'a Question<G>,
    out: Out<'a>,
    // Whether a row is written, or the names of the columns.
    is_begun: bool,
    status: u8,
}

// A line of a file: what names a board, and the moves.
#[derive(Clone, Copy)]
struct ListLine<'a> {
    board: &'a str,
    moves: &'a [u8],
}

impl<'a, G: Game + Drop> ListDesk<'a, G> {
    // Reviews the lists of a file. One that can't be read is told, and the next one goes on.
    fn review_file(&mut self, path: &str) -> Result<(), Ending> {
        match read_list(self.rt, path, Input::Moves) {
            Ok(text) => self.review_lines(path, text.as_slice()),
            Err(Ending::Told(status)) => {
                self.status = self.status.max(status);
                Ok(())
            }
            Err(ending) => Err(ending),
        }
    }

    // Reviews the lists of a file's text.
    fn review_lines(&mut self, path: &str, text: &[u8]) -> Result<(), Ending> {
        for (number, line) in text.split(|byte| *byte == b'\n').enumerate() {
            let line = line.trim_ascii();
            if line.is_empty() || line.starts_with(b"#") {
                continue;
            }
            let list = line_read(line);
            match self.review_list(list) {
                Ok((row, status)) => {
                    self.write_row(row.as_str())?;
                    self.status = self.status.max(status);
                }
                Err(ending) => self.tell_no_list(path, number.saturating_add(1), list, ending)?,
            }
        }
        Ok(())
    }

    // The row of a list, and its status.
    fn review_list(&self, list: ListLine<'_>) -> Result<(String, u8), Ending> {
        let rt = self.rt;
        let board = BoardWords {
            word: BoardWord::Named(list.board),
            text: self.words.text,
        };
        let source = find_board(rt, &board)?;
        let deal = source.deal();
        let game = self.question.game();
        let start = read_start(rt, source, game.cells())?;
        let written = list_of(rt, game, &start, list.moves, self.words.has_sequences)?;
        let found = found_of(rt, self.question, &start, &written, None)?;
        let row = self.row_of(&found.reviewed(Name::of(&board.word, deal)))?;
        Ok((row, found.status))
    }

    // Says of a line that it has no list that can be reviewed, or that memory was wanted, and writes that.
    fn tell_no_list(
        &mut self,
        path: &str,
        number: usize,
        list: ListLine<'_>,
        ending: Ending,
    ) -> Result<(), Ending> {
        let (review, status) = match ending {
            Ending::Told(status) => (NO_LIST, status),
            Ending::Fault(ProgramFault::Memory) => (NO_MEMORY, ProgramFault::Memory.status()),
            Ending::Fault(fault) if fault.status() == REFUSED => (NO_LIST, tell(self.rt, &fault)),
            Ending::Fault(_) => return Err(ending),
        };
        let _told = eprintln!(self.rt; "fc_solve: {path}:{number}: {review}");
        self.status = self.status.max(status);
        let mut told = ToldList::new(review);
        told.board = Some(list.board);
        let row = self.row_of(&told)?;
        self.write_row(row.as_str())
    }

    // The row or the object of a list.
    fn row_of(&self, told: &ToldList<'_>) -> Result<String, Ending> {
        let alloc = self.rt.alloc();
        if self.words.is_json {
            return review_line(alloc, told);
        }
        Ok(review_row(alloc, told)?)
    }

    // Writes a row, the first one behind the names of the columns.
    fn write_row(&mut self, row: &str) -> Result<(), Ending> {
        self.begin()?;
        self.write(row)
    }

    // Writes the names of the columns, if there are any and they don't stand yet.
    fn begin(&mut self) -> Result<(), Ending> {
        if self.is_begun || self.words.is_json {
            return Ok(());
        }
        self.is_begun = true;
        self.write(REVIEW_HEAD)
    }

    // Writes to standard output.
    fn write(&mut self, text: &str) -> Result<(), Ending> {
        match write_all(&mut self.out, text.as_bytes()) {
            Ok(()) => Ok(()),
            Err(_) => Err(self.out.ending_of(UNWRITTEN)),
        }
    }
}

const NO_LIST: &str = "no list";

const NO_MEMORY: &str = "want of memory";

// What a line tells: the word up to the first blank names a board, perhaps with a colon behind it.
fn line_read(line: &[u8]) -> ListLine<'_> {
    let end = line
        .iter()
        .position(|byte| byte.is_ascii_whitespace())
        .unwrap_or(line.len());
    let (word, moves) = line.split_at(end);
    let word = word.strip_suffix(b":").unwrap_or(word);
    ListLine {
        board: std::str::from_utf8(word).unwrap_or("?"),
        moves,
    }
}

//! `batch` where each board has a row or an object: they are answered one after the other, and nothing of one is kept.
ghost use Rattle.fc_moves.specs.GameRules.{IsPositionOf};

use crate::input::apart::keep_apart;
use crate::input::board_lists::{lines_above, read_list};
use crate::input::board_sources::{deal_for, read_board_below};
use crate::output::answer_objects::{Name, fault_line, row_line};
use crate::output::cert_names::cert_name;
use crate::output::certs::{CertFile, CertName, UNWRITTEN};
use crate::output::endings::{Ending, REFUSED, tell_of_file, tell_of_long_certificate};
use crate::output::hand_counts::by_hand_of;
use crate::output::listing_tallies::{ANSWERS, NO_BOARD, RowTally};
use crate::output::outputs::Out;
use crate::output::watching::Line;
use fc_io::write_all;
use fc_methods::Question;
use fc_moves::Game;
use fc_notes::ListedBoards;
use fc_position::Position;
use fc_runs::{
    Input, Output, ProgramFault, Row, RowListener, answer_row, run_table, table_deals, table_head,
};
use fc_words::{BatchBoards, BatchForm, BatchWords};
use std::alloc::{AllocError, Global};
use std::fs;
use std::io::IsTerminal;

/// A table of numbered deals alone, as a run of its own writes it.
pub fn write_deals<G: Game + Drop>(
    rt: &HostRuntime,
    question: &Question<G>,
    from: u32,
    to: u32,
) -> Result<u8, Ending> {
    let line = Line::new(rt, None);
    let total = table_deals(from, to)?;
    let mut tally = RowTally::new(&line, rt.stderr().is_terminal(), Some(total));
    let mut out = Out::after(rt, &line);
    let ran = run_table(rt.alloc(), question, from, to, &mut out, &mut tally);
    line.clear();
    out.end_of(ran)
}

/// A row or an object for each board that the words name, and what else they ask for.
pub fn write_rows<G: Game + Drop>(
    rt: &HostRuntime,
    words: &BatchWords<'_>,
    question: &Question<G>,
) -> Result<u8, Ending> {
    let line = Line::new(rt, None);
    if let Some(folder) = words.certs {
        make_folder(rt, folder)?;
    }
    let mut desk = Desk::new(rt, words, question, &line)?;
    desk.write_head()?;
    let done = match &words.boards {
        BatchBoards::Deals { from, to } => desk.answer_deals(*from, *to),
        BatchBoards::Files(paths) => desk.answer_files(paths.as_slice()),
    };
    line.clear();
    done?;
    desk.write_totals()?;
    Ok(desk.status)
}

// The folder of certificates, made where it isn't there.
fn make_folder(rt: &HostRuntime, folder: &str) -> Result<(), Ending> {
    match fs::create_dir_all(rt, folder) {
        Ok(()) => Ok(()),
        Err(error) => Err(tell_of_file(rt, ProgramFault::Write(Output::Cert), folder, error)),
    }
}

// What all rows add up to.
#[derive(Clone, Copy)]
struct Sums {
    moves: u64,
    floors: u64,
    classes: u64,
    turns: u64,
    most_open: u128,
}

impl Sums {
    // With one row more.
    fn and(self, row: &Row) -> Sums {
        let (classes, turns, most_open) = match row.far {
            Some(far) => (far.classes, far.turns, far.most_open),
            None => (0, 0, 0),
        };
        Sums {
            moves: self
                .moves
                .saturating_add(u64::from(row.moves().unwrap_or(0))),
            floors: self
                .floors
                .saturating_add(u64::from(row.floor().unwrap_or(0))),
            classes: self.classes.saturating_add(classes),
            turns: self.turns.saturating_add(turns),
            most_open: self.most_open.max(most_open),
        }
    }
}

// Where boards are answered and their rows are written.
#[derive(Drop)]
struct Desk<'a, G: Game + Drop> {
    rt: &'a HostRuntime,
    words: &'a BatchWords<'a>,
    question: &'a Question<G>,
    out: Out<'a>,
    tally: RowTally<'a>,
    sums: Sums,
    status: u8,
}

impl<'a, G: Game + Drop> Desk<'a, G> {
    // One with nothing done.
    fn new(
        rt: &'a HostRuntime,
        words: &'a BatchWords<'a>,
        question: &'a Question<G>,
        line: &'a Line<'a>,
    ) -> Result<Self, Ending> {
        let total = match &words.boards {
            BatchBoards::Deals { from, to } => Some(table_deals(*from, *to)?),
            BatchBoards::Files(_) => None,
        };
        Ok(Desk {
            rt,
            words,
            question,
            out: Out::after(rt, line),
            tally: RowTally::new(line, rt.stderr().is_terminal(), total),
            sums: Sums {
                moves: 0,
                floors: 0,
                classes: 0,
                turns: 0,
                most_open: 0,
            },
            status: 0,
        })
    }

    // Writes the names of the columns, where there are any.
    fn write_head(&mut self) -> Result<(), Ending> {
        match (self.words.form, &self.words.boards) {
            (BatchForm::Json, _) => Ok(()),
            (_, BatchBoards::Deals { .. }) => self.write(table_head().as_bytes()),
            (_, BatchBoards::Files(_)) => {
                self.write(b"board")?;
                self.write(table_head().trim_start_matches("deal").as_bytes())
            }
        }
    }

    // Answers the deals from the one number to the other.
    fn answer_deals(&mut self, from: u32, to: u32) -> Result<(), Ending> {
        for number in from..=to {
            let Some(start) = deal_for(number, self.question.game().cells()) else {
                return Err(Ending::Fault(ProgramFault::Number(number)));
            };
            self.answer(Name::Deal(number), &start)?;
        }
        Ok(())
    }

    // Answers the boards of the files.
    fn answer_files(&mut self, paths: &[&str]) -> Result<(), Ending> {
        for path in paths {
            self.answer_file(*path)?;
        }
        Ok(())
    }

    // Answers the boards of a file. One that can't be read, or has no board, is told as what is no board.
    fn answer_file(&mut self, path: &str) -> Result<(), Ending> {
        match read_list(self.rt, path, Input::Board) {
            Ok(mut text) => {
                // (the last line is told as one that ends, as the others are)
                text.extend_from_slice(b"\n")?;
                match self.answer_list(path, text.as_slice())? {
                    0 => self.tell_no_board(path, REFUSED),
                    _ => Ok(()),
                }
            }
            Err(Ending::Told(status)) => self.tell_no_board(path, status),
            Err(ending) => Err(ending),
        }
    }

    // Answers the boards of a file's text, which lines of dashes part; how many there are.
    fn answer_list(&mut self, path: &str, text: &[u8]) -> Result<u64, Ending> {
        let mut place = 0u64;
        for board in ListedBoards::of(text) {
            place = place.saturating_add(1);
            self.answer_text(path, place, lines_above(&board), board.text)?;
        }
        Ok(place)
    }

    // Answers the board of a text, which has this place in its file, below so many lines.
    fn answer_text(
        &mut self,
        path: &str,
        place: u64,
        above: u32,
        text: &[u8],
    ) -> Result<(), Ending> {
        let name = format!(in self.rt.alloc(); "{path}:{place}")?;
        let cells = self.question.game().cells();
        match read_board_below(self.rt, text, above, self.words.text, cells) {
            Ok(start) => self.answer(Name::Board(name.as_str()), &start),
            Err(Ending::Told(status)) => self.tell_no_board(name.as_str(), status),
            Err(ending) => Err(ending),
        }
    }

    // Answers a board.
    fn answer(&mut self, name: Name<'_>, start: &Position) -> Result<(), Ending>
        requires position { IsPositionOf self.old.question.now.game start.now }
    {
        let (alloc, question) = (self.rt.alloc(), self.question);
        let row = match self.words.certs {
            Some(folder) => self.certified_row(folder, name, start)?,
            None => answer_row::<G, CertFile>(alloc, question, start, None)?,
        };
        let by_hand = match (self.words.form, &row.list) {
            (BatchForm::Json, Some(list)) => {
                let (game, rule) = (question.game(), question.method().rule);
                Some(by_hand_of(alloc, game, start, list.as_slice(), rule)?)
            }
            _ => None,
        };
        self.tell_row(name, &row, by_hand)
    }

    // The row of a board, whose certificate gets its name once it is whole.
    fn certified_row(
        &mut self,
        folder: &str,
        name: Name<'_>,
        start: &Position,
    ) -> Result<Row, Ending>
        requires position { IsPositionOf self.old.question.now.game start.now }
    {
        let alloc = self.rt.alloc();
        let name = cert_name(alloc, name)?;
        let path = format!(in alloc; "{folder}/{name}.cert")?;
        keep_apart(self.rt, path.as_str(), &[])?;
        let (name, mut cert) = CertName::beside(self.rt, path.as_str())?;
        let row = answer_row(alloc, self.question, start, Some(&mut cert));
        let is_answered = row.as_ref().is_ok_and(|row| row.status() <= 1);
        if is_answered && !cert.has_bytes() {
            let status = tell_of_long_certificate(self.rt, path.as_str());
            self.status = self.status.max(status);
        }
        let is_named = !is_answered || name.take(self.rt);
        name.end(self.rt, Ok(0))?;
        if is_named {
            Ok(row?)
        } else {
            Err(Ending::Fault(UNWRITTEN))
        }
    }

    // Writes what is told of a board, and counts it.
    fn tell_row(&mut self, name: Name<'_>, row: &Row, by_hand: Option<u64>) -> Result<(), Ending> {
        let text = match self.words.form {
            BatchForm::Json => row_line(self.rt.alloc(), name, row, by_hand)?,
            _ => {
                let cells = row.cells();
                let cells = cells.as_str();
                row_of(self.rt.alloc(), name, cells)?
            }
        };
        self.write(text.as_bytes())?;
        self.sums = self.sums.and(row);
        self.status = self.status.max(row.status());
        self.tally.hear_row(row);
        Ok(())
    }

    // Says and writes that what has this name is no board, and counts it.
    fn tell_no_board(&mut self, name: &str, status: u8) -> Result<(), Ending> {
        let _told = eprintln!(self.rt; "fc_solve: {name}: no board");
        let name = Name::Board(name);
        let text = match self.words.form {
            BatchForm::Json => fault_line(self.rt.alloc(), name, NO_BOARD, None)?,
            _ => row_of(self.rt.alloc(), name, "\tno board\t\t\t\t\t\t\n")?,
        };
        self.write(text.as_bytes())?;
        self.status = self.status.max(status);
        self.tally.note_no_board();
        Ok(())
    }

    // Where they are asked for, writes how many boards were answered how, and what the rows add up to: of the most that was
    // open the greatest.
    fn write_totals(&mut self) -> Result<(), Ending> {
        if !self.words.has_totals {
            return Ok(());
        }
        let mut text = String::from_str(self.rt.alloc(), TOTAL)?;
        for (count, name) in self.tally.answers().iter().zip(ANSWERS.iter()) {
            if *count > 0 {
                let is_first = text.len() == TOTAL.len();
                let counted = format!(in self.rt.alloc(); "{count} ")?;
                text.push_str(if is_first { "\t" } else { ", " })?;
                text.push_str(counted.as_str())?;
                text.push_str(name)?;
            }
        }
        let Sums {
            moves,
            floors,
            classes,
            turns,
            most_open,
        } = self.sums;
        let sums = format!(in self.rt.alloc();
            "\t{moves}\t{floors}\t\t{classes}\t{turns}\t{most_open}\n"
        )?;
        text.push_str(sums.as_str())?;
        self.write(text.as_bytes())
    }

    // Writes to standard output.
    fn write(&mut self, text: &[u8]) -> Result<(), Ending> {
        match write_all(&mut self.out, text) {
            Ok(()) => Ok(()),
            Err(_) => Err(self.out.ending_of(ProgramFault::Write(Output::Answer))),
        }
    }
}

// What the row is called that adds up.
const TOTAL: &str = "total";

// A row of a table: a name, and the cells behind it.
fn row_of(alloc: Global, name: Name<'_>, cells: &str) -> Result<String, AllocError> {
    let mut row = name.cell(alloc)?;
    row.push_str(cells)?;
    Ok(row)
}

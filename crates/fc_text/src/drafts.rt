ghost use Rattle.std.specs.Prelude.{◌≡◌, ◌≤◌, ℕ, List, ◌++◌, ◌∷◌, [], IfOk, IfErr, OnOk, count_by};
ghost use Rattle.fc_position.specs.Board.{Board, places};
ghost use Rattle.fc_position.specs.Position.{IsPosition};
ghost use Rattle.fc_position.specs.Tally.{IsFaultOf};
ghost use Rattle.fc_text.specs.Line.{Line, line_of, tokens_of};
ghost use Rattle.fc_text.specs.Fault.{IsLineFault, IsSound};
ghost use Rattle.fc_text.specs.inner.Reading.{IsTally};
ghost use Rattle.fc_text.specs.Spelling.{is_kind, SpellsBoard};

use crate::faults::LineFault;
use crate::lines::{LineKind, sorted_line};
use crate::readers::{read_cells, read_column, read_homes};
use arrayvec::ArrayVec;
use fc_cards::Card;
use fc_position::{PartsFault, Position, Tally};

/// A board that is read line by line. Of a column the first 52 cards are kept; the tally counts all of them.
#[derive(Drop)]
pub(crate) struct Draft {
    pub columns: [ArrayVec<Card, 52>; 8],
    pub column_count: usize,
    pub cells: [Option<Card>; 4],
    pub has_cells: bool,
    pub homes: [u8; 4],
    pub has_homes: bool,
    pub tally: Tally,
}

impl Draft {
    ghost use Rattle.fc_text.specs.inner.Draft.{IsDraftOf, cells_line, column_line, homes_line};

    // An empty board.
    pub fn new() -> Draft
        ensures none { IsDraftOf [] result }
        ensures tally { IsTally result.tally }
    {
        Draft {
            columns: Default::default(),
            column_count: 0,
            cells: [None; 4],
            has_cells: false,
            homes: [0; 4],
            has_homes: false,
            tally: Tally::new(),
        }
    }

    // Reads a column line.
    fn add_column(&mut self, piece: &[u8]) -> Result<(), LineFault>
        requires tally { IsTally self.old.tally }
        ensures read { (lines : List Line) → IsDraftOf lines self.old
            → OnOk result (IsDraftOf (lines ++ column_line piece.now ∷ []) self.new) }
        ensures sound { (n : ℕ) (lines : List Line) → IsDraftOf lines self.old
            → OnOk result (IsSound n (count_by (is_kind LineKind.Column) lines) (column_line piece.now)) }
        ensures fault { (n : ℕ) (lines : List Line) → IsDraftOf lines self.old
            → IfErr result (IsLineFault n (count_by (is_kind LineKind.Column) lines) (column_line piece.now)) }
        ensures tally { OnOk result (IsTally self.new.tally) }
    {
        let column = read_column(piece, &mut self.tally)?;
        if self.column_count < 8 {
            let columns = &mut self.columns[..];
            columns[self.column_count] = column;
            self.column_count += 1;
        } else if !column.is_empty() {
            return Err(LineFault::TooManyColumns);
        }
        Ok(())
    }

    // Reads a cell line of a game with so many cells.
    fn add_cells(&mut self, most: u8, piece: &[u8]) -> Result<(), LineFault>
        requires tally { IsTally self.old.tally }
        requires game { most ≤ 4 }
        ensures read { (lines : List Line) → IsDraftOf lines self.old
            → OnOk result (IsDraftOf (lines ++ cells_line piece.now ∷ []) self.new) }
        ensures sound { (lines : List Line) → IsDraftOf lines self.old
            → OnOk result (IsSound most (count_by (is_kind LineKind.Freecells) lines) (cells_line piece.now)) }
        ensures fault { (lines : List Line) → IsDraftOf lines self.old
            → IfErr result (IsLineFault most (count_by (is_kind LineKind.Freecells) lines) (cells_line piece.now)) }
        ensures tally { OnOk result (IsTally self.new.tally) }
    {
        let (cells, count) = read_cells(piece)?;
        if count > most as usize {
            return Err(LineFault::TooManyCells);
        }
        if self.has_cells {
            return Err(LineFault::RepeatedLine);
        }
        self.tally.add_cells(&cells);
        self.cells = cells;
        self.has_cells = true;
        Ok(())
    }

    // Reads a foundation line.
    fn add_homes(&mut self, piece: &[u8]) -> Result<(), LineFault>
        ensures read { (lines : List Line) → IsDraftOf lines self.old
            → OnOk result (IsDraftOf (lines ++ homes_line piece.now ∷ []) self.new) }
        ensures sound { (n : ℕ) (lines : List Line) → IsDraftOf lines self.old
            → OnOk result (IsSound n (count_by (is_kind LineKind.Foundations) lines) (homes_line piece.now)) }
        ensures fault { (n : ℕ) (lines : List Line) → IsDraftOf lines self.old
            → IfErr result (IsLineFault n (count_by (is_kind LineKind.Foundations) lines) (homes_line piece.now)) }
        ensures tally { self.new.tally ≡ self.old.tally }
    {
        let homes = read_homes(piece)?;
        if self.has_homes {
            return Err(LineFault::RepeatedLine);
        }
        self.homes = homes;
        self.has_homes = true;
        Ok(())
    }

    // Reads a line, of which the CR that may end it is gone, of a game with so many cells.
    pub fn add_line(&mut self, most: u8, line: &[u8]) -> Result<(), LineFault>
        requires tally { IsTally self.old.tally }
        requires game { most ≤ 4 }
        ensures read { (lines : List Line) → IsDraftOf lines self.old
            → OnOk result (IsDraftOf (lines ++ line_of line.now ∷ []) self.new) }
        ensures sound { (lines : List Line) → IsDraftOf lines self.old
            → OnOk result (IsSound most (count_by (is_kind (line_of line.now).kind) lines) (line_of line.now)) }
        ensures fault { (lines : List Line) → IsDraftOf lines self.old
            → IfErr result (IsLineFault most (count_by (is_kind (line_of line.now).kind) lines) (line_of line.now)) }
        ensures tally { OnOk result (IsTally self.new.tally) }
    {
        let (kind, piece) = sorted_line(line);
        match kind {
            LineKind::Foundations => self.add_homes(piece),
            LineKind::Freecells => self.add_cells(most, piece),
            LineKind::Column => self.add_column(piece),
        }
    }

    // The position of the draft; or the least card that has two places or more, else the least one that has none.
    pub fn finish(mut self) -> Result<Position, PartsFault>
        requires draft { (lines : List Line) × IsDraftOf lines self }
        ensures spelled { (lines : List Line) → IsDraftOf lines self → IfOk result (SpellsBoard lines) }
        ensures whole { IfOk result IsPosition }
        ensures fault { (lines : List Line) → IsDraftOf lines self
            → IfErr result (λ fault. (b : Board) × SpellsBoard lines b × IsFaultOf (places b) fault) }
    {
        self.tally.add_homes(&self.homes);
        if let Some(fault) = self.tally.fault() {
            return Err(fault);
        }
        Position::from_parts(self.columns, self.cells, self.homes)
    }
}

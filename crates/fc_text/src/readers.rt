ghost use Rattle.std.specs.Prelude.{◌≡◌, ℕ, ◌≤◌, ◌<◌, IfOk, OnOk, IfErr};
ghost use Rattle.fc_text.specs.Line.{tokens_of};
ghost use Rattle.fc_text.specs.inner.Reading.{ReadsCells, ReadsColumn, ReadsHomes, IsTally};
ghost use Rattle.fc_text.specs.Fault.{HasBadCard, HasBadFoundation};

use crate::faults::LineFault;
use crate::lines::LineKind;
use crate::pieces::{Blanks, Tokens};
use crate::tokens::{read_card, read_cell, read_home};
use arrayvec::ArrayVec;
use fc_cards::Card;
use fc_position::Tally;

/// The cards of a column line, of which at most 52 are kept; all are counted.
pub(crate) fn read_column(piece: &[u8], tally: &mut Tally) -> Result<ArrayVec<Card, 52>, LineFault>
    requires tally { IsTally tally.old }
    ensures read { IfOk result (λ column. ReadsColumn (tokens_of piece.now) column.items tally.old tally.new) }
    ensures fault { IfErr result (λ fault. (fault ≡ LineFault.BadCard) × HasBadCard LineKind.Column (tokens_of piece.now)) }
{
    let mut column = ArrayVec::new();
    for token in Tokens::new(piece, Blanks) {
        let Some(card) = read_card(token) else {
            return Err(LineFault::BadCard);
        };
        tally.add(card);
        let _full = column.try_push(card);
    }
    Ok(column)
}

/// What a cell line says that the cells hold, of which at most four are kept, and how many tokens it has, 5 for more
/// than that.
pub(crate) fn read_cells(piece: &[u8]) -> Result<([Option<Card>; 4], usize), LineFault>
    ensures read { IfOk result (λ cells. ReadsCells (tokens_of piece.now) cells.0 cells.1) }
    ensures fault { IfErr result (λ fault. (fault ≡ LineFault.BadCard) × HasBadCard LineKind.Freecells (tokens_of piece.now)) }
{
    let mut cells = [None; 4];
    let mut count = 0usize;
    for token in Tokens::new(piece, Blanks) {
        let Some(held) = read_cell(token) else {
            return Err(LineFault::BadCard);
        };
        if count < 4 {
            cells[count] = held;
        }
        count = (count + 1).min(5);
    }
    Ok((cells, count))
}

/// How many cards of each suit a foundation line says are home, in the order clubs, diamonds, hearts, spades.
pub(crate) fn read_homes(piece: &[u8]) -> Result<[u8; 4], LineFault>
    ensures read { IfOk result (ReadsHomes (tokens_of piece.now)) }
    ensures sound { OnOk result (HasBadFoundation LineKind.Foundations (tokens_of piece.now) → ⊥) }
    ensures fault { IfErr result (λ fault. (fault ≡ LineFault.BadFoundation)
        × HasBadFoundation LineKind.Foundations (tokens_of piece.now)) }
{
    let mut homes = [0; 4];
    let mut named = [false; 4];
    for token in Tokens::new(piece, Blanks) {
        let Some((suit, count)) = read_home(token) else {
            return Err(LineFault::BadFoundation);
        };
        let index = suit.index() as usize;
        if named[index] {
            return Err(LineFault::BadFoundation);
        }
        named[index] = true;
        homes[index] = count;
    }
    Ok(homes)
}

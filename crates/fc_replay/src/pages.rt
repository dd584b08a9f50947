ghost use Rattle.std.specs.Prelude.{◌≡◌, ◌≤◌, ◌↔◌, ◌++◌, OnOk, IsErr, IsTrue, codes};
ghost use Rattle.fc_io.specs.Moves.{Stays, TakesBytes, TakesFront};
ghost use Rattle.fc_position.specs.Position.{Fits};
ghost use Rattle.fc_moves.specs.MoveText.{HasText};
ghost use Rattle.fc_replay.specs.Page.{header, page_text};
ghost use Rattle.fc_replay.specs.declared.pages.Page.TheVariants.{Drawn};

use crate::tellings::{ToldMove, phrase_line};
use arrayvec::ArrayVec;
use fc_io::{Failed, Sink, write_all};
use fc_moves::{Move, move_text};
use fc_position::Position;
use fc_show::{Style, draw};
use fc_text::print_board;
use itoa::Buffer;

/// What is written of a move.
#[derive(Clone, Copy, Debug, PartialEq, Eq)]
pub enum Page {
    /// The text of the board after it.
    Board,
    /// A line with its number and its letters, and the same text.
    Numbered,
    /// A line with its number and the move in words; red suits in red, as terminals show it, or not.
    InWords(bool),
    /// The same line, the drawing of the board after it, in which the card that moved is marked, and an empty line.
    Drawn(bool),
}

// Writes what is to be written of a move, as it is told from the board before it, and the position after it, which fits a
// game with so many cells.
pub(crate) fn write_page<K: Sink>(
    page: Page,
    cells: u8,
    told: &ToldMove,
    position: &Position,
    sink: &mut K,
) -> Result<(), Failed>
    requires game { cells ≤ 4 }
    requires fits { Fits cells position.now }
    requires has_text { HasText told.now.m }
    ensures front { TakesFront (K.held sink.old) (K.held sink.new) (page_text page cells told.now position.now) }
    ensures whole { OnOk result (TakesBytes (K.held sink.old) (K.held sink.new) (page_text page cells told.now position.now)) }
    ensures fault { IsErr result ↔ IsTrue (K.has_failed sink.new) }
    ensures stays { IsTrue (K.has_failed sink.old) → IsErr result }
    ensures unmoved { IsTrue (K.has_failed sink.old) → Stays (K.held sink.old) (K.held sink.new) }
{
    match page {
        Page::Board => write_all(sink, print_board(position, cells).as_bytes()),
        Page::Numbered => {
            let header = header(told.number, told.m);
            write_both(sink, &header, print_board(position, cells).as_bytes())
        }
        Page::InWords(is_coloured) => write_all(sink, &phrase_line(told, is_coloured)),
        Page::Drawn(is_coloured) => write_drawn(is_coloured, cells, told, position, sink),
    }
}

// Writes the line of a move in words, and the drawing of the position after it.
fn write_drawn<K: Sink>(
    is_coloured: bool,
    cells: u8,
    told: &ToldMove,
    position: &Position,
    sink: &mut K,
) -> Result<(), Failed>
    requires game { cells ≤ 4 }
    requires fits { Fits cells position.now }
    requires has_text { HasText told.now.m }
    ensures front { TakesFront (K.held sink.old) (K.held sink.new) (page_text (Drawn is_coloured) cells told.now position.now) }
    ensures whole { OnOk result (TakesBytes (K.held sink.old) (K.held sink.new) (page_text (Drawn is_coloured) cells told.now position.now)) }
    ensures fault { IsErr result ↔ IsTrue (K.has_failed sink.new) }
    ensures stays { IsTrue (K.has_failed sink.old) → IsErr result }
    ensures unmoved { IsTrue (K.has_failed sink.old) → Stays (K.held sink.old) (K.held sink.new) }
{
    let style = Style {
        is_coloured,
        marked: told.card,
    };
    let line = phrase_line(told, is_coloured);
    write_drawing(sink, &line, &draw(position, cells, &style))
}

// The line of a step.
fn header(step: u32, m: Move) -> ArrayVec<u8, 64>
    requires has_text { HasText m }
    ensures text { result.items ≡ header step m }
{
    let mut buffer = Buffer::new();
    let mut line = ArrayVec::new();
    let _fits = line.try_extend_from_slice(buffer.format(step).as_bytes());
    let _fits = line.try_extend_from_slice(b". ");
    let _fits = line.try_extend_from_slice(&move_text(m));
    let _fits = line.try_extend_from_slice(b"\n");
    line
}

// Writes a drawing below a line, and an empty line.
fn write_drawing<K: Sink>(sink: &mut K, header: &[u8], drawing: &[u8]) -> Result<(), Failed>
    ensures front { TakesFront (K.held sink.old) (K.held sink.new) (header.now ++ drawing.now ++ codes "\n") }
    ensures whole { OnOk result (TakesBytes (K.held sink.old) (K.held sink.new) (header.now ++ drawing.now ++ codes "\n")) }
    ensures fault { IsErr result ↔ IsTrue (K.has_failed sink.new) }
    ensures stays { IsTrue (K.has_failed sink.old) → IsErr result }
    ensures unmoved { IsTrue (K.has_failed sink.old) → Stays (K.held sink.old) (K.held sink.new) }
{
    write_both(sink, header, drawing)?;
    write_all(sink, b"\n")
}

// Writes two pieces, one straight after the other.
fn write_both<K: Sink>(sink: &mut K, first: &[u8], second: &[u8]) -> Result<(), Failed>
    ensures front { TakesFront (K.held sink.old) (K.held sink.new) (first.now ++ second.now) }
    ensures whole { OnOk result (TakesBytes (K.held sink.old) (K.held sink.new) (first.now ++ second.now)) }
    ensures fault { IsErr result ↔ IsTrue (K.has_failed sink.new) }
    ensures stays { IsTrue (K.has_failed sink.old) → IsErr result }
    ensures unmoved { IsTrue (K.has_failed sink.old) → Stays (K.held sink.old) (K.held sink.new) }
{
    write_all(sink, first)?;
    write_all(sink, second)
}

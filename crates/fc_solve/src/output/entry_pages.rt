//! Entries that may move several cards, told in words as players say them, perhaps with the board drawn after each. No call
//! allocates, so none can want memory behind what is written.
ghost use Rattle.std.specs.Prelude.{◌≤◌};

use crate::input::pair_lists::play_entry;
use arrayvec::ArrayVec;
use fc_cards::{Card, Place};
use fc_io::{Failed, Sink, write_all};
use fc_moves::{Game, Move};
use fc_position::Position;
use fc_sequences::Pair;
use fc_show::{Style, card_shown, draw};
use itoa::Buffer;

/// What is written of an entry.
#[derive(Clone, Copy)]
pub struct EntryPage {
    /// Whether the board after it is drawn below its line.
    pub has_board: bool,
    /// Whether red suits are in red.
    pub is_coloured: bool,
}

/// Writes a page for each entry of a list that comes to these one-card moves; whether the board after them is won.
pub fn write_entries<G: Game, K: Sink>(
    game: &G,
    start: &Position,
    pairs: &[Pair],
    moves: &[Move],
    page: EntryPage,
    out: &mut K,
) -> Result<bool, Failed> {
    let mut board = start.copy();
    let mut made = 0usize;
    for (index, pair) in pairs.iter().enumerate() {
        let before = board.copy();
        let carried = play_entry(game, &mut board, pair, &moves[made.min(moves.len())..]);
        made = made.saturating_add(carried.moves);
        let told = ToldEntry::of(index.saturating_add(1), &before, pair, carried.cards);
        write_all(out, &line_of(&told, page.is_coloured))?;
        if page.has_board {
            write_board(&board, game.cells(), told.first, page, out)?;
        }
    }
    Ok(board.is_won())
}

// Writes the drawing of a board, in which a card is marked, and an empty line.
fn write_board<K: Sink>(
    board: &Position,
    cells: u8,
    marked: Option<Card>,
    page: EntryPage,
    out: &mut K,
) -> Result<(), Failed>
    requires game { cells ≤ 4 }
{
    let is_coloured = page.is_coloured;
    let style = Style {
        is_coloured,
        marked,
    };
    // (no allowed move leads to a board that doesn't)
    if board.fits(cells) {
        write_all(out, &draw(board, cells, &style))?;
    }
    write_all(out, b"\n")
}

// An entry as it is told from the board before it.
#[derive(Clone, Copy)]
struct ToldEntry {
    number: usize,
    from: Place,
    to: Place,
    // How many cards it moves.
    count: usize,
    // The deepest of its cards.
    first: Option<Card>,
    // The card that lies on the others.
    last: Option<Card>,
    // The card at the end of the column to which it goes.
    beneath: Option<Card>,
}

impl ToldEntry {
    // The entry of a number, which moves so many cards.
    fn of(number: usize, board: &Position, pair: &Pair, count: usize) -> ToldEntry {
        ToldEntry {
            number,
            from: pair.from,
            to: pair.to,
            count,
            first: card_above(board, pair.from, count),
            last: board.playable(pair.from),
            beneath: board.playable(pair.to),
        }
    }
}

// The deepest of the last cards of a place, so many in a column.
fn card_above(board: &Position, place: Place, count: usize) -> Option<Card> {
    match place {
        Place::Column(column) if column < 8 => {
            let cards = board.column(column);
            cards.get(cards.len().checked_sub(count)?).copied()
        }
        _ => board.playable(place),
    }
}

// A line of words, with room for the longest.
type Line = ArrayVec<u8, 128>;

// The line of an entry: its number, its cards, where they come from, and where they go.
fn line_of(told: &ToldEntry, is_coloured: bool) -> Line {
    let mut buffer = Buffer::new();
    let mut line = ArrayVec::new();
    push(&mut line, buffer.format(told.number).as_bytes());
    push(&mut line, b". ");
    push_cards(&mut line, told, is_coloured);
    push(&mut line, b" from ");
    push_place(&mut line, told.from);
    push_target(&mut line, told, is_coloured);
    push(&mut line, b"\n");
    line
}

// Appends the card of an entry, or how many there are, the deepest and the last.
fn push_cards(line: &mut Line, told: &ToldEntry, is_coloured: bool) {
    if told.count <= 1 {
        return push_card(line, told.first, is_coloured);
    }
    let mut buffer = Buffer::new();
    push(line, buffer.format(told.count).as_bytes());
    push(line, b" cards, ");
    push_card(line, told.first, is_coloured);
    push(line, b" to ");
    push_card(line, told.last, is_coloured);
    push(line, b",");
}

// Appends where the cards of an entry go.
fn push_target(line: &mut Line, told: &ToldEntry, is_coloured: bool) {
    match told.to {
        Place::Home => return push(line, b" home"),
        Place::Cell(_) => push(line, b" to "),
        Place::Column(_) if told.beneath.is_none() => push(line, b" to the empty "),
        Place::Column(_) => {
            push(line, b" to the ");
            push_card(line, told.beneath, is_coloured);
            push(line, b" on ");
        }
    }
    push_place(line, told.to);
}

// Appends a place by its name.
fn push_place(line: &mut Line, place: Place) {
    match place {
        Place::Column(column) => {
            push(line, b"column ");
            push(line, &[b'1'.saturating_add(column)]);
        }
        Place::Cell(cell) => {
            push(line, b"cell ");
            push(line, &[b'a'.saturating_add(cell)]);
        }
        Place::Home => push(line, b"home"),
    }
}

// Appends a card, if there is one.
fn push_card(line: &mut Line, card: Option<Card>, is_coloured: bool) {
    if let Some(card) = card {
        push(line, &card_shown(card, is_coloured));
    }
}

// Appends a text.
fn push(line: &mut Line, piece: &[u8]) {
    let _fits = line.try_extend_from_slice(piece);
}

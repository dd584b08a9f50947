//! What is measured, made again and again.

use fc_canonical::{distinct_moves, key};
use fc_cards::Place;
use fc_frontier::{BucketFrontier, Frontier};
use fc_moves::FreeCell;
use fc_position::Position;
use std::alloc::Global;
use std::array;

/// What is done in rounds.
#[derive(Clone, Copy)]
pub enum Work {
    CopyBytes,
    CopyPositions,
    /// The key of a position that changes from round to round.
    Keys,
    /// The distinct moves of such a position.
    DistinctMoves,
    Queue,
}

impl Work {
    /// Does it so often on a position of the game, and gives a number that depends on all that was done.
    pub fn done(self, alloc: Global, game: &FreeCell, position: &Position, rounds: u32) -> usize {
        match self {
            Work::CopyBytes => copy_bytes(rounds),
            Work::CopyPositions => copy_positions(position, rounds),
            Work::Keys => ask_keys(position, rounds),
            Work::DistinctMoves => ask_distinct_moves(game, position, rounds),
            Work::Queue => fill_and_drain(alloc, rounds),
        }
    }
}

/// How many places a copy goes round, so that no copy can be left out.
const SLOTS: usize = 8;

/// As many bytes as a position has.
pub const BYTES: usize = size_of::<Position>();

/// Copies bytes round a ring of buffers, and gives a byte of the last.
fn copy_bytes(rounds: u32) -> usize {
    let mut ring = [[1u8; BYTES]; SLOTS];
    for i in 0..rounds as usize {
        let bytes = ring[i % SLOTS];
        ring[(i + 1) % SLOTS] = bytes;
    }
    ring[rounds as usize % SLOTS][0] as usize
}

/// Copies a position round a ring of them, and gives the length of a column of the last.
fn copy_positions(position: &Position, rounds: u32) -> usize {
    let mut ring: [Position; SLOTS] = array::from_fn(|_| position.copy());
    let slots = &mut ring[..];
    for i in 0..rounds as usize {
        let next = slots[i % SLOTS].copy();
        slots[(i + 1) % SLOTS] = next;
    }
    let slots = &*slots;
    slots[rounds as usize % SLOTS].column(0).len()
}

/// Asks for the key of a position again and again, with the last card of a column going to a cell and back.
fn ask_keys(position: &Position, rounds: u32) -> usize {
    let mut board = position.copy();
    let mut count = 0usize;
    for i in 0..rounds {
        count = count.wrapping_add(key(&board).len());
        move_to_and_fro(&mut board, i);
    }
    count
}

/// Asks for the distinct moves of a position again and again, with the last card of a column going to a cell and back.
fn ask_distinct_moves(game: &FreeCell, position: &Position, rounds: u32) -> usize {
    let mut board = position.copy();
    let mut count = 0usize;
    for i in 0..rounds {
        count = count.wrapping_add(distinct_moves(game, &board).len());
        move_to_and_fro(&mut board, i);
    }
    count
}

/// Moves the last card of the column whose turn it is to the first cell, or the card there to that column.
fn move_to_and_fro(position: &mut Position, turn: u32) {
    let column = Place::Column((turn % 8) as u8);
    if position.cell(0).is_some() {
        position.shift(Place::Cell(0), column);
    } else if position.playable(column).is_some() {
        position.shift(column, Place::Cell(0));
    }
}

/// Pushes so many pairs over 40 values of f, and takes them out again.
fn fill_and_drain(alloc: Global, pairs: u32) -> usize {
    let mut queue = BucketFrontier::new(alloc);
    for node in 0..pairs {
        if queue.push(60 + node % 40, node).is_err() {
            break;
        }
    }
    let mut count = 0usize;
    for _ in 0..pairs {
        if let Some((f, _)) = queue.pop_least() {
            count = count.wrapping_add(f as usize);
        }
    }
    count
}

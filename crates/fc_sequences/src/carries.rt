//! Sequences carried from column to column.

ghost use Rattle.std.specs.Prelude.{◌≡◌, ◌↔◌, ◌<◌, ◌≤◌, ◌+◌, ◌-◌, ◌*◌, ◌^◌, length, All, IsTrue, OnOk};
ghost use Rattle.fc_moves.specs.GameRules.{IsPositionOf, Opens};
ghost use Rattle.fc_moves.specs.Step.{Allows, Step};
ghost use Rattle.fc_sequences.specs.Sequence.{AreEnough, IsSequence, MayCarry, board_after_carry, free_cells, spare_columns};
ghost use Rattle.fc_sequences.specs.Carry.{AddsRun, carry_moves};
ghost use Rattle.fc_sequences.specs.inner.Carry.{Carries, reached_at, MayCarryOver, MayCarryBy};

use crate::spaces::{free_cells, spare_columns};
use fc_cards::{Card, Place};
use fc_moves::{Game, Move, apply, may_land};
use fc_position::Position;
use std::alloc::AllocError;

/// Whether the last `count` cards of column `from` may be moved at once to column `to`: they lie on each other, the first of
/// them may land there, and they are at most one more than there are free cells; or, where each of them but the first may go
/// to an empty column, at most twice as many for each empty column other than `to`.
pub fn may_carry<G: Game>(game: &G, position: &Position, from: u8, to: u8, count: u8) -> bool
    ensures value { IsTrue result ↔ MayCarry (G.game game.now) position.now from to count }
{
    if from >= 8 || to >= 8 || from == to || count == 0 {
        return false;
    }
    let cards = position.column(from);
    if count as usize > cards.len() {
        return false;
    }
    let moved = &cards[cards.len() - count as usize..];
    is_sequence(game, moved)
        && may_land(game, position.column(to), moved[0])
        && are_enough(game, position, to, moved)
}

/// Moves the last `count` cards of column `from` to column `to`, as they lie, one card at a time, and adds these moves to
/// `moves`: every other card is where it was. They are 2 `count` - 1 moves where the free cells are enough; else those that
/// are too many go to an empty column and from there.
///
/// # Errors
/// A growth of `moves` was refused, and nothing is known of the position.
pub fn carry<G: Game>(
    game: &G,
    position: &mut Position,
    from: u8,
    to: u8,
    count: u8,
    moves: &mut Vec<Move>,
) -> Result<(), AllocError>
    requires may { MayCarry (G.game game.now) position.old from to count }
    requires fits { IsPositionOf (G.game game.now) position.old }
    ensures carried { OnOk result (position.new ≡ board_after_carry position.old from to count) }
    ensures run { OnOk result (AddsRun (G.game game.now) position.old moves.old.items position.new moves.new.items) }
    ensures count { OnOk result (length moves.new.items ≡ length moves.old.items
        + carry_moves (length (free_cells (G.game game.now) position.old)) (length (spare_columns position.old to)) count) }
    ensures whole { OnOk result (IsPositionOf (G.game game.now) position.new) }
{
    let cells = free_cells(game, position);
    let load = Load { from, to, count };
    if count as usize <= cells.len() + 1 {
        return carry_by_cells(game, position, load, cells.as_slice(), moves);
    }
    let columns = spare_columns(position, to);
    carry_over(
        game,
        position,
        load,
        cells.as_slice(),
        columns.as_slice(),
        moves,
    )
}

// Cards that are carried: the last `count` of column `from`, to column `to`.
#[derive(Clone, Copy)]
struct Load {
    from: u8,
    to: u8,
    count: u8,
}

// Carries cards over these free cells and these spare columns: where there are more than the others can do, first so many
// of the last to the first spare column, and after the rest from there.
fn carry_over<G: Game>(
    game: &G,
    position: &mut Position,
    load: Load,
    cells: &[u8],
    columns: &[u8],
    moves: &mut Vec<Move>,
) -> Result<(), AllocError>
    requires { MayCarryOver (G.game game.now) position.old load cells.now columns.now }
    ensures { OnOk result (Carries (G.game game.now) load (carry_moves (length cells.now) (length columns.now) load.count)
        (reached_at position.old moves.old.items) (reached_at position.new moves.new.items)) }
{
    let Some((column, others)) = columns.split_first() else {
        return carry_by_cells(game, position, load, cells, moves);
    };
    let Load { from, to, count } = load;
    let most = room(cells.len(), others.len());
    if count as usize <= most {
        return carry_over(game, position, load, cells, others, moves);
    }
    let rest = most as u8;
    let last = count - rest;
    let aside = Load {
        from,
        to: *column,
        count: last,
    };
    let onto = Load {
        from,
        to,
        count: rest,
    };
    let back = Load {
        from: *column,
        to,
        count: last,
    };
    carry_over(game, position, aside, cells, others, moves)?;
    carry_over(game, position, onto, cells, others, moves)?;
    carry_over(game, position, back, cells, others, moves)
}

// Carries cards over these free cells.
fn carry_by_cells<G: Game>(
    game: &G,
    position: &mut Position,
    load: Load,
    cells: &[u8],
    moves: &mut Vec<Move>,
) -> Result<(), AllocError>
    requires { MayCarryBy (G.game game.now) position.old load cells.now }
    ensures { OnOk result (Carries (G.game game.now) load (2 * load.count - 1)
        (reached_at position.old moves.old.items) (reached_at position.new moves.new.items)) }
{
    let Load { from, to, count } = load;
    let (source, target) = (Place::Column(from), Place::Column(to));
    if count == 1 {
        return step(game, position, source, target, moves);
    }
    let aside = Place::Cell(cells[0]);
    step(game, position, source, aside, moves)?;
    let others = Load {
        from,
        to,
        count: count - 1,
    };
    carry_by_cells(game, position, others, &cells[1..], moves)?;
    step(game, position, aside, target, moves)
}

// Makes a move that is allowed, and adds it.
pub(crate) fn step<G: Game>(
    game: &G,
    position: &mut Position,
    from: Place,
    to: Place,
    moves: &mut Vec<Move>,
) -> Result<(), AllocError>
    requires allowed { Allows (G.game game.now) position.old (record { from = from; to = to }) }
    ensures step { Step (G.game game.now) position.old (record { from = from; to = to }) position.new }
    ensures run { OnOk result (AddsRun (G.game game.now) position.old moves.old.items position.new moves.new.items) }
    ensures count { OnOk result (length moves.new.items ≡ length moves.old.items + 1) }
{
    let m = Move { from, to };
    apply(game, position, m);
    moves.push(m)?;
    Ok(())
}

// How many cards so many free cells and spare columns can do.
fn room(cells: usize, columns: usize) -> usize
    requires few_cells { cells ≤ 4 }
    requires few_columns { columns ≤ 8 }
    ensures value { result ≡ (cells + 1) * 2 ^ columns }
{
    (cells + 1) << columns
}

// Whether each card may stand on the one before it.
fn is_sequence<G: Game>(game: &G, cards: &[Card]) -> bool
    ensures value { IsTrue result ↔ IsSequence (G.game game.now) cards.now }
{
    for i in 1..cards.len() {
        if !game.stands(cards[i], cards[i - 1]) {
            return false;
        }
    }
    true
}

// Whether there are enough free cells and spare columns for cards that are to lie on a column.
fn are_enough<G: Game>(game: &G, position: &Position, to: u8, cards: &[Card]) -> bool
    requires to { to < 8 }
    requires some_cards { 1 ≤ length cards.now }
    ensures value { IsTrue result ↔ AreEnough (G.game game.now) position.now to cards.now }
{
    let cells = free_cells(game, position).len();
    if cards.len() <= cells + 1 {
        return true;
    }
    let columns = spare_columns(position, to).len();
    cards.len() <= room(cells, columns) && all_open(game, &cards[1..])
}

// Whether each card may go to an empty column.
fn all_open<G: Game>(game: &G, cards: &[Card]) -> bool
    ensures value { IsTrue result ↔ All (Opens (G.game game.now)) cards.now }
{
    for card in cards {
        if !game.opens(*card) {
            return false;
        }
    }
    true
}

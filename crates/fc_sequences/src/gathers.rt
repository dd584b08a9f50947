//! Lists of one-card moves, gathered to entries.

ghost use Rattle.std.specs.Prelude.{◌≡◌, ℕ, ◌+◌, ◌↔◌, ◌^◌, ◌<◌, ◌≤◌, List, All, Some, IfSome, IfOk, IfErr, IsTrue, IsSome, OnOk, length, slice_get, take};
ghost use Rattle.fc_cards.specs.declared.places.Place.TheVariants.{Column};
ghost use Rattle.fc_position.specs.Board.{Board, column};
ghost use Rattle.fc_moves.specs.declared.steps.Move.{Move};
ghost use Rattle.fc_moves.specs.GameRules.{IsPositionOf};
ghost use Rattle.fc_moves.specs.Step.{Allows};
ghost use Rattle.fc_sequences.specs.declared.pairs.Pair.{Pair};
ghost use Rattle.fc_sequences.specs.Gathering.{Gathers, IsGatherFault, MayPlayAnother};
ghost use Rattle.fc_sequences.specs.Pair.{HasPairText};
ghost use Rattle.fc_sequences.specs.inner.Part.{AddsEntry, IsPart, NoneLonger, PlaysPart};

use crate::pairs::{Pair, may_play_cards, play_pair};
use fc_cards::Place;
use fc_moves::{Game, Move, allows, apply};
use fc_position::Position;
use std::alloc::{AllocError, Global};
use thiserror::Error;

/// How many moves are looked at for one entry: thirteen cards are carried by fewer, whatever is free.
pub const MOST_AHEAD: usize = 64;

/// Why a list of moves isn't gathered. Steps count from 1.
#[derive(Clone, Copy, Debug, PartialEq, Eq, Error)]
pub enum GatherFault {
    /// The first move that the rules don't allow.
    #[error("step {0}: not allowed")]
    NotAllowed(u32),
    /// A growth was refused.
    #[error("want of memory")]
    Memory,
}

impl From<AllocError> for GatherFault {
    ghost use Rattle.std.specs.Prelude.{◌≡◌};
    ghost use Rattle.fc_sequences.specs.declared.gathers.GatherFault.TheVariants.{Memory};

    ghost from_gives = { λ _ fault. fault ≡ Memory };

    fn from(_refused: AllocError) -> GatherFault {
        GatherFault::Memory
    }
}

/// The entries that do what a list of one-card moves does on a position that fits the game, as a player's hands would. The
/// longest front of the moves is the first entry, and so on with the others: one move, or at most `MOST_AHEAD` that together
/// carry a sequence from the column where the first begins to that where the last ends. Each entry leads to one board alone,
/// since it tells how many cards wherever another number of them may be played, and to play it takes no more moves than were
/// gathered to it.
///
/// # Errors
/// `NotAllowed` with the step of the first move that the rules don't allow; `Memory` where a growth was refused.
pub fn gather<G: Game>(
    alloc: Global,
    game: &G,
    position: &Position,
    moves: &[Move],
) -> Result<Vec<Pair>, GatherFault>
    requires fits { IsPositionOf (G.game game.now) position.now }
    requires few { length moves.now < 2 ^ 32 }
    ensures gathered { IfOk result (λ pairs. (c : Board) × Gathers (G.game game.now) position.now pairs.items moves.now c) }
    ensures texts { IfOk result (λ pairs. All HasPairText pairs.items) }
    ensures fault { IfErr result (IsGatherFault (G.game game.now) position.now moves.now) }
{
    let mut pairs = Vec::new(alloc);
    let mut scratch = Vec::new(alloc);
    let mut board = position.copy();
    let mut step = 0;
    while step < moves.len() {
        let first = moves[step];
        if !allows(game, &board, first) {
            return Err(GatherFault::NotAllowed(step as u32 + 1));
        }
        let end = moves.len().min(step + MOST_AHEAD);
        let part = longest_part(game, &board, first, &moves[step..end], &mut scratch)?;
        add_entry(game, &mut board, part, &mut pairs, &mut scratch)?;
        step += part.moves;
    }
    Ok(pairs)
}

// A front of a list of moves: from where to where it moves cards, how many cards, and how many moves it has.
#[derive(Clone, Copy)]
struct Part {
    from: Place,
    to: Place,
    count: u8,
    moves: usize,
}

// The longest front of a list of moves that carries cards; its first move, where there is no longer one.
fn longest_part<G: Game>(
    game: &G,
    position: &Position,
    first: Move,
    moves: &[Move],
    scratch: &mut Vec<Move>,
) -> Result<Part, AllocError>
    requires first { slice_get moves.now 0 ≡ Some first }
    requires allowed { Allows (G.game game.now) position.now first }
    requires fits { IsPositionOf (G.game game.now) position.now }
    ensures part { IfOk result (IsPart (G.game game.now) position.now moves.now) }
    ensures longest { IfOk result (λ part. NoneLonger (G.game game.now) position.now moves.now (length moves.now) part.moves) }
{
    let mut longest = Part {
        from: first.from,
        to: first.to,
        count: 1,
        moves: 1,
    };
    let mut after = position.copy();
    for (index, m) in moves.iter().enumerate() {
        if !allows(game, &after, *m) {
            return Ok(longest);
        }
        apply(game, &mut after, *m);
        let part = Part {
            from: first.from,
            to: m.to,
            count: gain(position, &after, first.from, m.to),
            moves: index + 1,
        };
        let played = is_played(game, position, &after, part, scratch)?;
        if played {
            longest = part;
        }
    }
    Ok(longest)
}

// Whether just the cards of a part were moved from the first board to the second, and to carry them takes no more moves than it
// has.
fn is_played<G: Game>(
    game: &G,
    before: &Position,
    after: &Position,
    part: Part,
    scratch: &mut Vec<Move>,
) -> Result<bool, AllocError>
    requires fits { IsPositionOf (G.game game.now) before.now }
    ensures value { IfOk result (λ played. IsTrue played ↔ PlaysPart (G.game game.now) before.now part after.now) }
{
    let Part {
        from,
        to,
        count,
        moves,
    } = part;
    if !may_play_cards(game, before, from, to, count) {
        return Ok(false);
    }
    let mut board = before.copy();
    scratch.clear();
    let pair = Pair {
        from,
        to,
        count: None,
    };
    play_pair(game, &mut board, pair, count, scratch)?;
    Ok(board.equals(after) && scratch.len() <= moves)
}

// How many cards a column of the second board has more than in the first, where cards go from a column to a column, else 0.
fn gain(before: &Position, after: &Position, from: Place, to: Place) -> u8
    ensures value { (i j k : ℕ) → from ≡ Column i → to ≡ Column j → j < 8 → k < 256
        → length (column after.now j) ≡ length (column before.now j) + k → result ≡ k }
    ensures columns { 1 ≤ result → (i : ℕ) × (j : ℕ) × (from ≡ Column i) × (to ≡ Column j) }
{
    match (from, to) {
        (Place::Column(_), Place::Column(to)) if to < 8 => {
            let more = after
                .column(to)
                .len()
                .saturating_sub(before.column(to).len());
            u8::try_from(more).unwrap_or(0)
        }
        _ => 0,
    }
}

// Adds the entry of a part, and plays it.
fn add_entry<G: Game>(
    game: &G,
    position: &mut Position,
    part: Part,
    pairs: &mut Vec<Pair>,
    scratch: &mut Vec<Move>,
) -> Result<(), AllocError>
    requires part { (ms : List Move) × IsPart (G.game game.now) position.old ms part }
    requires fits { IsPositionOf (G.game game.now) position.old }
    ensures added { OnOk result ((ms : List Move) → IsPart (G.game game.now) position.old ms part
        → AddsEntry (G.game game.now) (take part.moves ms) part.count (position.old, pairs.old.items) (position.new, pairs.new.items)) }
    ensures whole { OnOk result (IsPositionOf (G.game game.now) position.new) }
{
    let pair = pair_of(game, position, part);
    pairs.push(pair)?;
    play_pair(game, position, pair, part.count, scratch)
}

// The entry of a part, which tells how many cards where another number of them may be played.
fn pair_of<G: Game>(game: &G, position: &Position, part: Part) -> Pair
    ensures from { result.from ≡ part.from }
    ensures to { result.to ≡ part.to }
    ensures count { IfSome result.count (λ n. part.count ≡ n) }
    ensures told { IsSome result.count ↔ MayPlayAnother (G.game game.now) position.now result.from result.to part.count }
{
    let Part {
        from,
        to,
        count,
        ..
    } = part;
    let told = may_play_another(game, position, from, to, count);
    Pair {
        from,
        to,
        count: told.then_some(count),
    }
}

// Whether another number of cards may be played from the one place to the other.
fn may_play_another<G: Game>(
    game: &G,
    position: &Position,
    from: Place,
    to: Place,
    count: u8,
) -> bool
    ensures value { IsTrue result ↔ MayPlayAnother (G.game game.now) position.now from to count }
{
    for other in 1..14 {
        if other != count && may_play_cards(game, position, from, to, other) {
            return true;
        }
    }
    false
}

//! Lists of entries, expanded to one-card moves.

ghost use Rattle.std.specs.Prelude.{◌≡◌, ◌^◌, ◌≤◌, ◌<◌, ◌++◌, ℕ, List, [], ◌∷◌, Some, IfOk, IfErr, OnOk, Contains, length, slice_get, take};
ghost use Rattle.fc_position.specs.Board.{Board};
ghost use Rattle.fc_position.specs.Position.{IsWon};
ghost use Rattle.fc_moves.specs.GameRules.{GameRules, IsPositionOf};
ghost use Rattle.fc_sequences.specs.Following.{Expands, Follows, LeadsToMany, IsListFault};
ghost use Rattle.fc_sequences.specs.inner.Layers.{AreLinked, IsGrown, IsLayer, IsNext, PlaysAll};
ghost use Rattle.fc_sequences.specs.declared.layers.Layer.{Layer};
ghost use Rattle.fc_sequences.specs.declared.list_expansions.TheConstants.{MOST_BOARDS};
ghost use Rattle.fc_sequences.specs.declared.pairs.Pair.{Pair};

use crate::layers::{Layer, next_layer};
use crate::pairs::{Pair, play_pair};
use fc_moves::{Game, Move};
use fc_position::Position;
use std::alloc::{AllocError, Global};
use thiserror::Error;

/// To how many boards the first entries of a list may lead, by one number of cards or another.
pub const MOST_BOARDS: usize = 1000;

/// Why a list isn't expanded. Steps count from 1.
#[derive(Clone, Copy, Debug, PartialEq, Eq, Error)]
pub enum ListFault {
    /// No numbers of cards let the entries up to this one be played.
    #[error("step {0}: not allowed")]
    Refused(u32),
    /// The entries up to this one lead to more than 1,000 boards, since how many cards go to empty columns isn't told.
    #[error("step {0}: too many ways: tell how many cards go to an empty column")]
    TooMany(u32),
    /// A growth was refused.
    #[error("want of memory")]
    Memory,
}

impl From<AllocError> for ListFault {
    ghost use Rattle.std.specs.Prelude.{◌≡◌};
    ghost use Rattle.fc_sequences.specs.declared.list_expansions.ListFault.TheVariants.{Memory};

    ghost from_gives = { λ _ fault. fault ≡ Memory };

    fn from(_refused: AllocError) -> ListFault {
        ListFault::Memory
    }
}

/// The one-card moves of a list of entries that is played on a position that fits the game, for each entry as many as its
/// cards take. Where it isn't told how many cards an entry moves to an empty column, it is so many that the whole list can be
/// played, to a won board if it can.
///
/// # Errors
/// `Refused` with the first step up to which no numbers of cards let the entries be played; `TooMany` with the first step up
/// to which they lead to more than 1,000 boards, whichever comes first; `Memory` where a growth was refused.
pub fn expand<G: Game>(
    alloc: Global,
    game: &G,
    position: &Position,
    pairs: &[Pair],
) -> Result<Vec<Move>, ListFault>
    requires fits { IsPositionOf (G.game game.now) position.now }
    requires few { length pairs.now < 2 ^ 32 }
    ensures expanded { IfOk result (λ moves. (c : Board) × Expands (G.game game.now) position.now pairs.now moves.items c
        × ((d : Board) → Follows (G.game game.now) position.now pairs.now d → IsWon d → IsWon c)) }
    ensures few { IfOk result (λ _. (step : ℕ) → step ≤ length pairs.now
        → LeadsToMany (G.game game.now) position.now (take step pairs.now) → ⊥) }
    ensures fault { IfErr result (IsListFault (G.game game.now) position.now pairs.now) }
{
    let (layers, place) = grow(alloc, game, position, pairs)?;
    let counts = counts_to(alloc, layers.as_slice(), place)?;
    Ok(moves_by(alloc, game, position, pairs, counts.as_slice())?)
}

// How the boards to which the entries lead came, and the place of one of them, which is won if any is.
fn grow<G: Game>(
    alloc: Global,
    game: &G,
    position: &Position,
    pairs: &[Pair],
) -> Result<(Vec<Layer>, usize), ListFault>
    requires fits { IsPositionOf (G.game game.now) position.now }
    requires few { length pairs.now < 2 ^ 32 }
    ensures grown { IfOk result (λ r. (boards : List Board) × (c : Board) × IsGrown (G.game game.now) position.now pairs.now r.0.items boards
        × (slice_get boards r.1 ≡ Some c) × ((d : Board) → Contains boards d → IsWon d → IsWon c)) }
    ensures few { IfOk result (λ _. (step : ℕ) → step ≤ length pairs.now
        → LeadsToMany (G.game game.now) position.now (take step pairs.now) → ⊥) }
    ensures fault { IfErr result (IsListFault (G.game game.now) position.now pairs.now) }
{
    let mut boards = alone(alloc, position)?;
    let mut layers = Vec::new(alloc);
    for (index, pair) in pairs.iter().enumerate() {
        add_layer(alloc, game, *pair, &mut boards, &mut layers)?;
        if boards.is_empty() {
            return Err(ListFault::Refused(index as u32 + 1));
        }
        if boards.len() > MOST_BOARDS {
            return Err(ListFault::TooMany(index as u32 + 1));
        }
    }
    let place = won_place(boards.as_slice());
    Ok((layers, place))
}

// The board to which no entry led.
fn alone(alloc: Global, position: &Position) -> Result<Vec<Position>, AllocError>
    ensures alone { IfOk result (λ boards. boards.items ≡ position.now ∷ []) }
{
    let mut boards = Vec::new(alloc);
    boards.push(position.copy())?;
    Ok(boards)
}

// Puts the boards to which an entry leads in the place of these, and adds how they came.
fn add_layer<G: Game>(
    alloc: Global,
    game: &G,
    pair: Pair,
    boards: &mut Vec<Position>,
    layers: &mut Vec<Layer>,
) -> Result<(), AllocError>
    requires layer { IsLayer (G.game game.now) boards.old.items }
    requires few { length boards.old.items ≤ MOST_BOARDS }
    ensures next { OnOk result ((layer : Layer) × (layers.new.items ≡ layers.old.items ++ layer ∷ [])
        × IsNext (G.game game.now) boards.old.items pair layer boards.new.items) }
{
    let layer = next_layer(alloc, game, pair, boards)?;
    layers.push(layer)?;
    Ok(())
}

// The place of the first won board; the first where there is none.
fn won_place(boards: &[Position]) -> usize
    requires some { 0 < length boards.now }
    ensures there { (c : Board) × (slice_get boards.now result ≡ Some c) × ((d : Board) → Contains boards.now d → IsWon d → IsWon c) }
{
    for place in 0..boards.len() {
        if boards[place].is_won() {
            return place;
        }
    }
    0
}

// By how many cards each entry is played on the way to the board of this place.
fn counts_to(alloc: Global, layers: &[Layer], place: usize) -> Result<Vec<u8>, AllocError>
    requires linked { (g : GameRules) × (b : Board) × (ps : List Pair) × (boards : List Board) × (c : Board)
        × AreLinked g (b ∷ []) ps layers.now boards × (slice_get boards place ≡ Some c) }
    ensures counts { IfOk result (λ counts. (g : GameRules) (b : Board) (ps : List Pair) (boards : List Board) (c : Board)
        → AreLinked g (b ∷ []) ps layers.now boards → slice_get boards place ≡ Some c → PlaysAll g b ps counts.items c) }
{
    let mut counts = Vec::new(alloc);
    let mut here = place;
    let mut left = layers.len();
    while left > 0 {
        left -= 1;
        let (parent, count) = layers[left].origin(here);
        counts.push(count)?;
        here = parent;
    }
    counts.reverse();
    Ok(counts)
}

// The moves by which the entries are played with these numbers of cards.
fn moves_by<G: Game>(
    alloc: Global,
    game: &G,
    position: &Position,
    pairs: &[Pair],
    counts: &[u8],
) -> Result<Vec<Move>, AllocError>
    requires fits { IsPositionOf (G.game game.now) position.now }
    requires plays { (c : Board) × PlaysAll (G.game game.now) position.now pairs.now counts.now c }
    ensures expanded { IfOk result (λ moves. (c : Board) → PlaysAll (G.game game.now) position.now pairs.now counts.now c
        → Expands (G.game game.now) position.now pairs.now moves.items c) }
{
    let mut moves = Vec::new(alloc);
    let mut here = position.copy();
    for index in 0..pairs.len() {
        play_pair(game, &mut here, pairs[index], counts[index], &mut moves)?;
    }
    Ok(moves)
}

//! Lists as people and programs write them: entries that name a card, or leave out moves home.

ghost use Rattle.std.specs.Prelude.{◌≡◌, ◌⊎◌, ◌<◌, ◌^◌, ℕ, List, ◌∷◌, All, IfOk, IfErr, IfSome, IfNone, IsSome, MatchOption, Some, OnOk, length, map, ◌↔◌, IsTrue};
ghost use Rattle.fc_position.specs.Board.{Board};
ghost use Rattle.fc_moves.specs.declared.steps.Move.{Move};
ghost use Rattle.fc_moves.specs.GameRules.{IsPositionOf};
ghost use Rattle.fc_moves.specs.MoveText.{HasText};
ghost use Rattle.fc_moves.specs.Run.{Run};
ghost use Rattle.fc_moves.specs.Step.{Allows};
ghost use Rattle.fc_lists.specs.Weaving.{AllowsEntry, EndsAtHome, IsMoveHome, IsPlayed, IsWayHome, IsWeaveFault, IsWoven, MakesWay, AllowsNoMoveHome};
ghost use Rattle.fc_lists.specs.declared.written_entries.Entry.{Entry};
ghost use Rattle.fc_lists.specs.declared.written_entries.Entry.TheVariants as entry;
ghost use Rattle.fc_lists.specs.inner.Ways.{IsReady, SomeMakesWay, WeavesOn};

use crate::written_entries::{Entry, entries_of, is_home_before, move_for};
use fc_cards::Place;
use fc_moves::{Game, Move, apply, moves};
use fc_position::Position;
use std::alloc::{AllocError, Global};
use thiserror::Error;

/// Why a list isn't played. Steps count from 1.
#[derive(Clone, Copy, Debug, PartialEq, Eq, Error)]
pub enum WeaveFault {
    /// This entry isn't allowed, also not after moves home.
    #[error("step {0}: not allowed")]
    Refused(u32),
    /// A growth was refused.
    #[error("want of memory")]
    Memory,
}

impl From<AllocError> for WeaveFault {
    ghost use Rattle.std.specs.Prelude.{◌≡◌};
    ghost use Rattle.fc_lists.specs.declared.weaving.WeaveFault.TheVariants.{Memory};

    ghost from_gives = { λ _ fault. fault ≡ Memory };

    fn from(_refused: AllocError) -> WeaveFault {
        WeaveFault::Memory
    }
}

/// A list that is played.
#[derive(Drop)]
pub struct Woven {
    /// Its moves, with those home that it leaves out.
    pub moves: Vec<Move>,
    /// How many moves home are put in.
    pub inserted: usize,
}

/// The moves of a list that is played on a position of the game, with the moves home that it leaves out: as its moves are played where
/// they are entries of a list.
///
/// # Errors
/// `Refused` with the first move that isn't allowed when no more cards can go home; `Memory` where a growth was refused.
pub fn weave<G: Game>(
    alloc: Global,
    game: &G,
    start: &Position,
    list: &[Move],
) -> Result<Vec<Move>, WeaveFault>
    requires position { IsPositionOf (G.game game.now) start.now }
    requires few { length list.now < 2 ^ 32 }
    ensures woven { IfOk result (λ moves. IsWoven (G.game game.now) start.now list.now moves.items) }
    ensures run { IfOk result (λ moves. (c : Board) × Run (G.game game.now) start.now moves.items c) }
    ensures texts { IfOk result (λ moves. All HasText moves.items) }
    ensures fault { IfErr result (IsWeaveFault (G.game game.now) start.now (map entry.Move list.now)) }
{
    let entries = entries_of(alloc, list)?;
    let woven = weave_entries(alloc, game, start, entries.as_slice())?;
    Ok(woven.moves)
}

/// The moves of a list of entries that is played on a position of the game, with the moves home that it leaves out: before an entry
/// that isn't allowed cards go home one by one until it is, one that makes way for it where there is such a one; and behind the last
/// entry all cards that can, where they win. An entry that sends a card home which is there is passed over.
///
/// # Errors
/// `Refused` with the first entry that isn't allowed when no more cards can go home; `Memory` where a growth was refused.
pub fn weave_entries<G: Game>(
    alloc: Global,
    game: &G,
    start: &Position,
    list: &[Entry],
) -> Result<Woven, WeaveFault>
    requires position { IsPositionOf (G.game game.now) start.now }
    requires few { length list.now < 2 ^ 32 }
    ensures played { IfOk result (λ woven. IsPlayed (G.game game.now) start.now list.now woven.moves.items woven.inserted) }
    ensures run { IfOk result (λ woven. (c : Board) × Run (G.game game.now) start.now woven.moves.items c) }
    ensures texts { IfOk result (λ woven. All HasText woven.moves.items) }
    ensures fault { IfErr result (IsWeaveFault (G.game game.now) start.now list.now) }
{
    let mut board = start.copy();
    let mut moves = Vec::new(alloc);
    let mut step = 0;
    let mut listed = 0;
    for e in list {
        step += 1;
        send_home_for(game, &mut board, e, &mut moves)?;
        let Some(m) = move_for(game, &board, e) else {
            if is_home_before(&board, e) {
                continue;
            }
            return Err(WeaveFault::Refused(step));
        };
        apply(game, &mut board, m);
        let Ok(()) = moves.push(m) else {
            return Err(WeaveFault::Memory);
        };
        listed += 1;
    }
    let homes = homes_to_end(alloc, game, &board)?;
    moves.extend_from_slice(homes.as_slice())?;
    let inserted = moves.len() - listed;
    Ok(Woven { moves, inserted })
}

// Sends cards home until the entry is allowed, or passed over, or none can go.
fn send_home_for<G: Game>(
    game: &G,
    board: &mut Position,
    e: &Entry,
    moves: &mut Vec<Move>,
) -> Result<(), AllocError>
    requires position { IsPositionOf (G.game game.now) board.old }
    ensures position { IsPositionOf (G.game game.now) board.new }
    ensures woven { OnOk result (WeavesOn (G.game game.now) e.now moves.old.items board.old moves.new.items board.new) }
    ensures end { OnOk result (IsReady (G.game game.now) board.new e.now ⊎ AllowsNoMoveHome (G.game game.now) board.new) }
{
    while !is_ready(game, board, e) {
        let Some(home) = way_home(game, board, e) else {
            return Ok(());
        };
        apply(game, board, home);
        moves.push(home)?;
    }
    Ok(())
}

// Whether an entry is allowed, or passed over.
fn is_ready<G: Game>(game: &G, position: &Position, e: &Entry) -> bool
    ensures value { IsTrue result ↔ IsReady (G.game game.now) position.now e.now }
{
    is_home_before(position, e) || is_allowed(game, position, e)
}

// Whether an entry is allowed.
fn is_allowed<G: Game>(game: &G, position: &Position, e: &Entry) -> bool
    ensures value { IsTrue result ↔ AllowsEntry (G.game game.now) position.now e.now }
{
    move_for(game, position, e).is_some()
}

// The moves home behind a list that ended on this board: all that can be made, where they win.
fn homes_to_end<G: Game>(
    alloc: Global,
    game: &G,
    position: &Position,
) -> Result<Vec<Move>, AllocError>
    requires position { IsPositionOf (G.game game.now) position.now }
    ensures ended { IfOk result (λ homes. EndsAtHome (G.game game.now) position.now homes.items) }
{
    let mut board = position.copy();
    let mut homes = Vec::new(alloc);
    while let Some(home) = home_move(game, &board) {
        apply(game, &mut board, home);
        homes.push(home)?;
    }
    if !board.is_won() {
        homes.clear();
    }
    Ok(homes)
}

// A move home, if there is any.
fn home_move<G: Game>(game: &G, position: &Position) -> Option<Move>
    ensures home { MatchOption result (AllowsNoMoveHome (G.game game.now) position.now) (λ m. IsMoveHome m × Allows (G.game game.now) position.now m) }
{
    let list = moves(game, position);
    for m in list.as_slice() {
        if m.to == Place::Home {
            return Some(*m);
        }
    }
    None
}

// A move home, if there is any: one that makes way for an entry, where there is such a one.
fn way_home<G: Game>(game: &G, position: &Position, e: &Entry) -> Option<Move>
    ensures home { IfSome result (λ m. IsMoveHome m × Allows (G.game game.now) position.now m) }
    ensures way { IfSome result (IsWayHome (G.game game.now) position.now e.now) }
    ensures none { IfNone result (AllowsNoMoveHome (G.game game.now) position.now) }
{
    let list = moves(game, position);
    let mut chosen = None;
    for m in list.as_slice() {
        chosen = home_of(game, position, chosen, *m, e);
    }
    chosen
}

// The move home to choose: the one before, or another one that is the first, or that makes way for an entry.
fn home_of<G: Game>(
    game: &G,
    position: &Position,
    before: Option<Move>,
    m: Move,
    e: &Entry,
) -> Option<Move>
    requires allowed { Allows (G.game game.now) position.now m }
    ensures chosen { ((result ≡ before) × (IsMoveHome m → IsSome before)) ⊎ ((result ≡ Some m) × IsMoveHome m) }
    ensures way { SomeMakesWay (G.game game.now) position.now before e.now ⊎ (IsMoveHome m × MakesWay (G.game game.now) position.now m e.now)
        → SomeMakesWay (G.game game.now) position.now result e.now }
{
    let Place::Home = m.to else {
        return before;
    };
    if before.is_some() && !is_way_to(game, position, m, e) {
        return before;
    }
    Some(m)
}

// Whether an entry is allowed behind a move.
fn is_way_to<G: Game>(game: &G, position: &Position, m: Move, e: &Entry) -> bool
    requires allowed { Allows (G.game game.now) position.now m }
    ensures value { IsTrue result ↔ MakesWay (G.game game.now) position.now m e.now }
{
    let mut board = position.copy();
    apply(game, &mut board, m);
    is_allowed(game, &board, e)
}

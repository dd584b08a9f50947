//! The boards to which the entries of a list lead, layer by layer, and how those of a layer came from those of the one before.

ghost use Rattle.std.specs.Prelude.{◌≡◌, ◌≢◌, ◌↔◌, ◌+◌, ◌<◌, ◌≤◌, ℕ, length, Some, All, Any, IsTrue, IfOk, IfSome, OnOk};
ghost use Rattle.fc_position.specs.Board.{Board};
ghost use Rattle.fc_cards.specs.declared.places.Place.TheVariants.{Home};
ghost use Rattle.fc_moves.specs.GameRules.{GameRules, IsPositionOf};
ghost use Rattle.fc_moves.specs.Step.{Allows, Step};
ghost use Rattle.fc_sequences.specs.Pair.{PlaysBy};
ghost use Rattle.fc_sequences.specs.inner.Layers.{AreStepped, GrowsOn, IsLayer, IsNext, IsSingle, link_at, link_parts};
ghost use Rattle.fc_sequences.specs.declared.layers.Layer.TheVariants.{Linked};

use crate::pairs::{Pair, may_play, play_pair};
use fc_cards::Place;
use fc_moves::{Game, Move, allows, apply};
use fc_position::Position;
use std::alloc::{AllocError, Global};

/// The place of a board among those of the layer before, and by how many cards another came from it.
#[derive(Clone, Copy)]
pub(crate) struct Link {
    pub parent: u16,
    pub count: u8,
}

/// How the boards of a layer came from those of the layer before.
#[derive(Drop)]
pub(crate) enum Layer {
    /// Each from the one of its own place, by one card.
    Stepped,
    /// As these tell, one for each board.
    Linked(Vec<Link>),
}

impl Layer {
    /// The place from which the board of this place came, and by how many cards.
    pub fn origin(&self, place: usize) -> (usize, u8)
        requires there { (link : ℕ × ℕ) × (link_at self.now place ≡ Some link) }
        ensures value { link_at self.now place ≡ Some result }
    {
        match self {
            Layer::Stepped => (place, 1),
            Layer::Linked(links) => (links[place].parent as usize, links[place].count),
        }
    }
}

/// Puts the boards to which an entry leads, each once, in the place of these; how they came from them.
pub(crate) fn next_layer<G: Game>(
    alloc: Global,
    game: &G,
    pair: Pair,
    boards: &mut Vec<Position>,
) -> Result<Layer, AllocError>
    requires layer { IsLayer (G.game game.now) boards.old.items }
    requires few { length boards.old.items < 65536 }
    ensures next { IfOk result (λ layer. IsNext (G.game game.now) boards.old.items pair layer boards.new.items) }
{
    if let Some(m) = single_move(pair)
        && all_allow(game, boards.as_slice(), m)
    {
        step_all(game, boards, m);
        return Ok(Layer::Stepped);
    }
    let Growth {
        boards: next,
        links,
    } = linked_layer(alloc, game, pair, boards.as_slice())?;
    *boards = next;
    Ok(Layer::Linked(links))
}

// The move of an entry that takes one card to a column or a cell: by it no two boards lead to one.
fn single_move(pair: Pair) -> Option<Move>
    ensures single { IfSome result (IsSingle pair) }
{
    let Pair { from, to, count } = pair;
    if count.is_some_and(|told| told != 1) {
        return None;
    }
    match (from, to) {
        (Place::Column(_), Place::Column(_)) | (_, Place::Home) => None,
        (from, to) => Some(Move { from, to }),
    }
}

// Whether a move is allowed on each of the boards.
fn all_allow<G: Game>(game: &G, boards: &[Position], m: Move) -> bool
    ensures value { IsTrue result ↔ All (λ b. Allows (G.game game.now) b m) boards.now }
{
    for board in boards {
        if !allows(game, board, m) {
            return false;
        }
    }
    true
}

// Makes a move on each of the boards.
fn step_all<G: Game>(game: &G, boards: &mut Vec<Position>, m: Move)
    requires allowed { All (λ b. Allows (G.game game.now) b m) boards.old.items }
    ensures stepped { AreStepped (G.game game.now) m boards.old.items boards.new.items (length boards.old.items) }
{
    for place in 0..boards.len() {
        apply(game, &mut boards[place], m);
    }
}

// The boards of a layer that grows, each once, and how they came.
#[derive(Drop)]
struct Growth {
    boards: Vec<Position>,
    links: Vec<Link>,
}

// The boards to which an entry leads from these, by any number of cards.
fn linked_layer<G: Game>(
    alloc: Global,
    game: &G,
    pair: Pair,
    boards: &[Position],
) -> Result<Growth, AllocError>
    requires layer { IsLayer (G.game game.now) boards.now }
    requires few { length boards.now < 65536 }
    ensures next { IfOk result (λ growth. IsNext (G.game game.now) boards.now pair (Linked growth.links) growth.boards.items) }
{
    let mut growth = Growth {
        boards: Vec::new(alloc),
        links: Vec::new(alloc),
    };
    for parent in 0..boards.len() {
        add_children(
            alloc,
            game,
            pair,
            &boards[parent],
            parent as u16,
            &mut growth,
        )?;
    }
    Ok(growth)
}

// Adds the boards to which an entry leads from this one, which has this place in its layer, and that aren't there.
fn add_children<G: Game>(
    alloc: Global,
    game: &G,
    pair: Pair,
    board: &Position,
    parent: u16,
    growth: &mut Growth,
) -> Result<(), AllocError>
    requires fits { IsPositionOf (G.game game.now) board.now }
    ensures grown { OnOk result (GrowsOn (G.game game.now) pair board.now (growth.old, (parent, 1)) (growth.new, (parent + 1, 1))) }
{
    for count in 1..14 {
        add_child(alloc, game, pair, board, Link { parent, count }, growth)?;
    }
    Ok(())
}

// Adds the board to which an entry leads from this one as the link tells, if it does to one that isn't there.
fn add_child<G: Game>(
    alloc: Global,
    game: &G,
    pair: Pair,
    board: &Position,
    link: Link,
    growth: &mut Growth,
) -> Result<(), AllocError>
    requires fits { IsPositionOf (G.game game.now) board.now }
    ensures grown { OnOk result (GrowsOn (G.game game.now) pair board.now (growth.old, link_parts link) (growth.new, (link.parent, link.count + 1))) }
{
    if !may_play(game, board, pair, link.count) {
        return Ok(());
    }
    let child = child_of(alloc, game, board, pair, link.count)?;
    if !is_there(growth.boards.as_slice(), &child) {
        growth.boards.push(child)?;
        growth.links.push(link)?;
    }
    Ok(())
}

// The board to which an entry leads from another by so many cards.
fn child_of<G: Game>(
    alloc: Global,
    game: &G,
    board: &Position,
    pair: Pair,
    count: u8,
) -> Result<Position, AllocError>
    requires may { (c : Board) × PlaysBy (G.game game.now) board.now pair count c }
    requires fits { IsPositionOf (G.game game.now) board.now }
    ensures child { IfOk result (PlaysBy (G.game game.now) board.now pair count) }
    ensures whole { IfOk result (IsPositionOf (G.game game.now)) }
{
    let mut child = board.copy();
    let mut moves = Vec::new(alloc);
    play_pair(game, &mut child, pair, count, &mut moves)?;
    Ok(child)
}

// Whether a board is one of these.
fn is_there(boards: &[Position], board: &Position) -> bool
    ensures value { IsTrue result ↔ Any (λ b. b ≡ board.now) boards.now }
{
    boards.iter().any(|other| other.equals(board))
}

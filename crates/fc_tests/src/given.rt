//! What a test begins with, from texts and numbers. Where a text is no such thing the test fails at once: a function that
//! hands on a fault costs the prover many times as much.

ghost use Rattle.std.specs.Prelude.{◌≡◌, Ok, IsTrue};
ghost use Rattle.fc_position.specs.Position.{Fits};

use arrayvec::ArrayVec;
use fc_cards::Card;
use fc_moves::{BakersGame, FreeCell, Game, Move, allows, apply, read_move};
use fc_position::Position;
use fc_text::read_board;
use std::process::Abort;

/// This holds.
pub fn must(rt: &impl Abort, holds: bool)
    ensures holds { IsTrue holds }
{
    if !holds {
        rt.panic("it isn't so");
    }
}

/// What a call gave, which refused nothing.
pub fn sure<T, E>(rt: &impl Abort, told: Result<T, E>) -> T
    ensures value { told ≡ Ok result }
{
    match told {
        Ok(value) => value,
        Err(_) => rt.panic("refused"),
    }
}

/// The position of a board's text.
pub fn board(rt: &impl Abort, text: &str) -> Position {
    sure(rt, read_board(text.as_bytes(), 4))
}

/// The position of a board's text, which fits the game.
pub fn board_for<G: Game>(rt: &impl Abort, game: &G, text: &str) -> Position
    ensures fits { Fits (G.game game.now).cells result }
{
    sure(rt, read_board(text.as_bytes(), game.cells()))
}

/// The card of two letters.
pub fn card(rt: &impl Abort, text: &[u8]) -> Card {
    Card::read(text).expect(rt, "a card")
}

/// FreeCell with so many cells.
pub fn free_cell(rt: &impl Abort, cells: u8) -> FreeCell {
    FreeCell::new(cells).expect(rt, "at most four cells")
}

/// Baker's Game with so many cells.
pub fn bakers_game(rt: &impl Abort, cells: u8) -> BakersGame {
    BakersGame::new(cells).expect(rt, "at most four cells")
}

/// The cards of a text, parted by one blank.
pub fn cards(rt: &impl Abort, text: &[u8]) -> ArrayVec<Card, 52> {
    let mut cards = ArrayVec::new();
    for word in text.chunks(3) {
        let card = card(rt, word.get(..2).expect(rt, "two letters"));
        sure(rt, cards.try_push(card));
    }
    cards
}

/// The move of two letters.
pub fn move_of(rt: &impl Abort, text: &[u8]) -> Move {
    read_move(text).expect(rt, "a move")
}

/// The moves of a text, parted by one blank.
pub fn listed_moves(rt: &impl Abort, text: &[u8]) -> ArrayVec<Move, 52> {
    let mut moves = ArrayVec::new();
    for word in text.chunks(3) {
        let m = move_of(rt, word.get(..2).expect(rt, "two letters"));
        sure(rt, moves.try_push(m));
    }
    moves
}

/// Makes a move, which must be allowed.
pub fn make<G: Game>(rt: &impl Abort, game: &G, position: &mut Position, m: Move) {
    let is_allowed = allows(game, position, m);
    must(rt, is_allowed);
    apply(game, position, m);
}

/// Makes the moves of a text, each of which must be allowed.
pub fn play<G: Game>(rt: &impl Abort, game: &G, position: &mut Position, text: &[u8]) {
    for m in listed_moves(rt, text).as_slice() {
        make(rt, game, position, *m);
    }
}

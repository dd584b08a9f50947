//! Codes of positions: what they spell after each move of a list, and that they tell classes.

ghost use Rattle.std.specs.Prelude.{◌≡◌};
ghost use Rattle.fc_position.specs.Position.{IsPosition};
ghost use Rattle.fc_moves.specs.Step.{Allows};
ghost use Rattle.fc_codes.specs.State.{IsCodeOf};

use crate::boards::{DEAL_ONE, WITH_CELLS};
use crate::given::{bakers_game, board, free_cell, move_of, must};
use fc_canonical::canonical;
use fc_codes::{Code, Layout};
use fc_moves::{Game, Move, allows, apply};
use fc_position::Position;
use std::process::Abort;

// Makes a move from a position with this code, and tells the code after it, which must spell the canonical position.
fn step<G: Game>(
    rt: &impl Abort,
    game: &G,
    layout: &Layout,
    code: &Code,
    position: &mut Position,
    m: Move,
) -> Code
    requires allowed { Allows (G.game game.now) position.old m }
    requires code { IsCodeOf layout.now position.old code.now }
    ensures code { IsCodeOf layout.now position.new result }
    ensures whole { IsPosition position.new }
{
    let next = layout.moved(code, position, m);
    apply(game, position, m);
    let spelled = layout.position_of(&next);
    must(rt, spelled.equals(&canonical(position)));
    let told = layout.code_of(position);
    must(rt, told == Some(next));
    next
}

// The code after the moves of a text, each of which must be allowed.
fn code_after<G: Game>(rt: &impl Abort, game: &G, text: &str, list: &[u8]) -> Code {
    let mut position = board(rt, text);
    let layout = Layout::new(&position);
    let mut code = layout.start_code();
    for word in list.chunks(3) {
        let m = move_of(rt, word.get(..2).expect(rt, "two letters"));
        let is_allowed = allows(game, &position, m);
        must(rt, is_allowed);
        code = step(rt, game, &layout, &code, &mut position, m);
    }
    code
}

// Moves within two cells that lead over and over to the same boards.
const ROUNDS: &[u8] = b"\
    21 16 3b 34 48 62 26 61 15 5h 83 37 72 26 61 15 58 83 37 72 26 61 15 58 83 37 72 26 61 15 58 83 \
    37 72 26 61 15 58 83 37";

#[test]
fn spells_what_is_reached(rt: HostRuntime) {
    let game = free_cell(&rt, 4);
    let _code = code_after(
        &rt,
        &game,
        DEAL_ONE,
        b"1a 2d 2c 2b 21 14 41 14 41 14 41 14 41 14 41",
    );
    let _code = code_after(&rt, &game, DEAL_ONE, b"1a 1d 31 3c 2b 63 63 6h 3h 6h");
    let suits = bakers_game(&rt, 4);
    let _code = code_after(&rt, &suits, DEAL_ONE, b"1a 2b 1d 6c b8 5b 78");
    let _code = code_after(&rt, &free_cell(&rt, 2), WITH_CELLS, ROUNDS);
}

// A board, two lists of moves from it, and whether they lead to one code.
struct Row(&'static str, &'static [u8], &'static [u8], bool);

static LISTS: [Row; 10] = [
    // In which cells, and in which order, cards stand is all one.
    Row(DEAL_ONE, b"1a 2b", b"2c 1a", true),
    Row(DEAL_ONE, b"1a 2b", b"1a 3b", false),
    Row(DEAL_ONE, b"1a", b"", false),
    // A card that comes back to where it stood.
    Row(WITH_CELLS, b"3b b3", b"", true),
    Row(WITH_CELLS, b"2b b5", b"", true),
    Row(WITH_CELLS, b"21", b"", true),
    // And one that goes elsewhere.
    Row(WITH_CELLS, b"a2", b"", false),
    Row(WITH_CELLS, b"3b b1", b"", false),
    Row(WITH_CELLS, b"3b b1", b"3b b8", true),
    Row(WITH_CELLS, b"ah", b"", false),
];

// The row's two lists lead to one code, or to two.
fn check_codes(rt: &impl Abort, row: &Row) {
    let game = free_cell(rt, 4);
    let Row(text, list, other, are_same) = *row;
    let code = code_after(rt, &game, text, list);
    let second = code_after(rt, &game, text, other);
    must(rt, (code == second) == are_same);
}

#[test]
fn tells_classes(rt: HostRuntime) {
    for row in &LISTS {
        check_codes(&rt, row);
    }
}

#[test]
fn tells_boards_without_a_code(rt: HostRuntime) {
    let layout = Layout::new(&board(&rt, WITH_CELLS));
    must(
        &rt,
        layout.code_of(&board(&rt, WITH_CELLS)) == Some(layout.start_code()),
    );
    must(&rt, layout.code_of(&board(&rt, DEAL_ONE)).is_none());
    let other = Layout::new(&board(&rt, DEAL_ONE));
    must(&rt, other.code_of(&board(&rt, WITH_CELLS)).is_some());
}

//! What a test begins with, from texts and numbers, and what is seen of a search's answer beside what it tells: its moves are
//! made, one after the other, and its table is read. Where a text is no such thing the test fails at once: a function that
//! hands on a fault costs the prover many times as much. (A function that may abort is let stand in tests alone, so none of
//! these is taken from `fc_tests`.)

ghost use Rattle.std.specs.Prelude.{◌≡◌, Ok, IsTrue};
ghost use Rattle.fc_position.specs.Position.{Fits};

use fc_deal::deal;
use fc_methods::GreatBudget;
use fc_moves::{BakersGame, FreeCell, Game, Move, allows, apply};
use fc_position::Position;
use fc_search::{
    BoundKind, Budget, Expansion, HomeRule, Method, MoveList, Strategy, Table, Weight,
};
use fc_text::read_board;
use std::process::Abort;

/// This holds.
pub fn must(rt: &impl Abort, holds: bool)
    ensures holds { IsTrue holds }
{
    if !holds {
        rt.panic("it isn't so");
    }
}

/// What a call gave, which refused nothing.
pub fn sure<T, E>(rt: &impl Abort, told: Result<T, E>) -> T
    ensures value { told ≡ Ok result }
{
    match told {
        Ok(value) => value,
        Err(_) => rt.panic("refused"),
    }
}

/// The position of a board's text, which fits the game.
pub fn board<G: Game>(rt: &impl Abort, game: &G, text: &str) -> Position
    ensures fits { Fits (G.game game.now).cells result }
{
    sure(rt, read_board(text.as_bytes(), game.cells()))
}

/// The position of a numbered deal, which fits the game.
pub fn dealt<G: Game>(rt: &impl Abort, game: &G, number: u32) -> Position
    ensures fits { Fits (G.game game.now).cells result }
{
    let position = deal(number).expect(rt, "a deal is 1 to 1,000,000");
    must(rt, position.fits(game.cells()));
    position
}

/// FreeCell with so many cells.
pub fn free_cell(rt: &impl Abort, cells: u8) -> FreeCell {
    FreeCell::new(cells).expect(rt, "at most four cells")
}

/// Baker's Game with so many cells.
pub fn bakers_game(rt: &impl Abort, cells: u8) -> BakersGame {
    BakersGame::new(cells).expect(rt, "at most four cells")
}

/// The home rule with this number.
pub fn home_rule(rt: &impl Abort, number: u8) -> HomeRule
    ensures value { result ≡ number }
{
    HomeRule::new(number).expect(rt, "a home rule is 0 to 2")
}

/// A budget of so many stored classes.
pub fn budget(rt: &impl Abort, classes: u32) -> Budget
    ensures value { result ≡ classes }
{
    Budget::new(classes).expect(rt, "a budget is 1 to 4,000,000")
}

/// A budget of so many stored classes, of a best answer.
pub fn great_budget(rt: &impl Abort, classes: u32) -> GreatBudget
    ensures value { result ≡ classes }
{
    GreatBudget::new(classes).expect(rt, "a great budget is 1 to 16,000,000")
}

/// A search under this home rule by so many tenths of a bound of this kind, with a budget of so many classes.
pub fn method(rt: &impl Abort, rule: u8, tenths: u8, bound: BoundKind, classes: u32) -> Method {
    Method {
        rule: home_rule(rt, rule),
        bound,
        strategy: Strategy::full(
            Weight::of_tenths(tenths).expect(rt, "a weight is 10 to 100 tenths"),
            great_budget(rt, classes),
        ),
    }
}

/// The same by this expansion.
pub fn expanded(method: Method, expansion: Expansion) -> Method {
    Method {
        strategy: Strategy {
            expansion,
            ..method.strategy
        },
        ..method
    }
}

/// Makes a move, which must be allowed.
pub fn make<G: Game>(rt: &impl Abort, game: &G, position: &mut Position, m: Move) {
    if allows(game, position, m) {
        apply(game, position, m);
    } else {
        must(rt, false);
    }
}

/// The moves are allowed, one after the other, and win.
pub fn check_wins<G: Game>(rt: &impl Abort, game: &G, start: &Position, list: &MoveList) {
    let mut position = start.copy();
    for m in list.as_slice() {
        make(rt, game, &mut position, *m);
    }
    must(rt, position.is_won());
    must(rt, list.is_empty() == (list.len() == 0));
}

/// The table is of this rule, and each key less than the next one.
pub fn check_table(rt: &impl Abort, table: &Table, rule: u8) {
    for i in 1..table.len() {
        must(rt, table.key(i - 1) < table.key(i));
    }
    must(rt, table.rule() == rule);
    must(rt, table.is_empty() == (table.len() == 0));
}

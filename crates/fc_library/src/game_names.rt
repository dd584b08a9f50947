ghost use Rattle.std.specs.Prelude.{◌≡◌, ◌≤◌, ◌↔◌, IsSome, IfSome};
ghost use Rattle.fc_library.specs.Games.{IsNamed, game_named};

use fc_moves::{BakersGame, EitherGame, FreeCell, Game, Kings};

/// The name of a game: its code as certificates tell it, and how many cells there are, 0 to 4. Code 0 is FreeCell, 1 Baker's
/// Game, and 2 more where only kings may go to an empty column.
#[repr(C)]
#[derive(Clone, Copy, Debug, PartialEq, Eq)]
pub struct GameName {
    pub code: u8,
    pub cells: u8,
}

/// Any game, told apart at run time.
pub type AnyGame = EitherGame<
    EitherGame<FreeCell, BakersGame>,
    EitherGame<Kings<FreeCell>, Kings<BakersGame>>,
>;

/// The game of this name; `None` where none has it.
pub fn game_of(name: GameName) -> Option<AnyGame>
    ensures named { IsSome result ↔ IsNamed name }
    ensures value { IfSome result (λ game. ⟦<AnyGame as Game>⟧.game game ≡ game_named name) }
{
    let free_cell = FreeCell::new(name.cells)?;
    let bakers_game = BakersGame::new(name.cells)?;
    match name.code {
        0 => Some(EitherGame::One(EitherGame::One(free_cell))),
        1 => Some(EitherGame::One(EitherGame::Other(bakers_game))),
        2 => Some(EitherGame::Other(EitherGame::One(Kings::new(free_cell)))),
        3 => Some(EitherGame::Other(EitherGame::Other(Kings::new(bakers_game)))),
        _ => None,
    }
}

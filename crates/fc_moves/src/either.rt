ghost use Rattle.fc_moves.specs.Either.{game_of_either};
ghost use Rattle.fc_moves.specs.inner.Either.{either_is_game};

use crate::games::Game;
use arrayvec::ArrayVec;
use fc_cards::Card;

/// One of two games, told apart at run time: what a program does in either is compiled once.
#[derive(Clone, Copy, Debug, PartialEq, Eq)]
pub enum EitherGame<A, B> {
    One(A),
    Other(B),
}

impl<A: Game, B: Game> Game for EitherGame<A, B> {
    ghost game = { game_of_either A.game B.game };

    fn stands(&self, upper: Card, lower: Card) -> bool {
        match self {
            EitherGame::One(game) => game.stands(upper, lower),
            EitherGame::Other(game) => game.stands(upper, lower),
        }
    }

    fn hosts_of(&self, card: Card) -> ArrayVec<Card, 4> {
        match self {
            EitherGame::One(game) => game.hosts_of(card),
            EitherGame::Other(game) => game.hosts_of(card),
        }
    }

    fn opens(&self, card: Card) -> bool {
        match self {
            EitherGame::One(game) => game.opens(card),
            EitherGame::Other(game) => game.opens(card),
        }
    }

    fn cells(&self) -> u8 {
        match self {
            EitherGame::One(game) => game.cells(),
            EitherGame::Other(game) => game.cells(),
        }
    }

    fn code(&self) -> u8 {
        match self {
            EitherGame::One(game) => game.code(),
            EitherGame::Other(game) => game.code(),
        }
    }

    fn copy(&self) -> Self {
        match self {
            EitherGame::One(game) => EitherGame::One(game.copy()),
            EitherGame::Other(game) => EitherGame::Other(game.copy()),
        }
    }

    ghost sound = { either_is_game A.game B.game A.sound B.sound };
}

//! Which game a command is of.
ghost use Rattle.std.specs.Prelude.{◌≤◌};

use crate::output::endings::Ending;
use fc_moves::{BakersGame, EitherGame, FreeCell, Game, Kings};
use fc_words::{GameName, GameWords};

/// What is done in a game, whichever it is.
pub trait InGame {
    /// Does it; the status.
    fn perform<G: Game + Drop>(&self, rt: &HostRuntime, game: &G) -> Result<u8, Ending>;
}

// A game other than FreeCell as it is played most: what is done in one of them is compiled once for all three.
type Other = EitherGame<Kings<FreeCell>, EitherGame<BakersGame, Kings<BakersGame>>>;

/// Does what is asked for in the game that the words name.
pub fn in_game<T: InGame>(rt: &HostRuntime, words: &GameWords, task: &T) -> Result<u8, Ending>
    requires cells { words.now.cells ≤ 4 }
{
    match words.game {
        GameName::FreeCell => {
            let game = FreeCell::new(words.cells).unwrap();
            if words.kings {
                task.perform(rt, &Other::One(Kings::new(game)))
            } else {
                task.perform(rt, &game)
            }
        }
        GameName::Bakers => {
            let game = BakersGame::new(words.cells).unwrap();
            let either = if words.kings {
                EitherGame::Other(Kings::new(game))
            } else {
                EitherGame::One(game)
            };
            task.perform(rt, &Other::Other(either))
        }
    }
}

//! Whether the whole of a list that is refused in one game can be played in the other, with the same cells and kings.

use crate::input::pair_lists::expand_list;
use fc_lists::LONGEST_MOVES;
use fc_moves::{BakersGame, EitherGame, FreeCell, Game, Kings};
use fc_position::Position;
use fc_replay::first_stop;
use fc_words::{GameName, GameWords, ReplayWords};
use std::alloc::Global;

// Any game that words can name: what is done in one of them is compiled once.
type AnyGame = EitherGame<
    EitherGame<FreeCell, Kings<FreeCell>>,
    EitherGame<BakersGame, Kings<BakersGame>>,
>;

/// Says by which word the whole of a list can be played, if it can in the game that the words don't name.
pub fn tell_other_game(rt: &HostRuntime, words: &ReplayWords<'_>, start: &Position, list: &[u8]) {
    let name = match words.game.game {
        GameName::FreeCell => GameName::Bakers,
        GameName::Bakers => GameName::FreeCell,
    };
    let Some(game) = game_of(name, &words.game) else {
        return;
    };
    if plays_whole(rt.alloc(), &game, start, list, words.has_sequences) {
        let name = name.name();
        let _told = eprintln!(rt; "fc_solve: the whole list can be played by --game {name}");
    }
}

// The game of this name, with the cells and the kings of these words.
fn game_of(name: GameName, words: &GameWords) -> Option<AnyGame> {
    let (cells, kings) = (words.cells, words.kings);
    Some(match name {
        GameName::FreeCell => EitherGame::One(with_kings(FreeCell::new(cells)?, kings)),
        GameName::Bakers => EitherGame::Other(with_kings(BakersGame::new(cells)?, kings)),
    })
}

// A game, or the same but that only kings may go to an empty column.
fn with_kings<G: Game>(game: G, kings: bool) -> EitherGame<G, Kings<G>> {
    if kings {
        EitherGame::Other(Kings::new(game))
    } else {
        EitherGame::One(game)
    }
}

// Whether a whole list can be played in a game.
fn plays_whole<G: Game>(
    alloc: Global,
    game: &G,
    start: &Position,
    list: &[u8],
    has_sequences: bool,
) -> bool {
    if list.len() > LONGEST_MOVES || !start.fits(game.cells()) {
        return false;
    }
    if has_sequences {
        expand_list(alloc, game, start, list).is_ok()
    } else {
        first_stop(game, start, list).is_none()
    }
}

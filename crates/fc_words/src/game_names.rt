ghost use Rattle.std.specs.Prelude.{◌≡◌, IfSome, IfNone};
ghost use Rattle.fc_words.specs.Names.{game_name};
ghost use Rattle.fc_words.specs.declared.game_names.GameName.{GameName};

use crate::name_places::place_of;

/// A game by its name; kings alone on empty columns, and the number of cells, are words of their own.
#[derive(Clone, Copy)]
pub enum GameName {
    /// Columns in turning colours.
    FreeCell,
    /// Columns in suit.
    Bakers,
}

impl GameName {
    /// Each game's name, in the order of the games; the first is meant where none is told.
    pub const NAMES: [&'static str; 2] = ["freecell", "bakers"];

    /// The games.
    pub const ALL: [GameName; 2] = [GameName::FreeCell, GameName::Bakers];

    /// The game's name.
    pub fn name(self) -> &'static str
        ensures value { result.now ≡ game_name self }
    {
        GameName::NAMES[self as usize]
    }

    /// The game of this name; `None` where it is none's.
    pub fn of_name(name: &str) -> Option<GameName>
        ensures named { IfSome result (λ game. game_name game ≡ name.now) }
        ensures unknown { IfNone result ((game : GameName) → game_name game ≡ name.now → ⊥) }
    {
        let place = place_of(GameName::NAMES.as_slice(), name)?;
        GameName::ALL.get(place).copied()
    }
}

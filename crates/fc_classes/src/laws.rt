//! Laws of the definitions, each the contract of a function that does nothing.

ghost use Rattle.fc_position.specs.Board.{Board};
ghost use Rattle.fc_classes.specs.Namings.{by_keys, by_codes};
ghost use Rattle.fc_classes.specs.Laws.{KeysAreNames, CodesAreNames, KeysSpellWhatCodesDo, ReachedNamesAreOfPositions, ReachedNamesAreRunTo, ClassesAreLawful};

/// Keys name the classes of each game.
pub fn keys_are_names()
    ensures { KeysAreNames }
{}

/// Codes, as seen from a position of the game, name the classes from there.
pub fn codes_are_names()
    ensures { CodesAreNames }
{}

/// The key of the board that a code spells spells that board too.
pub fn keys_spell_what_codes_do()
    ensures { KeysSpellWhatCodesDo }
{}

/// A name that is reached spells a canonical position of the game, in which no card goes home by the rule.
pub fn reached_names_are_of_positions()
    ensures keys { ReachedNamesAreOfPositions by_keys }
    ensures codes { (s : Board) → ReachedNamesAreOfPositions (by_codes s) }
{}

/// To a position of a class that is reached at a cost, a list of so many moves leads.
pub fn reached_names_are_run_to()
    ensures keys { ReachedNamesAreRunTo by_keys }
    ensures codes { (s : Board) → ReachedNamesAreRunTo (by_codes s) }
{}

/// A search of the classes answers what lists of moves can do: a won class that is reached at a cost is won by a list of
/// so many moves, and a table that is closed inside a number leaves no shorter list that wins.
pub fn classes_are_lawful()
    ensures keys { ClassesAreLawful by_keys }
    ensures codes { (s : Board) → ClassesAreLawful (by_codes s) }
{}

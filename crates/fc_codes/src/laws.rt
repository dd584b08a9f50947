//! Laws of codes, each the contract of a function that does nothing.

ghost use Rattle.fc_codes.specs.Laws.{StartsHaveCodes, MovesChangeOneState, RunsKeepCodes, CodesAreOne, CodesTellClasses, CodesSpellBoards, CodesSpellBoardsOfGames, SuitsTellWhatIsStoodOn};

/// The position at the start has a code.
pub fn starts_have_codes()
    ensures { StartsHaveCodes }
{}

/// A move changes the state of the card that moves, and no other.
pub fn moves_change_one_state()
    ensures { MovesChangeOneState }
{}

/// Each board that a list of moves leads to has a code.
pub fn runs_keep_codes()
    ensures { RunsKeepCodes }
{}

/// A position has one code at most.
pub fn codes_are_one()
    ensures { CodesAreOne }
{}

/// Two codes are the same exactly where they are of positions of one class.
pub fn codes_tell_classes()
    ensures { CodesTellClasses }
{}

/// A position's code spells the canonical board of its class, which is a position, and has the same code.
pub fn codes_spell_boards()
    ensures { CodesSpellBoards }
{}

/// Where a position of the game has the code, the board that the code spells is one too.
pub fn codes_spell_boards_of_games()
    ensures { CodesSpellBoardsOfGames }
{}

/// A card may stand on four cards at most, those one rank higher, which their suits tell apart.
pub fn suits_tell_what_is_stood_on()
    ensures { SuitsTellWhatIsStoodOn }
{}

//! Laws of the rules, each the contract of a function that does nothing.

ghost use Rattle.fc_moves.specs.Laws.{StepsKeepPositions, RunsKeepPositions, MovesLeadToOneBoard, ListsLeadToOneBoard, HomeStaysHome, AllowedMovesHaveTexts, TextsTellMovesApart, ClassesAreEquivalences, ClassMatesArePositions, ClassMatesStepAlike, ClassMatesWinAlike};

/// A step from a position that fits the game leads to a position that fits it.
pub fn steps_keep_positions()
    ensures { StepsKeepPositions }
{}

/// A list of moves from a position that fits the game leads to a position that fits it.
pub fn runs_keep_positions()
    ensures { RunsKeepPositions }
{}

/// A move leads from a board to one board at most.
pub fn moves_lead_to_one_board()
    ensures { MovesLeadToOneBoard }
{}

/// A list of moves leads from a board to one board at most.
pub fn lists_lead_to_one_board()
    ensures { ListsLeadToOneBoard }
{}

/// A card that is home stays home.
pub fn home_stays_home()
    ensures { HomeStaysHome }
{}

/// A move that is allowed in a position has a text.
pub fn allowed_moves_have_texts()
    ensures { AllowedMovesHaveTexts }
{}

/// No text is of two moves.
pub fn texts_tell_moves_apart()
    ensures { TextsTellMovesApart }
{}

/// A board is of its own class, and to be of one class may be turned round and joined.
pub fn classes_are_equivalences()
    ensures { ClassesAreEquivalences }
{}

/// A board of a position's class is a position.
pub fn class_mates_are_positions()
    ensures { ClassMatesArePositions }
{}

/// Two positions of one class, both of which fit the game, step to positions of the same classes.
pub fn class_mates_step_alike()
    ensures { ClassMatesStepAlike }
{}

/// Some list of so many moves wins from the one of two positions of one class, both of which fit the game, exactly
/// where some list of as many wins from the other.
pub fn class_mates_win_alike()
    ensures { ClassMatesWinAlike }
{}

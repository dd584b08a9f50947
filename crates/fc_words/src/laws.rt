//! Laws of the names.
ghost use Rattle.fc_words.specs.Laws.{BoundsHaveTheirOwnNames, ColoursHaveTheirOwnNames, ExpansionsHaveTheirOwnNames, GamesHaveTheirOwnNames, NumbersAreTold, TasksHaveTheirOwnNames};

/// No two games have one name.
pub fn games_have_their_own_names()
    ensures { GamesHaveTheirOwnNames }
{}

/// No two bounds have one name.
pub fn bounds_have_their_own_names()
    ensures { BoundsHaveTheirOwnNames }
{}

/// No two expansions have one name.
pub fn expansions_have_their_own_names()
    ensures { ExpansionsHaveTheirOwnNames }
{}

/// No two choices of colours have one name.
pub fn colours_have_their_own_names()
    ensures { ColoursHaveTheirOwnNames }
{}

/// No two subcommands have one name.
pub fn tasks_have_their_own_names()
    ensures { TasksHaveTheirOwnNames }
{}

/// A game has at most four cells.
pub fn numbers_are_told()
    ensures { NumbersAreTold }
{}

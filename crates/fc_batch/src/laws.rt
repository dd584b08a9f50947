//! Laws of the definitions, each the contract of a function that does nothing.

ghost use Rattle.fc_batch.specs.Laws.{SearchesTurnAlone, NumbersStay, QuietTurnsEnd};

/// After turns for the numbers of a list, each search has had as many as its number stands there, as if it were alone.
pub fn searches_turn_alone()
    ensures { SearchesTurnAlone }
{}

/// Turns take no number away and give none.
pub fn numbers_stay()
    ensures { NumbersStay }
{}

/// Where no reply was `Running`, no search with one of the numbers runs.
pub fn quiet_turns_end()
    ensures { QuietTurnsEnd }
{}

//! Laws of the definitions, each the contract of a function that does nothing.

ghost use Rattle.fc_board_runs.specs.Laws.{NumbersAreTold};

/// A board's text has at most 4,096 bytes.
pub fn numbers_are_told()
    ensures { NumbersAreTold }
{}

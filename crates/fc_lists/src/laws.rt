//! Laws of the definitions, each the contract of a function that does nothing.

ghost use Rattle.fc_lists.specs.Laws.{NumbersAreTold};

/// A list of moves has at most 1 MiB, 1,048,576 bytes.
pub fn numbers_are_told()
    ensures { NumbersAreTold }
{}

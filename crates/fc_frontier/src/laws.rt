//! Laws of the definitions, each the contract of a function that does nothing.

ghost use Rattle.fc_frontier.specs.Laws.{AddsCountOnce};

/// Where one pair is added to others, in whatever order, it stands there once more, and every other pair as often as
/// before.
pub fn adds_count_once()
    ensures { AddsCountOnce }
{}

//! Laws of the definitions, each the contract of a function that does nothing.

ghost use Rattle.fc_best_first.specs.Laws.{NumbersAreTold, OpenFloorsHold};

use crate::spaces::Space;
use fc_keys::ExactKey;

/// In a search that found a won key or gave up, where each stored key but the one that it ended at is open or done with: each
/// whose cost plus the number shown of it, counted once, is below the least that the open ones and that one tell is covered below it,
/// and no answer is below that floor.
pub fn open_floors_hold<K: ExactKey, S: Space<K> + Drop>(space: &S)
    ensures { OpenFloorsHold (S.graph space.now) }
{}

/// A budget is of at most 4,000,000 stored keys, one that several searches share of at most 16,000,000, and a weight of at most 10,
/// in tenths.
pub fn numbers_are_told()
    ensures { NumbersAreTold }
{}

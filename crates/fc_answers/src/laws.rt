//! Laws of the definitions, each the contract of a function that does nothing.

ghost use Rattle.fc_answers.specs.Laws.{NumbersAreTold, OnlyGivingUpIsUncertified, RisingRowsHaveKeysOnce, RisingRowsListClassesOnce};

/// Rising rows of keys of the game list no class twice: no two of their keys spell boards of one class.
pub fn rising_rows_list_classes_once()
    ensures { RisingRowsListClassesOnce }
{}

/// Rising rows have no key twice.
pub fn rising_rows_have_keys_once()
    ensures { RisingRowsHaveKeysOnce }
{}

/// Only giving up is uncertified: a backed answer has no table exactly where its verdict gave up.
pub fn only_giving_up_is_uncertified()
    ensures { OnlyGivingUpIsUncertified }
{}

/// A table lists at most 16,000,000 classes, and a list that is answered has at most 16,001,000 moves.
pub fn numbers_are_told()
    ensures { NumbersAreTold }
{}

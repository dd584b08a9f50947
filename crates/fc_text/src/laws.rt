//! Laws of the definitions, each the contract of a function that does nothing.

ghost use Rattle.fc_text.specs.Laws.{TextsHaveOneFault, TextsSpellOnePosition, TextsThatSpellHaveNoFault};

/// No text spells two positions.
pub fn texts_spell_one_position()
    ensures { TextsSpellOnePosition }
{}

/// No text that spells a position has a fault.
pub fn texts_that_spell_have_no_fault()
    ensures { TextsThatSpellHaveNoFault }
{}

/// No text has two faults.
pub fn texts_have_one_fault()
    ensures { TextsHaveOneFault }
{}

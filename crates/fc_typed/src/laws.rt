//! Laws of the definitions, each the contract of a function that does nothing.

ghost use Rattle.fc_typed.specs.Laws.{CardsAreRead, HomesAreRead, MeaningsStay, NumbersAreColumns, NumbersAreTold, TidyLinesAreTyped, TidyTextsGrowByHalf, SpelledTextsStay};

/// A tidy text has at most half as many bytes again as the text that it stands for, and so has a text in UTF-8 beside the
/// same in UTF-16.
pub fn tidy_texts_grow_by_half()
    ensures { TidyTextsGrowByHalf }
{}

/// Where the tidy text spells a position, a line that was numbered n is the n-th column line, and its cards are the
/// n-th column.
pub fn numbers_are_columns()
    ensures { NumbersAreColumns }
{}

/// A text that spells a position is tidy already.
pub fn spelled_texts_stay()
    ensures { SpelledTextsStay }
{}

/// Where a text spells a position once its signs are replaced and its columns have lost their numbers, nothing else changes,
/// so it spells that position.
pub fn meanings_stay()
    ensures { MeaningsStay }
{}

/// Of a text in bytes, each line of its tidy text is made of one typed line, in their order, so a number counts both.
pub fn tidy_lines_are_typed()
    ensures { TidyLinesAreTyped }
{}

/// The text of a card that is told by its suit first is respelled as one that the reader takes for the card.
pub fn cards_are_read()
    ensures { CardsAreRead }
{}

/// The text of a foundation's last card, in either order, is respelled as one that the reader takes for the foundation.
pub fn homes_are_read()
    ensures { HomesAreRead }
{}

/// A text that is made tidy has at most 16,384 bytes.
pub fn numbers_are_told()
    ensures { NumbersAreTold }
{}

//! Laws of the definitions, each the contract of a function that does nothing.

ghost use Rattle.fc_cards.specs.Laws.{CardsAreRanksAndSuits, TextsSpellOneCard, TextsReadBack};

/// A card is its rank and its suit: ranks are 1 to 13, suits below 4, and the number is made of the two.
pub fn cards_are_ranks_and_suits()
    ensures { CardsAreRanksAndSuits }
{}

/// No text spells two cards.
pub fn texts_spell_one_card()
    ensures { TextsSpellOneCard }
{}

/// A card's text spells the card.
pub fn texts_read_back()
    ensures { TextsReadBack }
{}

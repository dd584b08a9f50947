ghost use Rattle.std.specs.Prelude.{◌≡◌};
ghost use Rattle.fc_show.specs.Drawing.{mark_of, style_without_mark};

use fc_cards::Card;

/// How the cards of a board are drawn.
#[derive(Clone, Copy, Debug, PartialEq, Eq)]
pub struct Style {
    /// Whether red suits are in red, as terminals take it.
    pub is_coloured: bool,
    /// The card that has a mark in place of the blank before it, such as the one that moved.
    pub marked: Option<Card>,
}

impl Style {
    /// Without a mark, in colours or not.
    pub fn unmarked(is_coloured: bool) -> Style
        ensures value { result ≡ style_without_mark is_coloured }
    {
        Style {
            is_coloured,
            marked: None,
        }
    }

    // What stands before a card.
    pub(crate) fn mark_of(&self, card: Card) -> u8
        ensures value { result ≡ mark_of self.now.marked card }
    {
        match self.marked {
            Some(marked) if marked == card => b'>',
            _ => b' ',
        }
    }
}

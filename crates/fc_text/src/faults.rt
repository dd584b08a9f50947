use fc_cards::Card;
use thiserror::Error;

/// Why a text is no board. Lines count from 1.
#[derive(Clone, Copy, Debug, PartialEq, Eq, Error)]
pub enum BoardFault {
    /// The text has more than 4,096 bytes.
    #[error("too long")]
    TooLong,
    /// A token of the line's column or cells is no card.
    #[error("line {0}: not a card")]
    BadCard(u32),
    /// A token of the line is no foundation, or tells of a suit again.
    #[error("line {0}: not a foundation")]
    BadFoundation(u32),
    /// The line has more tokens than the game has cells.
    #[error("line {0}: too many cells")]
    TooManyCells(u32),
    /// The line has cards, and eight column lines stand before it.
    #[error("line {0}: too many columns")]
    TooManyColumns(u32),
    /// The line tells of the foundations, or of the cells, again.
    #[error("line {0}: repeated")]
    RepeatedLine(u32),
    /// The card with the lowest number that has two places or more.
    #[error("card {0} stands twice")]
    RepeatedCard(Card),
    /// The card with the lowest number that has no place.
    #[error("card {0} is missing")]
    MissingCard(Card),
}

/// What is wrong with a line, in the order in which faults of one line come.
#[derive(Clone, Copy, Debug, PartialEq, Eq)]
pub(crate) enum LineFault {
    BadCard,
    BadFoundation,
    TooManyCells,
    TooManyColumns,
    RepeatedLine,
}

use fc_cards::Card;
use thiserror::Error;

/// Why cards in columns, in cells and at home are no position. The card with the lowest number is named, and a card
/// that stands twice comes before one that is missing.
#[derive(Clone, Copy, Debug, PartialEq, Eq, Error)]
pub enum PartsFault {
    /// The card has two places or more.
    #[error("card {0} stands twice")]
    Repeated(Card),
    /// The card has no place.
    #[error("card {0} is missing")]
    Missing(Card),
}

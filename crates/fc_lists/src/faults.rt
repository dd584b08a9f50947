/// Why the entries of a list aren't played. Steps count from 1.
#[derive(Clone, Copy, Debug, PartialEq, Eq)]
pub enum PlayFault {
    /// The token of the step is no entry.
    NoEntry(u32),
    /// The entry of the step can't be played, with whatever number of cards.
    NotAllowed(u32),
    /// The entries up to the step lead to more than 1,000 boards, since how many cards go to empty columns isn't told.
    TooManyWays(u32),
    /// The list has so many entries, which are fewer than are asked of.
    ListEnds(u32),
    /// The entries come to more than 4,294,967,295 one-card moves.
    TooLong,
    /// A growth of memory was refused.
    Memory,
}

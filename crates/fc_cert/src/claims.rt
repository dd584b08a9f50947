/// What a certificate claims of a position.
#[derive(Clone, Copy, Debug, PartialEq, Eq)]
pub enum Claim {
    /// Some list of so many moves wins, and no list that wins is shorter.
    Shortest(u32),
    /// No list of moves wins.
    CannotWin,
    /// No list of fewer moves than the floor wins, and some list of so many moves does.
    Between { floor: u32, moves: u32 },
}

ghost use Rattle.std.specs.Prelude.{◌≡◌};
ghost use Rattle.fc_library.specs.Figures.{claimed_outcome, figures_of};

use crate::numbers::{KIND_CANNOT_WIN, KIND_GAVE_UP, KIND_NONE, KIND_SHORTEST, KIND_WON};
use fc_answers::Outcome;
use fc_cert::Claim;

/// An answer, or a claim, in numbers.
#[repr(C)]
#[derive(Clone, Copy, Debug, PartialEq, Eq)]
pub struct Figures {
    /// Which kind it is of: one of the numbers `KIND_..`.
    pub kind: u32,
    /// How many moves the list that wins has; 0 where none is told.
    pub moves: u32,
    /// Each list that wins has at least so many moves, of a shortest one as many as it has; 0 where no list is told.
    pub floor: u32,
    /// More positions than so many can be reached, of giving up; else 0.
    pub budget: u32,
}

/// The numbers of an answer without its moves, or of none.
pub fn figures_of(told: Option<Outcome>) -> Figures
    ensures value { result ≡ figures_of told }
{
    let (kind, moves, floor, budget) = match told {
        Some(Outcome::Shortest(moves)) => (KIND_SHORTEST, moves, moves, 0),
        Some(Outcome::Won { moves, floor }) => (KIND_WON, moves, floor, 0),
        Some(Outcome::CannotWin) => (KIND_CANNOT_WIN, 0, 0, 0),
        Some(Outcome::GaveUp(budget)) => (KIND_GAVE_UP, 0, 0, budget),
        None => (KIND_NONE, 0, 0, 0),
    };
    Figures {
        kind,
        moves,
        floor,
        budget,
    }
}

/// What a claim tells, as an answer without its moves does.
pub fn claimed_outcome(claim: Claim) -> Outcome
    ensures value { result ≡ claimed_outcome claim }
{
    match claim {
        Claim::Shortest(moves) => Outcome::Shortest(moves),
        Claim::Between { floor, moves } => Outcome::Won { moves, floor },
        Claim::CannotWin => Outcome::CannotWin,
    }
}

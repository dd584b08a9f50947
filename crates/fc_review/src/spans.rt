//! What is known along a list so far, and which of its boards to ask next.

ghost use Rattle.std.specs.Prelude.{◌≡◌, ◌≤◌, ◌<◌, ◌^◌, ℕ, List, [], ◌∷◌, ◌++◌, MatchOption};
ghost use Rattle.fc_review.specs.Review.{first_behind};
ghost use Rattle.fc_review.specs.declared.known_boards.KnownBoard.{KnownBoard};
ghost use Rattle.fc_review.specs.inner.Span.{AreJoined, AreKeptBefore, AreKeptBehind, IsClosed, IsKnownBy, LiesIn, left_in};

use crate::known_boards::KnownBoard;
use crate::reviews::Review;
use fc_answers::Verdict;

// Boards whose searches gave up: the first and the last of those between a won board and a lost one.
#[derive(Clone, Copy)]
pub(crate) struct Open {
    first: usize,
    last: usize,
}

// What is known by the boards that were asked.
#[derive(Drop)]
pub(crate) struct Span {
    // The last won one.
    won: Option<KnownBoard>,
    // Those behind it that gave up, before the first lost one.
    between: Option<Open>,
    // How many moves lead to the first lost one.
    lost: Option<usize>,
}

impl Span {
    // What is known by the last board of a list.
    pub(crate) fn of_last(last: KnownBoard) -> Span
        ensures span { IsKnownBy (last ∷ []) last.after result }
    {
        let after = last.after;
        match last.verdict {
            Verdict::CannotWin => Span {
                won: None,
                between: None,
                lost: Some(after),
            },
            Verdict::GaveUp(_) => Span {
                won: None,
                between: Some(Open {
                    first: after,
                    last: after,
                }),
                lost: None,
            },
            _ => Span {
                won: Some(last),
                between: None,
                lost: None,
            },
        }
    }

    // The board to ask next, by how many moves lead to it: first one before the first lost one, up to the last that isn't.
    pub(crate) fn next(&self) -> Option<usize>
        requires span { (asked : List KnownBoard) × (count : ℕ) × (count < 2 ^ 64) × IsKnownBy asked count self.now }
        ensures next { MatchOption result (IsClosed (first_behind self.now.won) self.now.between self.now.lost) (LiesIn self.now) }
    {
        match (self.between, self.lost) {
            (None, None) => None,
            (None, Some(lost)) => middle(self.low(), lost),
            (Some(open), None) => middle(self.low(), open.first),
            (Some(open), Some(lost)) => match middle(open.last + 1, lost) {
                Some(after) => Some(after),
                None => middle(self.low(), open.first),
            },
        }
    }

    // How many moves lead to the board behind the last won one, or to the first board.
    fn low(&self) -> usize
        requires few { first_behind self.now.won < 2 ^ 64 }
        ensures value { result ≡ first_behind self.now.won }
    {
        match &self.won {
            Some(won) => won.after + 1,
            None => 0,
        }
    }

    // What is known once a board was asked that lies between.
    pub(crate) fn with(self, known: KnownBoard) -> Span
        ensures span { (asked : List KnownBoard) (count : ℕ) → IsKnownBy asked count self → LiesIn self known.after
            → IsKnownBy (asked ++ known ∷ []) count result }
        ensures less { (asked : List KnownBoard) (count : ℕ) → IsKnownBy asked count self → LiesIn self known.after → left_in result < left_in self }
    {
        let Span { won, between, lost } = self;
        let after = known.after;
        match known.verdict {
            Verdict::CannotWin => Span {
                won,
                between: open_before(between, after),
                lost: Some(after),
            },
            Verdict::GaveUp(_) => Span {
                won,
                between: Some(open_with(between, after)),
                lost,
            },
            _ => Span {
                won: Some(known),
                between: open_behind(between, after),
                lost,
            },
        }
    }

    // What is known in the end.
    pub(crate) fn review(self) -> Review
        ensures won { result.won ≡ self.won }
        ensures lost { result.lost ≡ self.lost }
    {
        Review {
            won: self.won,
            lost: self.lost,
        }
    }
}

// The number in the middle, from the first on, below the second.
fn middle(low: usize, high: usize) -> Option<usize>
    ensures middle { MatchOption result (high ≤ low) (λ n. (low ≤ n) × (n < high)) }
{
    if low < high {
        Some(low + (high - low) / 2)
    } else {
        None
    }
}

// The open boards, where they are behind a board that is won.
fn open_behind(boards: Option<Open>, won: usize) -> Option<Open>
    ensures kept { AreKeptBehind boards won result }
{
    match boards {
        Some(open) if won < open.first => Some(open),
        _ => None,
    }
}

// The open boards, where they are before a board that is lost.
fn open_before(boards: Option<Open>, lost: usize) -> Option<Open>
    ensures kept { AreKeptBefore boards lost result }
{
    match boards {
        Some(open) if open.last < lost => Some(open),
        _ => None,
    }
}

// The open boards with another one, before or behind them.
fn open_with(boards: Option<Open>, after: usize) -> Open
    ensures joined { AreJoined boards after result }
{
    let Some(open) = boards else {
        return Open {
            first: after,
            last: after,
        };
    };
    if after < open.first {
        Open {
            first: after,
            last: open.last,
        }
    } else {
        Open {
            first: open.first,
            last: after,
        }
    }
}

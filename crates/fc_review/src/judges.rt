//! What is known of the boards along a list, whoever knows it: the last won one and the first lost one, found by halving.

ghost use Rattle.std.specs.Prelude.{◌≡◌, ◌≤◌, ℕ, List, IfOk};
ghost use Rattle.fc_review.specs.Review.{IsTraceOf, SaysAll};
ghost use Rattle.fc_review.specs.declared.known_boards.KnownBoard.{KnownBoard};

use crate::known_boards::KnownBoard;
use crate::reviews::Review;
use crate::spans::Span;
use std::alloc::AllocError;

/// Who knows best verdicts of the boards along a list of moves.
pub trait Judge {
    ghost use Rattle.std.specs.Prelude.{◌≡◌, ℕ, IfOk};
    ghost use Rattle.fc_review.specs.declared.known_boards.KnownBoard.{KnownBoard};

    /// Whether it can be asked of the board after so many moves.
    ghost can: { Self → ℕ → Type 0 };

    /// What it says of a board, and what it is afterwards.
    ghost says: { Self → KnownBoard → Self → Type 0 };

    /// What is known of the board after so many moves.
    ///
    /// # Errors
    /// A growth was refused.
    fn judge(&mut self, after: usize) -> Result<KnownBoard, AllocError>
        requires can { can self.old after }
        ensures says { IfOk result (λ known. says self.old known self.new) }
        ensures after { IfOk result (λ known. known.after ≡ after) }
        ensures still { (n : ℕ) → can self.old n → can self.new n };
}

/// What is known of a list of so many moves by the boards that are asked: the last one from which a list is told that wins, and the
/// first one from which none does. The last board of all is asked, and then, by halving, others between the two, until those beside
/// them are asked; a board that is known to be won or lost is forgotten at no time.
///
/// # Errors
/// A growth was refused.
pub fn trace<J: Judge>(judge: &mut J, count: usize) -> Result<Review, AllocError>
    requires can { (n : ℕ) → n ≤ count → J.can judge.old n }
    ensures trace { IfOk result (λ review. (asked : List KnownBoard) × SaysAll J.says judge.old asked judge.new × IsTraceOf asked count review) }
{
    let last = judge.judge(count)?;
    let mut span = Span::of_last(last);
    while let Some(after) = span.next() {
        let known = judge.judge(after)?;
        span = span.with(known);
    }
    Ok(span.review())
}

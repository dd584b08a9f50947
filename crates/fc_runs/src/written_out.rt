//! The runs that the product's definition writes out word for word: what the others do, of a question of a shortest list, or of a board
//! that a source gives.

ghost use Rattle.std.specs.Prelude.{◌≡◌, ◌+◌, ◌≤◌, Some, None, IfOk, IfErr, OnOk};
ghost use Rattle.fc_io.specs.Moves.{GivesAtMost};
ghost use Rattle.fc_best_first.specs.Limits.{IsBudget};
ghost use Rattle.fc_methods.specs.Method.{shortest_asked};
ghost use Rattle.fc_board_runs.specs.Devices.{IsHandedBack, change, lent};
ghost use Rattle.fc_runs.specs.Batches.{IsBatched, IsBatchFault};
ghost use Rattle.fc_runs.specs.Checking.{IsChecked, IsRefusal};
ghost use Rattle.fc_runs.specs.Solving.{IsSolveFault, IsSolved};

use crate::checking::run_check_of;
use crate::deal_batches::{deals_of, run_answers};
use crate::delivering::{certify, tell};
use fc_best::Unheard;
use fc_board_runs::{LONGEST_BOARD, ProgramFault, read_position};
use fc_cert::LONGEST_CERTIFICATE;
use fc_home::GREATEST_RULE;
use fc_io::{Sink, Source};
use fc_methods::{Budget, HomeRule, Question};
use fc_moves::Game;
use std::alloc::Global;

/// Reads a board of the game, searches it under a home rule of at most 2 with at most `budget` stored classes, and writes one
/// of three answers: the moves of a shortest list that wins, that no list of moves wins, or that more than `budget` positions
/// can be reached. The status tells which: 0, 1 or 2. Where `cert` is given, the certificate of the answer is written to it
/// first, whole; giving up has none. Without it no table of classes is made.
///
/// # Errors
/// In this order: a budget outside 1 to 4,000,000; a board that can't be read; a text that is none of the game; want of
/// memory; a certificate that can't be written, of which a front may be written; an answer that can't be written, of which
/// a front may be written after its whole certificate. After any other fault nothing is.
pub fn run_solve<G: Game + Drop, S: Source, K: Sink, C: Sink>(
    alloc: Global,
    game: &G,
    rule: u8,
    board: &mut S,
    budget: u32,
    out: &mut K,
    cert: Option<&mut C>,
) -> Result<u8, ProgramFault>
    requires rule { rule ≤ GREATEST_RULE }
    ensures answered { IfOk result (IsSolved (shortest_asked (G.game game.now) rule budget) (change S.told S.has_failed board.old board.new)
        (lent C.held C.has_failed cert.entry cert.exit) (change K.held K.has_failed out.old out.new)) }
    ensures fault { IfErr result (IsSolveFault (shortest_asked (G.game game.now) rule budget) (change S.told S.has_failed board.old board.new)
        (lent C.held C.has_failed cert.entry cert.exit) (change K.held K.has_failed out.old out.new)) }
    ensures taken { GivesAtMost (S.told board.old) (S.told board.new) (LONGEST_BOARD + 1) }
    ensures back { IsHandedBack cert.entry cert.exit }
{
    let question = shortest(game, HomeRule::new(rule).unwrap(), budget)?;
    let start = read_position(board, game.cells())?;
    match cert {
        Some(cert) => certify(alloc, &question, &start, out, cert, &mut Unheard),
        None => tell(alloc, &question, &start, out, &mut Unheard),
    }
}

/// Searches the deals `from` to `to` of the game, which take turns, one turn each in rising order again and again, under a home
/// rule of at most 2, each with at most `budget` stored classes. Writes a line for each, rising: its number, and its answer
/// with the number of its moves, or `want of memory`. The status is the greatest of theirs: 0 for a shortest solution, 1 where
/// a deal can't be won, 2 on giving up, 4 for want of memory.
///
/// # Errors
/// In this order: a number outside 1 to 1,000,000, `from` before `to`; no deal or more than 32; a budget outside 1 to
/// 4,000,000; want of memory before the first turn; lines that can't be written, of which a front may be. After any other
/// fault nothing is written.
pub fn run_batch<G: Game + Drop, K: Sink>(
    alloc: Global,
    game: &G,
    rule: u8,
    from: u32,
    to: u32,
    budget: u32,
    out: &mut K,
) -> Result<u8, ProgramFault>
    requires rule { rule ≤ GREATEST_RULE }
    ensures batched { IfOk result (IsBatched (shortest_asked (G.game game.now) rule budget) from to (change K.held K.has_failed out.old out.new)) }
    ensures fault { IfErr result (IsBatchFault (shortest_asked (G.game game.now) rule budget) from to (change K.held K.has_failed out.old out.new)) }
{
    deals_of(from, to)?;
    let question = shortest(game, HomeRule::new(rule).unwrap(), budget)?;
    run_answers(alloc, &question, from, to, out)
}

/// Reads a board of the game and a certificate, and writes the claim that the certificate proves of the board. The status
/// is 0. Nothing is searched.
///
/// # Errors
/// In this order: a board that can't be read; a text that is none of the game; a certificate that can't be read, is longer
/// than 1 GiB, or want of memory, whichever is met first; the first thing that is asked of a certificate and doesn't hold,
/// or want of memory; a text that can't be written, of which a front may be. After any other fault nothing is written.
pub fn run_check<G: Game, B: Source, C: Source, K: Sink>(
    alloc: Global,
    game: &G,
    board: &mut B,
    cert: &mut C,
    out: &mut K,
) -> Result<u8, ProgramFault>
    ensures checked { IfOk result (IsChecked (G.game game.now)
        (change B.told B.has_failed board.old board.new)
        (change C.told C.has_failed cert.old cert.new)
        (change K.held K.has_failed out.old out.new)) }
    ensures fault { IfErr result (IsRefusal (G.game game.now)
        (change B.told B.has_failed board.old board.new)
        (change C.told C.has_failed cert.old cert.new)
        (change K.held K.has_failed out.old out.new)) }
    ensures taken_board { GivesAtMost (B.told board.old) (B.told board.new) (LONGEST_BOARD + 1) }
    ensures taken_cert { GivesAtMost (C.told cert.old) (C.told cert.new) (LONGEST_CERTIFICATE + 1) }
{
    let start = read_position(board, game.cells())?;
    run_check_of(alloc, game, &start, cert, out)
}

// The question of a shortest list; `Budget` where the budget is none.
fn shortest<G: Game + Drop>(
    game: &G,
    rule: HomeRule,
    budget: u32,
) -> Result<Question<G>, ProgramFault>
    ensures question { IfOk result (λ question. question ≡ shortest_asked (G.game game.now) rule budget) }
    ensures budgeted { OnOk result (IsBudget budget) }
    ensures fault { IfErr result (λ fault. (fault ≡ ProgramFault.Budget) × (IsBudget budget → ⊥)) }
{
    match Budget::new(budget) {
        Some(budget) => Ok(Question::shortest(game, rule, budget)),
        None => Err(ProgramFault::Budget),
    }
}

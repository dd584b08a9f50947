//! What a question asks of a position, answered in one way whatever is sought.

ghost use Rattle.std.specs.Prelude.{◌≡◌, None, IfOk, IsTrue};
ghost use Rattle.fc_position.specs.Position.{Fits};
ghost use Rattle.fc_answers.specs.Verdict.{CanBeWritten};
ghost use Rattle.fc_search.specs.Problem.{problem_of};
ghost use Rattle.fc_best.specs.Answering.{HearsOfThem, HearsVerdict, IsCertifiable, IsSought, IsVerdictFor};

use crate::schedule::best;
use fc_answers::Answer;
use fc_methods::{Question, Sought};
use fc_moves::Game;
use fc_position::Position;
use fc_search::{Listener, decide_by, solve_by};
use std::alloc::{AllocError, Global};

/// What is wanted of an answer: its verdict alone, or the table of classes too by which it is certified.
#[derive(Clone, Copy, Debug, PartialEq, Eq)]
pub enum Wants {
    Verdict,
    Table,
}

/// The answer of a question for a position that fits its game: what one search by its method answers, or the best answer that several
/// give, as the question seeks. A table is made where it is wanted, and only there; the answer can then be certified. The listener hears how far
/// they are, while they run and when they end, also where memory ends them: of the very searches that are answered.
///
/// # Errors
/// A growth was refused.
pub fn answer<G: Game + Drop, L: Listener>(
    alloc: Global,
    question: &Question<G>,
    position: &Position,
    wants: Wants,
    listener: &mut L,
) -> Result<Answer, AllocError>
    requires fits { Fits question.now.game.cells position.now }
    ensures right { IfOk result (λ answer. IsVerdictFor question.now position.now answer.verdict) }
    ensures written { IfOk result (λ answer. CanBeWritten answer.verdict) }
    ensures certifiable { wants ≡ Wants.Table → IfOk result (IsCertifiable (problem_of question.now position.now)) }
    ensures bare { wants ≡ Wants.Verdict → IfOk result (λ answer. answer.table ≡ None) }
    ensures heard { HearsOfThem L.hears question.now.sought question.now position.now listener.old listener.new }
    ensures ended { IfOk result (λ answer. HearsVerdict L.hears question.now.sought question.now position.now answer.verdict listener.old listener.new) }
{
    match question.sought() {
        Sought::ByMethod => by_method(alloc, question, position, wants, listener),
        Sought::Best => best_answer(alloc, question, position, wants, listener),
    }
}

// What one search by the question's method answers.
fn by_method<G: Game + Drop, L: Listener>(
    alloc: Global,
    question: &Question<G>,
    position: &Position,
    wants: Wants,
    listener: &mut L,
) -> Result<Answer, AllocError>
    requires fits { Fits question.now.game.cells position.now }
    ensures right { IfOk result (λ answer. IsSought Sought.ByMethod question.now position.now answer.verdict) }
    ensures written { IfOk result (λ answer. CanBeWritten answer.verdict) }
    ensures certifiable { wants ≡ Wants.Table → IfOk result (IsCertifiable (problem_of question.now position.now)) }
    ensures bare { wants ≡ Wants.Verdict → IfOk result (λ answer. answer.table ≡ None) }
    ensures heard { HearsOfThem L.hears Sought.ByMethod question.now position.now listener.old listener.new }
    ensures ended { IfOk result (λ answer. HearsVerdict L.hears Sought.ByMethod question.now position.now answer.verdict listener.old listener.new) }
{
    match wants {
        Wants::Table => solve_by(alloc, question, position, listener),
        Wants::Verdict => {
            let verdict = decide_by(alloc, question, position, listener)?;
            Ok(Answer {
                verdict,
                table: None,
            })
        }
    }
}

// The best answer.
fn best_answer<G: Game + Drop, L: Listener>(
    alloc: Global,
    question: &Question<G>,
    position: &Position,
    wants: Wants,
    listener: &mut L,
) -> Result<Answer, AllocError>
    requires fits { Fits question.now.game.cells position.now }
    ensures right { IfOk result (λ answer. IsSought Sought.Best question.now position.now answer.verdict) }
    ensures written { IfOk result (λ answer. CanBeWritten answer.verdict) }
    ensures certifiable { wants ≡ Wants.Table → IfOk result (IsCertifiable (problem_of question.now position.now)) }
    ensures bare { wants ≡ Wants.Verdict → IfOk result (λ answer. answer.table ≡ None) }
    ensures heard { HearsOfThem L.hears Sought.Best question.now position.now listener.old listener.new }
    ensures ended { IfOk result (λ answer. HearsVerdict L.hears Sought.Best question.now position.now answer.verdict listener.old listener.new) }
{
    let has_table = matches!(wants, Wants::Table);
    best(alloc, question, position, has_table, listener)
}

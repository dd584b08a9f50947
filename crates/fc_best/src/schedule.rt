//! The searches for the best answer, one after the other.

ghost use Rattle.fc_position.specs.Position.{Fits};
ghost use Rattle.std.specs.Prelude.{◌≡◌, ◌≤◌, None, false, IfOk, IfErr, IsTrue};
ghost use Rattle.fc_best.specs.inner.Standing.{Stands};
ghost use Rattle.fc_answers.specs.Answer.{IsBacked};
ghost use Rattle.fc_best.specs.Best.{IsBestAnswer};
ghost use Rattle.fc_best.specs.Watch.{HearsTold, HearsToEnd};
ghost use Rattle.fc_best.specs.inner.Watch.{HearsOn, HearsSome};

use crate::stages::{Stage, stages};
use crate::standings::Standing;
use fc_answers::Answer;
use fc_methods::Question;
use fc_moves::Game;
use fc_position::Position;
use fc_search::Listener;
use std::alloc::{AllocError, Global};

/// The best answer for a position that fits the question's game: a list that wins and a number of moves that no list that wins is
/// below, a shortest list where they meet, that none wins, or, where no list was found, that the searches gave up. They go by the
/// question's home rule, whatever its own weight is, and store no more classes than its budget, all told: first by the plain bound,
/// storing all children, which soon shows of most lost boards that none wins; then by the question's own bound and expansion, by
/// falling weights, each for a list shorter than the best so far; then for shorter tails of the best list, from boards on its way;
/// the last one, by weight 1, with all that is left. They end as soon as the best list is as long as the greatest floor that one of
/// them, by the question's own bound, has shown. Only where it is wanted a table is made, which backs the answer; else the answer has none. The listener hears
/// how far all of them are after each stretch of turns of each and once when it ends, also where memory ends it, and once more when
/// they have ended: then of the list and the floor that are answered. Once one has ended by which the list or the floor got better, it
/// hears them too; the list that it hears last is the one that is answered. A list or a floor that was told is never lost.
///
/// # Errors
/// A growth was refused.
pub fn best<G: Game + Drop, L: Listener>(
    alloc: Global,
    question: &Question<G>,
    position: &Position,
    has_table: bool,
    listener: &mut L,
) -> Result<Answer, AllocError>
    requires fits { Fits question.now.game.cells position.now }
    ensures best { IfOk result (IsBestAnswer question.now position.now) }
    ensures backed { IsTrue has_table → IfOk result (IsBacked question.now.game position.now) }
    ensures bare { has_table ≡ false → IfOk result (λ answer. answer.table ≡ None) }
    ensures heard { HearsTold L.hears question.now position.now listener.old listener.new }
    ensures ended { IfOk result (λ answer. HearsToEnd L.hears question.now position.now answer.verdict listener.old listener.new) }
{
    let standing = Standing::new(question.method().strategy.budget, has_table);
    let standing = after_stages(alloc, question, position, standing, listener)?;
    let standing = standing.shortened(alloc, question, position, listener)?;
    let standing = standing.last(alloc, question, position, listener)?;
    listener.hear(standing.far);
    Ok(standing.into_answer())
}

// After the searches of the stages.
fn after_stages<G: Game + Drop, L: Listener>(
    alloc: Global,
    question: &Question<G>,
    position: &Position,
    standing: Standing,
    listener: &mut L,
) -> Result<Standing, AllocError>
    requires fits { Fits question.now.game.cells position.now }
    requires stands { Stands question.now position.now standing }
    requires left { 1 ≤ standing.left }
    ensures stands { IfOk result (Stands question.now position.now) }
    ensures left { IfOk result (λ after. 1 ≤ after.left) }
    ensures has_table { IfOk result (λ after. after.has_table ≡ standing.has_table) }
    ensures heard { IfOk result (λ after. HearsOn L.hears question.now position.now standing after listener.old listener.new) }
    ensures cut { IfErr result (λ refused. HearsSome L.hears question.now position.now standing listener.old listener.new) }
{
    let mut after = standing;
    for stage in stages() {
        after = after_stage(alloc, question, position, after, stage.stage(), listener)?;
    }
    Ok(after)
}

// After the searches of a stage, each for a shorter list than the one before.
fn after_stage<G: Game + Drop, L: Listener>(
    alloc: Global,
    question: &Question<G>,
    position: &Position,
    standing: Standing,
    stage: Stage,
    listener: &mut L,
) -> Result<Standing, AllocError>
    requires fits { Fits question.now.game.cells position.now }
    requires stands { Stands question.now position.now standing }
    requires left { 1 ≤ standing.left }
    ensures stands { IfOk result (Stands question.now position.now) }
    ensures left { IfOk result (λ after. 1 ≤ after.left) }
    ensures has_table { IfOk result (λ after. after.has_table ≡ standing.has_table) }
    ensures heard { IfOk result (λ after. HearsOn L.hears question.now position.now standing after listener.old listener.new) }
    ensures cut { IfErr result (λ refused. HearsSome L.hears question.now position.now standing listener.old listener.new) }
{
    let mut after = standing;
    for _ in 0..stage.times {
        let before = after.far.shortest;
        after = after.weighed(alloc, question, position, stage, listener)?;
        if after.far.shortest == before {
            return Ok(after);
        }
    }
    Ok(after)
}

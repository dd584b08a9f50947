//! A look at all that can be reached: a search that takes little time for a class.

ghost use Rattle.fc_position.specs.Position.{Fits};
ghost use Rattle.std.specs.Prelude.{◌≡◌, ◌+◌, ◌≤◌, IfOk, IfErr};
ghost use Rattle.fc_best.specs.inner.Attempt.{ShowsNone};
ghost use Rattle.fc_best.specs.inner.Standing.{look_with, Stands};
ghost use Rattle.fc_best.specs.inner.Watch.{HearsOn, HearsSome};

use crate::attempts::Aim;
use crate::plans::Plan;
use crate::relays::attempt_after;
use crate::standings::Standing;
use fc_bound::BoundKind;
use fc_methods::{Method, Question, Sought, Strategy};
use fc_moves::Game;
use fc_position::Position;
use fc_search::Listener;
use std::alloc::{AllocError, Global};

impl Standing {
    // After a look by this plan, while the question isn't settled and no list is found. Its floor isn't kept: what shows one is to be
    // by the question's own bound.
    pub(crate) fn looked<G: Game + Drop, L: Listener>(
        self,
        alloc: Global,
        question: &Question<G>,
        position: &Position,
        plan: Plan,
        listener: &mut L,
    ) -> Result<Self, AllocError>
        requires fits { Fits question.now.game.cells position.now }
        requires stands { Stands question.now position.now self }
        requires open { ShowsNone self.shown → ⊥ }
        requires room { plan.budget ≤ self.left }
        ensures stands { IfOk result (Stands question.now position.now) }
        ensures left { IfOk result (λ standing. self.left ≤ standing.left + plan.budget) }
        ensures has_table { IfOk result (λ standing. standing.has_table ≡ self.has_table) }
        ensures heard { IfOk result (λ standing. HearsOn L.hears question.now position.now self standing listener.old listener.new) }
        ensures cut { IfErr result (λ refused. HearsSome L.hears question.now position.now self listener.old listener.new) }
    {
        if self.list.is_some() {
            return Ok(self);
        }
        let asked = looked_with(question, plan);
        let aim = Aim::any(self.has_table);
        let (attempt, far) = attempt_after(alloc, &asked, position, aim, self.far, listener)?;
        let attempt = attempt.by_bound(question.method().bound);
        let before = self.far;
        let standing = self.after(attempt, far);
        standing.tell(before, listener);
        Ok(standing)
    }
}

// The question by the plain bound and full expansion, with the weight and the budget of a plan.
fn looked_with<G: Game + Drop>(question: &Question<G>, plan: Plan) -> Question<G>
    ensures value { result ≡ look_with question.now plan.weight plan.budget }
{
    let method = Method {
        rule: question.method().rule,
        bound: BoundKind::Plain,
        strategy: Strategy::full(plan.weight, plan.budget),
    };
    Question::new(question.game(), Sought::ByMethod, method)
}

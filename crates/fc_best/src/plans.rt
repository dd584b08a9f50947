//! How one more search goes.

ghost use Rattle.std.specs.Prelude.{◌≡◌};
ghost use Rattle.fc_best.specs.inner.Standing.{with_share};

use fc_methods::{GreatBudget, Method, Question, Sought, Strategy, Weight};
use fc_moves::Game;

// How one more search goes.
#[derive(Clone, Copy)]
pub(crate) struct Plan {
    // How often its bound counts.
    pub(crate) weight: Weight,
    // How many classes it may store.
    pub(crate) budget: GreatBudget,
}

// The question by a plan: with another weight, and with a share of its budget.
pub(crate) fn asked_with<G: Game + Drop>(question: &Question<G>, plan: Plan) -> Question<G>
    ensures value { result ≡ with_share question.now plan.weight plan.budget }
{
    let Method {
        rule,
        bound,
        strategy,
    } = question.method();
    let strategy = Strategy {
        weight: plan.weight,
        expansion: strategy.expansion,
        budget: plan.budget,
    };
    Question::new(
        question.game(),
        Sought::ByMethod,
        Method {
            rule,
            bound,
            strategy,
        },
    )
}

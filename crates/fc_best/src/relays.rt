//! One search of several, which is heard as one of them.

ghost use Rattle.std.specs.Prelude.{◌≡◌, None, false, IfOk, IfSome, IsSome, IsTrue};
ghost use Rattle.fc_position.specs.Position.{Fits};
ghost use Rattle.fc_best.specs.inner.Attempt.{HasNoTable, IsAttempt, Raises};
ghost use Rattle.fc_best.specs.inner.Watch.{HearsFurther, IsFurther};

use crate::attempts::{Aim, Attempt};
use crate::joint_progress::joined;
use fc_answers::MoveList;
use fc_methods::Question;
use fc_moves::Game;
use fc_position::Position;
use fc_search::{Listener, Progress};
use std::alloc::{AllocError, Global};

// Who hears one search, and tells a listener how far all of them are.
#[derive(Drop)]
pub(crate) struct Relay<'a, L: Listener> {
    listener: &'a mut L,
    // What was told before this search.
    before: Progress,
    // What was told last.
    last: Progress,
}

impl<L: Listener> Listener for Relay<'_, L> {
    ghost use Rattle.fc_best.specs.inner.Watch.{Relays};

    ghost hears = { Relays L.hears };

    fn hear(&mut self, far: Progress) {
        let told = joined(self.before, far);
        self.last = told;
        self.listener.hear(told);
    }

    fn hear_list(&mut self, moves: &MoveList, at_least: u32) {
        self.listener.hear_list(moves, at_least);
    }
}

// A search, as `Attempt::below` makes it, after those that told this; and what is told last.
pub(crate) fn attempt_after<G: Game + Drop, L: Listener>(
    alloc: Global,
    question: &Question<G>,
    position: &Position,
    aim: Aim,
    before: Progress,
    listener: &mut L,
) -> Result<(Attempt, Progress), AllocError>
    requires fits { Fits question.now.game.cells position.now }
    ensures right { IfOk result (λ r. IsAttempt question.now question.now.method.bound position.now aim.limit r.0) }
    ensures raised { IfOk result (λ r. IfSome r.0.shown (λ end. Raises aim.least end.floor)) }
    ensures first { aim.least ≡ None → IfOk result (λ r. IsSome r.0.shown) }
    ensures tabled { IsTrue aim.has_table → IfOk result (λ r. IfSome r.0.shown (λ end. IsSome end.table)) }
    ensures bare { aim.has_table ≡ false → IfOk result (λ r. HasNoTable r.0.shown) }
    ensures far { IfOk result (λ r. IsFurther before r.1) }
    ensures heard { HearsFurther L.hears before listener.old listener.new }
{
    let mut relay = Relay {
        listener,
        before,
        last: before,
    };
    let attempt = Attempt::below(alloc, question, position, aim, &mut relay)?;
    Ok((attempt, relay.last))
}

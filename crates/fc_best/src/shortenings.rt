//! The best list made shorter before the last search.

ghost use Rattle.std.specs.Prelude.{◌≡◌, ◌+◌, ◌≤◌, IfOk, IfErr, IfSome, length};
ghost use Rattle.fc_answers.specs.declared.answers.TheConstants.{MOST_MOVES};
ghost use Rattle.fc_position.specs.Board.{Board};
ghost use Rattle.fc_position.specs.Position.{Fits};
ghost use Rattle.fc_methods.specs.Method.{QuestionData};
ghost use Rattle.fc_best.specs.Watch.{IsNoWorse};
ghost use Rattle.fc_search.specs.Watch.{Far};
ghost use Rattle.fc_best.specs.inner.Standing.{limit_of, Stands};
ghost use Rattle.fc_best.specs.inner.Tail.{IsTailFor};
ghost use Rattle.fc_best.specs.inner.Watch.{HearsFurther, HearsOn, HearsSome};

use crate::joint_progress::progress_after;
use crate::plans::{Plan, asked_with};
use crate::stages::tails_above;
use crate::standings::{Standing, limit_of, shorter};
use crate::tails::{Rest, Tail};
use fc_methods::{GreatBudget, Question, Weight};
use fc_moves::Game;
use fc_position::Position;
use fc_search::Listener;
use std::alloc::{AllocError, Global};

// How many moves the first tail has, and each further one more than the one before.
const FIRST_TAIL: u32 = 20;

const TAIL_STEP: u32 = 5;

// How many tails there are at most.
const MOST_TAILS: u32 = 20;

// A search for a tail may store this part of the budget.
const TAIL_SHARE: u32 = 50;

impl Standing {
    // After searches for shorter tails of the best list, by weight 1, each from a little earlier on its way than the one before; none
    // after one that gave up. Where the question is settled or there is no list, nothing is searched.
    pub(crate) fn shortened<G: Game + Drop, L: Listener>(
        self,
        alloc: Global,
        question: &Question<G>,
        position: &Position,
        listener: &mut L,
    ) -> Result<Self, AllocError>
        requires fits { Fits question.now.game.cells position.now }
        requires stands { Stands question.now position.now self }
        requires left { 1 ≤ self.left }
        ensures stands { IfOk result (Stands question.now position.now) }
        ensures left { IfOk result (λ standing. 1 ≤ standing.left) }
        ensures has_table { IfOk result (λ standing. standing.has_table ≡ self.has_table) }
        ensures heard { IfOk result (λ standing. HearsOn L.hears question.now position.now self standing listener.old listener.new) }
        ensures cut { IfErr result (λ refused. HearsSome L.hears question.now position.now self listener.old listener.new) }
    {
        let mut standing = self;
        for i in 0..MOST_TAILS {
            let last = FIRST_TAIL + TAIL_STEP * i;
            let Some(tail) = standing.shorter_tail(alloc, question, position, last, listener)?
            else {
                return Ok(standing);
            };
            let has_given_up = tail.has_given_up;
            let before = standing.far;
            standing = standing.with_tail(tail);
            standing.tell(before, listener);
            if has_given_up {
                return Ok(standing);
            }
        }
        Ok(standing)
    }

    // What a search for a shorter tail in place of the last so many moves of the best list found, if it is to be searched for.
    fn shorter_tail<G: Game + Drop, L: Listener>(
        &self,
        alloc: Global,
        question: &Question<G>,
        position: &Position,
        last: u32,
        listener: &mut L,
    ) -> Result<Option<Tail>, AllocError>
        requires fits { Fits question.now.game.cells position.now }
        requires stands { Stands question.now position.now self.now }
        requires left { 1 ≤ self.now.left }
        ensures right { IfOk result (λ tail. IfSome tail (IsTailFor question.now position.now self.now)) }
        ensures heard { HearsFurther L.hears self.now.far listener.old listener.new }
    {
        let whole = question.method().strategy.budget;
        let share = self.share(whole, 100, 10).min(whole.get() / TAIL_SHARE);
        let (Some(list), Some(budget)) = (&self.list, GreatBudget::new(share)) else {
            return Ok(None);
        };
        let is_wanted = !self.is_settled() && self.is_above(tails_above(whole.get()));
        if list.len() < last as usize || !is_wanted {
            return Ok(None);
        }
        let plan = Plan {
            weight: Weight::ONE,
            budget,
        };
        let asked = asked_with(question, plan);
        let rest = Rest { list, last };
        let tail = Tail::of(alloc, &asked, position, rest, self.far, listener)?;
        Ok(Some(tail))
    }

    // After a search for a shorter tail of the best list, within a share of what was left, which found this.
    fn with_tail(self, tail: Tail) -> Self
        requires few { IfSome self.list (λ moves. length moves ≤ MOST_MOVES) }
        requires few_found { IfSome tail.list (λ moves. length moves ≤ MOST_MOVES) }
        requires room { tail.stored + 1 ≤ self.left }
        ensures stands { (q : QuestionData) (b : Board) → Stands q b self → IsTailFor q b self tail → Stands q b result }
        ensures rises { (q : QuestionData) (b : Board) → Stands q b self → IsTailFor q b self tail → IsNoWorse (Far self.far) (Far result.far) }
        ensures same { limit_of result.list ≡ limit_of self.list → result.list ≡ self.list }
        ensures left { result.left + tail.stored ≡ self.left }
        ensures has_table { result.has_table ≡ self.has_table }
    {
        let Standing {
            list: best,
            shown,
            left,
            given_up,
            has_table,
            open_share,
            ..
        } = self;
        let Tail {
            list,
            stored,
            far,
            ..
        } = tail;
        let list = shorter(list, best);
        let far = progress_after(far, None, limit_of(&list));
        Standing {
            list,
            shown,
            left: left - stored,
            given_up,
            has_table,
            open_share,
            far,
        }
    }
}

//! What the searches so far have found and shown.

ghost use Rattle.fc_position.specs.Board.{Board};
ghost use Rattle.fc_position.specs.Position.{Fits};
ghost use Rattle.std.specs.Prelude.{◌≡◌, ◌+◌, ◌<◌, ◌≤◌, ℕ, None, false, IfOk, IfErr, IfSome, IsSome, IsTrue, length};
ghost use Rattle.fc_answers.specs.Answer.{IsBacked};
ghost use Rattle.fc_answers.specs.declared.answers.TheConstants.{MOST_MOVES};
ghost use Rattle.fc_best_first.specs.Limits.{Ratio};
ghost use Rattle.fc_methods.specs.Method.{QuestionData};
ghost use Rattle.fc_bound.specs.declared.kinds.BoundKind.{BoundKind};
ghost use Rattle.fc_best.specs.Best.{IsBestAnswer};
ghost use Rattle.fc_best.specs.Watch.{IsNoWorse, IsToldOf, list_told};
ghost use Rattle.fc_search.specs.Watch.{Far};
ghost use Rattle.fc_best.specs.inner.Attempt.{HasNoTable, floor_of, Raises, ShowsNone};
ghost use Rattle.fc_best.specs.inner.Standing.{greater, limit_of, newest, IsNextAttempt, IsShorter, Stands};
ghost use Rattle.fc_best.specs.inner.Watch.{HearsOn, HearsSome, IsFurther, list_in};

use crate::attempts::{Aim, Attempt, Shown};
use crate::joint_progress::{first_progress, progress_after};
use crate::plans::{Plan, asked_with};
use crate::relays::attempt_after;
use crate::stages::{Purpose, Stage};
use fc_answers::{Answer, MoveList, Verdict};
use fc_methods::{GreatBudget, Question, Weight};
use fc_moves::Game;
use fc_position::Position;
use fc_search::{Listener, Progress};
use std::alloc::{AllocError, Global};

// What the searches so far have found and shown, within one budget.
#[derive(Drop)]
pub(crate) struct Standing {
    // The shortest list that they found.
    pub(crate) list: Option<MoveList>,
    // The most that one of them showed: that none wins, or the greatest floor.
    pub(crate) shown: Option<Shown>,
    // How many classes may still be stored.
    pub(crate) left: u32,
    // The greatest budget with which one gave up.
    pub(crate) given_up: Option<u32>,
    // Whether a table is to be made of what is shown.
    pub(crate) has_table: bool,
    // How many hundredths of its classes the last search from the board left open, at most 255.
    pub(crate) open_share: u8,
    // How far they are.
    pub(crate) far: Progress,
}

impl Standing {
    // Before the first search.
    pub(crate) fn new(budget: GreatBudget, has_table: bool) -> Self
        ensures stands { (q : QuestionData) (b : Board) → q.method.strategy.budget ≡ budget → Stands q b result }
        ensures none { result.list ≡ None }
        ensures left { 1 ≤ result.left }
        ensures has_table { result.has_table ≡ has_table }
    {
        let left = budget.get();
        Standing {
            list: None,
            shown: None,
            left,
            given_up: None,
            has_table,
            open_share: 0,
            far: first_progress(left),
        }
    }

    // After a search of this stage, unless it is none within the budget, the question is settled, nothing of its purpose is left, or all
    // that is left is kept.
    pub(crate) fn weighed<G: Game + Drop, L: Listener>(
        self,
        alloc: Global,
        question: &Question<G>,
        position: &Position,
        stage: Stage,
        listener: &mut L,
    ) -> Result<Self, AllocError>
        requires fits { Fits question.now.game.cells position.now }
        requires stands { Stands question.now position.now self }
        requires left { 1 ≤ self.left }
        ensures stands { IfOk result (Stands question.now position.now) }
        ensures left { IfOk result (λ standing. 1 ≤ standing.left) }
        ensures has_table { IfOk result (λ standing. standing.has_table ≡ self.has_table) }
        ensures heard { IfOk result (λ standing. HearsOn L.hears question.now position.now self standing listener.old listener.new) }
        ensures cut { IfErr result (λ refused. HearsSome L.hears question.now position.now self listener.old listener.new) }
    {
        let whole = question.method().strategy.budget;
        let share = self.share(whole, stage.most, stage.kept);
        if self.is_settled() || !self.wants(stage, whole) {
            return Ok(self);
        }
        let Some(budget) = GreatBudget::new(share) else {
            return Ok(self);
        };
        let plan = Plan {
            weight: Weight::of_tenths(stage.weight_tenths).unwrap_or(Weight::ONE),
            budget,
        };
        match stage.purpose {
            Purpose::Look(..) => self.looked(alloc, question, position, plan, listener),
            Purpose::Rescue | Purpose::Shorten(_) => self.searched(
                alloc, question, position, plan, listener,
            ),
        }
    }

    // Whether nothing more is to be searched: none wins, or the best list is as long as the floor.
    pub(crate) fn is_settled(&self) -> bool
        ensures shown { IsTrue result → IsSome self.now.shown }
        ensures lost { ShowsNone self.now.shown → IsTrue result }
    {
        match &self.shown {
            Some(shown) => meets(&self.list, shown.floor),
            None => false,
        }
    }

    // Whether a stage is one within this budget, and something is left of its purpose.
    fn wants(&self, stage: Stage, budget: GreatBudget) -> bool {
        stage.is_within(budget.get()) && self.is_open(stage.purpose)
    }

    // Whether something is left of a purpose.
    fn is_open(&self, purpose: Purpose) -> bool {
        match purpose {
            Purpose::Look(least, most) => {
                self.list.is_none() && least <= self.open_share && self.open_share <= most
            }
            Purpose::Rescue => self.list.is_none(),
            Purpose::Shorten(above) => self.is_above(above),
        }
    }

    // Whether the best list has more than so many moves above the floor that is shown, or there is no list.
    pub(crate) fn is_above(&self, above: u8) -> bool {
        match self.far.shortest {
            Some(moves) => moves.saturating_sub(self.far.at_least) > u32::from(above),
            None => true,
        }
    }

    // After the last search, by weight 1 with all that is left, unless the question is settled.
    pub(crate) fn last<G: Game + Drop, L: Listener>(
        self,
        alloc: Global,
        question: &Question<G>,
        position: &Position,
        listener: &mut L,
    ) -> Result<Self, AllocError>
        requires fits { Fits question.now.game.cells position.now }
        requires stands { Stands question.now position.now self }
        requires left { 1 ≤ self.left }
        ensures stands { IfOk result (Stands question.now position.now) }
        ensures shown { IfOk result (λ standing. IsSome standing.shown) }
        ensures has_table { IfOk result (λ standing. standing.has_table ≡ self.has_table) }
        ensures heard { IfOk result (λ standing. HearsOn L.hears question.now position.now self standing listener.old listener.new) }
        ensures cut { IfErr result (λ refused. HearsSome L.hears question.now position.now self listener.old listener.new) }
    {
        if self.is_settled() {
            return Ok(self);
        }
        let _ = question.method().strategy.budget.get();
        let budget = GreatBudget::new(self.left).unwrap();
        let plan = Plan {
            weight: Weight::ONE,
            budget,
        };
        self.searched(alloc, question, position, plan, listener)
    }

    // After a search by this plan for a shorter list and a greater floor, while the question isn't settled.
    fn searched<G: Game + Drop, L: Listener>(
        self,
        alloc: Global,
        question: &Question<G>,
        position: &Position,
        plan: Plan,
        listener: &mut L,
    ) -> Result<Self, AllocError>
        requires fits { Fits question.now.game.cells position.now }
        requires stands { Stands question.now position.now self }
        requires open { ShowsNone self.shown → ⊥ }
        requires room { plan.budget ≤ self.left }
        ensures stands { IfOk result (Stands question.now position.now) }
        ensures left { IfOk result (λ standing. self.left ≤ standing.left + plan.budget) }
        ensures shown { IfOk result (λ standing. IsSome standing.shown) }
        ensures has_table { IfOk result (λ standing. standing.has_table ≡ self.has_table) }
        ensures heard { IfOk result (λ standing. HearsOn L.hears question.now position.now self standing listener.old listener.new) }
        ensures cut { IfErr result (λ refused. HearsSome L.hears question.now position.now self listener.old listener.new) }
    {
        let asked = asked_with(question, plan);
        let aim = self.aim();
        let (attempt, far) = attempt_after(alloc, &asked, position, aim, self.far, listener)?;
        let before = self.far;
        let standing = self.after(attempt, far);
        standing.tell(before, listener);
        Ok(standing)
    }

    // How many classes may be stored where they are at most so many hundredths of the budget, and so many, or one class, are kept.
    pub(crate) fn share(&self, budget: GreatBudget, most: u8, kept: u8) -> u32
        ensures most { 1 ≤ self.now.left → result + 1 ≤ self.now.left }
    {
        let budget = budget.get();
        let kept = (budget * u32::from(kept) / 100).max(1);
        self.left
            .saturating_sub(kept)
            .min(budget * u32::from(most) / 100)
    }

    // What the next search is to look for: a shorter list, and a greater floor.
    pub(crate) fn aim(&self) -> Aim
        requires few { IfSome self.now.list (λ moves. length moves ≤ MOST_MOVES) }
        ensures limit { result.limit ≡ limit_of self.now.list }
        ensures least { result.least ≡ floor_of self.now.shown }
        ensures has_table { result.has_table ≡ self.now.has_table }
    {
        Aim {
            limit: limit_of(&self.list),
            least: floor_of(&self.shown),
            has_table: self.has_table,
        }
    }

    // After a search by a weight and a share of what was left, which found and showed this.
    pub(crate) fn after(self, attempt: Attempt, far: Progress) -> Self
        requires open { ShowsNone self.shown → ⊥ }
        requires few { IfSome self.list (λ moves. length moves ≤ MOST_MOVES) }
        requires few_found { IfSome attempt.list (λ moves. length moves ≤ MOST_MOVES) }
        requires room { attempt.stored ≤ self.left }
        requires raised { IfSome attempt.shown (λ end. Raises (floor_of self.shown) end.floor) }
        requires tabled { IsTrue self.has_table → IfSome attempt.shown (λ end. IsSome end.table) }
        requires bare { self.has_table ≡ false → HasNoTable attempt.shown }
        ensures stands { (q : QuestionData) (kind : BoundKind) (b : Board) (weight : Ratio) (share : ℕ) → Stands q b self → share ≤ self.left
            → IsNextAttempt q (weight, share) kind b self attempt → IsFurther self.far far → Stands q b result }
        ensures rises { (q : QuestionData) (b : Board) → Stands q b self → IsFurther self.far far → IsNoWorse (Far self.far) (Far result.far) }
        ensures same { limit_of result.list ≡ limit_of self.list → result.list ≡ self.list }
        ensures left { result.left + attempt.stored ≡ self.left }
        ensures shown { result.shown ≡ newest attempt.shown self.shown }
        ensures has_table { result.has_table ≡ self.has_table }
    {
        let Standing {
            list: best,
            shown: before,
            left,
            given_up: most,
            has_table,
            ..
        } = self;
        let Attempt {
            list,
            shown,
            stored,
            given_up,
            open_share,
        } = attempt;
        let list = shorter(list, best);
        let far = progress_after(far, floor_of(&shown), limit_of(&list));
        Standing {
            list,
            shown: newest(shown, before),
            left: left - stored,
            given_up: greater(most, given_up),
            has_table,
            open_share,
            far,
        }
    }

    // The answer, after the last search.
    pub(crate) fn into_answer(self) -> Answer
        requires shown { IsSome self.shown }
        ensures best { (q : QuestionData) (b : Board) → Stands q b self → IsBestAnswer q b result }
        ensures backed { (q : QuestionData) (b : Board) → Stands q b self → IsTrue self.has_table → IsBacked q.game b result }
        ensures bare { (q : QuestionData) (b : Board) → Stands q b self → self.has_table ≡ false → result.table ≡ None }
        ensures told { (q : QuestionData) (b : Board) → Stands q b self → IsToldOf q b result.verdict self.far }
        ensures listed { (q : QuestionData) (b : Board) → Stands q b self → list_in self ≡ list_told result.verdict }
    {
        let Standing {
            list,
            shown,
            given_up,
            ..
        } = self;
        let Shown { floor, table } = shown.unwrap();
        let Some(floor) = floor else {
            return Answer {
                verdict: Verdict::CannotWin,
                table,
            };
        };
        match list {
            Some(list) => Answer {
                verdict: told(list, floor),
                table,
            },
            None => Answer {
                verdict: Verdict::GaveUp(given_up.unwrap_or(0)),
                table: None,
            },
        }
    }
}

// What is told of a list that wins, where none that wins is below the floor.
fn told(list: MoveList, floor: u32) -> Verdict
    ensures short { length list ≤ floor → result ≡ Verdict.Shortest list }
    ensures long { floor < length list → result ≡ Verdict.Won list floor }
{
    if list.len() <= floor as usize {
        Verdict::Shortest(list)
    } else {
        Verdict::Won { moves: list, floor }
    }
}

// The number of moves from which on lists aren't wanted any more.
pub(crate) fn limit_of(list: &Option<MoveList>) -> Option<u32>
    requires few { IfSome list.now (λ moves. length moves ≤ MOST_MOVES) }
    ensures value { result ≡ limit_of list.now }
{
    match list {
        Some(list) => Some(list.len() as u32),
        None => None,
    }
}

// Whether the list, if there is one, is as long as what is shown: a floor, or that none wins.
fn meets(list: &Option<MoveList>, floor: Option<u32>) -> bool
    ensures lost { floor ≡ None → IsTrue result }
{
    match (list, floor) {
        (Some(list), Some(floor)) => list.len() <= floor as usize,
        (None, Some(_)) => false,
        (_, None) => true,
    }
}

// The floor that was shown, if one was.
fn floor_of(shown: &Option<Shown>) -> Option<u32>
    ensures value { result ≡ floor_of shown.now }
{
    match shown {
        Some(shown) => shown.floor,
        None => None,
    }
}

// The shorter of two lists, each of which may be missing.
pub(crate) fn shorter(new: Option<MoveList>, old: Option<MoveList>) -> Option<MoveList>
    ensures shorter { IsShorter new old result }
{
    match (new, old) {
        (Some(new), Some(old)) => {
            if new.len() < old.len() {
                Some(new)
            } else {
                Some(old)
            }
        }
        (Some(new), None) => Some(new),
        (None, old) => old,
    }
}

// What is shown newly, or what was before where nothing is.
fn newest(new: Option<Shown>, old: Option<Shown>) -> Option<Shown>
    ensures value { result ≡ newest new old }
{
    match new {
        Some(shown) => Some(shown),
        None => old,
    }
}

// The greater of two budgets that were given up with, each of which may be missing.
fn greater(one: Option<u32>, other: Option<u32>) -> Option<u32>
    ensures value { result ≡ greater one other }
{
    match (one, other) {
        (Some(one), Some(other)) => Some(one.max(other)),
        (Some(one), None) => Some(one),
        (None, other) => other,
    }
}

//! One search of several.

ghost use Rattle.fc_position.specs.Board.{Board};
ghost use Rattle.fc_position.specs.Position.{Fits};
ghost use Rattle.std.specs.Prelude.{length, ◌≡◌, ◌≤◌, ◌*◌, ◌/◌, ℕ, List, Option, None, false, IfOk, IfSome, IsSome, IsTrue, max, min};
ghost use Rattle.fc_best_first.specs.Search.{reply_of};
ghost use Rattle.fc_methods.specs.Method.{QuestionData};
ghost use Rattle.fc_search.specs.Shown.{BacksShown, HasShown};
ghost use Rattle.fc_search.specs.Watch.{HearsAll, HearsFar, TellFloors};
ghost use Rattle.fc_search.specs.declared.listeners.Progress.{Progress};
ghost use Rattle.fc_best_first.specs.Limits.{Ratio};
ghost use Rattle.fc_bound.specs.declared.kinds.BoundKind.TheVariants.{Plain};
ghost use Rattle.fc_best.specs.inner.Attempt.{HasNoTable, IsAttempt, IsRunBelow, IsShownAt, Raises, ShowsNone};
ghost use Rattle.fc_best.specs.inner.Standing.{look_with, loss_by, with_share};

use fc_answers::{MoveList, Table};
use fc_best_first::Step;
use fc_bound::BoundKind;
use fc_frontier::{EitherFrontier, Frontier};
use fc_methods::Question;
use fc_moves::Game;
use fc_position::Position;
use fc_search::{Listener, Progress, Search, ended_below};
use std::alloc::{AllocError, Global};

// What a search showed of all lists that win.
#[derive(Drop)]
pub(crate) struct Shown {
    // A number of moves that none is below; `None` where none wins.
    pub(crate) floor: Option<u32>,
    // The table that shows it, where it was made.
    pub(crate) table: Option<Table>,
}

// What one search, which ran to its end, has found and shown.
#[derive(Drop)]
pub(crate) struct Attempt {
    // A list that wins, where it found one.
    pub(crate) list: Option<MoveList>,
    // What it showed, unless that was shown before.
    pub(crate) shown: Option<Shown>,
    // How many classes it stored.
    pub(crate) stored: u32,
    // Its budget, where it gave up.
    pub(crate) given_up: Option<u32>,
    // How many hundredths of its classes are open, at most 255.
    pub(crate) open_share: u8,
}

// What a search is to look for.
#[derive(Clone, Copy)]
pub(crate) struct Aim {
    // A list of fewer moves than this, if it is told.
    pub(crate) limit: Option<u32>,
    // A floor that is greater than this, if it is told.
    pub(crate) least: Option<u32>,
    // Whether a table is to be made of what it shows.
    pub(crate) has_table: bool,
}

impl Aim {
    // A list of fewer moves than so many, and no floor.
    pub(crate) fn below(limit: u32) -> Self
        ensures limit { result.limit ≡ Some limit }
    {
        Aim {
            limit: Some(limit),
            least: Some(u32::MAX),
            has_table: false,
        }
    }

    // Any list, and that none wins, but no floor.
    pub(crate) fn any(has_table: bool) -> Self
        ensures limit { result.limit ≡ None }
        ensures has_table { result.has_table ≡ has_table }
    {
        Aim {
            limit: None,
            least: Some(u32::MAX),
            has_table,
        }
    }
}

impl Attempt {
    // Searches a question for a list of fewer moves than the limit, if there is one, and for a greater floor than the one that was
    // shown, if there was one. Of what it shows a table is made, if it is wanted.
    pub(crate) fn below<G: Game + Drop, L: Listener>(
        alloc: Global,
        question: &Question<G>,
        position: &Position,
        aim: Aim,
        listener: &mut L,
    ) -> Result<Self, AllocError>
        requires fits { Fits question.now.game.cells position.now }
        ensures right { IfOk result (IsAttempt question.now question.now.method.bound position.now aim.limit) }
        ensures raised { IfOk result (λ attempt. IfSome attempt.shown (λ end. Raises aim.least end.floor)) }
        ensures first { aim.least ≡ None → IfOk result (λ attempt. IsSome attempt.shown) }
        ensures tabled { IsTrue aim.has_table → IfOk result (λ attempt. IfSome attempt.shown (λ end. IsSome end.table)) }
        ensures bare { aim.has_table ≡ false → IfOk result (λ attempt. HasNoTable attempt.shown) }
        ensures heard { (heard : List Progress) × HearsAll (HearsFar L.hears) listener.old heard listener.new × TellFloors question.now.game position.now heard }
    {
        below_with::<EitherFrontier, G, L>(alloc, question, position, aim, listener)
    }

    // What a look showed, as of a question by this kind of bound: that none wins, or nothing.
    pub(crate) fn by_bound(self, bound: BoundKind) -> Self
        ensures right { (q : QuestionData) (b : Board) (weight : Ratio) (share : ℕ) → bound ≡ q.method.bound
            → IsAttempt (look_with q weight share) Plain b None self → IsAttempt (with_share q weight share) Plain b None result }
        ensures raised { (least : Option ℕ) → IfSome result.shown (λ end. Raises least end.floor) }
        ensures tabled { IfSome self.shown (λ end. IsSome end.table) → IfSome result.shown (λ end. IsSome end.table) }
        ensures bare { HasNoTable self.shown → HasNoTable result.shown }
        ensures list { result.list ≡ self.list }
        ensures stored { result.stored ≡ self.stored }
    {
        let shown = lost_by(bound, self.shown);
        Attempt { shown, ..self }
    }
}

// The same by a queue of any kind: where a search is dropped, the prover looks at each part of a queue of one kind.
fn below_with<F: Frontier + Drop, G: Game + Drop, L: Listener>(
    alloc: Global,
    question: &Question<G>,
    position: &Position,
    aim: Aim,
    listener: &mut L,
) -> Result<Attempt, AllocError>
    requires fits { Fits question.now.game.cells position.now }
    ensures right { IfOk result (IsAttempt question.now question.now.method.bound position.now aim.limit) }
    ensures raised { IfOk result (λ attempt. IfSome attempt.shown (λ end. Raises aim.least end.floor)) }
    ensures first { aim.least ≡ None → IfOk result (λ attempt. IsSome attempt.shown) }
    ensures tabled { IsTrue aim.has_table → IfOk result (λ attempt. IfSome attempt.shown (λ end. IsSome end.table)) }
    ensures bare { aim.has_table ≡ false → IfOk result (λ attempt. HasNoTable attempt.shown) }
    ensures heard { (heard : List Progress) × HearsAll (HearsFar L.hears) listener.old heard listener.new × TellFloors question.now.game position.now heard }
{
    // (read, so that their ranges are known)
    let strategy = question.method().strategy;
    let _ranges = (strategy.weight.parts(), strategy.budget.get());
    let search: Search<F, G> = ended_below(alloc, question, position, aim.limit, listener)?;
    attempt_of(&search, aim)
}

// What a search that ran to its end has found and shown.
fn attempt_of<F: Frontier + Drop, G: Game + Drop>(
    search: &Search<F, G>,
    aim: Aim,
) -> Result<Attempt, AllocError>
    requires done { reply_of search.now.status ≡ Ok Step.Done }
    ensures right { (q : QuestionData) (b : Board) (limit : Option ℕ) → IsRunBelow q b limit search.now → IfOk result (IsAttempt q q.method.bound b limit) }
    ensures raised { IfOk result (λ attempt. IfSome attempt.shown (λ end. Raises aim.least end.floor)) }
    ensures first { aim.least ≡ None → IfOk result (λ attempt. IsSome attempt.shown) }
    ensures tabled { IsTrue aim.has_table → IfOk result (λ attempt. IfSome attempt.shown (λ end. IsSome end.table)) }
    ensures bare { aim.has_table ≡ false → IfOk result (λ attempt. HasNoTable attempt.shown) }
{
    let list = search.found()?;
    let shown = shown_of(search, aim)?;
    let given_up = search.given_up();
    let stored = search.stored();
    let open_share = hundredths(search.open(), stored);
    Ok(Attempt {
        list,
        shown,
        stored,
        given_up,
        open_share,
    })
}

// What a search that is done has shown, unless its floor is no greater than the one that was shown before.
fn shown_of<F: Frontier + Drop, G: Game + Drop>(
    search: &Search<F, G>,
    aim: Aim,
) -> Result<Option<Shown>, AllocError>
    requires done { reply_of search.now.status ≡ Ok Step.Done }
    ensures shown { IfOk result (λ shown. IfSome shown (IsShownAt search.now)) }
    ensures lost { HasShown search.now None → IfOk result ShowsNone }
    ensures raised { IfOk result (λ shown. IfSome shown (λ end. Raises aim.least end.floor)) }
    ensures first { aim.least ≡ None → IfOk result IsSome }
    ensures tabled { IsTrue aim.has_table → IfOk result (λ shown. IfSome shown (λ end. IsSome end.table)) }
    ensures bare { aim.has_table ≡ false → IfOk result HasNoTable }
{
    let floor = search.shown();
    if !raises(aim.least, floor) {
        return Ok(None);
    }
    let table = table_of(search, floor, aim.has_table)?;
    Ok(Some(Shown { floor, table }))
}

// Whether what is shown is more than a floor that was shown before: a greater one, or that none wins.
fn raises(least: Option<u32>, floor: Option<u32>) -> bool
    ensures raises { IsTrue result → Raises least floor }
    ensures first { least ≡ None → IsTrue result }
    ensures lost { floor ≡ None → IsTrue result }
{
    match (least, floor) {
        (Some(least), Some(floor)) => least < floor,
        _ => true,
    }
}

// What a look showed, where that is that none wins, with its table under this kind of bound.
fn lost_by(bound: BoundKind, shown: Option<Shown>) -> Option<Shown>
    ensures value { result ≡ loss_by bound shown }
{
    let Shown { floor, table } = shown?;
    match (floor, table) {
        (None, Some(table)) => Some(Shown {
            floor: None,
            table: Some(table.with_bound(bound)),
        }),
        (None, None) => Some(Shown {
            floor: None,
            table: None,
        }),
        _ => None,
    }
}

// How many hundredths of the stored classes so many entries are, at most 255.
fn hundredths(entries: u128, stored: u32) -> u8
    ensures value { result ≡ min (100 * min entries (3 * stored) / max stored 1) 255 }
{
    let stored = u128::from(stored);
    let entries = entries.min(3 * stored);
    (100 * entries / stored.max(1)).min(255) as u8
}

// The table of a search that is done, which shows what it has shown, if it is wanted.
fn table_of<F: Frontier + Drop, G: Game + Drop>(
    search: &Search<F, G>,
    shown: Option<u32>,
    has_table: bool,
) -> Result<Option<Table>, AllocError>
    requires done { reply_of search.now.status ≡ Ok Step.Done }
    requires shown { HasShown search.now shown }
    ensures backs { IfOk result (λ table. IfSome table (BacksShown search.now.problem shown)) }
    ensures searched { IfOk result (λ table. IfSome table (λ t. (t.rule ≡ search.now.problem.method.rule) × (t.bound ≡ search.now.problem.method.bound) × (length t.rows ≤ search.now.problem.method.strategy.budget))) }
    ensures made { IsTrue has_table → IfOk result IsSome }
    ensures bare { has_table ≡ false → IfOk result (λ table. table ≡ None) }
{
    if has_table {
        search.table(shown)
    } else {
        Ok(None)
    }
}

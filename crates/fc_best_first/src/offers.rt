//! A child of a key that is taken, as it finds its place: it is known, stored, or put off.

ghost use Rattle.std.specs.Prelude.{◌≡◌, ◌+◌, ◌*◌, ◌<◌, ◌≤◌, ◌↔◌, ℕ, List, length, IfOk, IfSome, IsTrue};
ghost use Rattle.fc_best_first.specs.Graph.{IsReached, task_by};
ghost use Rattle.fc_best_first.specs.Kept.{AreNoted};
ghost use Rattle.fc_best_first.specs.Limits.{IsBelowLimit, ReachesLimit, weigh};
ghost use Rattle.fc_best_first.specs.Store.{IsNew, Offers, weighed_cost};
ghost use Rattle.fc_best_first.specs.declared.books.Opening.{Opening};
ghost use Rattle.fc_best_first.specs.declared.spaces.Child.{Child};
ghost use Rattle.fc_best_first.specs.inner.Offers.{IsOffUntil, LeavesAll, OfSomeChild};
ghost use Rattle.fc_best_first.specs.inner.Turn.{IsPutOffNear};

use crate::books::{Book, Mark, Offered, Opening};
use crate::limits::{MOST_GREAT_BUDGET, Weight};
use crate::spaces::{Noted, Space};
use crate::strategies::{Expansion, Strategy};
use crate::turns::{MOST_OVER, MOST_SPARE};
use fc_frontier::{Frontier, Full};
use fc_keys::ExactKey;

impl Opening {
    // At what is noted, weighed, above the weighed cost.
    pub(crate) fn new(weight: Weight, noted: Noted) -> Self
        ensures value { result ≡ record { over = weight.times * noted.bound; bound = noted.bound; note = noted.note } }
        ensures most { result.over ≤ 25500 }
    {
        Opening {
            over: u16::from(weight.times()) * u16::from(noted.bound),
            bound: noted.bound,
            note: noted.note,
        }
    }

    // What is noted in it.
    pub(crate) fn noted(self) -> Noted
        ensures value { result ≡ record { bound = self.bound; note = self.note } }
    {
        Noted {
            bound: self.bound,
            note: self.note,
        }
    }
}

/// What the children of a key are offered by: the f of the pair that was taken, the mark of a child that would cost nothing,
/// its cost and number, and the limit, if there is one.
#[derive(Clone, Copy, Debug, PartialEq, Eq)]
pub(crate) struct Taken {
    pub(crate) f: u32,
    pub(crate) origin: Mark,
    pub(crate) limit: Option<u32>,
}

impl Taken {
    // Whether a cost plus bound reaches the limit.
    fn reaches_limit(&self, cost: u32, bound: u8) -> bool
        requires room { cost ≤ 4294967040 }
        ensures value { IsTrue result ↔ ReachesLimit self.now.limit (cost + bound) }
        ensures below { (IsTrue result → ⊥) → IsBelowLimit self.now.limit (cost + bound) }
    {
        match self.limit {
            Some(limit) => limit <= cost + u32::from(bound),
            None => false,
        }
    }
}

// A number that each bound is at most by which a key of this weighed cost is open at no more than was taken.
fn most_within(weight: Weight, cost: u32, taken: u32) -> u8
    ensures most { (bound : ℕ) → bound ≤ 255 → cost + weight.times * bound ≤ taken → bound ≤ result }
{
    let room = taken.saturating_sub(cost) / u32::from(weight.times());
    room.min(255) as u8
}

// What becomes of the child that a walk stands at, with this mark, by a number that is plain to see: it is put off where it is open at
// more than was taken by that alone, but where its cost plus that reaches the limit. `None` where it is to be looked up.
#[inline(always)]
fn put_off<K: ExactKey, S: Space<K>>(
    space: &S,
    walk: &S::Walk,
    strategy: &Strategy,
    taken: &Taken,
    mark: Mark,
) -> Option<Offered<K>>
    requires owned { S.owns space.now walk.now }
    requires partial { strategy.now.expansion ≡ Expansion.Partial }
    requires low { taken.now.origin.cost ≤ MOST_GREAT_BUDGET + MOST_SPARE }
    requires near { mark.cost ≤ taken.now.origin.cost + 255 }
    ensures offers { IfSome result (LeavesAll (S.at walk.now) (task_by (S.graph space.now) strategy.now taken.now.limit) taken.now.f mark) }
    ensures near { IfSome result (IsPutOffNear (weighed_cost strategy.now taken.now.origin)) }
{
    let opening = Opening::new(
        strategy.weight,
        Noted {
            bound: space.least(walk),
            note: 0,
        },
    );
    let f = mark.opens_at(strategy.weight, opening);
    if f <= taken.f {
        return None;
    }
    if taken.reaches_limit(mark.cost, opening.bound) {
        return Some(Offered::Past);
    }
    Some(Offered::PutOff(f))
}

// Until when the children of a key are put off together that its first visit left out: each costs one more at least, and has a bound
// of no less than what is noted of the key. `None` where that reaches the limit.
pub(crate) fn later_of_others(strategy: &Strategy, taken: &Taken, noted: Noted) -> Option<u32>
    requires low { taken.now.origin.cost ≤ MOST_GREAT_BUDGET + MOST_SPARE }
    requires first { taken.now.f ≡ weigh strategy.now.weight taken.now.origin.cost noted.bound }
    ensures later { IsOffUntil taken.now.limit strategy.now.weight (taken.now.origin.cost + 1) noted.bound result }
    ensures near { IfSome result (λ later. (taken.now.f < later) × (later ≤ weighed_cost strategy.now taken.now.origin + MOST_OVER)) }
{
    let mark = taken.origin.onward(1);
    let opening = Opening::new(strategy.weight, noted);
    let later = mark.opens_at(strategy.weight, opening);
    if taken.reaches_limit(mark.cost, noted.bound) {
        None
    } else {
        Some(later)
    }
}

// Stores a key that was reached and isn't stored, with its mark; by partial expansion only where it is open at no more than was
// taken, else it is put off, at no more than its own f. Neither is done where its cost plus what is shown of it reaches the limit.
// At `Err` a growth was refused, and nothing is known of the book.
fn store_or_put_off<K: ExactKey, F: Frontier + Drop, S: Space<K>>(
    space: &S,
    walk: &mut S::Walk,
    book: &mut Book<K, F>,
    strategy: &Strategy,
    taken: &Taken,
    met: (K, Mark),
) -> Result<Offered<K>, Full>
    requires reached { (d : ℕ) × IsReached (S.graph space.now) met.0 d }
    requires owned { S.owns space.now walk.old }
    requires at { S.at walk.old met.0 }
    requires new { IsNew book.old met.0 }
    requires low { taken.now.origin.cost ≤ MOST_GREAT_BUDGET + MOST_SPARE }
    requires near { met.1.cost ≤ taken.now.origin.cost + 255 }
    ensures offers { IfOk result (λ offered. (opening : Opening)
        × Offers (task_by (S.graph space.now) strategy.now taken.now.limit) taken.now.f book.old book.new (record { key = met.0; mark = met.1; opening = opening }) offered) }
    ensures near { IfOk result (IsPutOffNear (weighed_cost strategy.now taken.now.origin)) }
    ensures owned { S.owns space.now walk.new }
    ensures rest { (children : List (Child K)) → S.rest walk.new children ↔ S.rest walk.old children }
    ensures left { S.left walk.new ≡ S.left walk.old }
{
    let (key, mark) = met;
    let most = match strategy.expansion {
        Expansion::Full => u8::MAX,
        Expansion::Partial => most_within(strategy.weight, mark.weighed(strategy.weight), taken.f),
    };
    let noted = space.noted(walk, &key, most);
    if taken.reaches_limit(mark.cost, noted.bound) {
        return Ok(Offered::Past);
    }
    let opening = Opening::new(strategy.weight, noted);
    if let Expansion::Partial = strategy.expansion {
        let f = mark.opens_at(strategy.weight, opening);
        if f > taken.f {
            return Ok(Offered::PutOff(f));
        }
    }
    book.add(strategy, key, mark, opening)
}

// Offers the child that a walk stands at, at the end of an edge of this cost, by what was taken. What may be noted of it is asked for
// only where the key is new: of most keys that are offered it isn't wanted, and it may take longer than all else.
// At `Err` a growth was refused, and nothing is known of the book.
pub(crate) fn offer<K: ExactKey, F: Frontier + Drop, S: Space<K>>(
    space: &S,
    walk: &mut S::Walk,
    book: &mut Book<K, F>,
    strategy: &Strategy,
    taken: &Taken,
    cost: u8,
) -> Result<Offered<K>, Full>
    requires reached { (y : K) → S.at walk.old y → (d : ℕ) × IsReached (S.graph space.now) y d }
    requires owned { S.owns space.now walk.old }
    requires there { (y : K) × S.at walk.old y }
    requires room { length book.old.stored ≤ strategy.now.budget }
    requires noted { AreNoted (S.graph space.now) book.old }
    requires low { taken.now.origin.cost ≤ MOST_GREAT_BUDGET + MOST_SPARE }
    ensures offers { IfOk result (λ offered. OfSomeChild (S.at walk.old) taken.now.origin cost
        (λ offer. Offers (task_by (S.graph space.now) strategy.now taken.now.limit) taken.now.f book.old book.new offer offered)) }
    ensures near { IfOk result (IsPutOffNear (weighed_cost strategy.now taken.now.origin)) }
    ensures owned { S.owns space.now walk.new }
    ensures rest { (children : List (Child K)) → S.rest walk.new children ↔ S.rest walk.old children }
    ensures left { S.left walk.new ≡ S.left walk.old }
{
    // Its range, by which each key has a number.
    let _ = strategy.budget.get();
    let mark = taken.origin.onward(cost);
    if let Expansion::Partial = strategy.expansion {
        if let Some(offered) = put_off(space, walk, strategy, taken, mark) {
            return Ok(offered);
        }
    }
    let key = space.key(walk);
    let Some((number, was)) = book.find(&key) else {
        return store_or_put_off(space, walk, book, strategy, taken, (key, mark));
    };
    if was.cost <= mark.cost {
        return Ok(Offered::Known);
    }
    let opening = Opening::new(strategy.weight, book.opening(number).noted());
    book.lower(strategy, number, mark, opening)?;
    Ok(Offered::Lowered)
}

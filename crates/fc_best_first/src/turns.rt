ghost use Rattle.std.specs.Prelude.{◌≡◌, ◌+◌, ◌*◌, ◌<◌, ◌≤◌, List, length, ℕ, Option, min, None, Some, IfOk, IfSome, IsTrue, MatchOption};
ghost use Rattle.fc_best_first.specs.Graph.{IsReached, task_by};
ghost use Rattle.fc_best_first.specs.Limits.{weigh};
ghost use Rattle.fc_best_first.specs.declared.strategies.Expansion.TheVariants.{Partial};
ghost use Rattle.fc_best_first.specs.Kept.{AreNoted, IsKept};
ghost use Rattle.fc_best_first.specs.Store.{Offers, weighed_cost};
ghost use Rattle.fc_best_first.specs.Turn.{Advances, Expands, TakesFloor};
ghost use Rattle.fc_best_first.specs.declared.spaces.Child.{Child};
ghost use Rattle.fc_best_first.specs.inner.Turn.{AreReached, Becomes, IsLaterNear, IsNearLater, IsReady, PlacesSome, StandForAll};

use crate::books::{Book, Mark, Offered, Opening};
use crate::limits::MOST_GREAT_BUDGET;
use crate::offers::{Taken, later_of_others, offer};
use crate::spaces::{Noted, Space};
use crate::strategies::{Expansion, Strategy};
use fc_frontier::{Frontier, Full};
use fc_keys::ExactKey;

/// The most that a start and all edges behind it may cost beyond one for each edge.
pub const MOST_SPARE: u32 = 1_000;

/// The most that a key may be open above its weighed cost: ten times the cost of an edge, and a hundred times a bound, each a
/// byte.
pub const MOST_OVER: u16 = 28_050;

/// Where a search stands: it is running; the key with this number is won, and its cost is at most the weight times every
/// answer; there is no answer, or none that doesn't reach the limit; it gave up, having found no place for this key, which came
/// from the key with this number; or memory stopped it.
#[derive(Drop)]
pub enum Status<K> {
    Running,
    Won(u32),
    CannotWin,
    GaveUp(K, u32),
    Stopped,
}

/// How the children of a key were placed: all found their places; some were put off, the least f of which is this; or this
/// one found none.
#[derive(Drop)]
pub enum Placing<K> {
    Whole,
    Later(u32),
    NoRoom(K),
}

// The least of a number and perhaps another one.
fn least_of(other: Option<u32>, f: u32) -> u32
    ensures value { MatchOption other (result ≡ f) (λ least. result ≡ min least f) }
{
    match other {
        Some(least) => least.min(f),
        None => f,
    }
}

// Offers the children of a key by what was taken, where others were put off together, if they were, until this f. At `Err` a growth was
// refused, and nothing is known of the book.
fn expand<K: ExactKey, F: Frontier + Drop, S: Space<K>>(
    space: &S,
    walk: &mut S::Walk,
    book: &mut Book<K, F>,
    strategy: &Strategy,
    taken: &Taken,
    others: Option<u32>,
) -> Result<Placing<K>, Full>
    requires room { length book.old.stored ≤ strategy.now.budget }
    requires noted { AreNoted (S.graph space.now) book.old }
    requires low { taken.now.origin.cost ≤ MOST_GREAT_BUDGET + MOST_SPARE }
    requires owned { S.owns space.now walk.old }
    requires reached { (children : List (Child K)) → S.rest walk.old children → AreReached (S.graph space.now) children }
    requires near { IfSome others (IsNearLater strategy.now.expansion taken.now.f (weighed_cost strategy.now taken.now.origin)) }
    ensures expands { IfOk result (PlacesSome (S.rest walk.old) others
        (λ children own. Expands (task_by (S.graph space.now) strategy.now taken.now.limit) taken.now.f taken.now.origin children book.old book.new own)) }
    ensures near { IfOk result (IsLaterNear strategy.now.expansion taken.now.f (weighed_cost strategy.now taken.now.origin)) }
    ensures noted { IfOk result (λ placing. AreNoted (S.graph space.now) book.new) }
    ensures owned { S.owns space.now walk.new }
{
    let mut later = others;
    while let Some(cost) = space.next(walk) {
        match offer(space, walk, book, strategy, taken, cost)? {
            Offered::Full(key) => return Ok(Placing::NoRoom(key)),
            Offered::PutOff(f) => later = Some(least_of(later, f)),
            _ => {}
        }
    }
    match later {
        Some(f) => Ok(Placing::Later(f)),
        None => Ok(Placing::Whole),
    }
}

// Whether a key is visited for the first time at its cost: by partial expansion, and taken at its cost plus what is noted of it.
fn is_first(strategy: &Strategy, taken: &Taken, noted: Noted) -> bool
    requires low { taken.now.origin.cost ≤ MOST_GREAT_BUDGET + MOST_SPARE }
    ensures partial { IsTrue result → strategy.now.expansion ≡ Partial }
    ensures own { IsTrue result → taken.now.f ≡ weigh strategy.now.weight taken.now.origin.cost noted.bound }
{
    let opening = Opening::new(strategy.weight, noted);
    strategy.expansion == Expansion::Partial
        && taken.f == taken.origin.opens_at(strategy.weight, opening)
}

// Visits a key by what was taken, with what is noted of it: until when the children are put off together that are left out, if some are
// and the limit leaves them.
#[inline(always)]
fn visit<K: ExactKey, S: Space<K>>(
    space: &S,
    walk: &mut S::Walk,
    strategy: &Strategy,
    taken: &Taken,
    key: &K,
    noted: Noted,
) -> Option<u32>
    requires reached { (d : ℕ) × IsReached (S.graph space.now) key.now d }
    requires shown { (S.graph space.now).shown key.now noted.bound noted.note }
    requires low { taken.now.origin.cost ≤ MOST_GREAT_BUDGET + MOST_SPARE }
    requires owned { S.owns space.now walk.old }
    ensures owned { S.owns space.now walk.new }
    ensures children { (children : List (Child K)) → S.rest walk.new children
        → StandForAll (task_by (S.graph space.now) strategy.now taken.now.limit) taken.now.f taken.now.origin key.now result children }
    ensures near { IfSome result (IsNearLater strategy.now.expansion taken.now.f (weighed_cost strategy.now taken.now.origin)) }
{
    let is_first = is_first(strategy, taken, noted);
    if space.visit(key, noted, is_first, walk) {
        later_of_others(strategy, taken, noted)
    } else {
        None
    }
}

// What becomes of an expanded key of this weighed cost by how its children were placed, and the status that it leaves. At `Err` a growth was
// refused, and nothing is known of the book.
fn close<K: ExactKey, F: Frontier + Drop>(
    book: &mut Book<K, F>,
    number: u32,
    cost: u32,
    placing: Placing<K>,
) -> Result<Status<K>, Full>
    requires later { IsReady book.old number cost placing }
    ensures closes { IfOk result (Becomes book.old book.new number cost placing) }
{
    match placing {
        Placing::Whole => Ok(Status::Running),
        Placing::Later(f) => {
            book.reopen(number, cost, f)?;
            Ok(Status::Running)
        }
        Placing::NoRoom(key) => Ok(Status::GaveUp(key, number)),
    }
}

// One turn of a running search, and the status that it leaves; the walk is its room to work in, and the floor is the
// greatest f that was taken. At `Err` a growth was refused, and nothing is known of the book.
pub(crate) fn advance<K: ExactKey, F: Frontier + Drop, S: Space<K>>(
    space: &S,
    book: &mut Book<K, F>,
    walk: &mut S::Walk,
    strategy: &Strategy,
    limit: Option<u32>,
    floor: &mut u32,
) -> Result<Status<K>, Full>
    requires owned { S.owns space.now walk.old }
    requires kept { IsKept (task_by (S.graph space.now) strategy.now limit) book.old }
    ensures takes { IfOk result (Advances (task_by (S.graph space.now) strategy.now limit) book.old book.new) }
    ensures floor { TakesFloor book.old.waiting floor.old floor.new }
    ensures owned { S.owns space.now walk.new }
{
    // Its range, by which no cost of a stored key is past a number's room.
    let _ = strategy.budget.get();
    let Some((f, number)) = book.take() else {
        return Ok(Status::CannotWin);
    };
    *floor = f.max(*floor);
    let (key, mark) = book.at(number);
    if space.is_won(key) {
        return Ok(Status::Won(number));
    }
    let opening = book.opening(number);
    if f != mark.opens_at(strategy.weight, opening) {
        return Ok(Status::Running);
    }
    let cost = mark.weighed(strategy.weight);
    let origin = Mark {
        cost: mark.cost,
        parent: number,
    };
    let taken = Taken { f, origin, limit };
    let others = visit(space, walk, strategy, &taken, key, opening.noted());
    let placing = expand(space, walk, book, strategy, &taken, others)?;
    close(book, number, cost, placing)
}

ghost use Rattle.std.specs.Prelude.{◌+◌, ◌*◌, ◌<◌, ◌⊎◌, ℕ, ◌≤◌, Option, length};
ghost use Rattle.fc_best_first.specs.Graph.{task_by};
ghost use Rattle.fc_best_first.specs.Kept.{IsSound};
ghost use Rattle.fc_best_first.specs.Shown.{IsLeastOpen, TellsAt};

use crate::books::Book;
use crate::limits::MOST_GREAT_BUDGET;
use crate::spaces::Space;
use crate::strategies::Strategy;
use fc_frontier::Frontier;
use fc_keys::ExactKey;

// What a key tells that is open at f: its cost plus bound, or f over how many times a bound counts, rounded up, where that is more.
pub(crate) fn told(own: u32, f: u32, times: u8) -> u32
    requires some { 1 ≤ times }
    ensures own { own ≤ result }
    ensures weighed { f ≤ times * result }
    ensures under { (result ≤ own) ⊎ (times * result < f + times) }
{
    own.max(f.div_ceil(u32::from(times)))
}

// The least that the open keys tell, and at most a number. A key that was opened anew since a pair of it was put in has another
// pair, so the old one tells nothing. The space is named for what is promised alone.
pub(crate) fn least_open<K: ExactKey, F: Frontier + Drop, S: Space<K>>(
    _space: &S,
    book: &Book<K, F>,
    strategy: &Strategy,
    most: u32,
) -> u32
    requires sound { (strategy.now.budget ≤ MOST_GREAT_BUDGET) × ((limit : Option ℕ) × IsSound (task_by (S.graph _space.now) strategy.now limit) book.now) }
    ensures value { (limit : Option ℕ) → IsLeastOpen (task_by (S.graph _space.now) strategy.now limit) book.now most result }
{
    let mut floor = most;
    for (f, number) in book.waiting() {
        let (_key, mark) = book.at(number);
        let opening = book.opening(number);
        if f != mark.opens_at(strategy.weight, opening) {
            continue;
        }
        let told = told(
            mark.cost + u32::from(opening.bound),
            f,
            strategy.weight.times(),
        );
        floor = floor.min(told);
    }
    floor
}

// What the key with this number tells, by where it is open. The space is named for what is promised alone.
pub(crate) fn told_by<K: ExactKey, F: Frontier + Drop, S: Space<K>>(
    _space: &S,
    book: &Book<K, F>,
    strategy: &Strategy,
    number: u32,
) -> u32
    requires sound { (strategy.now.budget ≤ MOST_GREAT_BUDGET) × ((limit : Option ℕ) × IsSound (task_by (S.graph _space.now) strategy.now limit) book.now) }
    requires within { number < length book.now.stored }
    ensures told { (limit : Option ℕ) → TellsAt (task_by (S.graph _space.now) strategy.now limit) book.now number result }
{
    let (_key, mark) = book.at(number);
    let opening = book.opening(number);
    let weight = strategy.weight;
    let f = mark.opens_at(weight, opening);
    told(mark.cost + u32::from(opening.bound), f, weight.times())
}

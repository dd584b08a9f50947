ghost use Rattle.std.specs.Prelude.{◌≡◌, ◌+◌, ◌*◌, ◌^◌, ◌<◌, ◌≤◌, ℕ, [], length, slice_get, Some, IfOk, IfSome, IfNone, OnOk, MatchOption};
ghost use Rattle.std.specs.List.Sorted.{IsPermutation};
ghost use Rattle.fc_frontier.specs.Queue.{Adds, IsLeast};
ghost use Rattle.fc_best_first.specs.Limits.{IsWeight};
ghost use Rattle.fc_best_first.specs.Store.{Store, IsStored, IsNew, Lowers, Stores, opens_at, weighed_cost};
ghost use Rattle.fc_best_first.specs.Turn.{Reopens};

use crate::limits::{MOST_GREAT_BUDGET, Weight};
use crate::strategies::{Expansion, Strategy};
use crate::turns::{MOST_OVER, MOST_SPARE};
use fc_frontier::{Frontier, Full, Pairs};
use fc_keys::ExactKey;
use indexmap::IndexMap;
use std::alloc::Global;
use std::marker::Model;

/// What is kept of a stored key: the cost at which it was reached, and the number of the key that it came from.
#[derive(Clone, Copy, Debug, PartialEq, Eq)]
pub struct Mark {
    pub cost: u32,
    pub parent: u32,
}

impl Mark {
    // The mark of a child at the end of an edge of this cost, by that of one that would cost nothing.
    pub(crate) fn onward(self, cost: u8) -> Mark
        requires low { self.cost ≤ MOST_GREAT_BUDGET + MOST_SPARE }
        ensures value { result ≡ record { cost = self.cost + cost; parent = self.parent } }
        ensures near { result.cost ≤ self.cost + 255 }
    {
        Mark {
            cost: self.cost + u32::from(cost),
            ..self
        }
    }

    // The cost as it is weighed.
    pub(crate) fn weighed(self, weight: Weight) -> u32
        requires low { self.cost ≤ MOST_GREAT_BUDGET + MOST_SPARE + 255 }
        ensures value { result ≡ weight.parts * self.cost }
        ensures most { result ≤ 10 * self.cost }
        ensures range { IsWeight weight }
    {
        u32::from(weight.parts()) * self.cost
    }

    // The f of what is open at this opening.
    pub(crate) fn opens_at(self, weight: Weight, opening: Opening) -> u32
        requires low { self.cost ≤ MOST_GREAT_BUDGET + MOST_SPARE + 255 }
        ensures value { result ≡ opens_at (weight.parts * self.cost) opening }
        ensures range { IsWeight weight }
    {
        self.weighed(weight) + u32::from(opening.over)
    }
}

/// Where a key is open: how far above its weighed cost, at most 28,050, and what is noted of it: the number that the search goes by,
/// which is no greater than its bound, and the note of seven bytes that shows it.
#[derive(Clone, Copy, Debug, PartialEq, Eq)]
pub struct Opening {
    pub over: u16,
    pub bound: u8,
    pub note: u64,
}

// An opening as it is kept, in ten bytes: two that are its own, and eight that have the note and, in the last of them, the number.
#[derive(Drop)]
struct Kept {
    over: u16,
    first: u16,
    second: u16,
    third: u16,
    fourth: u16,
}

impl Model for Kept {
    ghost use Rattle.std.specs.Prelude.{◌+◌, ◌*◌, ◌/◌, ◌%◌};
    ghost use Rattle.fc_best_first.specs.declared.books.Opening.{Opening};

    ghost Value = { Opening };

    ghost view = { λ k. record { over = k.over; bound = k.fourth / 256; note = k.first + 65536 * (k.second + 65536 * (k.third + 65536 * (k.fourth % 256))) } };
}

impl Kept {
    fn new(opening: Opening) -> Kept
        requires small { opening.note < 2 ^ 56 }
        ensures value { result ≡ opening }
    {
        let note = opening.note;
        let second = note / 65536;
        let third = second / 65536;
        let last = third / 65536;
        Kept {
            over: opening.over,
            first: (note % 65536) as u16,
            second: (second % 65536) as u16,
            third: (third % 65536) as u16,
            fourth: last as u16 + 256 * u16::from(opening.bound),
        }
    }

    fn opening(&self) -> Opening
        ensures value { result ≡ self.now }
        ensures small { result.note < 2 ^ 56 }
    {
        let last = u64::from(self.fourth % 256);
        let third = u64::from(self.third) + 65536 * last;
        let second = u64::from(self.second) + 65536 * third;
        Opening {
            over: self.over,
            bound: (self.fourth / 256) as u8,
            note: u64::from(self.first) + 65536 * second,
        }
    }
}

/// What became of a key that was offered: it was stored at no more, it was stored at more and its cost fell, it was
/// added, there was no place for it, it was put off until this f, or its cost plus bound reaches the limit.
#[derive(Drop)]
pub enum Offered<K> {
    Known,
    Lowered,
    Added,
    Full(K),
    PutOff(u32),
    Past,
}

/// The keys that are stored, each with its mark, in the order of their numbers, the pairs that are open, and where each key was
/// opened last.
#[derive(Drop)]
pub struct Book<K: ExactKey, F: Frontier + Drop> {
    table: IndexMap<K, Mark>,
    queue: F,
    openings: Vec<Kept>,
}

impl<K: ExactKey, F: Frontier + Drop> Model for Book<K, F> {
    ghost use Rattle.fc_best_first.specs.Store.{Store};

    ghost Value = { Store K };

    ghost view = { λ s. record { stored = s.table.entries; waiting = F.pairs s.queue; openings = s.openings.items } };
}

impl<K: ExactKey, F: Frontier + Drop> Book<K, F> {
    /// Nothing stored and nothing open, for a search by this strategy. By partial expansion, of equal f the least bound is to be
    /// taken first, where the queue tells ties; and by tenths too, where f is greater than a queue without ties wants it.
    /// Takes no memory yet.
    pub fn new(alloc: Global, strategy: &Strategy) -> Self
        ensures stored { result.stored ≡ [] }
        ensures waiting { result.waiting ≡ [] }
        ensures openings { result.openings ≡ [] }
    {
        Book {
            table: IndexMap::new(alloc),
            queue: match strategy.expansion {
                Expansion::Full if strategy.weight.parts() == 1 => F::new(alloc),
                // By greater weights f has gaps, which buckets have to walk over.
                Expansion::Partial if strategy.weight.times() <= 2 => F::with_small_ties(alloc),
                _ => F::with_ties(alloc),
            },
            openings: Vec::new(alloc),
        }
    }

    /// Takes out an open pair of least f; `None` exactly where none is open.
    #[inline(always)]
    pub fn take(&mut self) -> Option<(u32, u32)>
        ensures taken { IfSome result (λ p. Adds self.new.waiting self.old.waiting p) }
        ensures least { IfSome result (λ p. IsLeast p self.old.waiting) }
        ensures kept { self.new.stored ≡ self.old.stored }
        ensures noted { self.new.openings ≡ self.old.openings }
        ensures none { IfNone result ((self.old.waiting ≡ []) × (self.new ≡ self.old)) }
    {
        self.queue.pop_least()
    }

    /// The open pairs, each once for each time that it is open, in any order.
    pub fn waiting(&self) -> Pairs<'_>
        ensures items { IsPermutation result self.now.waiting }
    {
        self.queue.iter()
    }

    /// How many pairs are open.
    pub fn open(&self) -> u128
        ensures size { result ≡ length self.now.waiting }
    {
        self.queue.len()
    }

    /// How many keys are stored.
    pub fn len(&self) -> usize
        ensures size { result ≡ length self.now.stored }
    {
        self.table.len()
    }

    /// The key that is stored under a number, and its mark; `None` for a number that no key has.
    pub fn entry(&self, number: u32) -> Option<(&K, Mark)>
        ensures value { MatchOption result (length self.now.stored ≤ number) (λ e. IsStored self.now number e.0.now e.1) }
    {
        let (key, mark) = self.table.get_index(number as usize)?;
        Some((key, *mark))
    }

    /// The key that is stored under a number that has one, and its mark.
    pub fn at(&self, number: u32) -> (&K, Mark)
        requires within { number < length self.now.stored }
        ensures stands { IsStored self.now number result.0.now result.1 }
    {
        self.entry(number).unwrap()
    }

    /// The number under which a key is stored, and its mark; `None` for a key that isn't.
    pub fn find(&self, key: &K) -> Option<(u32, Mark)>
        requires room { length self.now.stored ≤ 2 ^ 32 }
        ensures value { MatchOption result (IsNew self.now key.now) (λ e. IsStored self.now e.0 key.now e.1) }
    {
        let (number, _, mark) = self.table.get_full(key)?;
        Some((number as u32, *mark))
    }

    /// Where the key with a number was opened last, where that is noted.
    pub fn opening(&self, number: u32) -> Opening
        requires noted { number < length self.now.openings }
        ensures value { slice_get self.now.openings number ≡ Some result }
        ensures small { result.note < 2 ^ 56 }
    {
        let at = number as usize;
        self.openings[at].opening()
    }

    /// Gives the key that is stored under a number another mark, and opens it. At `Err` a growth was refused, and nothing is
    /// known of the book.
    #[inline(always)]
    pub fn lower(
        &mut self,
        strategy: &Strategy,
        number: u32,
        mark: Mark,
        opening: Opening,
    ) -> Result<(), Full>
        requires within { number < length self.old.stored }
        requires noted { number < length self.old.openings }
        requires low { mark.cost ≤ MOST_GREAT_BUDGET + MOST_SPARE + 255 }
        requires small { opening.note < 2 ^ 56 }
        ensures lowers { OnOk result (Lowers strategy.now self.old self.new number mark opening) }
    {
        self.table[number as usize] = mark;
        self.queue.push_tied(
            mark.opens_at(strategy.weight, opening),
            opening.bound,
            number,
        )?;
        self.openings[number as usize] = Kept::new(opening);
        Ok(())
    }

    /// Opens the key with a number and this weighed cost again, at a later f, where its opening is noted. At `Err` a growth was
    /// refused, and nothing is known of the book.
    #[inline(always)]
    pub fn reopen(&mut self, number: u32, cost: u32, later: u32) -> Result<(), Full>
        requires noted { number < length self.old.openings }
        requires above { cost ≤ later }
        requires near { later ≤ cost + MOST_OVER }
        ensures reopens { OnOk result (Reopens self.old self.new number cost later) }
    {
        let next = Opening {
            over: (later - cost) as u16,
            ..self.opening(number)
        };
        self.queue.push_tied(later, next.bound, number)?;
        self.openings[number as usize] = Kept::new(next);
        Ok(())
    }

    /// Stores a key that isn't stored with a mark, and opens it, where fewer than the budget are stored. At `Err` a growth was
    /// refused, and nothing is known of the book.
    #[inline(always)]
    pub fn add(
        &mut self,
        strategy: &Strategy,
        key: K,
        mark: Mark,
        opening: Opening,
    ) -> Result<Offered<K>, Full>
        requires new { IsNew self.old key }
        requires low { mark.cost ≤ MOST_GREAT_BUDGET + MOST_SPARE + 255 }
        requires small { opening.note < 2 ^ 56 }
        ensures stores { IfOk result (Stores strategy.now self.old self.new (record { key = key; mark = mark; opening = opening })) }
    {
        let number = self.table.len();
        let most = strategy.budget.get() as usize;
        if number >= most {
            return Ok(Offered::Full(key));
        }
        self.make_room(most - number);
        self.table.insert(key, mark)?;
        self.queue.push_tied(
            mark.opens_at(strategy.weight, opening),
            opening.bound,
            number as u32,
        )?;
        self.openings.push(Kept::new(opening))?;
        Ok(Offered::Added)
    }

    // Where the table is full, asks for three times the room that it has, and for all that the budget leaves once a sixteenth of
    // it is stored: so many keys more. Each growth makes the index anew, so few large ones are cheaper. What is refused here is
    // asked for again where a key is put in.
    #[inline(always)]
    fn make_room(&mut self, most: usize)
        ensures same { self.new ≡ self.old }
    {
        let number = self.table.len();
        if number == self.table.capacity() {
            let more = if number < most / 15 { number * 3 } else { most };
            let _ = self.table.reserve(more);
        }
    }
}

ghost use Rattle.std.specs.Prelude.{◌≡◌, ◌+◌, ◌<◌, ◌≤◌, ℕ, Some, None, IfOk, IfErr, OnOk};
ghost use Rattle.std.specs.Option.{option_copied};
ghost use Rattle.fc_batch.specs.Batch.{search_at, NumbersWereGiven, Stays, OthersStay, TurnFor, TurnsFor, count_if_running, work_left};

use crate::held::HeldSearch;
use fc_best_first::{SearchFault, Step};
use fc_frontier::Frontier;
use fc_moves::Game;
use fc_search::Search;
use indexmap::IndexMap;
use std::alloc::Global;
use std::marker::Model;

/// Searches that take turns, each under a number that is never given twice.
#[derive(Drop)]
pub struct Batch<F: Frontier + Drop, G: Game + Drop> {
    alloc: Global,
    searches: IndexMap<usize, HeldSearch<F, G>>,
    added: usize,
}

impl<F: Frontier + Drop, G: Game + Drop> Model for Batch<F, G> {
    ghost use Rattle.fc_batch.specs.Batch.{Batch, NumbersWereGiven};

    ghost Value = { Batch };

    ghost view = { λ s. record { searches = s.searches.entries; added = s.added } };

    ghost invariant = { λ s. NumbersWereGiven (record { searches = s.searches.entries; added = s.added }) };
}

impl<F: Frontier + Drop, G: Game + Drop> Batch<F, G> {
    /// No search yet. Takes no memory yet.
    pub fn new(alloc: Global) -> Self
        ensures empty { (i : ℕ) → search_at result i ≡ None }
        ensures added { result.added ≡ 0 }
    {
        Batch {
            alloc,
            searches: IndexMap::new(alloc),
            added: 0,
        }
    }

    /// Adds a search under the next number: 0 for the first one, and one more each time.
    ///
    /// # Errors
    /// The search itself, where a growth was refused or as many were added as the greatest `usize`; the batch stays as it is.
    pub fn add(&mut self, search: Search<F, G>) -> Result<usize, Search<F, G>>
        ensures number { IfOk result (λ i. i ≡ self.old.added) }
        ensures free { IfOk result (λ i. search_at self.old i ≡ None) }
        ensures there { IfOk result (λ i. search_at self.new i ≡ Some search) }
        ensures others { IfOk result (λ i. OthersStay i self.old self.new) }
        ensures next { OnOk result (self.new.added ≡ self.old.added + 1) }
        ensures back { IfErr result (λ handed. (handed ≡ search) × Stays self.old self.new) }
    {
        match HeldSearch::new(self.alloc, search) {
            Ok(held) => self.hold(held),
            Err(handed) => Err(handed),
        }
    }

    // Adds a search that is on the heap under the next number.
    fn hold(&mut self, held: HeldSearch<F, G>) -> Result<usize, Search<F, G>>
        ensures number { IfOk result (λ i. i ≡ self.old.added) }
        ensures free { IfOk result (λ i. search_at self.old i ≡ None) }
        ensures there { IfOk result (λ i. search_at self.new i ≡ Some held) }
        ensures others { IfOk result (λ i. OthersStay i self.old self.new) }
        ensures next { OnOk result (self.new.added ≡ self.old.added + 1) }
        ensures back { IfErr result (λ handed. (handed ≡ held) × Stays self.old self.new) }
    {
        let number = self.added;
        if number == usize::MAX {
            return Err(held.into_search());
        }
        match self.searches.insert(number, held) {
            Ok(_) => {
                self.added = number + 1;
                Ok(number)
            }
            Err(refused) => Err(refused.value.1.into_search()),
        }
    }

    /// One turn of the search with this number; the others stay as they are.
    ///
    /// # Errors
    /// Those of the search's own turn; `NoSuch` where no search has the number, and the batch stays as it is.
    pub fn turn(&mut self, i: usize) -> Result<Step, SearchFault>
        ensures turn { TurnFor i self.old self.new result }
        ensures falls { result ≡ Ok Step.Running → work_left self.new < work_left self.old }
        ensures most { work_left self.new + count_if_running result ≤ work_left self.old }
    {
        let Some(search) = self.searches.get_mut(&i) else {
            return Err(SearchFault::NoSuch);
        };
        search.turn()
    }

    /// One turn for each number of the list, in its order and as often as it stands there, whatever the turns before
    /// replied; how many of them replied `Running`.
    pub fn turns(&mut self, list: &[usize]) -> usize
        ensures turns { TurnsFor list.now self.old self.new result }
        ensures falls { work_left self.new + result ≤ work_left self.old }
    {
        let mut running = 0;
        for i in list {
            running += running_of(self.turn(*i));
        }
        running
    }

    /// Takes the search with this number out; `None` where there is none. Its number is never given again.
    pub fn take(&mut self, i: usize) -> Option<Search<F, G>>
        ensures taken { result ≡ search_at self.old i }
        ensures gone { search_at self.new i ≡ None }
        ensures others { OthersStay i self.old self.new }
        ensures added { self.new.added ≡ self.old.added }
    {
        let held = self.searches.swap_remove(&i)?;
        Some(held.into_search())
    }

    /// The search with this number; `None` where there is none.
    pub fn get(&self, i: usize) -> Option<&Search<F, G>>
        ensures value { option_copied result ≡ search_at self.now i }
        ensures given { NumbersWereGiven self.now }
    {
        let held = self.searches.get(&i)?;
        Some(held.search())
    }
}

// 1 for the reply of a search that is still running, else 0.
fn running_of(reply: Result<Step, SearchFault>) -> usize
    ensures value { result ≡ count_if_running reply }
    ensures few { result ≤ 1 }
{
    match reply {
        Ok(Step::Running) => 1,
        _ => 0,
    }
}

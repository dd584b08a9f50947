//! Turns of a search that are heard.

ghost use Rattle.std.specs.Prelude.{◌≡◌, ℕ, ◌+◌, ◌<◌, ◌≤◌, List, [], IfOk, IfErr, OnOk, MatchResult};
ghost use Rattle.fc_frontier.specs.Queue.{Adds};
ghost use Rattle.fc_position.specs.Position.{Fits};
ghost use Rattle.fc_moves.specs.GameRules.{IsPositionOf};
ghost use Rattle.fc_best_first.specs.Search.{Begins, Runs, reply_of};
ghost use Rattle.fc_best_first.specs.Turn.{work_left};
ghost use Rattle.fc_search.specs.Problem.{task_of_problem};
ghost use Rattle.fc_search.specs.declared.listeners.Progress.{Progress};
ghost use Rattle.fc_search.specs.Watch.{HearsAll, HearsFar, IsHeardInPart, TurnsMany, IsHeardOn, stage_of};

use crate::listeners::{Listener, Progress};
use crate::position_searches::Search;
use fc_best_first::{SearchFault, Status, Step};
use fc_frontier::Frontier;
use fc_moves::Game;
use std::alloc::AllocError;

// How many turns a search has before it is heard again.
const STRETCH: u64 = 4096;

// Turns of a search that has had none until it is done, heard after each stretch and at the end.
pub(crate) fn watch<F: Frontier + Drop, G: Game + Drop, L: Listener>(
    search: &mut Search<F, G>,
    listener: &mut L,
) -> Result<(), AllocError>
    requires running { search.old.status ≡ Status.Running }
    requires begins { Begins (task_of_problem search.old.problem) search.old.store }
    requires floor { Adds [] search.old.store.waiting (search.old.floor, 0) }
    ensures problem { search.new.problem ≡ search.old.problem }
    ensures runs { Runs (task_of_problem search.old.problem) Status.Running search.old.store search.new.store search.new.status }
    ensures done { OnOk result (reply_of search.new.status ≡ Ok Step.Done) }
    ensures heard { (heard : List Progress) × HearsAll (HearsFar L.hears) listener.old heard listener.new
        × MatchResult result (λ done. IsHeardOn search.old.problem heard search.new) (λ refused. IsHeardInPart search.old.problem heard) }
{
    search.known();
    let mut turns = 0;
    let mut most_open = 0;
    loop {
        let (made, reply) = run_on(search, STRETCH);
        turns += made;
        let open = search.open();
        most_open = open.max(most_open);
        listener.hear(Progress {
            classes: search.len(),
            budget: search.budget(),
            turns,
            open,
            most_open,
            shortest: None,
            at_least: search.at_least(),
        });
        let Ok(step) = reply else {
            return Err(AllocError);
        };
        match step {
            Step::Running => {}
            Step::Done => return Ok(()),
        }
    }
}

// Turns of a running search up to its end, or up to so many: how many there were, and what the last one replied.
fn run_on<F: Frontier + Drop, G: Game + Drop>(
    search: &mut Search<F, G>,
    most: u64,
) -> (u64, Result<Step, SearchFault>)
    requires running { search.old.status ≡ Status.Running }
    requires some { 0 < most }
    ensures problem { search.new.problem ≡ search.old.problem }
    ensures turned { (before : ℕ) → TurnsMany result.0 search.old.problem (stage_of search.old before) (stage_of search.new (before + result.0)) }
    ensures some { 1 ≤ result.0 }
    ensures reply { MatchResult result.1 (λ step. reply_of search.new.status ≡ Ok step) (λ f. (f ≡ SearchFault.Memory) × (search.new.status ≡ Status.Stopped)) }
    ensures falls { result.1 ≡ Ok Step.Running → result.0 + work_left search.old.problem.method.strategy.budget search.new.store ≤ work_left search.old.problem.method.strategy.budget search.old.store }
    ensures few { result.0 ≤ most }
{
    for made in 0..most {
        match search.turn() {
            Ok(Step::Running) => {}
            ended => return (made + 1, ended),
        }
    }
    (most, Ok(Step::Running))
}

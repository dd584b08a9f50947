//! `batch`: several boards are solved.
ghost use Rattle.std.specs.Prelude.{◌≤◌};

use crate::input::command_games::InGame;
use crate::output::endings::{Ending, no_budget, tell};
use crate::output::outputs::Out;
use crate::task::listings::{write_deals, write_rows};
use fc_methods::{Method, Question, Sought};
use fc_moves::Game;
use fc_runs::{ProgramFault, run_answers, run_batch, table_deals};
use fc_words::{BatchBoards, BatchForm, BatchSearch, BatchWords};
use std::io::IsTerminal;

impl InGame for BatchWords<'_> {
    fn perform<G: Game + Drop>(&self, rt: &HostRuntime, game: &G) -> Result<u8, Ending> {
        let status = write_answers(rt, game, self)?;
        if let (2, BatchSearch::By(_), true) = (status, self.search, rt.stderr().is_terminal()) {
            let _told = eprintln!(rt; "fc_solve: gave up: try --best");
        }
        Ok(status)
    }
}

// What is told of each board, in the form that is asked for.
fn write_answers<G: Game + Drop>(
    rt: &HostRuntime,
    game: &G,
    words: &BatchWords<'_>,
) -> Result<u8, Ending> {
    match (&words.boards, words.form) {
        (BatchBoards::Deals { from, to }, BatchForm::Lines) => {
            write_lines(rt, game, &words.search, *from, *to)
        }
        (BatchBoards::Deals { from, to }, _) => {
            // (a fault of the numbers is told before the budget's)
            if let Err(fault) = table_deals(*from, *to) {
                return Err(untabled(rt, fault, *from, *to));
            }
            write_table(rt, game, words)
        }
        _ => write_table(rt, game, words),
    }
}

// A line for each deal.
fn write_lines<G: Game + Drop>(
    rt: &HostRuntime,
    game: &G,
    search: &BatchSearch,
    from: u32,
    to: u32,
) -> Result<u8, Ending> {
    let (alloc, mut out) = (rt.alloc(), Out::new(rt));
    let Some(method) = method_of(search) else {
        // (a fault of the numbers is told before the budget's)
        let (rule, budget) = limits_of(search);
        return match run_batch(alloc, game, rule, from, to, budget, &mut out) {
            Ok(status) => Ok(status),
            Err(ProgramFault::Budget) => Err(no_budget(rt, sought_by(search))),
            Err(fault) => Err(unasked(rt, fault, from, to)),
        };
    };
    let question = Question::new(game, sought_by(search), method);
    match run_answers(alloc, &question, from, to, &mut out) {
        Err(ProgramFault::Range) => Err(unasked(rt, ProgramFault::Range, from, to)),
        ran => out.end_of(ran),
    }
}

// Ends with why a table of deals can't be asked for: it has any number of them, but at least one.
fn untabled(rt: &HostRuntime, fault: ProgramFault, from: u32, to: u32) -> Ending {
    match fault {
        ProgramFault::Range => {
            let _told = eprintln!(rt;
                "fc_solve: a table has a deal or more: {from} to {to} are none, the lesser number stands first"
            );
            Ending::Told(fault.status())
        }
        _ => Ending::Fault(fault),
    }
}

// Says that no deal stands between two numbers.
fn tell_none(rt: &HostRuntime, from: u32, to: u32) {
    let _told = eprintln!(rt; "fc_solve: {from} to {to} are none: the lesser number stands first");
}

// Ends with why deals can't be asked for, and what to do where they are none or too many.
fn unasked(rt: &HostRuntime, fault: ProgramFault, from: u32, to: u32) -> Ending {
    let ProgramFault::Range = fault else {
        return Ending::Fault(fault);
    };
    let status = tell(rt, &fault);
    if from > to {
        tell_none(rt, from, to);
    } else {
        let _told = eprintln!(rt;
            "fc_solve: with --table they are any number, one after the other: see docs/LISTS.md"
        );
    }
    Ending::Told(status)
}

// A table.
fn write_table<G: Game + Drop>(
    rt: &HostRuntime,
    game: &G,
    words: &BatchWords<'_>,
) -> Result<u8, Ending> {
    let Some(method) = method_of(&words.search) else {
        return Err(no_budget(rt, sought_by(&words.search)));
    };
    let question = Question::new(game, sought_by(&words.search), method);
    match (&words.boards, words.form, words.certs, words.has_totals) {
        (BatchBoards::Deals { from, to }, BatchForm::Table, None, false) => {
            write_deals(rt, &question, *from, *to)
        }
        _ => write_rows(rt, words, &question),
    }
}

// How each deal is searched; `None` where the budget is none.
fn method_of(search: &BatchSearch) -> Option<Method> {
    match search {
        BatchSearch::By(words) => words.method(),
        BatchSearch::Best(words) => words.method(),
    }
}

// What is sought of each deal.
fn sought_by(search: &BatchSearch) -> Sought {
    match search {
        BatchSearch::By(_) => Sought::ByMethod,
        BatchSearch::Best(_) => Sought::Best,
    }
}

// The home rule and the budget, as they were told.
fn limits_of(search: &BatchSearch) -> (u8, u32)
    ensures rule { result.0 ≤ 2 }
{
    match search {
        BatchSearch::By(words) => (words.rule.get(), words.budget),
        BatchSearch::Best(words) => (words.rule.get(), words.budget),
    }
}

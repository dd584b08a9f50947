//! What helps further, said on a terminal below an answer that leaves something open. Where this can't be written, the answer stands
//! all the same.

use crate::output::watching::Teller;
use fc_methods::{BoundKind, MOST_BUDGET, MOST_GREAT_BUDGET, Method};
use fc_words::{GameName, GameWords};

/// Below a best answer, by its status: where its list may not be a shortest one, or the searches gave up.
pub fn advise_best(rt: &HostRuntime, teller: &Teller<'_>, status: u8) {
    let (true, Some(far)) = (teller.is_shown(), teller.last()) else {
        return;
    };
    let Some(step) = next_step(far.budget) else {
        return;
    };
    let deal = teller.line().deal();
    match far.shortest {
        Some(moves) if far.at_least < moves => tell_closer(rt, deal, step),
        None if status == 2 => tell_more(rt, deal, far.budget, step),
        _ => {}
    }
}

/// Below an answer by a method, by its status: where the search gave up.
pub fn advise_method(
    rt: &HostRuntime,
    teller: &Teller<'_>,
    game: &GameWords,
    method: Method,
    status: u8,
) {
    if status != 2 || !teller.is_shown() {
        return;
    }
    let other = other_way(method);
    let _told = match teller.line().deal() {
        Some(number) if is_usual(game) => {
            eprintln!(rt; "fc_solve: deal {number}: gave up: try fc_solve {number}, or {other}")
        }
        Some(number) => {
            eprintln!(rt;
                "fc_solve: deal {number}: gave up: try best in place of solve, or {other}"
            )
        }
        None => eprintln!(rt; "fc_solve: gave up: try best in place of solve, or {other}"),
    };
}

// Begins a line, of a numbered deal with its number.
fn begin(rt: &HostRuntime, deal: Option<u32>) {
    let _told = match deal {
        Some(number) => eprint!(rt; "fc_solve: deal {number}: "),
        None => eprint!(rt; "fc_solve: "),
    };
}

// Says what helps below a list that may not be a shortest one.
fn tell_closer(rt: &HostRuntime, deal: Option<u32>, step: &str) {
    begin(rt, deal);
    let _told = eprintln!(rt; "closer: {step}");
}

// Says what helps below giving up, and why fewer positions are told than the budget.
fn tell_more(rt: &HostRuntime, deal: Option<u32>, budget: u32, step: &str) {
    begin(rt, deal);
    let _told = eprintln!(rt;
        "gave up, several searches sharing the budget of {budget}: try {step}"
    );
}

// The next budget that is worth its time, and what the searches within it take of both where all of it is used.
fn next_step(budget: u32) -> Option<&'static str> {
    if budget < 250_000 {
        Some("--budget 500k, some 3 s and 40 MB")
    } else if budget < MOST_BUDGET {
        Some("--budget max, some 30 s and 250 MB")
    } else if budget < MOST_GREAT_BUDGET {
        Some("--budget 16M, some 120 s and 950 MB")
    } else {
        None
    }
}

// Whether the game is the one that no words ask for.
fn is_usual(game: &GameWords) -> bool {
    match game.game {
        GameName::FreeCell => !game.kings && game.cells == 4,
        GameName::Bakers => false,
    }
}

// What helps beside another subcommand, and isn't asked for yet.
fn other_way(method: Method) -> &'static str {
    let strategy = method.strategy;
    let is_near = strategy.weight.times() < 2 * strategy.weight.parts();
    match method.bound {
        BoundKind::Plain => "--bound clearing",
        BoundKind::Clearing if is_near => "--within 2",
        BoundKind::Clearing if strategy.budget.get() < MOST_BUDGET => "a greater --budget",
        BoundKind::Clearing => "a greater --within",
    }
}

//! Searches that are heard while they run.

use crate::given::{board, budget, free_cell, home_rule, must, sure};
use fc_answer_text::outcome_of;
use fc_answers::{MoveList, Outcome};
use fc_io::ToArray;
use fc_moves::FreeCell;
use fc_runs::{ProgramFault, run_answer};
use fc_search::{Listener, Progress, Question, decide_by, solve_by};
use fc_tests::boards::{LOCKED, TWO_KINGS};
use std::process::Abort;

/// Keeps what it heard last, and how often it heard anything.
#[derive(Drop)]
struct Ear {
    times: u32,
    last: Option<Progress>,
}

impl Listener for Ear {
    ghost hears = { λ _ _ _. Unit {0} };

    fn hear(&mut self, far: Progress) {
        self.times = self.times.saturating_add(1);
        self.last = Some(far);
    }

    fn hear_list(&mut self, _moves: &MoveList, _at_least: u32) {}
}

// Nothing heard yet.
fn nothing_heard() -> Ear {
    Ear {
        times: 0,
        last: None,
    }
}

// A shortest list of FreeCell with four cells, under the second home rule and with a budget of 100.
fn question(rt: &impl Abort) -> Question<FreeCell> {
    Question::shortest(&free_cell(rt, 4), home_rule(rt, 2), budget(rt, 100))
}

#[test]
fn short_searches_are_heard_at_their_end(rt: HostRuntime) {
    let question = question(&rt);
    let start = board(&rt, question.game(), TWO_KINGS);
    let mut first = nothing_heard();
    let told = sure(&rt, decide_by(rt.alloc(), &question, &start, &mut first));
    must(&rt, outcome_of(&told) == Outcome::Shortest(5));
    let far = first.last.expect(&rt, "nothing heard");
    must(&rt, far.budget == 100 && far.at_least == 5);
    let mut second = nothing_heard();
    let told = sure(&rt, solve_by(rt.alloc(), &question, &start, &mut second));
    must(&rt, outcome_of(&told.verdict) == Outcome::Shortest(5));
    must(&rt, first.times == 1 && second.times == 1);
    must(&rt, first.last == second.last);
}

#[test]
fn a_run_is_heard(rt: HostRuntime) {
    let question = question(&rt);
    let start = board(&rt, question.game(), LOCKED);
    let mut out = ToArray::<100>::new();
    let mut listener = nothing_heard();
    let none: Option<&mut ToArray<1>> = None;
    let status: Result<u8, ProgramFault> = run_answer(
        rt.alloc(),
        &question,
        &start,
        &mut out,
        none,
        &mut listener,
    );
    must(&rt, status == Ok(1));
    must(&rt, out.held() == b"can't be won\n".as_slice());
    must(&rt, listener.times == 1);
    let far = listener.last.expect(&rt, "nothing heard");
    must(&rt, far.classes == 1 && far.turns == 2);
}

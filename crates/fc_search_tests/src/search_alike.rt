//! What is asked by a home rule and a budget is answered as the question of a shortest list by the plain bound is.

ghost use Rattle.fc_answers.specs.Verdict.{CanBeWritten};
ghost use Rattle.fc_methods.specs.Method.{QuestionData};
ghost use Rattle.fc_moves.specs.GameRules.{IsPositionOf};
ghost use Rattle.fc_position.specs.Position.{Fits};

use crate::given::{board, budget, free_cell, home_rule, method, must, sure};
use fc_answer_text::verdict_text;
use fc_cert::{certificate_length, write_answer};
use fc_io::{FromSlice, ToArray};
use fc_moves::FreeCell;
use fc_position::Position;
use fc_runs::{ProgramFault, run_answer, run_solve};
use fc_search::{
    Answer, BoundKind, Question, Sought, Unheard, Verdict, decide_by, solve, solve_by,
};
use fc_tests::boards::{ALL_HOME, FREE_KING, LOCKED, QUEEN_UNDER_KING, THREE_KINGS, TWO_KINGS};
use std::alloc::Global;
use std::process::Abort;

// Boards, and the budgets that they are searched with.
static BOARDS: [(&str, u32); 7] = [
    (ALL_HOME, 1),
    (FREE_KING, 100),
    (LOCKED, 1),
    (QUEEN_UNDER_KING, 1),
    (QUEEN_UNDER_KING, 2),
    (THREE_KINGS, 100),
    (TWO_KINGS, 100),
];

// What a run left: how it ended, and what it wrote of the answer and of the certificate.
#[derive(Drop)]
struct Left {
    status: Result<u8, ProgramFault>,
    out: ToArray<200>,
    cert: ToArray<800>,
}

// A run that reads the board, asked by a home rule and a budget.
fn read_and_solved(rt: &impl Abort, alloc: Global, rule: u8, text: &str, classes: u32) -> Left {
    must(rt, rule <= 2);
    let game = free_cell(rt, 4);
    let mut source = FromSlice::new(text.as_bytes());
    let mut out = ToArray::<200>::new();
    let mut cert = ToArray::<800>::new();
    let sink = Some(&mut cert);
    let status = run_solve(alloc, &game, rule, &mut source, classes, &mut out, sink);
    Left { status, out, cert }
}

// A run from the board, asked by a question, leaves the same.
fn solved_alike(
    rt: &impl Abort,
    alloc: Global,
    question: &Question<FreeCell>,
    start: &Position,
    left: &Left,
)
    requires position { IsPositionOf question.now.game start.now }
{
    let mut out = ToArray::<200>::new();
    let mut cert = ToArray::<800>::new();
    let sink = Some(&mut cert);
    let status = run_answer(alloc, question, start, &mut out, sink, &mut Unheard);
    must(rt, status.is_ok() && status == left.status);
    must(rt, out.held() == left.out.held());
    must(rt, cert.held() == left.cert.held());
}

// A verdict, with its moves, is what was written.
fn check_verdict(rt: &impl Abort, alloc: Global, verdict: &Verdict, left: &Left)
    requires written { CanBeWritten verdict.now }
{
    let text = sure(rt, verdict_text(alloc, verdict));
    must(rt, text.as_slice() == left.out.held());
}

// An answer, with its moves and its table, is what was written, and was measured before.
fn check_answer(rt: &impl Abort, alloc: Global, answer: &Answer, left: &Left)
    requires written { CanBeWritten answer.now.verdict }
{
    check_verdict(rt, alloc, &answer.verdict, left);
    let mut cert = ToArray::<800>::new();
    let written = write_answer(&free_cell(rt, 4), answer, &mut cert);
    must(rt, written.is_ok() == answer.table.is_some());
    must(rt, cert.held() == left.cert.held());
    let length = certificate_length(answer);
    must(rt, length.is_some() == answer.table.is_some());
    must(rt, length.unwrap_or(0) == cert.held().len());
}

// The searches of a question for a board answer what was written.
fn asked_alike(
    rt: &impl Abort,
    alloc: Global,
    question: &Question<FreeCell>,
    start: &Position,
    left: &Left,
)
    requires position { IsPositionOf question.now.game start.now }
    requires fits { Fits question.now.game.cells start.now }
{
    let asked = sure(rt, solve_by(alloc, question, start, &mut Unheard));
    check_answer(rt, alloc, &asked, left);
    let told = sure(rt, decide_by(alloc, question, start, &mut Unheard));
    check_verdict(rt, alloc, &told, left);
    solved_alike(rt, alloc, question, start, left);
}

// Searches and runs of a board of FreeCell with four cells are answered alike.
fn answered_alike(rt: &impl Abort, alloc: Global, rule: u8, text: &str, classes: u32) {
    must(rt, rule <= 2);
    let left = read_and_solved(rt, alloc, rule, text, classes);
    let game = free_cell(rt, 4);
    let start = board(rt, &game, text);
    let answer = sure(rt, solve(alloc, &game, rule, &start, classes));
    check_answer(rt, alloc, &answer, &left);
    let shortest = Question::shortest(&game, home_rule(rt, rule), budget(rt, classes));
    must(
        rt,
        shortest.method() == method(rt, rule, 10, BoundKind::Plain, classes),
    );
    asked_alike(rt, alloc, &shortest, &start, &left);
}

// The same by the question of this method.
fn asked_by_method(rt: &impl Abort, alloc: Global, rule: u8, text: &str, classes: u32) {
    let left = read_and_solved(rt, alloc, rule, text, classes);
    let game = free_cell(rt, 4);
    let start = board(rt, &game, text);
    let question = Question::new(
        &game,
        Sought::ByMethod,
        method(rt, rule, 10, BoundKind::Plain, classes),
    );
    asked_alike(rt, alloc, &question, &start, &left);
}

#[test]
fn searches_are_answered_alike(rt: HostRuntime) {
    for rule in 0..3 {
        for &(text, classes) in &BOARDS {
            answered_alike(&rt, rt.alloc(), rule, text, classes);
            asked_by_method(&rt, rt.alloc(), rule, text, classes);
        }
    }
}

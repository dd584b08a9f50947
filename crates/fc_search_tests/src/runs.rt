//! The run of solving that reads its board too, which the program doesn't have, and runs that write certificates and check them,
//! over devices that fail. Those that write the best answer are tried over such devices on the program, by
//! `tests/hostile/devices.py`.

use crate::cert_given::LOCKED as LOCKED_BYTES;
use crate::given::{board, budget, free_cell, home_rule, must};
use fc_best::Unheard;
use fc_checker::CheckFault;
use fc_io::testing::Failing;
use fc_io::{FromSlice, ToArray};
use fc_runs::{Input, Output, ProgramFault, run_answer, run_check, run_check_of, run_solve};
use fc_search::{Method, Question, Sought};
use fc_tests::boards::{DEAL_ONE, LOCKED, ONE_KING, QUEEN_UNDER_KING, THIRTY_MOVES, TWO_KINGS};
use fc_text::BoardFault;
use std::alloc::Global;
use std::process::Abort;

// A board's text, and a budget.
const KING: (&str, u32) = (ONE_KING, 100);

// Solving by the first rule over devices that move one byte a call and fail after so many calls: the run ends so, with so
// much of its text written.
fn ends_over(
    rt: &impl Abort,
    alloc: Global,
    asked: (&str, u32),
    calls: (u32, u32),
    wanted: Result<u8, ProgramFault>,
    printed: &[u8],
) {
    let mut source = Failing::new(FromSlice::new(asked.0.as_bytes()), calls.0);
    let mut out = Failing::new(ToArray::<200>::new(), calls.1);
    let none: Option<&mut ToArray<1>> = None;
    let game = free_cell(rt, 4);
    let result = run_solve(alloc, &game, 1, &mut source, asked.1, &mut out, none);
    must(rt, result == wanted);
    must(rt, out.device.held() == printed);
}

// A board and a budget, how solving ends, and what is printed.
struct Row(&'static str, u32, Result<u8, ProgramFault>, &'static [u8]);

static PRINTED: [u8; 14] = *b"shortest 1\nah\n";

// A budget that is none is told before a board that is none.
const ROWS: [Row; 7] = [
    Row(ONE_KING, 100, Ok(0), b"shortest 1\nah\n"),
    Row(LOCKED, 1, Ok(1), b"can't be won\n"),
    Row(QUEEN_UNDER_KING, 1, Ok(2), b"gave up 1\n"),
    Row(QUEEN_UNDER_KING, 0, Err(ProgramFault::Budget), b""),
    Row(QUEEN_UNDER_KING, 4_000_001, Err(ProgramFault::Budget), b""),
    Row("KX\n", 0, Err(ProgramFault::Budget), b""),
    Row(
        "KX\n",
        1,
        Err(ProgramFault::Board(BoardFault::BadCard(1))),
        b"",
    ),
];

#[test]
fn reads_byte_by_byte(rt: HostRuntime) {
    for &Row(board, budget, wanted, printed) in &ROWS {
        let asked = (board, budget);
        ends_over(&rt, rt.alloc(), asked, (1000, 1000), wanted, printed);
    }
}

#[test]
fn tells_failing_devices(rt: HostRuntime) {
    // The text is read by as many calls as it has bytes and one more, which finds the end.
    for calls in 0..=ONE_KING.len() as u32 {
        let wanted = Err(ProgramFault::Read(Input::Board));
        ends_over(&rt, rt.alloc(), KING, (calls, 1000), wanted, b"");
    }
    for count in 0..PRINTED.len() {
        let calls = (1000, count as u32);
        let wanted = Err(ProgramFault::Write(Output::Answer));
        ends_over(&rt, rt.alloc(), KING, calls, wanted, &PRINTED[..count]);
    }
}

// One king goes home: the certificate in the second form, by home rule 1.
const ONE_KING_BYTES: &[u8] = &[
    0x46, 0x43, 0x43, 0x32, 0, 4, 1, 1, 0, 0, 0, 1, 0x61, 0x68, 0, 0, 0, 0,
];

// Checks a board and the locked board's certificate over devices that move one byte a call and fail after so many calls: the
// run ends so, with so much of its text written.
fn check_over(
    rt: &impl Abort,
    alloc: Global,
    board: &str,
    calls: (u32, u32, u32),
    wanted: Result<u8, ProgramFault>,
    text: &[u8],
) {
    let mut source = Failing::new(FromSlice::new(board.as_bytes()), calls.0);
    let mut cert = Failing::new(FromSlice::new(LOCKED_BYTES), calls.1);
    let mut out = Failing::new(ToArray::<40>::new(), calls.2);
    let result = run_check(alloc, &free_cell(rt, 4), &mut source, &mut cert, &mut out);
    must(rt, result == wanted);
    must(rt, out.device.held() == text);
}

static ACCEPTED: [u8; 23] = *b"accepted: can't be won\n";

// A board that can't be read, or is none, is told before its certificate is read; and of another board the bytes are refused.
#[test]
fn tells_which_device_failed(rt: HostRuntime) {
    let alloc = rt.alloc();
    let whole = (1000, 1000, 1000);
    check_over(&rt, alloc, LOCKED, whole, Ok(0), ACCEPTED.as_slice());
    let refused = Err(ProgramFault::Cert(CheckFault::StartOpen));
    check_over(&rt, alloc, TWO_KINGS, whole, refused, b"");
    let unread = Err(ProgramFault::Read(Input::Board));
    check_over(&rt, alloc, LOCKED, (7, 0, 0), unread, b"");
    let no_card = Err(ProgramFault::Board(BoardFault::BadCard(1)));
    check_over(&rt, alloc, "KX", (1000, 0, 1000), no_card, b"");
    // The bytes are read by as many calls as there are and one more, which finds the end.
    for calls in 0..=LOCKED_BYTES.len() as u32 {
        let unread = Err(ProgramFault::Read(Input::Cert));
        check_over(&rt, alloc, LOCKED, (1000, calls, 0), unread, b"");
    }
    for count in 0..ACCEPTED.len() {
        let unwritten = Err(ProgramFault::Write(Output::Answer));
        let calls = (1000, 1000, count as u32);
        check_over(&rt, alloc, LOCKED, calls, unwritten, &ACCEPTED[..count]);
    }
}

// What a run left: how it ended, and what was written of the certificate and of the answer.
#[derive(Drop)]
struct Left {
    result: Result<u8, ProgramFault>,
    cert: Failing<ToArray<500>>,
    out: Failing<ToArray<200>>,
}

// Solves the board by home rule 1, over sinks that take one byte a call and fail after so many calls.
fn solved(rt: &impl Abort, alloc: Global, text: &str, budget: u32, calls: (u32, u32)) -> Left {
    let mut source = FromSlice::new(text.as_bytes());
    let mut cert = Failing::new(ToArray::<500>::new(), calls.0);
    let mut out = Failing::new(ToArray::<200>::new(), calls.1);
    let game = free_cell(rt, 4);
    let result = run_solve(
        alloc,
        &game,
        1,
        &mut source,
        budget,
        &mut out,
        Some(&mut cert),
    );
    Left { result, cert, out }
}

// Solving a board writes nothing of a certificate, to a sink that fails at once, and ends so.
fn certifies_nothing(
    rt: &impl Abort,
    alloc: Global,
    text: &str,
    budget: u32,
    ended: Result<u8, ProgramFault>,
    answer: &[u8],
) {
    let left = solved(rt, alloc, text, budget, (0, 1000));
    must(rt, left.result == ended);
    must(rt, left.out.device.held() == answer);
    must(rt, left.cert.device.held().is_empty());
}

#[test]
fn what_is_refused_or_gives_up_is_not_certified(rt: HostRuntime) {
    let alloc = rt.alloc();
    let no_budget = Err(ProgramFault::Budget);
    certifies_nothing(&rt, alloc, ONE_KING, 0, no_budget, b"");
    let no_budget = Err(ProgramFault::Budget);
    certifies_nothing(&rt, alloc, ONE_KING, 4_000_001, no_budget, b"");
    let no_card = Err(ProgramFault::Board(BoardFault::BadCard(1)));
    certifies_nothing(&rt, alloc, "KX", 100, no_card, b"");
    certifies_nothing(&rt, alloc, DEAL_ONE, 1, Ok(2), b"gave up 1\n");
}

// Where a certificate isn't written whole, nothing of the answer is; where the answer isn't, its certificate is whole.
#[test]
fn sinks_that_fail_are_told(rt: HostRuntime) {
    for count in 0..ONE_KING_BYTES.len() {
        let left = solved(&rt, rt.alloc(), ONE_KING, 100, (count as u32, 1000));
        must(&rt, left.result == Err(ProgramFault::Write(Output::Cert)));
        must(&rt, left.cert.device.held() == &ONE_KING_BYTES[..count]);
        must(&rt, left.out.device.held().is_empty());
    }
    for count in 0..14u32 {
        let left = solved(&rt, rt.alloc(), ONE_KING, 100, (1000, count));
        must(&rt, left.result == Err(ProgramFault::Write(Output::Answer)));
        must(&rt, left.cert.device.held() == ONE_KING_BYTES);
        must(&rt, left.out.device.held().len() == count as usize);
    }
}

// Boards, budgets, and what the checker tells of the certificate of the best answer by the plain bound.
const CLAIMS: [(&str, u32, &[u8]); 5] = [
    (ONE_KING, 100, b"accepted: shortest 1\n"),
    (QUEEN_UNDER_KING, 4000, b"accepted: shortest 3\n"),
    (TWO_KINGS, 100, b"accepted: shortest 5\n"),
    (THIRTY_MOVES, 10_000, b"accepted: shortest 30\n"),
    (LOCKED, 1, b"accepted: can't be won\n"),
];

// The certificate of the best answer for a board is accepted, as this claim.
fn is_accepted(rt: &impl Abort, alloc: Global, text: &str, classes: u32, claim: &[u8]) {
    let game = free_cell(rt, 4);
    let start = board(rt, &game, text);
    let method = Method::shortest(home_rule(rt, 1), budget(rt, classes));
    let question = Question::new(&game, Sought::Best, method);
    let mut out = ToArray::<600>::new();
    let mut cert = ToArray::<4000>::new();
    let sink = Some(&mut cert);
    must(
        rt,
        run_answer(alloc, &question, &start, &mut out, sink, &mut Unheard).is_ok(),
    );
    let mut source = FromSlice::new(cert.held());
    let mut told = ToArray::<40>::new();
    let status = run_check_of(alloc, &game, &start, &mut source, &mut told);
    must(rt, status == Ok(0) && told.held() == claim);
}

#[test]
fn certificates_by_the_plain_bound(rt: HostRuntime) {
    for &(text, classes, claim) in &CLAIMS {
        is_accepted(&rt, rt.alloc(), text, classes, claim);
    }
}

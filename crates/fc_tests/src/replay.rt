//! Lists of moves whose boards can't be written, and one without moves.

use crate::boards::{TWO_BOARDS, TWO_KINGS};
use crate::given::{board_for, free_cell, must, sure};
use arrayvec::ArrayString;
use fc_io::testing::Failing;
use fc_io::{Sink, ToArray};
use fc_replay::{Ended, Page, ReplayFault, play, replay};
use std::fmt::Write;
use std::process::Abort;

// The answer to a text of moves on the board of two kings.
fn check_answer(
    rt: &impl Abort,
    sink: &mut Failing<ToArray<256>>,
    text: &[u8],
    answer: Result<u32, ReplayFault>,
) {
    let game = free_cell(rt, 4);
    let position = board_for(rt, &game, TWO_KINGS);
    must(rt, text.len() < 100);
    must(rt, replay(&game, &position, text, sink) == answer);
}

// A sink that fails after so many bytes has them written. Once it has failed a board that is to be written is a fault, and
// nothing else is.
fn check_failing(rt: &impl Abort, calls: u32) {
    let held = TWO_BOARDS.get(..calls as usize).expect(rt, "a front");
    let mut sink = Failing::new(ToArray::<256>::new(), calls);
    for &(text, answer) in &FAILED {
        check_answer(rt, &mut sink, text, answer);
        must(rt, sink.failed() && sink.device.held() == held);
    }
}

// Texts that are replayed one after the other into a sink that fails at the first one, and the answers.
static FAILED: [(&[u8], Result<u32, ReplayFault>); 6] = [
    (b"1a 1h", Err(ReplayFault::Write)),
    (b"1a 1h", Err(ReplayFault::Write)),
    (b"1a", Err(ReplayFault::Write)),
    (b"9h", Err(ReplayFault::BadMove(1))),
    (b"11 1a", Err(ReplayFault::NotAllowed(1))),
    (b"", Ok(0)),
];

#[test]
fn fails_with_its_sink(rt: HostRuntime) {
    for calls in 0..145 {
        check_failing(&rt, calls);
    }
    let mut sink = Failing::new(ToArray::<256>::new(), 145);
    check_answer(&rt, &mut sink, b"1a 1h", Ok(2));
    must(&rt, !sink.failed() && sink.device.held() == TWO_BOARDS);
}

#[test]
fn tells_that_boards_cannot_be_written(rt: HostRuntime) {
    let mut text = ArrayString::<64>::new();
    sure(&rt, write!(text, "{}", ReplayFault::Write));
    must(&rt, text.as_str() == "the boards can't be written");
}

#[test]
fn no_moves_are_played(rt: HostRuntime) {
    let game = free_cell(&rt, 4);
    let start = board_for(&rt, &game, TWO_KINGS);
    let mut out = ToArray::<10>::new();
    let none = play(&game, &start, &[], Page::Drawn(false), &mut out);
    let ended = Ended {
        moves: 0,
        is_won: false,
    };
    must(&rt, none == Ok(ended));
}

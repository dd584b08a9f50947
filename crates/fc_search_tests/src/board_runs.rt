//! Runs that replay moves, over devices that fail too; and a board that never ends.

use crate::given::{free_cell, must};
use fc_io::testing::Failing;
use fc_io::{FromReader, FromSlice, ToArray};
use fc_replay::ReplayFault;
use fc_runs::{Input, Output, ProgramFault, read_position, run_replay};
use fc_tests::boards::{TWO_BOARDS, TWO_KINGS};
use fc_text::BoardFault;
use std::alloc::Global;
use std::io;
use std::process::Abort;

// After how many calls the board, the moves and the sink fail.
#[derive(Clone, Copy)]
struct Calls {
    board: u32,
    moves: u32,
    sink: u32,
}

// Replays moves of two kings over devices that move one byte a call and fail after so many calls: the run ends so, with
// this written.
fn replays_over(
    rt: &impl Abort,
    alloc: Global,
    moves: &[u8],
    calls: Calls,
    wanted: &Result<u8, ProgramFault>,
    printed: &[u8],
) {
    let mut board = Failing::new(FromSlice::new(TWO_KINGS.as_bytes()), calls.board);
    let mut list = Failing::new(FromSlice::new(moves), calls.moves);
    let mut out = Failing::new(ToArray::<400>::new(), calls.sink);
    let result = run_replay(alloc, &free_cell(rt, 4), &mut board, &mut list, &mut out);
    must(rt, result == *wanted);
    must(rt, out.device.held() == printed);
}

// So many calls that no device fails.
const ENOUGH: Calls = Calls {
    board: 1000,
    moves: 1000,
    sink: 1000,
};

#[test]
fn replays_moves(rt: HostRuntime) {
    let refused = Err(ProgramFault::Moves(ReplayFault::NotAllowed(3)));
    let bad = Err(ProgramFault::Moves(ReplayFault::BadMove(1)));
    let alloc = rt.alloc();
    replays_over(&rt, alloc, b"1a 1H\r\n", ENOUGH, &Ok(0), TWO_BOARDS);
    replays_over(&rt, alloc, b"1a 1h 1h", ENOUGH, &refused, TWO_BOARDS);
    replays_over(&rt, alloc, b"9h", ENOUGH, &bad, b"");
}

// A replay of two moves whose devices fail after so many calls ends by this fault, with this written.
fn check_failing(
    rt: &impl Abort,
    alloc: Global,
    calls: Calls,
    fault: ProgramFault,
    printed: &[u8],
) {
    replays_over(rt, alloc, b"1a 1h", calls, &Err(fault), printed);
}

#[test]
fn replays_over_failing_devices(rt: HostRuntime) {
    for board in 0..=TWO_KINGS.len() as u32 {
        let calls = Calls { board, ..ENOUGH };
        let fault = ProgramFault::Read(Input::Board);
        check_failing(&rt, rt.alloc(), calls, fault, b"");
    }
    for moves in 0..6 {
        let calls = Calls { moves, ..ENOUGH };
        let fault = ProgramFault::Read(Input::Moves);
        check_failing(&rt, rt.alloc(), calls, fault, b"");
    }
    for count in 0..TWO_BOARDS.len() {
        let sink = count as u32;
        let calls = Calls { sink, ..ENOUGH };
        let fault = ProgramFault::Write(Output::Answer);
        check_failing(&rt, rt.alloc(), calls, fault, &TWO_BOARDS[..count]);
    }
}

#[test]
fn stops_moves_that_never_end(rt: HostRuntime) {
    let mut board = FromSlice::new(TWO_KINGS.as_bytes());
    let mut moves = FromReader::new(io::repeat(b' '));
    let mut out = ToArray::<400>::new();
    let result = run_replay(
        rt.alloc(),
        &free_cell(&rt, 4),
        &mut board,
        &mut moves,
        &mut out,
    );
    must(&rt, result == Err(ProgramFault::TooLong(Input::Moves)));
}

#[test]
fn stops_a_reader_that_never_ends(rt: HostRuntime) {
    let mut source = FromReader::new(io::repeat(b' '));
    let told = read_position(&mut source, 4).err();
    must(&rt, told == Some(ProgramFault::Board(BoardFault::TooLong)));
}

//! Byte devices, and what is done over them.

use crate::given::{must, sure};
use fc_io::testing::Failing;
use fc_io::{
    Failed, FromReader, FromSlice, ReadFault, Sink, Source, ToArray, ToWriter, read_to_vec,
    read_up_to, write_all,
};
use std::alloc::Global;
use std::io;
use std::io::{ErrorKind, Read, Write};
use std::process::Abort;

// A reader and a writer that moves one byte a call, and answers an error at its second call alone.
#[derive(Drop)]
struct Hiccup {
    calls: u32,
}

impl Hiccup {
    fn count_call(&mut self) -> io::Result<()> {
        self.calls = self.calls.saturating_add(1);
        if self.calls == 2 {
            return Err(io::Error::from(ErrorKind::Other));
        }
        Ok(())
    }
}

impl Read for Hiccup {
    fn read(&mut self, buf: &mut [u8]) -> io::Result<usize> {
        self.count_call()?;
        Ok(buf.len().min(1))
    }
}

impl Write for Hiccup {
    fn write(&mut self, buf: &[u8]) -> io::Result<usize> {
        self.count_call()?;
        Ok(buf.len().min(1))
    }

    fn flush(&mut self) -> io::Result<()> {
        Ok(())
    }
}

// A sink that fails on a piece holds these bytes of it then, and has failed.
fn check_failed_sink(rt: &impl Abort, sink: &mut Failing<ToArray<8>>, held: &[u8]) {
    must(rt, write_all(sink, b"abc") == Err(Failed));
    must(rt, sink.failed());
    must(rt, sink.device.held() == held);
}

// A sink that fails after so many calls takes as many bytes of a piece, and has failed from then on.
fn check_failing_sink(rt: &impl Abort, calls: u32) {
    let held = b"abc".get(..calls as usize).expect(rt, "a front");
    let mut sink = Failing::new(ToArray::<8>::new(), calls);
    must(rt, !sink.failed());
    check_failed_sink(rt, &mut sink, held);
    check_failed_sink(rt, &mut sink, held);
}

#[test]
fn writes_whole_pieces_or_fails(rt: HostRuntime) {
    for calls in 0..3 {
        check_failing_sink(&rt, calls);
    }
    let mut sink = Failing::new(ToArray::<8>::new(), 3);
    must(&rt, write_all(&mut sink, b"abc") == Ok(()));
    must(&rt, sink.device.held() == b"abc".as_slice());
    must(&rt, !sink.failed());
}

// A piece is answered so, and the sink has failed exactly after a fault.
fn check_write<K: Sink>(
    rt: &impl Abort,
    sink: &mut K,
    piece: &[u8],
    answer: Result<usize, Failed>,
) {
    must(rt, sink.write(piece) == answer);
    must(rt, sink.failed() == answer.is_err());
}

// Pieces that are written one after the other into four bytes, and the answers.
static PIECES: [(&[u8], Result<usize, Failed>); 5] = [
    (b"abc", Ok(3)),
    (b"def", Ok(1)),
    (b"", Ok(0)),
    (b"e", Err(Failed)),
    (b"", Err(Failed)),
];

#[test]
fn fills_an_array(rt: HostRuntime) {
    let mut array = ToArray::<4>::new();
    for &(piece, answer) in &PIECES {
        check_write(&rt, &mut array, piece, answer);
    }
    must(&rt, array.held() == b"abcd".as_slice());
}

// Reading from a source fails, which leaves these bytes then, and has failed.
fn check_failed_source(rt: &impl Abort, source: &mut Failing<FromSlice<'_>>, left: &[u8]) {
    let mut room = [0; 4];
    must(rt, read_up_to(source, &mut room) == Err(Failed));
    must(rt, source.failed());
    must(rt, source.device.left() == left);
}

// A source that fails after so many calls has given as many bytes of its text, and has failed from then on.
fn check_failing_source(rt: &impl Abort, text: &[u8], calls: u32) {
    let left = text.get(calls as usize..).expect(rt, "an end");
    let mut source = Failing::new(FromSlice::new(text), calls);
    must(rt, !source.failed());
    check_failed_source(rt, &mut source, left);
    check_failed_source(rt, &mut source, left);
}

// Reading into four bytes gives so many, and these bytes are there then; the source hasn't failed.
fn check_read<S: Source>(rt: &impl Abort, source: &mut S, count: usize, wanted: &[u8]) {
    let mut room = [0; 4];
    must(rt, read_up_to(source, &mut room) == Ok(count));
    must(rt, room.as_slice() == wanted);
    must(rt, !source.failed());
}

#[test]
fn reads_into_room_or_fails(rt: HostRuntime) {
    for calls in 0..4 {
        check_failing_source(&rt, b"abc", calls);
    }
    let mut source = Failing::new(FromSlice::new(b"abc"), 4);
    check_read(&rt, &mut source, 3, b"abc\0");
}

// Reading a text into four bytes gives so many of it, and leaves this.
fn check_left(rt: &impl Abort, text: &[u8], count: usize, left: &[u8]) {
    let mut source = FromSlice::new(text);
    let mut room = [0; 4];
    must(rt, read_up_to(&mut source, &mut room) == Ok(count));
    must(rt, source.left() == left);
}

// Texts, how many bytes of each are read, and what is left.
static TEXTS: [(&[u8], usize, &[u8]); 4] = [
    (b"", 0, b""),
    (b"abc", 3, b""),
    (b"abcd", 4, b""),
    (b"abcdef", 4, b"ef"),
];

#[test]
fn tells_whether_all_came(rt: HostRuntime) {
    for &(text, count, left) in &TEXTS {
        check_left(&rt, text, count, left);
    }
    let mut source = FromSlice::new(b"abc");
    must(&rt, source.read(&mut []) == Ok(0));
    must(&rt, source.left() == b"abc".as_slice());
    must(&rt, !source.failed());
}

// What reading a text into memory tells, with at most so many bytes, and how many bytes it leaves.
fn check_limit(
    rt: &impl Abort,
    alloc: Global,
    text: &[u8],
    limit: usize,
    is_whole: bool,
    left: usize,
) {
    let mut source = FromSlice::new(text);
    match read_to_vec(alloc, &mut source, limit) {
        Ok(bytes) => must(rt, is_whole && bytes.as_slice() == text),
        Err(fault) => must(rt, !is_whole && fault == ReadFault::TooLong),
    }
    must(rt, source.left().len() == left);
}

#[test]
fn reads_into_memory(rt: HostRuntime) {
    let mut text = [0; 10_000];
    for (number, byte) in text.iter_mut().enumerate() {
        *byte = (number % 251) as u8;
    }
    for &(limit, is_whole, left) in &LIMITS {
        check_limit(&rt, rt.alloc(), &text, limit, is_whole, left);
    }
    check_limit(&rt, rt.alloc(), b"", 0, true, 0);
}

// At most how many bytes of 10,000 are read, whether that is all, and how many are left.
static LIMITS: [(usize, bool, usize); 6] = [
    (10_001, true, 0),
    (10_000, true, 0),
    (9_999, false, 0),
    (8_192, false, 1_807),
    (8_191, false, 1_808),
    (0, false, 9_999),
];

// Reading from a source into memory ends by this fault.
fn check_fault<S: Source>(
    rt: &impl Abort,
    alloc: Global,
    source: &mut S,
    limit: usize,
    fault: ReadFault,
) {
    must(rt, read_to_vec(alloc, source, limit).err() == Some(fault));
}

// Reading from a source that fails after so many calls fails, twice.
fn check_failure(rt: &impl Abort, alloc: Global, calls: u32) {
    let mut source = Failing::new(FromSlice::new(b"abc"), calls);
    check_fault(rt, alloc, &mut source, 3, ReadFault::Failed);
    check_fault(rt, alloc, &mut source, 3, ReadFault::Failed);
}

#[test]
fn tells_a_fault_from_a_long_text(rt: HostRuntime) {
    for calls in 0..4 {
        check_failure(&rt, rt.alloc(), calls);
    }
    let mut long = Failing::new(FromSlice::new(b"abc"), 3);
    check_fault(&rt, rt.alloc(), &mut long, 2, ReadFault::TooLong);
    must(&rt, !long.failed());
}

#[test]
fn reads_all_before_a_fault(rt: HostRuntime) {
    let mut whole = Failing::new(FromSlice::new(b"abc"), 4);
    let bytes = sure(&rt, read_to_vec(rt.alloc(), &mut whole, 3));
    must(&rt, bytes.as_slice() == b"abc".as_slice());
}

// What one read of a source answers, which has failed exactly after a fault.
fn check_piece<S: Source>(rt: &impl Abort, source: &mut S, answer: Result<usize, Failed>) {
    let mut room = [0; 4];
    must(rt, source.read(&mut room) == answer);
    must(rt, source.failed() == answer.is_err());
}

#[test]
fn reads_a_reader(rt: HostRuntime) {
    let mut whole = FromReader::new(b"abc".as_slice());
    check_read(&rt, &mut whole, 3, b"abc\0");
    let mut endless = FromReader::new(io::repeat(b'x'));
    check_read(&rt, &mut endless, 4, b"xxxx");
    check_fault(&rt, rt.alloc(), &mut endless, 5_000, ReadFault::TooLong);
}

#[test]
fn reads_until_a_reader_fails(rt: HostRuntime) {
    let mut hiccup = FromReader::new(Hiccup { calls: 0 });
    check_piece(&rt, &mut hiccup, Ok(1));
    check_piece(&rt, &mut hiccup, Err(Failed));
    check_piece(&rt, &mut hiccup, Err(Failed));
}

#[test]
fn writes_a_whole_piece(rt: HostRuntime) {
    let mut bytes = Vec::new(rt.alloc());
    let mut whole = ToWriter::new(&mut bytes);
    must(&rt, write_all(&mut whole, b"abc") == Ok(()));
    must(&rt, !whole.failed());
    must(&rt, bytes.as_slice() == b"abc".as_slice());
}

#[test]
fn writes_into_short_room(rt: HostRuntime) {
    let mut room = [0; 2];
    let mut short = ToWriter::new(room.as_mut_slice());
    check_write(&rt, &mut short, b"abc", Ok(2));
    check_write(&rt, &mut short, b"", Ok(0));
    check_write(&rt, &mut short, b"c", Err(Failed));
}

#[test]
fn writes_until_a_writer_fails(rt: HostRuntime) {
    let mut hiccup = ToWriter::new(Hiccup { calls: 0 });
    check_write(&rt, &mut hiccup, b"abc", Ok(1));
    check_write(&rt, &mut hiccup, b"bc", Err(Failed));
    check_write(&rt, &mut hiccup, b"bc", Err(Failed));
}

ghost use Rattle.std.specs.Prelude.{◌≡◌, ◌+◌, length};
ghost use Rattle.fc_row_text.specs.Places.{place_behind, room_behind, scan, word_ended, words_in, words_with};

use crate::row_words::is_row_gap;
use arrayvec::ArrayVec;
use std::marker::Model;

// The last place that is told apart.
const LAST_PLACE: usize = 65_536;

/// Where a word of a line stands. Places count from 0; a tab goes to the next multiple of 8, any other byte takes one place.
#[derive(Clone, Copy, Debug, Default, PartialEq, Eq)]
pub struct Span {
    /// Its number in the line, from 1.
    pub number: usize,
    /// The room before it since the word before or the line's beginning: one for a blank, two for a tab.
    pub room: usize,
    /// Its first place.
    pub from: usize,
    /// The place behind its last one.
    pub to: usize,
}

/// The first eight words of a line.
pub(crate) type Spans = ArrayVec<Span, 8>;

// A line that was read so far.
#[derive(Debug, Drop)]
struct Scan {
    place: usize,
    room: usize,
    start: Option<usize>,
    words: Spans,
}

impl Model for Scan {
    ghost use Rattle.fc_row_text.specs.Places.{LineSoFar};

    ghost Value = { LineSoFar };

    ghost view = { λ s. record { place = s.place; room = s.room; start = s.start; words = s.words.items } };
}

impl Scan {
    // One more byte.
    #[tactic(auto, unfolding(crate::specs::Places::scan))]
    fn pass(&mut self, byte: u8)
        ensures { self.new ≡ scan self.old byte }
    {
        if is_row_gap(byte) {
            self.end_word();
            self.room = room_behind(self.room, byte);
        } else if self.start.is_none() {
            self.start = Some(self.place);
        }
        self.place = place_behind(self.place, byte);
    }

    // Ends the word that goes on, if there is one.
    fn end_word(&mut self)
        ensures { self.new ≡ word_ended self.old.start self.old }
    {
        if let Some(from) = self.start {
            push_word(&mut self.words, self.room, from, self.place);
            self.room = 0;
            self.start = None;
        }
    }
}

/// The first eight words of a line, where they stand.
#[tactic(auto, unfolding(crate::specs::Places::scan_all))]
pub(crate) fn words_in(line: &[u8]) -> Spans
    ensures { result.items ≡ words_in line.now }
{
    let mut scan = Scan {
        place: 0,
        room: 0,
        start: None,
        words: ArrayVec::new(),
    };
    for byte in line {
        scan.pass(*byte);
    }
    scan.end_word();
    scan.words
}

// One more word, up to the eighth.
fn push_word(words: &mut Spans, room: usize, from: usize, to: usize)
    ensures { words.new.items ≡ words_with words.old.items (record { number = length words.old.items + 1; room = room; from = from; to = to }) }
{
    let count = words.len();
    if count < 8 {
        words.push(Span {
            number: count + 1,
            room,
            from,
            to,
        });
    }
}

// The place behind a byte.
fn place_behind(place: usize, byte: u8) -> usize
    ensures { result ≡ place_behind place byte }
{
    let place = place.min(LAST_PLACE);
    if byte == b'\t' {
        8 * (place / 8 + 1)
    } else {
        place + 1
    }
}

// The room before the byte behind this one.
fn room_behind(room: usize, byte: u8) -> usize
    ensures { result ≡ room_behind room byte }
{
    room.min(4) + if byte == b'\t' { 2 } else { 1 }
}

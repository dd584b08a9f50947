ghost use Rattle.std.specs.Prelude.{◌≡◌, length};
ghost use Rattle.std.specs.List.{list_any};
ghost use Rattle.fc_row_text.specs.Places.{are_apart, first_under, is_off_first, is_wide, places_with, read_behind, read_so, reading_of, run_on, shares_place, word_behind_gap, word_behind_room, word_under, words_from_first, words_under};

use crate::spans::Span;

/// For each column where its entry stands, if it has one.
pub type Places = [Option<Span>; 8];

/// How a row is read.
#[derive(Clone, Copy, Debug, PartialEq, Eq)]
pub struct Reading {
    /// For each column the word that is its entry.
    pub entries: Places,
    /// The number of the entry, from 1, behind a gap that leaves open which columns the entries are those of.
    pub gap: Option<usize>,
    /// No other reading is near: the row has eight entries, or each stands under its column's number and none is a wide one.
    pub is_sure: bool,
}

/// How a row with these words is read below these numbers of the columns and these entries.
#[tactic(auto, unfolding(crate::specs::Places::reading_of))]
pub(crate) fn reading_of(head: &Places, above: &Places, words: &[Span]) -> Reading
    ensures { result ≡ reading_of head.now above.now words.now }
{
    let below_head = words_under(head, words);
    if run_on(&below_head, words) {
        return read_so(below_head, !has_wide(words));
    }
    if words.len() == 8 {
        return read_so(words_from_first(words), true);
    }
    read_behind(word_behind_gap(above[0].or(head[0]), words), above, words)
}

// How a row is read that has no gap, or a gap before this word.
fn read_behind(gap: Option<usize>, above: &Places, words: &[Span]) -> Reading
    ensures { result ≡ read_behind gap above.now words.now }
{
    if gap.is_none() {
        return read_so(words_from_first(words), false);
    }
    let entries = words_under(above, words);
    if run_on(&entries, words) {
        return read_so(entries, false);
    }
    Reading {
        entries: words_from_first(words),
        gap,
        is_sure: false,
    }
}

// A row that is read so.
fn read_so(entries: Places, is_sure: bool) -> Reading
    ensures { result ≡ read_so entries is_sure }
{
    Reading {
        entries,
        gap: None,
        is_sure,
    }
}

/// The words as those of the first columns.
pub(crate) fn words_from_first(words: &[Span]) -> Places
    ensures { result ≡ words_from_first words.now }
{
    let mut entries = [None; 8];
    for column in 0..8 {
        entries[column] = words.get(column).copied();
    }
    entries
}

/// Where these entries stand, and for a column without one what stands above.
pub(crate) fn places_with(entries: &Places, above: &Places) -> Places
    ensures { result ≡ places_with entries.now above.now }
{
    let mut places = [None; 8];
    for column in 0..8 {
        places[column] = entries[column].or(above[column]);
    }
    places
}

/// Whether the numbers of the columns stand so far apart that cards have room below them.
pub(crate) fn are_apart(words: &[Span]) -> bool
    ensures { result ≡ are_apart words.now }
{
    let mut rest = words;
    while let [first, others @ ..] = rest {
        if let [second, ..] = others
            && second.from.saturating_sub(first.from) < 3
        {
            return false;
        }
        rest = others;
    }
    true
}

// The word of each column, where the columns have these places.
fn words_under(places: &Places, words: &[Span]) -> Places
    ensures { result ≡ words_under places.now words.now }
{
    let mut entries = [None; 8];
    for column in 0..8 {
        entries[column] = word_under(places[column], words);
    }
    entries
}

// The first word that stands under a column, where it has a place.
fn word_under(place: Option<Span>, words: &[Span]) -> Option<Span>
    ensures { result ≡ word_under place words.now }
{
    first_under(place?, words)
}

// The first word that stands under this one.
fn first_under(above: Span, words: &[Span]) -> Option<Span>
    ensures { result ≡ first_under above words.now }
{
    for word in words {
        if shares_place(above, *word) {
            return Some(*word);
        }
    }
    None
}

// Whether two words share a place.
fn shares_place(a: Span, b: Span) -> bool
    ensures { result ≡ shares_place a b }
{
    b.from < a.to && a.from < b.to
}

// Whether the words of the columns are all of these, in their order.
fn run_on(entries: &Places, words: &[Span]) -> bool
    ensures { result ≡ run_on 1 (length words.now) entries.now }
{
    let mut number = 1;
    for entry in entries {
        if let Some(word) = entry {
            if word.number != number {
                return false;
            }
            number += 1;
        }
    }
    number == words.len() + 1
}

// Whether a word takes more than two places.
fn has_wide(words: &[Span]) -> bool
    ensures { result ≡ list_any is_wide words.now }
{
    for word in words {
        if word.to.saturating_sub(word.from) > 2 {
            return true;
        }
    }
    false
}

// The number of the first word behind a gap, where column 1 has this place.
fn word_behind_gap(first: Option<Span>, words: &[Span]) -> Option<usize>
    ensures { result ≡ word_behind_gap first words.now }
{
    match words {
        [] => None,
        [word, ..] if is_off_first(first, *word) => Some(word.number),
        [_, rest @ ..] => word_behind_room(rest),
    }
}

// Whether the first word of a row doesn't stand where column 1 does, or has room before it where that has no place.
fn is_off_first(first: Option<Span>, word: Span) -> bool
    ensures { result ≡ is_off_first first word }
{
    match first {
        None => word.room > 3,
        Some(above) => !shares_place(above, word),
    }
}

// The number of the first word with room for another one before it.
fn word_behind_room(words: &[Span]) -> Option<usize>
    ensures { result ≡ word_behind_room words.now }
{
    for word in words {
        if word.room > 3 {
            return Some(word.number);
        }
    }
    None
}

//! Lists as people write them: moves, and cards with the places where they go.

ghost use Rattle.std.specs.Prelude.{◌≡◌, ℕ, ◌+◌, List, [], ◌∷◌, ◌++◌, Some, None, IfOk, IfErr, OnOk, length, min};
ghost use Rattle.fc_moves.specs.declared.steps.Move.{Move};
ghost use Rattle.fc_lists.specs.Word.{words_of};
ghost use Rattle.fc_lists.specs.Written.{AreEntries, IsEntriesFault, ReadsEntries};
ghost use Rattle.fc_lists.specs.declared.written_entries.Entry.TheVariants as entry;
ghost use Rattle.fc_lists.specs.inner.Held.{IsHeld, IsPending, IsPushFault};

use crate::words::{after_number, is_link, move_of, named_place};
use crate::written_entries::Entry;
use fc_cards::Card;
use fc_moves::Move;
use fc_replay::MoveGaps;
use fc_text::Tokens;
use std::alloc::Global;
use thiserror::Error;

/// Why a list that people write isn't read. Steps count from 1.
#[derive(Clone, Copy, Debug, PartialEq, Eq, Error)]
pub enum EntriesFault {
    /// What stands at this step is no move, nor a card that a place follows.
    #[error("step {0}: not a move")]
    NoMove(u32),
    /// A growth was refused.
    #[error("want of memory")]
    Memory,
}

// A card that a word names, and the move that the word is where no place follows it.
#[derive(Clone, Copy)]
pub(crate) struct Held {
    pub card: Card,
    pub m: Option<Move>,
}

/// The entries of a list that people write: moves of two letters, perhaps with a dash or an arrow between them, and cards with the
/// place where each goes, perhaps with `to`, a dash or an arrow between. Numbers with a point, a bracket or a colon before entries are
/// passed over.
///
/// # Errors
/// `NoMove` with the first entry that is no move, and no card that a place follows; its step is told up to 4,294,967,295. `Memory`
/// where a growth was refused.
pub fn read_entries(alloc: Global, list: &[u8]) -> Result<Vec<Entry>, EntriesFault>
    ensures read { IfOk result (λ entries. AreEntries (words_of list.now) entries.items) }
    ensures fault { IfErr result (IsEntriesFault (words_of list.now)) }
{
    let mut entries = Vec::new(alloc);
    let mut held = None;
    for token in Tokens::new(list, MoveGaps) {
        let word = after_number(token);
        if word.is_empty() {
            continue;
        }
        held = match read_word(&mut entries, held, word) {
            Ok(now) => now,
            Err(fault) => return Err(fault),
        };
    }
    match end_list(&mut entries, held) {
        Ok(()) => Ok(entries),
        Err(fault) => Err(fault),
    }
}

// Reads the next word of a list, behind the card that may be held; the card that is held then.
fn read_word(
    entries: &mut Vec<Entry>,
    held: Option<Held>,
    word: &[u8],
) -> Result<Option<Held>, EntriesFault>
    ensures read { IfOk result (λ now. (words rest : List (List ℕ)) → IsPending words held entries.old.items (word.now ∷ rest)
        → IsPending words now entries.new.items rest) }
    ensures fault { IfErr result (λ fault. (words rest : List (List ℕ)) → IsPending words held entries.old.items (word.now ∷ rest)
        → IsEntriesFault words fault) }
{
    match held {
        Some(before) => read_behind(entries, before, word),
        None => begin_entry(entries, word),
    }
}

// Reads a word behind a card that is held; the card that is held then.
fn read_behind(
    entries: &mut Vec<Entry>,
    before: Held,
    word: &[u8],
) -> Result<Option<Held>, EntriesFault>
    ensures read { IfOk result (λ now. (words rest : List (List ℕ)) → IsHeld words before entries.old.items (word.now ∷ rest)
        → IsPending words now entries.new.items rest) }
    ensures fault { IfErr result (λ fault. (words rest : List (List ℕ)) → IsHeld words before entries.old.items (word.now ∷ rest)
        → IsEntriesFault words fault) }
{
    if is_link(word) {
        return Ok(Some(before));
    }
    if let Some(place) = named_place(word) {
        push_entry(entries, Entry::Card(before.card, place))?;
        return Ok(None);
    }
    push_move(entries, before.m)?;
    begin_entry(entries, word)
}

// Reads a word that no card is held before; the card that is held then.
fn begin_entry(entries: &mut Vec<Entry>, word: &[u8]) -> Result<Option<Held>, EntriesFault>
    ensures read { IfOk result (λ now. (words rest : List (List ℕ)) → ReadsEntries words entries.old.items (word.now ∷ rest)
        → IsPending words now entries.new.items rest) }
    ensures fault { IfErr result (λ fault. (words rest : List (List ℕ)) → ReadsEntries words entries.old.items (word.now ∷ rest)
        → IsEntriesFault words fault) }
{
    let m = move_of(word);
    if let Some(card) = Card::read(word) {
        return Ok(Some(Held { card, m }));
    }
    match push_move(entries, m) {
        Ok(()) => Ok(None),
        Err(fault) => Err(fault),
    }
}

// Ends a list, behind the card that may be held.
fn end_list(entries: &mut Vec<Entry>, held: Option<Held>) -> Result<(), EntriesFault>
    ensures read { OnOk result ((words : List (List ℕ)) → IsPending words held entries.old.items [] → AreEntries words entries.new.items) }
    ensures fault { IfErr result (λ fault. (words : List (List ℕ)) → IsPending words held entries.old.items [] → IsEntriesFault words fault) }
{
    match held {
        Some(before) => push_move(entries, before.m),
        None => Ok(()),
    }
}

// Appends a move as an entry; where there is none, the word is no entry.
fn push_move(entries: &mut Vec<Entry>, m: Option<Move>) -> Result<(), EntriesFault>
    ensures pushed { OnOk result ((n : Move) × (m ≡ Some n) × (entries.new.items ≡ entries.old.items ++ entry.Move n ∷ [])) }
    ensures fault { IfErr result (IsPushFault m entries.old.items) }
{
    let Some(m) = m else {
        return Err(EntriesFault::NoMove(step_behind(entries.len())));
    };
    push_entry(entries, Entry::Move(m))
}

// Appends an entry.
fn push_entry(entries: &mut Vec<Entry>, e: Entry) -> Result<(), EntriesFault>
    ensures pushed { OnOk result (entries.new.items ≡ entries.old.items ++ e ∷ []) }
    ensures fault { IfErr result (λ fault. fault ≡ EntriesFault.Memory) }
{
    match entries.push(e) {
        Ok(()) => Ok(()),
        Err(_) => Err(EntriesFault::Memory),
    }
}

// The step behind so many entries, up to the greatest number.
fn step_behind(before: usize) -> u32
    ensures value { result ≡ min (before + 1) 4294967295 }
{
    if before < u32::MAX as usize {
        before as u32 + 1
    } else {
        u32::MAX
    }
}

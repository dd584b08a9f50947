//! Lists in standard notation, whose entries may move sequences: their entries, and the one-card moves to which these come.

ghost use Rattle.std.specs.Prelude.{◌≡◌, ◌+◌, ◌≤◌, length, take, All, IfOk, IfErr};
ghost use Rattle.fc_moves.specs.GameRules.{IsPositionOf};
ghost use Rattle.fc_moves.specs.MoveText.{HasText};
ghost use Rattle.fc_replay.specs.Token.{move_tokens};
ghost use Rattle.fc_lists.specs.Plays.{IsExpanded, IsUnplayed, IsUnread, SpellPairs};
ghost use Rattle.fc_lists.specs.inner.Faults.{list_fault};

use crate::faults::PlayFault;
use crate::list_plays::LONGEST_MOVES;
use fc_moves::{Game, Move};
use fc_position::Position;
use fc_replay::MoveGaps;
use fc_sequences::{ListFault, Pair, expand, read_pair};
use fc_text::Tokens;
use std::alloc::Global;

/// Entries of a list that may move several cards each, and the one-card moves to which they come.
#[derive(Drop)]
pub struct Expansion {
    pub entries: Vec<Pair>,
    pub moves: Vec<Move>,
}

/// The first entries of a text, at most so many, which may move several cards, as in standard notation, and the one-card moves to which
/// they come, at most 4,294,967,295: they are played from a position of the game. Where it isn't told how many cards go to an empty
/// column, they are so many that the entries can be played.
///
/// # Errors
/// In this order: the first token that is no entry; the first step up to which no numbers of cards let the entries be played, or one up
/// to which they lead to more than 1,000 boards, or want of memory, whichever is met first; and more than 4,294,967,295 one-card moves.
pub fn expand_entries<G: Game>(
    alloc: Global,
    game: &G,
    position: &Position,
    text: &[u8],
    most: usize,
) -> Result<Expansion, PlayFault>
    requires fits { IsPositionOf (G.game game.now) position.now }
    requires short { length text.now ≤ LONGEST_MOVES }
    ensures spelled { IfOk result (λ it. SpellPairs (take most (move_tokens text.now)) it.entries.items) }
    ensures texts { IfOk result (λ it. All HasText it.moves.items) }
    ensures expanded { IfOk result (λ it. IsExpanded (G.game game.now) position.now (take most (move_tokens text.now)) it.moves.items) }
    ensures few { IfOk result (λ it. length it.moves.items ≤ 4294967295) }
    ensures fault { IfErr result (IsUnplayed (G.game game.now) position.now (take most (move_tokens text.now))) }
{
    let entries = read_pairs(alloc, text, most)?;
    let moves = match expand(alloc, game, position, entries.as_slice()) {
        Ok(moves) => moves,
        Err(fault) => return Err(list_fault(fault)),
    };
    if moves.len() > u32::MAX as usize {
        return Err(PlayFault::TooLong);
    }
    Ok(Expansion { entries, moves })
}

// The first entries of a text, at most so many.
fn read_pairs(alloc: Global, text: &[u8], most: usize) -> Result<Vec<Pair>, PlayFault>
    requires short { length text.now ≤ LONGEST_MOVES }
    ensures spelled { IfOk result (λ pairs. SpellPairs (take most (move_tokens text.now)) pairs.items) }
    ensures few { IfOk result (λ pairs. length pairs.items ≤ LONGEST_MOVES) }
    ensures fault { IfErr result (IsUnread (take most (move_tokens text.now))) }
{
    let mut pairs = Vec::new(alloc);
    for token in Tokens::new(text, MoveGaps) {
        if pairs.len() >= most {
            return Ok(pairs);
        }
        let Some(pair) = read_pair(token) else {
            return Err(no_entry(pairs.len()));
        };
        let Ok(()) = pairs.push(pair) else {
            return Err(PlayFault::Memory);
        };
    }
    Ok(pairs)
}

// The fault of a token that is no entry, behind so many that are.
pub(crate) fn no_entry(before: usize) -> PlayFault
    requires few { before ≤ LONGEST_MOVES }
    ensures value { result ≡ PlayFault.NoEntry (before + 1) }
{
    PlayFault::NoEntry(before as u32 + 1)
}

// The fault of a list that isn't expanded.
fn list_fault(fault: ListFault) -> PlayFault
    ensures value { result ≡ list_fault fault }
{
    match fault {
        ListFault::Refused(step) => PlayFault::NotAllowed(step),
        ListFault::TooMany(step) => PlayFault::TooManyWays(step),
        ListFault::Memory => PlayFault::Memory,
    }
}

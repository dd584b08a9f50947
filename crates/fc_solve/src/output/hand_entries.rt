//! An answer as entries that may move several cards, as a player's hands would do it.
ghost use Rattle.std.specs.Prelude.{◌≤◌, All, IfOk, length};
ghost use Rattle.fc_moves.specs.GameRules.{IsPositionOf};
ghost use Rattle.fc_sequences.specs.Pair.{HasPairText};

use crate::output::answer_forms::{UNWRITTEN, tell_whole};
use crate::output::endings::Ending;
use crate::output::entry_pages::{EntryPage, write_entries};
use crate::output::found_answers::Answered;
use crate::output::outputs::Out;
use fc_io::write_all;
use fc_lists::LONGEST_MOVES;
use fc_moves::{Game, Move};
use fc_position::Position;
use fc_runs::{Input, ProgramFault};
use fc_sequences::{Pair, expand, gather, print_pair};
use std::alloc::{AllocError, Global};

/// Writes the first line of an answer, with how many entries there are, and then the entries that its moves are joined to.
pub fn tell_entries<G: Game>(
    rt: &HostRuntime,
    game: &G,
    start: &Position,
    answered: &Answered,
) -> Result<(), Ending>
    requires position { IsPositionOf (G.game game.now) start.now }
{
    let pairs = entries_of(rt.alloc(), game, start, answered.moves())?;
    if pairs.is_empty() {
        return tell_whole(rt, answered.text());
    }
    let text = text_of(rt.alloc(), answered.told(), pairs.as_slice())?;
    tell_whole(rt, text.as_slice())
}

/// Writes the first line of an answer, with how many entries there are, and then a page for each. No memory is asked for behind
/// that line.
pub fn tell_entry_pages<G: Game>(
    rt: &HostRuntime,
    game: &G,
    start: &Position,
    answered: &Answered,
    page: EntryPage,
) -> Result<(), Ending>
    requires position { IsPositionOf (G.game game.now) start.now }
{
    let pairs = entries_of(rt.alloc(), game, start, answered.moves())?;
    if pairs.is_empty() {
        return tell_whole(rt, answered.told());
    }
    // (each entry leads to one board alone, so it is the answer's)
    let Ok(moves) = expand(rt.alloc(), game, start, pairs.as_slice()) else {
        return Err(Ending::Fault(ProgramFault::Memory));
    };
    let mut head = head_of(rt.alloc(), answered.told(), pairs.len())?;
    head.extend_from_slice(b"\n")?;
    let mut out = Out::new(rt);
    let Ok(()) = write_all(&mut out, head.as_slice()) else {
        return Err(out.ending_of(UNWRITTEN));
    };
    match write_entries(
        game,
        start,
        pairs.as_slice(),
        moves.as_slice(),
        page,
        &mut out,
    ) {
        Ok(_) => Ok(()),
        Err(_) => Err(out.ending_of(UNWRITTEN)),
    }
}

// The entries that these moves are joined to; none where there are no moves.
fn entries_of<G: Game>(
    alloc: Global,
    game: &G,
    start: &Position,
    moves: &[Move],
) -> Result<Vec<Pair>, Ending>
    requires position { IsPositionOf (G.game game.now) start.now }
    ensures few { IfOk result (λ pairs. length pairs.items ≤ LONGEST_MOVES) }
    ensures texts { IfOk result (λ pairs. All HasPairText pairs.items) }
{
    if moves.len() > LONGEST_MOVES {
        return Err(Ending::Fault(ProgramFault::TooLong(Input::Moves)));
    }
    // (the moves are those of an answer, so each is allowed)
    match gather(alloc, game, start, moves) {
        Ok(pairs) if pairs.len() <= LONGEST_MOVES => Ok(pairs),
        Ok(_) => Err(Ending::Fault(ProgramFault::TooLong(Input::Moves))),
        Err(_) => Err(Ending::Fault(ProgramFault::Memory)),
    }
}

// An answer's first line, with how many entries there are, and the entries in a line.
fn text_of(alloc: Global, told: &[u8], pairs: &[Pair]) -> Result<Vec<u8>, AllocError>
    requires texts { All HasPairText pairs.now }
{
    let mut text = head_of(alloc, told, pairs.len())?;
    let mut gap = b'\n';
    for pair in pairs {
        text.push(gap)?;
        text.extend_from_slice(&print_pair(*pair))?;
        gap = b' ';
    }
    text.push(b'\n')?;
    Ok(text)
}

// An answer's first line, with how many entries there are, up to its end.
fn head_of(alloc: Global, told: &[u8], count: usize) -> Result<Vec<u8>, AllocError> {
    let mut head = Vec::new(alloc);
    head.extend_from_slice(told.strip_suffix(b"\n").unwrap_or(told))?;
    let counted = format!(in alloc; ", in {count} entries")?;
    head.extend_from_slice(counted.as_bytes())?;
    Ok(head)
}

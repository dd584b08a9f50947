//! What is read beside a board, lists of moves and certificates: where it comes from, how a list is read, and what is said at its
//! end.
ghost use Rattle.std.specs.Prelude.{All, IfOk};
ghost use Rattle.fc_moves.specs.GameRules.{IsPositionOf};
ghost use Rattle.fc_moves.specs.MoveText.{HasText};

use crate::input::board_sources::open;
use crate::output::endings::Ending;
use fc_cards::Place;
use fc_io::{FromReader, ReadFault, read_to_vec};
use fc_lists::{LONGEST_MOVES, ListQuestion, ListWants, list_moves};
use fc_moves::{Game, Move};
use fc_position::Position;
use fc_replay::Ended;
use fc_runs::{Input, ProgramFault};
use fc_words::FileWord;
use std::alloc::{AllocError, Global};
use std::fs::File;

/// Where what is read beside a board comes from.
#[derive(Drop)]
pub enum FileSource {
    /// A file.
    File(FromReader<File>),
    /// Standard input.
    Input,
}

/// Where this input comes from that a word names; a file is opened.
pub fn find_file(
    rt: &HostRuntime,
    word: &FileWord<'_>,
    input: Input,
) -> Result<FileSource, Ending> {
    match *word {
        FileWord::Input => Ok(FileSource::Input),
        FileWord::File(path) => Ok(FileSource::File(open(rt, path, input)?)),
    }
}

/// The text of a list of moves.
pub fn read_moves(rt: &HostRuntime, source: FileSource) -> Result<Vec<u8>, Ending> {
    let read = match source {
        FileSource::File(mut file) => read_to_vec(rt.alloc(), &mut file, LONGEST_MOVES),
        FileSource::Input => {
            read_to_vec(rt.alloc(), &mut FromReader::new(rt.stdin()), LONGEST_MOVES)
        }
    };
    match read {
        Ok(text) => Ok(text),
        Err(ReadFault::Failed) => Err(Ending::Fault(ProgramFault::Read(Input::Moves))),
        Err(ReadFault::TooLong) => Err(Ending::Fault(ProgramFault::TooLong(Input::Moves))),
        Err(ReadFault::Memory) => Err(Ending::Fault(ProgramFault::Memory)),
    }
}

/// The one-card moves of a list, all of whose entries are played.
///
/// # Errors
/// What a replay of the list refuses.
pub fn moves_played<G: Game>(
    alloc: Global,
    game: &G,
    start: &Position,
    list: &[u8],
    has_sequences: bool,
) -> Result<Vec<Move>, ProgramFault>
    requires position { IsPositionOf (G.game game.now) start.now }
    ensures texts { IfOk result (λ moves. All HasText moves.items) }
{
    let wants = ListWants::Line;
    let question = ListQuestion {
        wants,
        has_sequences,
    };
    moves_asked(alloc, game, start, list, question)
}

/// The one-card moves of those entries of a list that are asked of.
///
/// # Errors
/// What a replay of these entries refuses, and fewer than are asked of.
pub fn moves_asked<G: Game>(
    alloc: Global,
    game: &G,
    start: &Position,
    list: &[u8],
    question: ListQuestion,
) -> Result<Vec<Move>, ProgramFault>
    requires position { IsPositionOf (G.game game.now) start.now }
    ensures texts { IfOk result (λ moves. All HasText moves.items) }
{
    if list.len() > LONGEST_MOVES {
        return Err(ProgramFault::TooLong(Input::Moves));
    }
    Ok(list_moves(alloc, game, start, list, question)?)
}

/// Appends a line of moves, two letters each with a blank between, without its end.
pub fn push_letters(text: &mut Vec<u8>, moves: &[Move]) -> Result<(), AllocError> {
    for (place, m) in moves.iter().enumerate() {
        if place > 0 {
            text.push(b' ')?;
        }
        text.push(letter_of(m.from))?;
        text.push(letter_of(m.to))?;
    }
    Ok(())
}

/// The letters of the move behind so many in a line of moves.
pub fn letters_at(letters: &[u8], place: usize) -> &str {
    let from = place.saturating_mul(3);
    match letters.get(from..from.saturating_add(2)) {
        Some(own) => std::str::from_utf8(own).unwrap_or(""),
        None => "",
    }
}

// The letter of a place.
fn letter_of(place: Place) -> u8 {
    match place {
        Place::Column(number) => b'1'.saturating_add(number),
        Place::Cell(number) => b'a'.saturating_add(number),
        Place::Home => b'h',
    }
}

/// Says how a list of moves ended.
pub fn tell_end(rt: &HostRuntime, ended: Ended) {
    let moves = ended.moves;
    let word = if moves == 1 { "move" } else { "moves" };
    let _told = if ended.is_won {
        eprintln!(rt; "fc_solve: won in {moves} {word}")
    } else {
        eprintln!(rt; "fc_solve: not won after {moves} {word}")
    };
}

//! An answer told otherwise than by letters: in words, with boards, or as entries that may move several cards.
ghost use Rattle.fc_position.specs.Position.{Fits};
ghost use Rattle.fc_moves.specs.GameRules.{IsPositionOf};

use crate::input::moves::push_letters;
use crate::output::endings::Ending;
use crate::output::entry_pages::EntryPage;
use crate::output::found_answers::Answered;
use crate::output::hand_entries::{tell_entries, tell_entry_pages};
use crate::output::outputs::Out;
use fc_io::{Sink, write_all};
use fc_lists::LONGEST_MOVES;
use fc_moves::{Game, Move};
use fc_position::Position;
use fc_replay::{Page, replay_as};
use fc_runs::{Output, ProgramFault};
use fc_words::{Colours, EntriesForm, MovesForm};
use std::alloc::{AllocError, Global};
use std::io::IsTerminal;

/// How an answer is told.
#[derive(Clone, Copy)]
pub struct Manner {
    pub form: MovesForm,
    /// Whether red suits are in red.
    pub is_coloured: bool,
    /// Whether letters stand ten moves a line, with the number of the first in front.
    pub is_numbered: bool,
}

impl Manner {
    /// What the words say, on the terminal that standard output may be.
    pub fn new(rt: &HostRuntime, form: MovesForm, colours: Colours) -> Manner {
        let is_terminal = rt.stdout().is_terminal();
        Manner {
            form,
            is_coloured: colours.are_shown(is_terminal),
            is_numbered: is_terminal,
        }
    }
}

/// Writes an answer in this manner.
pub fn tell_in_form<G: Game>(
    rt: &HostRuntime,
    game: &G,
    start: &Position,
    answered: &Answered,
    manner: Manner,
) -> Result<(), Ending>
    requires position { IsPositionOf (G.game game.now) start.now }
{
    let is_coloured = manner.is_coloured;
    match manner.form {
        MovesForm::Letters if manner.is_numbered => tell_numbered(rt, answered),
        MovesForm::Letters | MovesForm::Json => tell_whole(rt, answered.text()),
        MovesForm::InWords => tell_in_pages(rt, game, start, answered, Page::InWords(is_coloured)),
        MovesForm::Boards => tell_in_pages(rt, game, start, answered, Page::Drawn(is_coloured)),
        MovesForm::Sequences(form) => tell_joined(rt, game, start, answered, form, is_coloured),
    }
}

// Writes the first line of an answer, and then its moves, ten a line, with the number of the first in front.
fn tell_numbered(rt: &HostRuntime, answered: &Answered) -> Result<(), Ending> {
    let text = numbered_text(rt.alloc(), answered.told(), answered.moves())?;
    tell_whole(rt, text.as_slice())
}

// The first line of an answer, and its moves, ten a line.
fn numbered_text(alloc: Global, told: &[u8], moves: &[Move]) -> Result<Vec<u8>, AllocError> {
    let mut text = Vec::from_slice(alloc, told)?;
    let mut number = 1usize;
    for line in moves.chunks(MOVES_A_LINE) {
        let head = format!(in alloc; "{number:4}. ")?;
        text.extend_from_slice(head.as_bytes())?;
        push_letters(&mut text, line)?;
        text.push(b'\n')?;
        number = number.saturating_add(MOVES_A_LINE);
    }
    Ok(text)
}

// How many moves stand on a line of a terminal.
const MOVES_A_LINE: usize = 10;

// Writes an answer whose moves are joined to entries.
fn tell_joined<G: Game>(
    rt: &HostRuntime,
    game: &G,
    start: &Position,
    answered: &Answered,
    form: EntriesForm,
    is_coloured: bool,
) -> Result<(), Ending>
    requires position { IsPositionOf (G.game game.now) start.now }
{
    let has_board = match form {
        EntriesForm::Letters => return tell_entries(rt, game, start, answered),
        EntriesForm::InWords => false,
        EntriesForm::Boards => true,
    };
    let page = EntryPage {
        has_board,
        is_coloured,
    };
    tell_entry_pages(rt, game, start, answered, page)
}

/// Writes a text.
pub fn tell_whole(rt: &HostRuntime, text: &[u8]) -> Result<(), Ending> {
    let mut out = Out::new(rt);
    match write_all(&mut out, text) {
        Ok(()) => Ok(()),
        Err(_) => Err(out.ending_of(UNWRITTEN)),
    }
}

/// Why an answer isn't told to its end.
pub const UNWRITTEN: ProgramFault = ProgramFault::Write(Output::Answer);

// Writes the first line of an answer, and then a page for each of its moves.
fn tell_in_pages<G: Game>(
    rt: &HostRuntime,
    game: &G,
    start: &Position,
    answered: &Answered,
    page: Page,
) -> Result<(), Ending>
    requires fits { Fits (G.game game.now).cells start.now }
{
    let mut out = Out::new(rt);
    let Ok(()) = write_all(&mut out, answered.told()) else {
        return Err(out.ending_of(UNWRITTEN));
    };
    match show_moves(game, start, answered.letters(), page, &mut out) {
        Ok(()) => Ok(()),
        Err(fault) => Err(out.ending_of(fault)),
    }
}

// Writes a page for each move of a line. No memory is asked for, so none can be wanted behind an answer's first line.
fn show_moves<G: Game, K: Sink>(
    game: &G,
    start: &Position,
    moves: &[u8],
    page: Page,
    out: &mut K,
) -> Result<(), ProgramFault>
    requires fits { Fits (G.game game.now).cells start.now }
{
    if moves.len() > LONGEST_MOVES {
        return Err(UNWRITTEN);
    }
    match replay_as(game, start, moves, page, out) {
        Ok(_) => Ok(()),
        Err(_) => Err(UNWRITTEN),
    }
}

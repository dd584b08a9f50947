//! `replay`: the moves of a list are played on a board.
ghost use Rattle.fc_moves.specs.GameRules.{IsPositionOf};

use crate::input::board_sources::{find_board, read_start};
use crate::input::command_games::InGame;
use crate::input::moves::{find_file, moves_asked, read_moves, tell_end};
use crate::input::pair_lists::expand_list;
use crate::output::answer_forms::tell_whole;
use crate::output::answer_objects::{Name, fault_line};
use crate::output::endings::{Ending, REFUSED};
use crate::output::entry_pages::{EntryPage, write_entries};
use crate::output::links::{PageLink, tell_link};
use crate::output::list_hints::tell_list_hint;
use crate::output::others::tell_other_game;
use crate::output::outputs::Out;
use crate::output::refused_entries::{tell_move, tell_sequence};
use crate::output::replay_objects::replay_line;
use fc_io::{FromSlice, write_all};
use fc_lists::{Expansion, ListQuestion, ListWants, entries_alone, push_moves};
use fc_moves::Game;
use fc_position::Position;
use fc_replay::{Ended, Page, ReplayFault};
use fc_runs::{Input, Output, ProgramFault, run_list, run_replay_as, run_replay_sequences};
use fc_words::{ReplayForm, ReplayWords};
use std::alloc::Global;
use std::io::IsTerminal;

impl InGame for ReplayWords<'_> {
    fn perform<G: Game + Drop>(&self, rt: &HostRuntime, game: &G) -> Result<u8, Ending> {
        let source = find_board(rt, &self.board)?;
        let deal = source.deal();
        // (a file that can't be opened is told before the board is read, and one that can't be read after it)
        let moves = find_file(rt, &self.moves, Input::Moves)?;
        let start = read_start(rt, source, game.cells())?;
        let text = read_moves(rt, moves)?;
        let list = entries_alone(rt.alloc(), text.as_slice(), self.has_sequences)?;
        let mut out = Out::new(rt);
        let name = Name::of(&self.board.word, deal);
        let ran = match self.form {
            ReplayForm::Json => {
                let line = replay_line(
                    rt.alloc(),
                    game,
                    &start,
                    name,
                    list.as_slice(),
                    self.has_sequences,
                );
                write_object(line, &mut out)
            }
            _ => replay(rt, game, &start, list.as_slice(), self, &mut out),
        };
        match ran {
            Ok(ended) => {
                if self.has_link {
                    link_list(rt, game, &start, list.as_slice(), self, deal)?;
                }
                Ok(end_of(rt, self, ended))
            }
            Err(fault) => {
                let status = out.tell(&fault);
                if self.has_sequences {
                    tell_sequence(rt, game, &start, list.as_slice(), fault);
                } else if let ProgramFault::Moves(_) = fault {
                    tell_move(rt, game, &start, list.as_slice());
                }
                if let ProgramFault::Moves(ReplayFault::NotAllowed(_)) = fault {
                    tell_other_game(rt, self, &start, list.as_slice());
                }
                if let ProgramFault::Moves(fault) = fault {
                    tell_list_hint(rt, game, &start, text.as_slice(), self.has_sequences, fault);
                    tell_refused_object(rt, self.form, name, fault)?;
                }
                Err(Ending::Told(status))
            }
        }
    }
}

// Writes the object that tells how a list ended.
fn write_object(
    told: Result<(String, Ended), ProgramFault>,
    out: &mut Out<'_>,
) -> Result<Ended, ProgramFault> {
    let (line, ended) = told?;
    match write_all(out, line.as_bytes()) {
        Ok(()) => Ok(ended),
        Err(_) => Err(ProgramFault::Write(Output::Answer)),
    }
}

// Writes why a list is refused as an object, where that form is asked for.
fn tell_refused_object(
    rt: &HostRuntime,
    form: ReplayForm,
    name: Name<'_>,
    fault: ReplayFault,
) -> Result<(), Ending> {
    let ReplayForm::Json = form else {
        return Ok(());
    };
    let reason = format!(in rt.alloc(); "{fault}")?;
    let line = fault_line(rt.alloc(), name, "refused", Some(reason.as_str()))?;
    tell_whole(rt, line.as_bytes())
}

// Replays a list, and writes what the words ask for.
fn replay<G: Game>(
    rt: &HostRuntime,
    game: &G,
    start: &Position,
    list: &[u8],
    words: &ReplayWords<'_>,
    out: &mut Out<'_>,
) -> Result<Ended, ProgramFault>
    requires position { IsPositionOf (G.game game.now) start.now }
{
    let alloc = rt.alloc();
    let has_sequences = words.has_sequences;
    let mut moves = FromSlice::new(list);
    let page = match words.form {
        ReplayForm::Boards => Page::Board,
        ReplayForm::Numbered => Page::Numbered,
        ReplayForm::Drawn(colours) => {
            let is_coloured = colours.are_shown(rt.stdout().is_terminal());
            if has_sequences {
                return draw_entries(alloc, game, start, list, is_coloured, out);
            }
            Page::Drawn(is_coloured)
        }
        ReplayForm::Expanded => {
            let question = question_of(ListWants::Line, words);
            return run_list(alloc, game, start, &mut moves, question, out);
        }
        ReplayForm::BoardAfter(entries) => {
            let question = question_of(ListWants::BoardAfter(entries), words);
            return run_list(alloc, game, start, &mut moves, question, out);
        }
        // (an object is written otherwise)
        ReplayForm::Json => Page::Board,
    };
    if has_sequences {
        run_replay_sequences(alloc, game, start, &mut moves, page, out)
    } else {
        run_replay_as(alloc, game, start, &mut moves, page, out)
    }
}

// The most bytes of the one-card moves of a list to which a link leads.
const LONGEST_LINE: usize = 32_768;

// Writes a link to the page that plays a list.
fn link_list<G: Game>(
    rt: &HostRuntime,
    game: &G,
    start: &Position,
    list: &[u8],
    words: &ReplayWords<'_>,
    deal: Option<u32>,
) -> Result<(), Ending>
    requires position { IsPositionOf (G.game game.now) start.now }
{
    // (up to the board that is written, where one is asked for)
    let wants = match words.form {
        ReplayForm::BoardAfter(entries) => ListWants::BoardAfter(entries),
        _ => ListWants::Line,
    };
    let moves = moves_asked(rt.alloc(), game, start, list, question_of(wants, words))?;
    let mut letters = Vec::new(rt.alloc());
    push_moves(&mut letters, moves.as_slice())?;
    if letters.len() >= LONGEST_LINE {
        let count = moves.len();
        let _told = eprintln!(rt; "fc_solve: {count} moves are too many for a link");
        return Err(Ending::Told(REFUSED));
    }
    let link = PageLink {
        game: words.game,
        deal,
        list: letters.as_slice(),
        floor: None,
        answer: None,
    };
    tell_link(rt, game, start, &link)
}

// What is asked of a list, whose entries may move several cards or not as the words say.
fn question_of(wants: ListWants, words: &ReplayWords<'_>) -> ListQuestion {
    ListQuestion {
        wants,
        has_sequences: words.has_sequences,
    }
}

// Replays a list whose entries may move several cards, and draws the board after each of them.
fn draw_entries<G: Game>(
    alloc: Global,
    game: &G,
    start: &Position,
    list: &[u8],
    is_coloured: bool,
    out: &mut Out<'_>,
) -> Result<Ended, ProgramFault>
    requires position { IsPositionOf (G.game game.now) start.now }
{
    let Expansion { entries, moves } = expand_list(alloc, game, start, list)?;
    let Ok(count) = u32::try_from(moves.len()) else {
        return Err(ProgramFault::TooLong(Input::Moves));
    };
    let page = EntryPage {
        has_board: true,
        is_coloured,
    };
    match write_entries(game, start, entries.as_slice(), moves.as_slice(), page, out) {
        Ok(is_won) => Ok(Ended {
            moves: count,
            is_won,
        }),
        Err(_) => Err(ProgramFault::Write(Output::Answer)),
    }
}

// Says how a list ended that was replayed to its end; the status.
fn end_of(rt: &HostRuntime, words: &ReplayWords<'_>, ended: Ended) -> u8 {
    if let ReplayForm::BoardAfter(_) = words.form {
        return 0;
    }
    tell_end(rt, ended);
    ended.status(words.must_win)
}

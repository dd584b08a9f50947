//! `hint`: the next moves of the best answer of a board.
ghost use Rattle.std.specs.Prelude.{All};
ghost use Rattle.fc_moves.specs.MoveText.{HasText};

use crate::input::board_sources::{find_board, read_start};
use crate::input::command_games::InGame;
use crate::output::advice::advise_best;
use crate::output::answer_forms::tell_whole;
use crate::output::answer_objects::{Beside, Name, answer_line};
use crate::output::certs::CertFile;
use crate::output::endings::{Ending, tell_of_great_budget};
use crate::output::found_answers::{Answered, find_answer};
use crate::output::hand_counts::by_hand_told;
use crate::output::links::{PageLink, tell_link};
use crate::output::review_texts::moves_win;
use crate::output::watching::{Line, Teller};
use fc_answers::Verdict;
use fc_lists::push_moves;
use fc_methods::{Question, Sought};
use fc_moves::{Game, Move, allows, apply, move_text};
use fc_position::Position;
use fc_replay::ToldMove;
use fc_words::HintWords;
use std::alloc::{AllocError, Global};
use std::io::IsTerminal;

impl InGame for HintWords<'_> {
    fn perform<G: Game + Drop>(&self, rt: &HostRuntime, game: &G) -> Result<u8, Ending> {
        let source = find_board(rt, &self.board)?;
        let deal = source.deal();
        // (before anything is read)
        let Some(method) = self.search.method() else {
            return Err(tell_of_great_budget(rt));
        };
        let start = read_start(rt, source, game.cells())?;
        let line = Line::new(rt, deal);
        let mut teller = Teller::new(&line, rt.stderr().is_terminal() && !self.is_quiet);
        let question = Question::new(game, Sought::Best, method);
        let answered = find_answer(
            rt.alloc(),
            &question,
            &start,
            None::<&mut CertFile>,
            &mut teller,
        )?;
        line.clear();
        if self.is_json {
            let beside = Beside {
                searched: teller.searched(),
                by_hand: by_hand_told(rt.alloc(), game, &start, &answered, method.rule)?,
            };
            let name = Name::of(&self.board.word, deal);
            tell_object(rt, name, &answered, self.count, beside)?;
        } else {
            tell_words(rt, self, game, &start, &answered)?;
        }
        if self.has_link {
            let link = PageLink::of_answer(self.game, deal, &answered);
            tell_link(rt, game, &start, &link)?;
        }
        let status = answered.status();
        advise_best(rt, &teller, status);
        Ok(status)
    }
}

// Tells the next moves in words, and what is known.
fn tell_words<G: Game>(
    rt: &HostRuntime,
    words: &HintWords<'_>,
    game: &G,
    start: &Position,
    answered: &Answered,
) -> Result<(), Ending> {
    let Some(statement) = statement(rt.alloc(), answered.verdict())? else {
        return tell_whole(rt, answered.told());
    };
    let first = first_moves(answered.moves(), words.count);
    let is_coloured = words.colours.are_shown(rt.stdout().is_terminal());
    let statement = statement.as_str();
    let text = hint_text(rt.alloc(), game, start, first, is_coloured, statement)?;
    tell_whole(rt, text.as_slice())
}

// Tells an answer and the next moves of its list, so many of them, as an object.
fn tell_object(
    rt: &HostRuntime,
    name: Name<'_>,
    answered: &Answered,
    count: u8,
    beside: Beside,
) -> Result<(), Ending> {
    let mut letters = Vec::new(rt.alloc());
    push_moves(&mut letters, first_moves(answered.moves(), count))?;
    let hint = match letters.as_slice() {
        [] => None,
        first => std::str::from_utf8(first).ok(),
    };
    let line = answer_line(rt.alloc(), name, answered, hint, beside)?;
    tell_whole(rt, line.as_bytes())
}

// The first moves of a list, at most so many.
fn first_moves(moves: &[Move], count: u8) -> &[Move]
    requires texts { All HasText moves.now }
    ensures texts { All HasText result.now }
{
    match moves.get(..usize::from(count)) {
        Some(first) => first,
        None => moves,
    }
}

// What is told of a list that wins; nothing of a verdict that tells none.
fn statement(alloc: Global, verdict: &Verdict) -> Result<Option<String>, Ending> {
    let told = match verdict {
        Verdict::Shortest(moves) if moves.is_empty() => { format!(in alloc; "every card is home")? }
        Verdict::Shortest(moves) => {
            let (count, win) = (moves.len(), moves_win(moves.len()));
            format!(in alloc; "{count} {win} from here, and no list with fewer")?
        }
        Verdict::Won { moves, floor } => {
            let (count, win) = (moves.len(), moves_win(moves.len()));
            format!(in alloc; "{count} {win} from here, and no list with fewer than {floor}")?
        }
        Verdict::CannotWin | Verdict::GaveUp(_) => return Ok(None),
    };
    Ok(Some(told))
}

// The next moves in words, each with its letters, and the statement: behind a single move on its line, and else on a line of its own.
fn hint_text<G: Game>(
    alloc: Global,
    game: &G,
    start: &Position,
    moves: &[Move],
    is_coloured: bool,
    statement: &str,
) -> Result<Vec<u8>, AllocError>
    requires texts { All HasText moves.now }
{
    let mut text = Vec::new(alloc);
    let mut board = start.copy();
    let mut number = 0u32;
    let is_one = moves.len() <= 1;
    for m in moves {
        number = number.saturating_add(1);
        if !is_one {
            let head = format!(in alloc; "{number}. ")?;
            text.extend_from_slice(head.as_bytes())?;
        }
        let told = ToldMove::of(number, &board, *m);
        text.extend_from_slice(&told.phrase(is_coloured))?;
        text.extend_from_slice(b" (")?;
        text.extend_from_slice(&move_text(*m))?;
        text.extend_from_slice(if is_one { b"); " } else { b")\n" })?;
        // (the moves are those of an answer, so each is allowed)
        if allows(game, &board, *m) {
            apply(game, &mut board, *m);
        }
    }
    text.extend_from_slice(statement.as_bytes())?;
    text.push(b'\n')?;
    Ok(text)
}

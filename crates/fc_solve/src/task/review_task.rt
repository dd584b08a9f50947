//! `review`: which move of a list loses, or how good a list is that wins.
ghost use Rattle.std.specs.Prelude.{All};
ghost use Rattle.fc_position.specs.Board.{Board};
ghost use Rattle.fc_moves.specs.GameRules.{IsPositionOf};
ghost use Rattle.fc_moves.specs.MoveText.{HasText};
ghost use Rattle.fc_moves.specs.Run.{Run};

use crate::input::board_sources::{find_board, read_start};
use crate::input::command_games::InGame;
use crate::input::moves::{find_file, read_moves};
use crate::input::written_lists::list_of;
use crate::output::answer_forms::tell_whole;
use crate::output::answer_objects::Name;
use crate::output::certs::{CertFile, CertName, UNWRITTEN};
use crate::output::endings::{
    Ending, REFUSED, tell_of_file, tell_of_great_budget, tell_of_long_certificate,
};
use crate::output::found_answers::find_answer;
use crate::output::hand_counts::by_hand_of;
use crate::output::links::{PageLink, tell_link};
use crate::output::outputs::Out;
use crate::output::review_objects::{FoundList, review_line};
use crate::output::review_texts::{line_of, told_move};
use crate::task::review_listings::review_files;
use crate::task::review_outputs::{are_outputs_apart, path_of};
use fc_answer_text::verdict_status;
use fc_answers::Verdict;
use fc_best::Unheard;
use fc_lists::{Woven, moves_text};
use fc_methods::{Question, Sought};
use fc_moves::{Game, Move, allows, apply};
use fc_position::Position;
use fc_review::{Finding, board_after, find, finding_text, known_after, run_review, wins};
use fc_runs::Input;
use fc_text::print_board;
use fc_words::{BoardWords, FileWord, GameWords, ReviewLists, ReviewWords};
use std::alloc::{AllocError, Global};
use std::fs;

impl InGame for ReviewWords<'_> {
    fn perform<G: Game + Drop>(&self, rt: &HostRuntime, game: &G) -> Result<u8, Ending> {
        match &self.lists {
            ReviewLists::One { board, moves } => review_one(rt, self, game, board, moves),
            ReviewLists::Files(paths) => match self.search.method() {
                Some(method) => {
                    review_files(
                        rt,
                        self,
                        &Question::new(game, Sought::Best, method),
                        paths.as_slice(),
                    )
                }
                None => Err(tell_of_great_budget(rt)),
            },
        }
    }
}

// Reviews one list.
fn review_one<G: Game + Drop>(
    rt: &HostRuntime,
    words: &ReviewWords<'_>,
    game: &G,
    board: &BoardWords<'_>,
    moves: &FileWord<'_>,
) -> Result<u8, Ending> {
    if words.has_all && (words.cert.is_some() || words.certs.is_some()) {
        let _told = eprintln!(rt;
            "fc_solve: --all writes no certificates: leave out --cert and --certs"
        );
        return Err(Ending::Told(REFUSED));
    }
    let source = find_board(rt, board)?;
    let deal = source.deal();
    let list_path = path_of(moves);
    let moves = find_file(rt, moves, Input::Moves)?;
    // (before anything is written)
    if !are_outputs_apart(rt, words, source.path(), list_path)? {
        return Err(Ending::Told(REFUSED));
    }
    let Some(method) = words.search.method() else {
        return Err(tell_of_great_budget(rt));
    };
    let start = read_start(rt, source, game.cells())?;
    let text = read_moves(rt, moves)?;
    let list = list_of(rt, game, &start, text.as_slice(), words.has_sequences)?;
    tell_inserted(rt, list.inserted);
    let question = Question::new(game, Sought::Best, method);
    let told = Told {
        words,
        name: Name::of(&board.word, deal),
    };
    let status = match words.cert {
        Some(path) => certify(rt, path, told, &question, &start, &list)?,
        None => told.answer(rt, &question, &start, &list, None, None)?,
    };
    if words.has_link {
        link_list(rt, words.game, game, deal, &start, list.moves.as_slice())?;
    }
    Ok(status)
}

// Tells what the words ask of a list, and writes its certificate to this path, or says why there is none; the status.
fn certify<G: Game + Drop>(
    rt: &HostRuntime,
    path: &str,
    told: Told<'_>,
    question: &Question<G>,
    start: &Position,
    list: &Woven,
) -> Result<u8, Ending>
    requires position { IsPositionOf question.now.game start.now }
    requires run { (c : Board) × Run question.now.game start.now list.now.moves.items c }
    requires texts { All HasText list.now.moves.items }
{
    let (name, mut cert) = CertName::new(rt, path)?;
    let ended = told.answer(rt, question, start, list, Some(&name), Some(&mut cert));
    let status = name.end(rt, ended)?;
    if cert.has_bytes() {
        return Ok(status);
    }
    if wins(question.game(), start, list.moves.as_slice()) {
        return Ok(tell_of_long_certificate(rt, path));
    }
    let _told = eprintln!(rt; "fc_solve: {path}: no certificate is written: the list doesn't win");
    Ok(status)
}

// The words, and what the board is called.
#[derive(Clone, Copy)]
struct Told<'a> {
    words: &'a ReviewWords<'a>,
    name: Name<'a>,
}

impl Told<'_> {
    // Tells what the words ask of a list, once its certificate, if one is asked for, has taken its name; the status.
    fn answer<G: Game + Drop>(
        &self,
        rt: &HostRuntime,
        question: &Question<G>,
        start: &Position,
        list: &Woven,
        name: Option<&CertName>,
        cert: Option<&mut CertFile>,
    ) -> Result<u8, Ending>
        requires position { IsPositionOf question.now.game start.now }
        requires run { (c : Board) × Run question.now.game start.now list.now.moves.items c }
        requires texts { All HasText list.now.moves.items }
    {
        let (alloc, moves, words) = (rt.alloc(), list.moves.as_slice(), self.words);
        if words.has_all {
            return answer_all(rt, question, start, moves);
        }
        if !words.is_json && words.certs.is_none() {
            let mut out = Out::new(rt).behind(name);
            let ran = run_review(alloc, question, start, moves, &mut out, cert);
            return out.end_of(ran);
        }
        let found = found_of(rt, question, start, list, cert)?;
        if let Some(name) = name
            && !name.take(rt)
        {
            return Err(Ending::Fault(UNWRITTEN));
        }
        if let Some(folder) = words.certs {
            write_boards(rt, folder, question, start, moves, &found.finding)?;
        }
        if words.is_json {
            let line = review_line(alloc, &found.reviewed(self.name))?;
            tell_whole(rt, line.as_bytes())?;
        } else {
            let text = finding_text(alloc, question.game(), start, moves, &found.finding)?;
            tell_whole(rt, text.as_slice())?;
        }
        Ok(found.status)
    }
}

// Ends what is told with a link to the list.
fn link_list<G: Game>(
    rt: &HostRuntime,
    named: GameWords,
    game: &G,
    deal: Option<u32>,
    start: &Position,
    moves: &[Move],
) -> Result<(), Ending>
    requires position { IsPositionOf (G.game game.now) start.now }
    requires texts { All HasText moves.now }
{
    let letters = moves_text(rt.alloc(), moves)?;
    let link = PageLink {
        game: named,
        deal,
        list: letters.as_slice(),
        floor: None,
        answer: None,
    };
    tell_link(rt, game, start, &link)
}

/// What is found of a list; where it wins, and a certificate is asked for, that is written.
pub fn found_of<G: Game + Drop>(
    rt: &HostRuntime,
    question: &Question<G>,
    start: &Position,
    list: &Woven,
    cert: Option<&mut CertFile>,
) -> Result<FoundList, Ending>
    requires position { IsPositionOf question.now.game start.now }
    requires run { (c : Board) × Run question.now.game start.now list.now.moves.items c }
    requires texts { All HasText list.now.moves.items }
{
    let (alloc, moves) = (rt.alloc(), list.moves.as_slice());
    let (game, rule) = (question.game(), question.method().rule);
    let finding = find(alloc, question, start, moves, cert)?;
    let by_hand = match &finding {
        Finding::Rated { by_hand, .. } => *by_hand as u64,
        Finding::Traced(_) => by_hand_of(alloc, game, start, moves, rule)?,
    };
    let status = finding.status(moves);
    Ok(FoundList {
        letters: moves_text(alloc, moves)?,
        inserted: list.inserted as u64,
        by_hand,
        finding,
        status,
    })
}

// Says how many moves home a list leaves out.
fn tell_inserted(rt: &HostRuntime, count: usize) {
    let _told = match count {
        0 => return,
        1 => eprintln!(rt; "fc_solve: a move home is put in that the list leaves out"),
        _ => eprintln!(rt; "fc_solve: {count} moves home are put in that the list leaves out"),
    };
}

// Writes the boards around the move that loses to a folder, with their certificates, where it is known which move does.
fn write_boards<G: Game + Drop>(
    rt: &HostRuntime,
    folder: &str,
    question: &Question<G>,
    start: &Position,
    moves: &[Move],
    finding: &Finding,
) -> Result<(), Ending>
    requires position { IsPositionOf question.now.game start.now }
    requires run { (c : Board) × Run question.now.game start.now moves.now c }
{
    let Finding::Traced(review) = finding else {
        return Ok(());
    };
    if let Some(place) = review.losing_move() {
        if place < moves.len() {
            let before = board_after(question.game(), start, moves, place);
            write_board(rt, question, &before, folder, "before")?;
            let after = board_after(question.game(), start, moves, place + 1);
            write_board(rt, question, &after, folder, "after")?;
        }
    }
    Ok(())
}

// Writes a board to a file of this name in a folder, and the certificate of its best answer beside it.
fn write_board<G: Game + Drop>(
    rt: &HostRuntime,
    question: &Question<G>,
    board: &Position,
    folder: &str,
    name: &str,
) -> Result<(), Ending>
    requires position { IsPositionOf question.now.game board.now }
{
    let text = print_board(board, question.game().cells());
    let path = format!(in rt.alloc(); "{folder}/{name}.txt")?;
    if let Err(error) = fs::write(rt, path.as_str(), text.as_bytes()) {
        return Err(tell_of_file(rt, UNWRITTEN, path.as_str(), error));
    }
    let path = format!(in rt.alloc(); "{folder}/{name}.cert")?;
    let (name, mut cert) = CertName::new(rt, path.as_str())?;
    let ended = match find_answer(rt.alloc(), question, board, Some(&mut cert), &mut Unheard) {
        Ok(answered) if name.take(rt) => Ok(answered.status()),
        Ok(_) => Err(Ending::Fault(UNWRITTEN)),
        Err(fault) => Err(Ending::Fault(fault)),
    };
    name.end(rt, ended)?;
    Ok(())
}

// Answers the board after each move of a list, a line each: behind a lost board all are lost; the status is that of the last board.
fn answer_all<G: Game + Drop>(
    rt: &HostRuntime,
    question: &Question<G>,
    start: &Position,
    moves: &[Move],
) -> Result<u8, Ending>
    requires position { IsPositionOf question.now.game start.now }
    requires run { (c : Board) × Run question.now.game start.now moves.now c }
    requires texts { All HasText moves.now }
{
    let mut board = start.copy();
    let mut is_lost = false;
    let mut status = 0;
    for after in 0..=moves.len() {
        let verdict = if is_lost {
            Verdict::CannotWin
        } else {
            known_after(rt.alloc(), question, start, moves, after)?.verdict
        };
        is_lost = matches!(verdict, Verdict::CannotWin);
        let last = match after.checked_sub(1) {
            Some(place) => told_and_made(rt.alloc(), question.game(), &mut board, moves[place])?,
            None => Vec::from_slice(rt.alloc(), b"the board itself")?,
        };
        let line = line_of(rt.alloc(), after, last.as_slice(), &verdict)?;
        tell_whole(rt, line.as_slice())?;
        status = verdict_status(&verdict);
    }
    Ok(status)
}

// A move by its letters and in words, which is then made.
fn told_and_made<G: Game>(
    alloc: Global,
    game: &G,
    board: &mut Position,
    m: Move,
) -> Result<Vec<u8>, AllocError>
    requires text { HasText m }
{
    let told = told_move(alloc, board, m)?;
    // (the rules allow each move of the list)
    if allows(game, board, m) {
        apply(game, board, m);
    }
    Ok(told)
}

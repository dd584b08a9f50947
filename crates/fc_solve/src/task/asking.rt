//! `solve` and `best`: a board is answered, and it is told how far the searches are.
ghost use Rattle.fc_moves.specs.GameRules.{IsPositionOf};

use crate::input::apart::{Held, keep_apart};
use crate::input::board_sources::{find_board, read_start};
use crate::input::command_games::InGame;
use crate::output::advice::{advise_best, advise_method};
use crate::output::answer_forms::Manner;
use crate::output::answer_objects::Name;
use crate::output::certs::{CertFile, CertName};
use crate::output::endings::{Ending, no_budget, tell_of_long_certificate};
use crate::output::found_answers::find_answer;
use crate::output::outputs::Out;
use crate::output::telling::Telling;
use crate::output::watching::{Line, Teller};
use crate::task::each::answer_each;
use fc_methods::{Method, Question, Sought};
use fc_moves::Game;
use fc_position::Position;
use fc_runs::run_answer;
use fc_words::{BestWords, BoardWords, Colours, GameWords, MovesForm, SolveWords};
use std::io::IsTerminal;

// What both words ask for.
#[derive(Clone, Copy)]
struct Request<'a> {
    game: GameWords,
    board: BoardWords<'a>,
    sought: Sought,
    // None where the budget is none.
    method: Option<Method>,
    cert: Option<&'a str>,
    form: MovesForm,
    colours: Colours,
    // Whether each better answer is written as it comes.
    is_each: bool,
    has_link: bool,
    has_stats: bool,
    is_quiet: bool,
}

impl InGame for BestWords<'_> {
    fn perform<G: Game + Drop>(&self, rt: &HostRuntime, game: &G) -> Result<u8, Ending> {
        let request = Request {
            game: self.game,
            board: self.board,
            sought: Sought::Best,
            method: self.search.method(),
            cert: self.cert,
            form: self.form,
            colours: self.colours,
            is_each: self.is_each,
            has_link: self.has_link,
            has_stats: self.has_stats,
            is_quiet: self.is_quiet,
        };
        request.perform(rt, game)
    }
}

impl InGame for SolveWords<'_> {
    fn perform<G: Game + Drop>(&self, rt: &HostRuntime, game: &G) -> Result<u8, Ending> {
        let request = Request {
            game: self.game,
            board: self.board,
            sought: Sought::ByMethod,
            method: self.search.method(),
            cert: self.cert,
            form: self.form,
            colours: self.colours,
            is_each: false,
            has_link: self.has_link,
            has_stats: self.has_stats,
            is_quiet: self.is_quiet,
        };
        request.perform(rt, game)
    }
}

impl Request<'_> {
    fn perform<G: Game + Drop>(&self, rt: &HostRuntime, game: &G) -> Result<u8, Ending> {
        let source = find_board(rt, &self.board)?;
        let deal = source.deal();
        if let Some(path) = self.cert {
            let board = Held {
                path: source.path(),
                name: "the board",
            };
            keep_apart(rt, path, &[board])?;
        }
        // (before anything is read)
        let Some(method) = self.method else {
            return Err(no_budget(rt, self.sought));
        };
        let start = read_start(rt, source, game.cells())?;
        let line = Line::new(rt, deal);
        let mut teller = Teller::new(&line, rt.stderr().is_terminal() && !self.is_quiet);
        let question = Question::new(game, self.sought, method);
        let status = match self.cert {
            Some(path) => self.certify(rt, path, &question, &start, &mut teller)?,
            None => self.answer(rt, &question, &start, None, None, &mut teller)?,
        };
        match self.sought {
            Sought::ByMethod => advise_method(rt, &teller, &self.game, method, status),
            Sought::Best => advise_best(rt, &teller, status),
        }
        Ok(status)
    }

    // The same as `answer`, with the certificate of this path, which is asked for before the search.
    fn certify<G: Game + Drop>(
        &self,
        rt: &HostRuntime,
        path: &str,
        question: &Question<G>,
        start: &Position,
        teller: &mut Teller<'_>,
    ) -> Result<u8, Ending>
        requires position { IsPositionOf question.now.game start.now }
    {
        let (name, mut cert) = CertName::new(rt, path)?;
        let ended = self.answer(rt, question, start, Some(&name), Some(&mut cert), teller);
        let status = name.end(rt, ended)?;
        if status <= 1 && !cert.has_bytes() {
            return Ok(tell_of_long_certificate(rt, path));
        }
        Ok(status)
    }

    // Searches, tells on a line how far the searches are, and writes the answer.
    fn answer<G: Game + Drop>(
        &self,
        rt: &HostRuntime,
        question: &Question<G>,
        start: &Position,
        name: Option<&CertName>,
        cert: Option<&mut CertFile>,
        teller: &mut Teller<'_>,
    ) -> Result<u8, Ending>
        requires position { IsPositionOf question.now.game start.now }
    {
        let line = teller.line();
        let telling = Telling {
            name: Name::of(&self.board.word, line.deal()),
            game: self.game,
            manner: Manner::new(rt, self.form, self.colours),
            has_stats: self.has_stats,
            has_link: self.has_link,
            cert: name,
        };
        if self.is_each {
            return answer_each(rt, telling, question, start, cert, teller);
        }
        if telling.is_plain() {
            let mut out = Out::after(rt, line).behind(name);
            let ran = run_answer(rt.alloc(), question, start, &mut out, cert, teller);
            line.clear();
            return out.end_of(ran);
        }
        let found = find_answer(rt.alloc(), question, start, cert, teller);
        telling.tell(rt, question, start, found, teller.searched(), line)
    }
}

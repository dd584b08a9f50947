//! How `solve` and `best` tell an answer that isn't written as it is found.
ghost use Rattle.fc_moves.specs.GameRules.{IsPositionOf};

use crate::output::answer_forms::{Manner, tell_in_form, tell_whole};
use crate::output::answer_objects::{Beside, Name, Searched, answer_line};
use crate::output::certs::{CertName, UNWRITTEN};
use crate::output::endings::Ending;
use crate::output::found_answers::Answered;
use crate::output::hand_counts::by_hand_told;
use crate::output::links::{PageLink, tell_link};
use crate::output::watching::Line;
use fc_methods::Question;
use fc_moves::Game;
use fc_position::Position;
use fc_runs::ProgramFault;
use fc_words::{GameWords, MovesForm};

/// What is told of an answer, and how.
#[derive(Clone, Copy)]
pub struct Telling<'a> {
    /// What the board is called.
    pub name: Name<'a>,
    pub game: GameWords,
    pub manner: Manner,
    /// Whether a line of numbers follows on standard error.
    pub has_stats: bool,
    /// Whether a link follows.
    pub has_link: bool,
    /// The name of the answer's certificate, which takes it before an answer is written.
    pub cert: Option<&'a CertName>,
}

impl Telling<'_> {
    /// Whether the answer may be written as it is found.
    pub fn is_plain(&self) -> bool {
        let is_held = self.manner.is_numbered || self.has_link || self.has_stats;
        matches!((self.manner.form, is_held), (MovesForm::Letters, false))
    }

    /// Tells what was found of a position, whose searches told this last, below the line of a terminal; the status.
    pub fn tell<G: Game + Drop>(
        &self,
        rt: &HostRuntime,
        question: &Question<G>,
        start: &Position,
        found: Result<Answered, ProgramFault>,
        searched: Option<Searched>,
        line: &Line<'_>,
    ) -> Result<u8, Ending>
        requires position { IsPositionOf question.now.game start.now }
    {
        line.clear();
        let answered = match found {
            Ok(answered) => answered,
            Err(fault) => {
                self.tell_stats(line, searched, None, None);
                return Err(Ending::Fault(fault));
            }
        };
        let (game, rule) = (question.game(), question.method().rule);
        let is_counted = self.has_stats || matches!(self.manner.form, MovesForm::Json);
        let by_hand = if is_counted {
            by_hand_told(rt.alloc(), game, start, &answered, rule)?
        } else {
            None
        };
        let beside = Beside { searched, by_hand };
        let told = self.write(rt, game, start, &answered, beside);
        self.tell_stats(line, searched, answered.floor(), by_hand);
        told?;
        if self.has_link {
            let link = PageLink::of_answer(self.game, self.name.deal(), &answered);
            tell_link(rt, game, start, &link)?;
        }
        Ok(answered.status())
    }

    /// Writes an answer, with these numbers where it is an object.
    pub fn write<G: Game>(
        &self,
        rt: &HostRuntime,
        game: &G,
        start: &Position,
        answered: &Answered,
        beside: Beside,
    ) -> Result<(), Ending>
        requires position { IsPositionOf (G.game game.now) start.now }
    {
        if let Some(cert) = self.cert
            && !cert.take(rt)
        {
            return Err(Ending::Fault(UNWRITTEN));
        }
        if let MovesForm::Json = self.manner.form {
            let line = answer_line(rt.alloc(), self.name, answered, None, beside)?;
            return tell_whole(rt, line.as_bytes());
        }
        tell_in_form(rt, game, start, answered, self.manner)
    }

    /// Tells the line of numbers where it is asked for.
    pub fn tell_stats(
        &self,
        line: &Line<'_>,
        searched: Option<Searched>,
        floor: Option<u32>,
        by_hand: Option<u64>,
    ) {
        if let (true, Some(searched)) = (self.has_stats, searched) {
            line.tell_stats(searched, floor, by_hand);
        }
    }
}

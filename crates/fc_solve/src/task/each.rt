//! `best --each`: each better answer is written as it comes.
ghost use Rattle.fc_moves.specs.GameRules.{IsPositionOf};

use crate::output::answer_objects::{Beside, Searched};
use crate::output::certs::CertFile;
use crate::output::endings::Ending;
use crate::output::found_answers::{Answered, find_answer};
use crate::output::hand_counts::by_hand_told;
use crate::output::telling::Telling;
use crate::output::watching::Teller;
use fc_answers::MoveList;
use fc_best::{Listener, Progress};
use fc_methods::{HomeRule, Question};
use fc_moves::Game;
use fc_position::Position;
use fc_runs::ProgramFault;
use fc_words::MovesForm;

/// Searches, tells on a line how far the searches are, and writes each better answer: the last one is the best answer. Where a
/// certificate is asked for it stands before that one is written: each list waits for the next one, or for the end.
pub fn answer_each<G: Game + Drop>(
    rt: &HostRuntime,
    telling: Telling<'_>,
    question: &Question<G>,
    start: &Position,
    cert: Option<&mut CertFile>,
    teller: &mut Teller<'_>,
) -> Result<u8, Ending>
    requires position { IsPositionOf question.now.game start.now }
{
    let line = teller.line();
    let (game, rule) = (question.game(), question.method().rule);
    let mut each = EachTeller {
        rt,
        telling,
        game,
        rule,
        start,
        teller,
        written: Ok(false),
        is_held: cert.is_some(),
        held: None,
    };
    let found = find_answer(rt.alloc(), question, start, cert, &mut each);
    line.clear();
    let told = each.end(&found);
    let searched = each.teller.searched();
    match &found {
        Ok(answered) if telling.has_stats => {
            // (for want of memory it isn't told; the answer is)
            let by_hand = by_hand_told(rt.alloc(), game, start, answered, rule).unwrap_or(None);
            telling.tell_stats(line, searched, answered.floor(), by_hand);
        }
        _ => telling.tell_stats(line, searched, None, None),
    }
    told
}

// Who writes each better answer to standard output, and tells on a line how far the searches are.
#[derive(Drop)]
struct EachTeller<'a, 'w, 't, 'b, G: Game> {
    rt: &'a HostRuntime,
    telling: Telling<'w>,
    game: &'a G,
    rule: HomeRule,
    start: &'a Position,
    teller: &'t mut Teller<'b>,
    // Whether the list that was heard last is written, or why no more can be.
    written: Result<bool, Ending>,
    // Whether a list waits for the next one, and the one that does, with what searches told then.
    is_held: bool,
    held: Option<(Answered, Option<Searched>)>,
    ghost fits: { IsPositionOf (G.game game.now) start.now },
}

impl<G: Game> EachTeller<'_, '_, '_, '_, G> {
    // Ends as the run did: what it answers is written, unless the list that was heard last is that.
    fn end(&self, found: &Result<Answered, ProgramFault>) -> Result<u8, Ending> {
        let answered = match found {
            Ok(answered) => answered,
            Err(fault) => return Err(self.ending_with(*fault)),
        };
        if !self.written? {
            self.write(answered, self.teller.searched())?;
        }
        Ok(answered.status())
    }

    // Writes an answer in the form that is asked for, on a line that is free.
    fn write(&self, answered: &Answered, searched: Option<Searched>) -> Result<(), Ending> {
        self.teller.line().clear();
        let by_hand = if let MovesForm::Json = self.telling.manner.form {
            by_hand_told(self.rt.alloc(), self.game, self.start, answered, self.rule)?
        } else {
            None
        };
        let beside = Beside { searched, by_hand };
        self.telling
            .write(self.rt, self.game, self.start, answered, beside)
    }
}

impl<G: Game> EachTeller<'_, '_, '_, '_, G> {
    // Ends with a fault. Where memory was wanted no certificate is begun, and the list that waits is told.
    fn ending_with(&self, fault: ProgramFault) -> Ending {
        if let ProgramFault::Memory = fault
            && let Some((answered, searched)) = &self.held
            && let Err(ending) = self.told(answered, *searched)
        {
            return ending;
        }
        Ending::Fault(fault)
    }

    // Writes a list; whether it is written, which for want of memory it isn't, or why no more can be.
    fn told(&self, answered: &Answered, searched: Option<Searched>) -> Result<bool, Ending> {
        match self.write(answered, searched) {
            Ok(()) => Ok(true),
            Err(Ending::Fault(ProgramFault::Memory)) => Ok(false),
            Err(ending) => Err(ending),
        }
    }
}

impl<G: Game> Listener for EachTeller<'_, '_, '_, '_, G> {
    ghost use Rattle.std.specs.Prelude.{◌≡◌};
    ghost use Rattle.fc_solve.specs.inner.Watching.{KeepsLast};

    ghost hears = { λ old report new. (new.teller.ghost_name ≡ old.teller.ghost_name) × KeepsLast old.teller.now.last report new.teller.now.last };

    fn hear(&mut self, far: Progress) {
        self.teller.hear(far);
    }

    // (for want of memory nothing is written, and the next list may be, or the answer)
    fn hear_list(&mut self, moves: &MoveList, at_least: u32) {
        if self.written.is_err() {
            return;
        }
        let Ok(answered) = Answered::of_list(self.rt.alloc(), moves, at_least) else {
            self.written = Ok(false);
            return;
        };
        let searched = self.teller.searched();
        if !self.is_held {
            self.written = self.told(&answered, searched);
        } else if let Some((before, then)) = self.held.replace((answered, searched)) {
            self.written = match self.told(&before, then) {
                Ok(_) => Ok(false),
                Err(ending) => Err(ending),
            };
        }
    }
}

//! An answer as it was found: all that is printed of it is made of this.

ghost use Rattle.std.specs.Prelude.{◌≡◌, ◌<◌, ◌^◌, Some, None, All, IfOk, length};
ghost use Rattle.fc_answers.specs.Verdict.{CanBeWritten, outcome_of};
ghost use Rattle.fc_board_runs.specs.Devices.{IsHandedBack, change, lent};
ghost use Rattle.fc_moves.specs.GameRules.{IsPositionOf};
ghost use Rattle.fc_moves.specs.MoveText.{HasText};
ghost use Rattle.fc_runs.specs.Lists.{list_of};
ghost use Rattle.fc_runs.specs.Rows.{IsAnswerOf};

use crate::output::certs::UNWRITTEN;
use fc_answer_text::{outcome_of, verdict_status, verdict_text};
use fc_answers::{Answer, MoveList, Outcome, Verdict};
use fc_best::{Listener, Wants, answer};
use fc_io::Sink;
use fc_lists::moves_text;
use fc_methods::Question;
use fc_moves::{Game, Move};
use fc_position::Position;
use fc_runs::{ProgramFault, write_certificate};
use std::alloc::{AllocError, Global};
use std::marker::Model;

/// An answer, and the lines that tell it in letters.
#[derive(Drop)]
pub struct Answered {
    verdict: Verdict,
    text: Vec<u8>,
    // The last of these lines, that of the moves; nothing of an answer without a list.
    letters: Vec<u8>,
}

impl Model for Answered {
    ghost use Rattle.fc_answers.specs.Verdict.{CanBeWritten};
    ghost use Rattle.fc_answers.specs.declared.answers.Verdict.{Verdict};

    ghost Value = { Verdict };

    ghost view = { λ a. a.verdict };

    ghost invariant = { λ a. CanBeWritten a.verdict };
}

impl Answered {
    /// The answer by a list that wins, and by a number of moves that no list that wins is below.
    ///
    /// # Errors
    /// A growth of memory was refused.
    pub fn of_list(alloc: Global, moves: &MoveList, floor: u32) -> Result<Answered, AllocError>
        requires texts { All HasText moves.now }
        requires few { length moves.now < 2 ^ 32 }
    {
        let list = MoveList::new(Vec::from_slice(alloc, moves.as_slice())?);
        let verdict = if list.len() <= floor as usize {
            Verdict::Shortest(list)
        } else {
            Verdict::Won { moves: list, floor }
        };
        Answered::of(alloc, verdict)
    }

    // The answer of this verdict.
    fn of(alloc: Global, verdict: Verdict) -> Result<Answered, AllocError>
        requires written { CanBeWritten verdict }
        ensures verdict { IfOk result (λ told. told ≡ verdict) }
    {
        let text = verdict_text(alloc, &verdict)?;
        let letters = letters_of(alloc, &verdict)?;
        Ok(Answered {
            verdict,
            text,
            letters,
        })
    }

    /// What is told of the board.
    pub fn verdict(&self) -> &Verdict {
        &self.verdict
    }

    /// What the answer is called.
    pub fn name(&self) -> &'static str {
        match self.verdict {
            Verdict::Shortest(_) => "shortest",
            Verdict::Won { .. } => "won",
            Verdict::CannotWin => "can't be won",
            Verdict::GaveUp(_) => "gave up",
        }
    }

    /// How many moves its list has, if it has one.
    pub fn count(&self) -> Option<u32> {
        match outcome_of(&self.verdict) {
            Outcome::Shortest(moves) | Outcome::Won { moves, .. } => Some(moves),
            Outcome::CannotWin | Outcome::GaveUp(_) => None,
        }
    }

    /// How many moves each list that wins has at least, where it tells a list.
    pub fn floor(&self) -> Option<u32> {
        match outcome_of(&self.verdict) {
            Outcome::Shortest(floor) | Outcome::Won { floor, .. } => Some(floor),
            Outcome::CannotWin | Outcome::GaveUp(_) => None,
        }
    }

    /// The exit status that tells it.
    pub fn status(&self) -> u8 {
        verdict_status(&self.verdict)
    }

    /// The moves of its list; none where it has no list.
    pub fn moves(&self) -> &[Move]
        ensures texts { All HasText result.now }
    {
        match &self.verdict {
            Verdict::Shortest(moves) | Verdict::Won { moves, .. } => moves.as_slice(),
            Verdict::CannotWin | Verdict::GaveUp(_) => &[],
        }
    }

    /// The lines that tell it in letters.
    pub fn text(&self) -> &[u8] {
        self.text.as_slice()
    }

    /// The first of these lines.
    pub fn told(&self) -> &[u8] {
        let text = self.text.as_slice();
        text.strip_suffix(self.letters.as_slice()).unwrap_or(text)
    }

    /// The line of its moves, two letters each with a blank between; nothing where it has no list.
    pub fn letters(&self) -> &[u8] {
        self.letters.as_slice()
    }
}

// The line of the moves of a verdict, if it has any.
fn letters_of(alloc: Global, verdict: &Verdict) -> Result<Vec<u8>, AllocError>
    requires written { CanBeWritten verdict.now }
{
    match verdict {
        Verdict::Shortest(moves) | Verdict::Won { moves, .. } => {
            moves_text(alloc, moves.as_slice())
        }
        Verdict::CannotWin | Verdict::GaveUp(_) => Ok(Vec::new(alloc)),
    }
}

/// What a question is answered of a board. Where a sink is given for it, the certificate is written there, whole, before anything of
/// the answer can be told.
///
/// # Errors
/// In this order: want of memory; a certificate that can't be written, of which a front may be.
pub fn find_answer<G: Game + Drop, C: Sink, L: Listener>(
    alloc: Global,
    question: &Question<G>,
    start: &Position,
    cert: Option<&mut C>,
    listener: &mut L,
) -> Result<Answered, ProgramFault>
    requires position { IsPositionOf question.now.game start.now }
    ensures answer { IfOk result (λ told. IsAnswerOf question.now start.now (lent C.held C.has_failed cert.entry cert.exit) (outcome_of told) (list_of told)) }
    ensures back { IsHandedBack cert.entry cert.exit }
{
    match cert {
        Some(cert) => certified(alloc, question, start, cert, listener),
        None => plain(alloc, question, start, listener),
    }
}

// The answer of a board of which no certificate is asked for.
fn plain<G: Game + Drop, L: Listener>(
    alloc: Global,
    question: &Question<G>,
    start: &Position,
    listener: &mut L,
) -> Result<Answered, ProgramFault>
    requires position { IsPositionOf question.now.game start.now }
    ensures answer { IfOk result (λ told. IsAnswerOf question.now start.now None (outcome_of told) (list_of told)) }
{
    let answer = answer(alloc, question, start, Wants::Verdict, listener)?;
    Ok(Answered::of(alloc, answer.verdict)?)
}

// The answer of a board, once its certificate is written.
fn certified<G: Game + Drop, C: Sink, L: Listener>(
    alloc: Global,
    question: &Question<G>,
    start: &Position,
    cert: &mut C,
    listener: &mut L,
) -> Result<Answered, ProgramFault>
    requires position { IsPositionOf question.now.game start.now }
    ensures answer { IfOk result (λ told. IsAnswerOf question.now start.now (Some (change C.held C.has_failed cert.old cert.new)) (outcome_of told) (list_of told)) }
{
    let answer = answer(alloc, question, start, Wants::Table, listener)?;
    let text = verdict_text(alloc, &answer.verdict)?;
    let letters = letters_of(alloc, &answer.verdict)?;
    // (after what may want memory, so that it is written where the answer can be told)
    let Ok(_) = write_certificate(question.game(), &answer, cert) else {
        return Err(UNWRITTEN);
    };
    Ok(Answered {
        verdict: answer.verdict,
        text,
        letters,
    })
}

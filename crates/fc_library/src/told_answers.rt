//! What calls hand over, and verdicts told so.

ghost use Rattle.std.specs.Prelude.{◌≡◌, IfOk, IfErr};
ghost use Rattle.fc_moves.specs.GameRules.{IsPositionOf};
ghost use Rattle.fc_answers.specs.Verdict.{CanBeWritten};
ghost use Rattle.fc_search.specs.Problem.{Problem};
ghost use Rattle.fc_best.specs.Answering.{IsCertifiable};
ghost use Rattle.fc_library.specs.Answers.{IsAnswerCertified, IsAnswerTold, IsVerdictCertified, IsVerdictTold};

use crate::call_refusals::CallRefusal;
use crate::sinks::ToVec;
use fc_answer_text::{outcome_of, verdict_status, verdict_text};
use fc_answers::{Answer, Outcome, Verdict};
use fc_best::{Unheard, Wants, answer};
use fc_methods::Question;
use fc_moves::Game;
use fc_position::Position;
use fc_runs::write_certificate;
use std::alloc::Global;

/// What a call hands over: a status, a text, and what the text tells of an answer or a claim, in numbers.
#[derive(Debug, Drop)]
pub struct Told {
    /// Of an answer 0 where a list wins, 1 where none does, and 2 where the search gave up.
    pub status: u8,
    /// The number of the move that loses, of a review where one is known to; else 0.
    pub place: u32,
    pub outcome: Option<Outcome>,
    pub text: Vec<u8>,
}

/// The same, and a certificate; of giving up it has no byte.
#[derive(Debug, Drop)]
pub struct Certified {
    pub told: Told,
    pub certificate: Vec<u8>,
}

// The answer of a question for a position.
pub(crate) fn tell<G: Game + Drop>(
    alloc: Global,
    question: &Question<G>,
    start: &Position,
) -> Result<Told, CallRefusal>
    requires position { IsPositionOf question.now.game start.now }
    ensures told { IfOk result (IsAnswerTold question.now start.now) }
    ensures refused { IfErr result (λ refusal. refusal ≡ CallRefusal.Memory) }
{
    match answer(alloc, question, start, Wants::Verdict, &mut Unheard) {
        Ok(answer) => told_of(alloc, &answer.verdict),
        Err(_) => Err(CallRefusal::Memory),
    }
}

// The same, with its certificate.
pub(crate) fn certify<G: Game + Drop>(
    alloc: Global,
    question: &Question<G>,
    start: &Position,
) -> Result<Certified, CallRefusal>
    requires position { IsPositionOf question.now.game start.now }
    ensures told { IfOk result (IsAnswerCertified question.now start.now) }
    ensures refused { IfErr result (λ refusal. refusal ≡ CallRefusal.Memory) }
{
    match answer(alloc, question, start, Wants::Table, &mut Unheard) {
        Ok(answer) => certified_of(alloc, question.game(), &answer),
        Err(_) => Err(CallRefusal::Memory),
    }
}

// A verdict, told by its text and its numbers.
pub(crate) fn told_of(alloc: Global, verdict: &Verdict) -> Result<Told, CallRefusal>
    requires written { CanBeWritten verdict.now }
    ensures told { IfOk result (IsVerdictTold verdict.now) }
    ensures refused { IfErr result (λ refusal. refusal ≡ CallRefusal.Memory) }
{
    match verdict_text(alloc, verdict) {
        Ok(text) => Ok(Told {
            status: verdict_status(verdict),
            place: 0,
            outcome: Some(outcome_of(verdict)),
            text,
        }),
        Err(_) => Err(CallRefusal::Memory),
    }
}

// The same of an answer in this game, with its certificate.
pub(crate) fn certified_of<G: Game>(
    alloc: Global,
    game: &G,
    answer: &Answer,
) -> Result<Certified, CallRefusal>
    requires written { CanBeWritten answer.now.verdict }
    ensures told { (p : Problem) → p.game ≡ G.game game.now → IsPositionOf p.game p.start → IsCertifiable p answer.now
        → IfOk result (IsVerdictCertified p answer.now.verdict) }
    ensures refused { IfErr result (λ refusal. refusal ≡ CallRefusal.Memory) }
{
    let told = told_of(alloc, &answer.verdict)?;
    let mut certificate = ToVec::new(alloc);
    match write_certificate(game, answer, &mut certificate) {
        Ok(_) => Ok(Certified {
            told,
            certificate: certificate.into_bytes(),
        }),
        // (a sink in memory fails for want of memory alone)
        Err(_) => Err(CallRefusal::Memory),
    }
}

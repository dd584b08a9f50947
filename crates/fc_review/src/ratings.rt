//! How good a list is that wins.

ghost use Rattle.std.specs.Prelude.{◌≡◌, ◌≤◌, ℕ, All, Some, None, IfOk, IfErr, MatchOption, length};
ghost use Rattle.fc_moves.specs.GameRules.{IsPositionOf};
ghost use Rattle.fc_moves.specs.MoveText.{HasText};
ghost use Rattle.fc_moves.specs.Run.{Wins};
ghost use Rattle.fc_answers.specs.declared.answers.TheConstants.{MOST_MOVES};
ghost use Rattle.fc_answers.specs.Verdict.{HasFewMoves};
ghost use Rattle.fc_best.specs.Watch.{floor_told};
ghost use Rattle.fc_board_runs.specs.Devices.{IsHandedBack, change, lent};
ghost use Rattle.fc_review.specs.Rating.{IsRating, IsUnrated, SaysAbove};

use fc_answers::{Answer, MoveList, Verdict};
use fc_best::{Unheard, best};
use fc_io::Sink;
use fc_methods::Question;
use fc_moves::{Game, Move};
use fc_position::Position;
use fc_runs::{Output, ProgramFault, write_certificate};
use std::alloc::{AllocError, Global};

/// How good a list is that wins.
#[derive(Drop)]
pub struct Rating {
    /// What the floor of the best answer says of the list: that it is a shortest one, or how many moves each list that wins has at
    /// least. Nothing where the searches gave up.
    pub own: Option<Verdict>,
    /// The best answer.
    pub best: Verdict,
}

/// How good a list of moves is that wins from a position of the question's game: by the best answer within the question's budget.
/// Where `cert` is given, the certificate of what is told of the list, with that very list, is written to it, whole; where the
/// searches gave up there is none. Without it no table of classes is made.
///
/// # Errors
/// Want of memory, and nothing is written; a certificate that can't be written, of which a front may be.
pub fn rate<G: Game + Drop, C: Sink>(
    alloc: Global,
    question: &Question<G>,
    start: &Position,
    moves: &[Move],
    cert: Option<&mut C>,
) -> Result<Rating, ProgramFault>
    requires position { IsPositionOf question.now.game start.now }
    requires wins { Wins question.now.game start.now moves.now }
    requires texts { All HasText moves.now }
    requires few { length moves.now ≤ MOST_MOVES }
    ensures rated { IfOk result (IsRating question.now start.now moves.now (lent C.held C.has_failed cert.entry cert.exit)) }
    ensures fault { IfErr result (IsUnrated question.now start.now moves.now (lent C.held C.has_failed cert.entry cert.exit)) }
    ensures back { IsHandedBack cert.entry cert.exit }
{
    match cert {
        Some(cert) => certify(alloc, question, start, moves, cert),
        None => Ok(rate_alone(alloc, question, start, moves)?),
    }
}

/// How good a list is that wins, without a table.
pub(crate) fn rate_alone<G: Game + Drop>(
    alloc: Global,
    question: &Question<G>,
    start: &Position,
    moves: &[Move],
) -> Result<Rating, AllocError>
    requires position { IsPositionOf question.now.game start.now }
    requires wins { Wins question.now.game start.now moves.now }
    ensures rated { IfOk result (IsRating question.now start.now moves.now None) }
{
    let answer = best(alloc, question, start, false, &mut Unheard)?;
    let own = own_verdict(alloc, moves, &answer.verdict)?;
    Ok(Rating {
        own,
        best: answer.verdict,
    })
}

/// How good a list is that wins, once its certificate is written.
pub(crate) fn certify<G: Game + Drop, C: Sink>(
    alloc: Global,
    question: &Question<G>,
    start: &Position,
    moves: &[Move],
    cert: &mut C,
) -> Result<Rating, ProgramFault>
    requires position { IsPositionOf question.now.game start.now }
    requires wins { Wins question.now.game start.now moves.now }
    requires texts { All HasText moves.now }
    requires few { length moves.now ≤ MOST_MOVES }
    ensures rated { IfOk result (IsRating question.now start.now moves.now (Some (change C.held C.has_failed cert.old cert.new))) }
    ensures fault { IfErr result (IsUnrated question.now start.now moves.now (Some (change C.held C.has_failed cert.old cert.new))) }
{
    let Answer { verdict, table } = best(alloc, question, start, true, &mut Unheard)?;
    let Some(own) = own_verdict(alloc, moves, &verdict)? else {
        return Ok(Rating {
            own: None,
            best: verdict,
        });
    };
    let answer = Answer {
        verdict: own,
        table,
    };
    let Ok(_) = write_certificate(question.game(), &answer, cert) else {
        return Err(ProgramFault::Write(Output::Cert));
    };
    Ok(Rating {
        own: Some(answer.verdict),
        best: verdict,
    })
}

// What the floor of the best verdict says of a list, if it tells one.
fn own_verdict(alloc: Global, moves: &[Move], best: &Verdict) -> Result<Option<Verdict>, AllocError>
    requires few { HasFewMoves best.now }
    ensures own { IfOk result (λ own. MatchOption own (floor_told best.now ≡ None)
        (λ verdict. (floor : ℕ) × (floor_told best.now ≡ Some floor) × SaysAbove moves.now floor verdict)) }
{
    let floor = match best {
        Verdict::Shortest(list) => list.len() as u32,
        Verdict::Won { floor, .. } => *floor,
        Verdict::CannotWin | Verdict::GaveUp(_) => return Ok(None),
    };
    let list = MoveList::new(Vec::from_slice(alloc, moves)?);
    Ok(Some(verdict_above(list, floor)))
}

// What a floor says of a list.
fn verdict_above(list: MoveList, floor: u32) -> Verdict
    ensures says { SaysAbove list floor result }
{
    if list.len() <= floor as usize {
        Verdict::Shortest(list)
    } else {
        Verdict::Won { moves: list, floor }
    }
}

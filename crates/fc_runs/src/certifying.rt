//! The certificate of an answer, written where it isn't longer than what is read.

ghost use Rattle.std.specs.Prelude.{◌≡◌, ◌≤◌, length, IsTrue, false, IfOk, OnOk, OnErr};
ghost use Rattle.fc_moves.specs.GameRules.{GameRules, IsPositionOf};
ghost use Rattle.fc_position.specs.Board.{Board};
ghost use Rattle.fc_answers.specs.Answer.{IsBacked};
ghost use Rattle.fc_answers.specs.Verdict.{CanBeWritten, HasFewMoves};
ghost use Rattle.fc_best.specs.Answering.{IsCertifiable};
ghost use Rattle.fc_cert.specs.declared.certificates.TheConstants.{LONGEST_CERTIFICATE};
ghost use Rattle.fc_cert.specs.Claim.{IsWrittenAs};
ghost use Rattle.fc_cert.specs.Content.{Content, bytes_of};
ghost use Rattle.fc_search.specs.Problem.{Problem};
ghost use Rattle.fc_board_runs.specs.Devices.{change};
ghost use Rattle.fc_runs.specs.inner.Certificates.{IsLong};
ghost use Rattle.fc_runs.specs.Solving.{IsCertified, IsCertifiedSo, IsCutShort};

use fc_answers::Answer;
use fc_cert::{CertFault, LONGEST_CERTIFICATE, certificate_length, write_answer};
use fc_io::{Failed, Sink};
use fc_moves::Game;

/// What became of the certificate of an answer.
#[derive(Clone, Copy, Debug, PartialEq, Eq)]
pub enum Certification {
    /// It was written, whole.
    Written,
    /// There is none: the searches gave up.
    GaveUp,
    /// It has more bytes than are read, and nothing was written.
    TooLong,
}

/// A certificate that lists no more classes than this, 14,000,000, is never longer than what is read: so it needn't be measured.
pub const FEW_CLASSES: usize = 14_000_000;

/// Writes the certificate of an answer of this game, if it has one that isn't longer than what is read; giving up has none.
///
/// # Errors
/// The sink failed, of which a front of the certificate may be written.
pub fn write_certificate<G: Game, C: Sink>(
    game: &G,
    answer: &Answer,
    cert: &mut C,
) -> Result<Certification, Failed>
    requires written { CanBeWritten answer.now.verdict }
    ensures told { (p : Problem) → p.game ≡ G.game game.now → IsPositionOf p.game p.start → IsCertifiable p answer.now
        → IfOk result (IsCertifiedSo p answer.now (change C.held C.has_failed cert.old cert.new)) }
    ensures certified { (p : Problem) → p.game ≡ G.game game.now → IsPositionOf p.game p.start → IsCertifiable p answer.now
        → OnOk result (IsCertified p answer.now.verdict (change C.held C.has_failed cert.old cert.new)) }
    ensures cut { (p : Problem) → p.game ≡ G.game game.now → IsPositionOf p.game p.start → IsCertifiable p answer.now
        → OnErr result (IsCutShort p answer.now.verdict (change C.held C.has_failed cert.old cert.new)) }
{
    if is_too_long(answer) {
        return Ok(Certification::TooLong);
    }
    match write_answer(game, answer, cert) {
        Ok(()) => Ok(Certification::Written),
        Err(CertFault::Write) => Err(Failed),
        // Giving up has no certificate.
        Err(_) => Ok(Certification::GaveUp),
    }
}

// Whether the certificate of an answer is longer than what is read.
fn is_too_long(answer: &Answer) -> bool
    requires written { CanBeWritten answer.now.verdict }
    ensures long { IsTrue result → IsLong answer.now }
    ensures short { result ≡ false → (g : GameRules) (b : Board) → IsBacked g b answer.now → HasFewMoves answer.now.verdict
        → (c : Content) → IsWrittenAs g answer.now c → length (bytes_of c) ≤ LONGEST_CERTIFICATE }
{
    let Some(table) = &answer.table else {
        return false;
    };
    if table.len() <= FEW_CLASSES {
        return false;
    }
    match certificate_length(answer) {
        Some(length) => length > LONGEST_CERTIFICATE,
        None => false,
    }
}

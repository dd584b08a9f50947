//! Whether bytes are a certificate of a position, and of which claim.

ghost use Rattle.std.specs.Prelude.{◌≡◌, ◌≢◌, ◌+◌, ◌≤◌, ◌<◌, ◌⊎◌, ◌↔◌, ℕ, List, Some, length, slice_get, IsTrue, IfOk, IfErr, OnOk};
ghost use Rattle.fc_position.specs.Board.{Board};
ghost use Rattle.fc_position.specs.Position.{Fits, IsPosition};
ghost use Rattle.fc_moves.specs.GameRules.{GameRules};
ghost use Rattle.fc_moves.specs.Run.{Wins};
ghost use Rattle.fc_canonical.specs.Key.{BeginsWithBoard};
ghost use Rattle.fc_canonical.specs.Spelled.{board_of_bytes};
ghost use Rattle.fc_cert.specs.Claim.{IsCertificate, IsTrueOf};
ghost use Rattle.fc_cert.specs.Content.{IsContent};
ghost use Rattle.fc_cert.specs.Reading.{IsReadFault};
ghost use Rattle.fc_checker.specs.Check.{IsCheckFault, IsOfGame, MovesHold, RecordsHold, StepsHold, level as level_of};
ghost use Rattle.fc_checker.specs.inner.Steps.{IsFaultOf, IsFaultOfMoves, IsFaultOfRecords, IsProof, claim_of};

use crate::faults::CheckFault;
use crate::lookups::Lookup;
use crate::record_steps::{Near, Parent, is_far, level, start_holds, steps_hold};
use fc_bound::GREATEST_BOUND;
use fc_canonical::position_of;
use fc_cert::{CertFault, Certificate, Claim, Kind, LONGEST_CERTIFICATE};
use fc_moves::{Game, allows, apply};
use fc_position::Position;
use std::alloc::Global;

/// The claim that the bytes, at most 1 GiB of them, prove of a position that fits the game. They are accepted exactly where
/// they are a certificate of it, but for want of memory.
///
/// # Errors
/// The first thing that is asked of a certificate and doesn't hold; `Memory` only for bytes that have the form of one and
/// list some class, where one of the two growths of memory was refused.
pub fn check<G: Game>(
    alloc: Global,
    game: &G,
    position: &Position,
    bytes: &[u8],
) -> Result<Claim, CheckFault>
    requires fits { Fits (G.game game.now).cells position.now }
    requires limit { length bytes.now ≤ LONGEST_CERTIFICATE }
    ensures accepted { IfOk result (IsCertificate (G.game game.now) position.now bytes.now) }
    ensures proves { IfOk result (IsTrueOf (G.game game.now) position.now) }
    ensures fault { IfErr result (IsCheckFault (G.game game.now) position.now bytes.now) }
    ensures exact { (claimed : Claim) → IsCertificate (G.game game.now) position.now bytes.now claimed
        → (result ≡ Ok claimed) ⊎ (result ≡ Err CheckFault.Memory) }
{
    let certificate = match Certificate::read(alloc, bytes) {
        Ok(certificate) => certificate,
        Err(fault) => return Err(fault_of(fault)),
    };
    check_content(game, &certificate, position)?;
    Ok(claim_of(&certificate))
}

// Whether the certificate proves its claim of the position.
fn check_content<G: Game>(
    game: &G,
    certificate: &Certificate,
    position: &Position,
) -> Result<(), CheckFault>
    requires content { IsContent certificate.now }
    ensures proof { OnOk result (IsProof (G.game game.now) position.now certificate.now) }
    ensures fault { IfErr result (IsFaultOf (G.game game.now) position.now certificate.now) }
    ensures whole { IsPosition position.now }
{
    let mut start = position.copy();
    if !is_of_game(game, certificate) {
        return Err(CheckFault::OtherGame);
    }
    check_moves(game, certificate, position)?;
    if !start_holds(game, certificate, &mut start) {
        return Err(CheckFault::StartOpen);
    }
    check_records(game, certificate)
}

// The fault of bytes that couldn't be read.
fn fault_of(fault: CertFault) -> CheckFault
    ensures value { (g : GameRules) (b : Board) (bytes : List ℕ) → IsReadFault bytes fault → IsCheckFault g b bytes result }
{
    match fault {
        CertFault::Memory => CheckFault::Memory,
        other => CheckFault::Form(other),
    }
}

// Whether the certificate is of the game.
fn is_of_game<G: Game>(game: &G, certificate: &Certificate) -> bool
    ensures value { IsTrue result ↔ IsOfGame (G.game game.now) certificate.now }
{
    certificate.game() == game.code() && certificate.cells() == game.cells()
}

// What the certificate claims.
fn claim_of(certificate: &Certificate) -> Claim
    ensures value { result ≡ claim_of certificate.now certificate.now.head.kind }
{
    let head = certificate.head();
    match head.kind {
        Kind::Shortest => Claim::Shortest(certificate.move_count()),
        Kind::CannotWin => Claim::CannotWin,
        Kind::Between => Claim::Between {
            floor: head.floor,
            moves: certificate.move_count(),
        },
    }
}

// Whether the listed moves win from the position, where the certificate is of a list.
fn check_moves<G: Game>(
    game: &G,
    certificate: &Certificate,
    position: &Position,
) -> Result<(), CheckFault>
    ensures moves { OnOk result (MovesHold (G.game game.now) position.now certificate.now.head.kind certificate.now.moves) }
    ensures fault { IfErr result (IsFaultOfMoves (G.game game.now) position.now certificate.now) }
{
    match certificate.head().kind {
        Kind::Shortest | Kind::Between => replay(game, certificate, position.copy()),
        Kind::CannotWin => Ok(()),
    }
}

// Makes the listed moves, one after the other: each must be allowed, and after the last all cards must be home.
fn replay<G: Game>(
    game: &G,
    certificate: &Certificate,
    position: Position,
) -> Result<(), CheckFault>
    requires kind { certificate.now.head.kind ≢ Kind.CannotWin }
    ensures wins { OnOk result (Wins (G.game game.now) position certificate.now.moves) }
    ensures fault { IfErr result (IsFaultOfMoves (G.game game.now) position certificate.now) }
{
    let mut board = position;
    for i in 0..certificate.move_count() {
        let m = certificate.move_at(i);
        if !allows(game, &board, m) {
            return Err(CheckFault::NotAllowed(i + 1));
        }
        apply(game, &mut board, m);
    }
    if board.is_won() {
        Ok(())
    } else {
        Err(CheckFault::NotHome)
    }
}

// Looks at each record in turn.
fn check_records<G: Game>(game: &G, certificate: &Certificate) -> Result<(), CheckFault>
    requires content { IsContent certificate.now }
    ensures records { OnOk result (RecordsHold (G.game game.now) certificate.now (length certificate.now.rows)) }
    ensures fault { IfErr result (IsFaultOfRecords (G.game game.now) certificate.now) }
{
    for i in 0..certificate.len() {
        check_record(game, certificate, i)?;
    }
    Ok(())
}

// Looks at a record, after those before it.
fn check_record<G: Game>(game: &G, certificate: &Certificate, i: u32) -> Result<(), CheckFault>
    requires content { IsContent certificate.now }
    requires within { i < length certificate.now.rows }
    requires before { RecordsHold (G.game game.now) certificate.now i }
    ensures records { OnOk result (RecordsHold (G.game game.now) certificate.now (i + 1)) }
    ensures fault { IfErr result (IsFaultOfRecords (G.game game.now) certificate.now) }
{
    let (key, cost) = certificate.record_at(i);
    let mut position = position_of(key);
    if position.is_won() {
        return Err(CheckFault::WonListed(i));
    }
    if record_steps_hold(game, certificate, &mut position, key, cost) {
        Ok(())
    } else {
        Err(CheckFault::Open(i))
    }
}

// Whether the steps from the position of a record hold: where no list is to win, all, else where its cost and its bound
// are below the level.
fn record_steps_hold<G: Game>(
    game: &G,
    certificate: &Certificate,
    position: &mut Position,
    key: &[u8],
    cost: u32,
) -> bool
    requires content { IsContent certificate.now }
    requires whole { IsPosition position.old }
    requires key { BeginsWithBoard key.now position.old }
    ensures value { position.old ≡ board_of_bytes key.now
        → (IsTrue result ↔ StepsHold (G.game game.now) certificate.now (level_of certificate.now) (key.now, cost)) }
{
    match level(certificate) {
        Some(level) => steps_hold_below(game, certificate, level, position, key, cost),
        None => {
            let parent = Parent {
                key,
                cost,
                near: None,
            };
            steps_hold(game, certificate, position, &mut Lookup::Nothing, &parent)
        }
    }
}

// Whether they hold below this level. The guide is asked first, since what a step leads to is told by it.
fn steps_hold_below<G: Game>(
    game: &G,
    certificate: &Certificate,
    level: u32,
    position: &mut Position,
    key: &[u8],
    cost: u32,
) -> bool
    requires level { level_of certificate.now ≡ Some level }
    requires content { IsContent certificate.now }
    requires whole { IsPosition position.old }
    requires key { BeginsWithBoard key.now position.old }
    ensures value { position.old ≡ board_of_bytes key.now
        → (IsTrue result ↔ StepsHold (G.game game.now) certificate.now (level_of certificate.now) (key.now, cost)) }
{
    let kind = certificate.head().bound;
    let mut lookup = Lookup::new(kind, position);
    let guide = lookup.guide_within(kind, position, GREATEST_BOUND);
    if u64::from(level) <= u64::from(cost) + u64::from(guide) {
        return true;
    }
    let near = Some(Near { level, guide });
    let parent = Parent { key, cost, near };
    if steps_hold(game, certificate, position, &mut lookup, &parent) {
        return true;
    }
    is_far(certificate, level, position, &lookup, u64::from(cost))
}

//! How long a certificate is, before it is written.

ghost use Rattle.std.specs.Prelude.{◌≡◌, ◌+◌, ◌*◌, ◌<◌, ◌≤◌, ◌^◌, ℕ, length, IfNone, IfSome};
ghost use Rattle.std.specs.List.{flat_map};
ghost use Rattle.fc_moves.specs.GameRules.{GameRules};
ghost use Rattle.fc_answers.specs.Verdict.{CanBeWritten};
ghost use Rattle.fc_cert.specs.Claim.{IsWrittenAs, written_head};
ghost use Rattle.fc_cert.specs.Content.{Content, bytes_of, head_bytes, listed_bytes, record_bytes};
ghost use Rattle.fc_cert.specs.Writing.{IsUncertified};

use crate::certificate_writers::written_form;
use crate::contents::{Form, Kind};
use fc_answers::{Answer, Table, Verdict};
use fc_moves::Move;

/// How many bytes the certificate has that `write_answer` writes of an answer. `None` of giving up, and where there is no table:
/// such an answer has none. Each record is measured, so each key is made as it is for writing.
pub fn certificate_length(answer: &Answer) -> Option<usize>
    requires written { CanBeWritten answer.now.verdict }
    ensures length { IfSome result (λ n. (g : GameRules) (c : Content) → IsWrittenAs g answer.now c → length (bytes_of c) ≡ n) }
    ensures some { IfSome result (λ n. IsUncertified answer.now → ⊥) }
    ensures none { IfNone result (IsUncertified answer.now) }
{
    let Some(table) = &answer.table else {
        return None;
    };
    let records = COUNT + records_length(table);
    match &answer.verdict {
        Verdict::Shortest(moves) => {
            Some(head_length(table, Kind::Shortest) + list_length(moves.as_slice()) + records)
        }
        Verdict::Won { moves, .. } => {
            Some(head_length(table, Kind::Between) + list_length(moves.as_slice()) + records)
        }
        Verdict::CannotWin => Some(head_length(table, Kind::CannotWin) + records),
        Verdict::GaveUp(_) => None,
    }
}

// The bytes of a number that tells how many moves or records there are, or a floor.
const COUNT: usize = 4;

// How many bytes stand before the moves.
fn head_length(table: &Table, kind: Kind) -> usize
    ensures value { (g : GameRules) (floor : ℕ) → length (head_bytes (written_head g table.now kind floor)) ≡ result }
    ensures few { result ≤ 13 }
{
    let floor = match kind {
        Kind::Between => COUNT,
        Kind::Shortest | Kind::CannotWin => 0,
    };
    match written_form(table.bound(), kind) {
        Form::First => 6 + floor,
        Form::Second => 8 + floor,
        Form::Third => 9 + floor,
    }
}

// How many bytes tell how many moves there are, and the moves.
fn list_length(moves: &[Move]) -> usize
    requires few { length moves.now < 2 ^ 32 }
    ensures value { result ≡ length (listed_bytes moves.now) }
    ensures few { result ≤ 4 + 2 * 2 ^ 32 }
{
    COUNT + 2 * moves.len()
}

// How many bytes the records have.
fn records_length(table: &Table) -> usize
    ensures value { result ≡ length (flat_map record_bytes table.now.rows) }
    ensures few { result ≤ 72 * 16000000 }
{
    let mut length = 0;
    for i in 0..table.len() {
        length += COUNT + table.key(i).len();
    }
    length
}

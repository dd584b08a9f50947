//! How certificates are written.

ghost use Rattle.std.specs.Prelude.{◌≡◌, ◌+◌, ◌<◌, ◌≤◌, ◌^◌, [], ◌∷◌, ◌++◌, false, length, All, OnOk, OnErr};
ghost use Rattle.arrayvec.specs.ArrayVec.{array_vec_len};
ghost use Rattle.fc_moves.specs.MoveText.{HasText};
ghost use Rattle.fc_answers.specs.Verdict.{CanBeWritten};
ghost use Rattle.fc_cert.specs.declared.contents.Form.TheVariants.{Second, Third};
ghost use Rattle.fc_cert.specs.Claim.{written_form, written_head};
ghost use Rattle.fc_cert.specs.Content.{magic, bound_byte, kind_byte, floor_bytes, head_bytes, listed_bytes, record_bytes, rows_bytes};
ghost use Rattle.fc_cert.specs.Writing.{IsCutShort, WritesAnswer};
ghost use Rattle.fc_cert.specs.inner.Writing.{Writes, Gathers};

use crate::contents::{Form, Kind};
use crate::faults::CertFault;
use arrayvec::ArrayVec;
use fc_answers::{Answer, Table, Verdict};
use fc_bound::BoundKind;
use fc_canonical::Key;
use fc_io::{Failed, Sink, write_all};
use fc_moves::{Game, Move, move_text};

/// The most bytes of a record: a cost and the longest key.
const LONGEST_RECORD: usize = 72;

/// The most bytes of records that are written at once.
const PIECE: usize = 4096;

impl From<Failed> for CertFault {
    ghost use Rattle.fc_cert.specs.declared.faults.CertFault.TheVariants.{Write};

    ghost from_gives = { λ _ fault. fault ≡ Write };

    fn from(_failed: Failed) -> CertFault {
        CertFault::Write
    }
}

/// Writes the certificate of an answer for a game, its records gathered in pieces. No memory is asked for.
///
/// # Errors
/// `NotCertified` for the answer of a search that gave up, and for one with no table, and nothing is written; `Write` where
/// the sink has failed, of which a front may be written.
pub fn write_answer<G: Game, K: Sink>(
    game: &G,
    answer: &Answer,
    sink: &mut K,
) -> Result<(), CertFault>
    requires written { CanBeWritten answer.now.verdict }
    ensures ends { WritesAnswer (G.game game.now) answer.now
        record { held = K.held sink.old; has_failed = K.has_failed sink.old }
        record { held = K.held sink.new; has_failed = K.has_failed sink.new } result }
{
    let Some(table) = &answer.table else {
        return Err(CertFault::NotCertified);
    };
    match &answer.verdict {
        Verdict::Shortest(moves) => {
            write_head(game, table, Kind::Shortest, 0, sink)?;
            write_moves(moves.as_slice(), sink)?;
            write_rows(table, sink)?;
            Ok(())
        }
        Verdict::Won { moves, floor } => {
            write_head(game, table, Kind::Between, *floor, sink)?;
            write_moves(moves.as_slice(), sink)?;
            write_rows(table, sink)?;
            Ok(())
        }
        Verdict::CannotWin => {
            write_head(game, table, Kind::CannotWin, 0, sink)?;
            write_rows(table, sink)?;
            Ok(())
        }
        Verdict::GaveUp(_) => Err(CertFault::NotCertified),
    }
}

// The form in which a table closed by this bound is written: the second where it says all, the third otherwise.
pub(crate) fn written_form(bound: BoundKind, kind: Kind) -> Form
    ensures value { result ≡ written_form bound kind }
{
    match (bound, kind) {
        (BoundKind::Plain, Kind::Shortest | Kind::CannotWin) => Form::Second,
        _ => Form::Third,
    }
}

// Writes what stands before the moves.
fn write_head<G: Game, K: Sink>(
    game: &G,
    table: &Table,
    kind: Kind,
    floor: u32,
    sink: &mut K,
) -> Result<(), Failed>
    ensures ends { Writes
        record { held = K.held sink.old; has_failed = K.has_failed sink.old }
        record { held = K.held sink.new; has_failed = K.has_failed sink.new }
        (head_bytes (written_head (G.game game.now) table.now kind floor)) result }
{
    match written_form(table.bound(), kind) {
        Form::Third => {
            let head = third_head(game, table, kind);
            write_all(sink, &head)?;
            write_floor(kind, floor, sink)
        }
        _ => write_all(sink, &second_head(game, table, kind)),
    }
}

// What stands before the moves in the second form.
fn second_head<G: Game>(game: &G, table: &Table, kind: Kind) -> [u8; 8]
    ensures value { result ≡ magic Second ++ (G.game game.now).code ∷ (G.game game.now).cells ∷ table.now.rule
        ∷ kind_byte kind ∷ [] }
{
    [
        b'F',
        b'C',
        b'C',
        b'2',
        game.code(),
        game.cells(),
        table.rule(),
        kind.byte(),
    ]
}

// What stands before the floor in the third form.
fn third_head<G: Game>(game: &G, table: &Table, kind: Kind) -> [u8; 9]
    ensures value { result ≡ magic Third ++ (G.game game.now).code ∷ (G.game game.now).cells ∷ table.now.rule
        ∷ bound_byte table.now.bound ∷ kind_byte kind ∷ [] }
{
    [
        b'F',
        b'C',
        b'C',
        b'3',
        game.code(),
        game.cells(),
        table.rule(),
        bound_byte(table.bound()),
        kind.byte(),
    ]
}

// The byte that names the bound.
fn bound_byte(bound: BoundKind) -> u8
    ensures value { result ≡ bound_byte bound }
{
    match bound {
        BoundKind::Plain => 0,
        BoundKind::Clearing => 1,
    }
}

// Writes the floor, where the kind names one.
fn write_floor<K: Sink>(kind: Kind, floor: u32, sink: &mut K) -> Result<(), Failed>
    requires sound { K.has_failed sink.old ≡ false }
    ensures ends { Writes
        record { held = K.held sink.old; has_failed = K.has_failed sink.old }
        record { held = K.held sink.new; has_failed = K.has_failed sink.new }
        (floor_bytes kind floor) result }
{
    match kind {
        Kind::Between => write_all(sink, &floor.to_be_bytes()),
        Kind::Shortest | Kind::CannotWin => Ok(()),
    }
}

// Writes how many moves there are, and the text of each.
fn write_moves<K: Sink>(moves: &[Move], sink: &mut K) -> Result<(), Failed>
    requires few { length moves.now < 2 ^ 32 }
    requires texts { All HasText moves.now }
    ensures ends { Writes
        record { held = K.held sink.old; has_failed = K.has_failed sink.old }
        record { held = K.held sink.new; has_failed = K.has_failed sink.new }
        (listed_bytes moves.now) result }
{
    write_all(sink, &(moves.len() as u32).to_be_bytes())?;
    for m in moves {
        write_all(sink, &move_text(*m))?;
    }
    Ok(())
}

// Writes how many classes the table lists, and a record of each.
fn write_rows<K: Sink>(table: &Table, sink: &mut K) -> Result<(), Failed>
    ensures ends { Writes
        record { held = K.held sink.old; has_failed = K.has_failed sink.old }
        record { held = K.held sink.new; has_failed = K.has_failed sink.new }
        (rows_bytes table.now.rows) result }
{
    write_all(sink, &(table.len() as u32).to_be_bytes())?;
    let mut piece = ArrayVec::new();
    for i in 0..table.len() {
        make_room(&mut piece, sink)?;
        push_record(&mut piece, table.cost(i), &table.key(i));
    }
    write_all(sink, piece.as_slice())
}

// Writes the piece and empties it, unless there is room in it for any record.
fn make_room<K: Sink>(piece: &mut ArrayVec<u8, PIECE>, sink: &mut K) -> Result<(), Failed>
    requires sound { K.has_failed sink.old ≡ false }
    ensures room { OnOk result (array_vec_len piece.new + LONGEST_RECORD ≤ PIECE) }
    ensures moved { OnOk result (Gathers
        record { held = K.held sink.old; has_failed = K.has_failed sink.old }
        record { held = K.held sink.new; has_failed = K.has_failed sink.new }
        piece.new.items piece.old.items) }
    ensures cut { OnErr result (IsCutShort
        record { held = K.held sink.old; has_failed = K.has_failed sink.old }
        record { held = K.held sink.new; has_failed = K.has_failed sink.new }
        piece.old.items) }
{
    if piece.remaining_capacity() >= LONGEST_RECORD {
        return Ok(());
    }
    write_all(sink, piece.as_slice())?;
    piece.clear();
    Ok(())
}

// Adds the bytes of a class's record to the piece.
fn push_record(piece: &mut ArrayVec<u8, PIECE>, cost: u32, key: &Key)
    requires room { array_vec_len piece.old + LONGEST_RECORD ≤ PIECE }
    ensures value { piece.new.items ≡ piece.old.items ++ record_bytes (key.now.items, cost) }
{
    let _ = piece.try_extend_from_slice(&cost.to_be_bytes());
    let _ = piece.try_extend_from_slice(key.as_slice());
}

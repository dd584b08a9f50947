ghost use Rattle.std.specs.Prelude.{◌≡◌, ◌<◌, ◌≤◌, ◌↔◌, ℕ, [], ◌∷◌, IsTrue, IfOk, IfErr};
ghost use Rattle.fc_cert.specs.declared.contents.Kind.{Kind};
ghost use Rattle.fc_cert.specs.Content.{magic, bound_byte, MayClaim};
ghost use Rattle.fc_cert.specs.Reading.{Field, SaysByte, SaysKind, MayRule, ReadsNamed, ReadsGame, ReadsBound, ReadsFloor, ReadsClaim, ReadsHead};

use crate::contents::{Form, Head, Kind};
use crate::faults::CertFault;
use crate::fields::{read_number, split_byte};
use fc_bound::BoundKind;
use fc_home::GREATEST_RULE;

// The fields before the moves, and what follows them.
pub(crate) fn read_head(bytes: &[u8]) -> Result<(Head, &[u8]), CertFault>
    ensures read { IfOk result (λ r. ReadsHead bytes.now (Ok (r.0, r.1.now))) }
    ensures fault { IfErr result (λ f. ReadsHead bytes.now (Err f)) }
{
    let (form, rest) = read_form(bytes)?;
    let ((game, cells), rest) = read_game(form, rest)?;
    let (rule, rest) = read_rule(form, rest)?;
    let (bound, rest) = read_bound(form, rest)?;
    let ((kind, floor), rest) = read_claim(form, rest)?;
    let head = Head {
        form,
        game,
        cells,
        rule,
        bound,
        kind,
        floor,
    };
    Ok((head, rest))
}

// The form, by the four bytes at the front, and what follows them.
fn read_form(bytes: &[u8]) -> Result<(Form, &[u8]), CertFault>
    ensures read { IfOk result (λ r. Field 4 (λ here form. here ≡ magic form) CertFault.BadMagic bytes.now (Ok (r.0, r.1.now))) }
    ensures fault { IfErr result (λ f. Field 4 (λ here form. here ≡ magic form) CertFault.BadMagic bytes.now (Err f)) }
{
    let (here, rest) = bytes.split_at_checked(4).ok_or(CertFault::Short)?;
    match here {
        b"FCC1" => Ok((Form::First, rest)),
        b"FCC2" => Ok((Form::Second, rest)),
        b"FCC3" => Ok((Form::Third, rest)),
        _ => Err(CertFault::BadMagic),
    }
}

// The code of the game and its number of cells, and what follows them.
fn read_game(form: Form, bytes: &[u8]) -> Result<((u8, u8), &[u8]), CertFault>
    ensures read { IfOk result (λ r. ReadsGame form bytes.now (Ok (r.0, r.1.now))) }
    ensures fault { IfErr result (λ f. ReadsGame form bytes.now (Err f)) }
{
    match form {
        Form::First => Ok(((0, 4), bytes)),
        Form::Second | Form::Third => read_named(bytes),
    }
}

// A byte for the code of a game, one for its number of cells, and what follows them.
fn read_named(bytes: &[u8]) -> Result<((u8, u8), &[u8]), CertFault>
    ensures read { IfOk result (λ r. ReadsNamed bytes.now (Ok (r.0, r.1.now))) }
    ensures fault { IfErr result (λ f. ReadsNamed bytes.now (Err f)) }
{
    let (game, rest) = split_byte(bytes)?;
    let (cells, rest) = read_cells(rest)?;
    Ok(((game, cells), rest))
}

// The number of cells of a game, and what follows it.
fn read_cells(bytes: &[u8]) -> Result<(u8, &[u8]), CertFault>
    ensures read { IfOk result (λ r. Field 1 (SaysByte (λ n. n ≤ 4)) CertFault.BadCells bytes.now (Ok (r.0, r.1.now))) }
    ensures fault { IfErr result (λ f. Field 1 (SaysByte (λ n. n ≤ 4)) CertFault.BadCells bytes.now (Err f)) }
{
    let (cells, rest) = split_byte(bytes)?;
    if cells <= 4 {
        Ok((cells, rest))
    } else {
        Err(CertFault::BadCells)
    }
}

// A home rule that the form may name, and what follows it.
fn read_rule(form: Form, bytes: &[u8]) -> Result<(u8, &[u8]), CertFault>
    ensures read { IfOk result (λ r. Field 1 (SaysByte (MayRule form)) CertFault.BadRule bytes.now (Ok (r.0, r.1.now))) }
    ensures fault { IfErr result (λ f. Field 1 (SaysByte (MayRule form)) CertFault.BadRule bytes.now (Err f)) }
{
    let (rule, rest) = split_byte(bytes)?;
    if rule <= greatest_rule(form) {
        Ok((rule, rest))
    } else {
        Err(CertFault::BadRule)
    }
}

// The greatest home rule that the form may name.
fn greatest_rule(form: Form) -> u8
    ensures value { (rule : ℕ) → (rule ≤ result) ↔ MayRule form rule }
{
    match form {
        Form::First => 1,
        Form::Second | Form::Third => GREATEST_RULE,
    }
}

// The bound, and what follows it.
fn read_bound(form: Form, bytes: &[u8]) -> Result<(BoundKind, &[u8]), CertFault>
    ensures read { IfOk result (λ r. ReadsBound form bytes.now (Ok (r.0, r.1.now))) }
    ensures fault { IfErr result (λ f. ReadsBound form bytes.now (Err f)) }
{
    match form {
        Form::First | Form::Second => Ok((BoundKind::Plain, bytes)),
        Form::Third => read_bound_byte(bytes),
    }
}

// The bound that the first byte names, and what follows it.
fn read_bound_byte(bytes: &[u8]) -> Result<(BoundKind, &[u8]), CertFault>
    ensures read { IfOk result (λ r. Field 1 (λ here bound. here ≡ bound_byte bound ∷ []) CertFault.BadBound bytes.now
        (Ok (r.0, r.1.now))) }
    ensures fault { IfErr result (λ f. Field 1 (λ here bound. here ≡ bound_byte bound ∷ []) CertFault.BadBound bytes.now
        (Err f)) }
{
    let (byte, rest) = split_byte(bytes)?;
    match byte {
        0 => Ok((BoundKind::Plain, rest)),
        1 => Ok((BoundKind::Clearing, rest)),
        _ => Err(CertFault::BadBound),
    }
}

// The kind and the floor, and what follows them.
fn read_claim(form: Form, bytes: &[u8]) -> Result<((Kind, u32), &[u8]), CertFault>
    ensures read { IfOk result (λ r. ReadsClaim form bytes.now (Ok (r.0, r.1.now))) }
    ensures fault { IfErr result (λ f. ReadsClaim form bytes.now (Err f)) }
{
    let (kind, rest) = read_kind(form, bytes)?;
    let (floor, rest) = read_floor(kind, rest)?;
    Ok(((kind, floor), rest))
}

// A kind that the form may name, and what follows it.
fn read_kind(form: Form, bytes: &[u8]) -> Result<(Kind, &[u8]), CertFault>
    ensures read { IfOk result (λ r. Field 1 (SaysKind form) CertFault.BadKind bytes.now (Ok (r.0, r.1.now))) }
    ensures fault { IfErr result (λ f. Field 1 (SaysKind form) CertFault.BadKind bytes.now (Err f)) }
{
    let (byte, rest) = split_byte(bytes)?;
    match byte {
        1 => Ok((Kind::Shortest, rest)),
        2 => Ok((Kind::CannotWin, rest)),
        3 if names_floors(form) => Ok((Kind::Between, rest)),
        _ => Err(CertFault::BadKind),
    }
}

// Whether the form has a kind with a floor.
fn names_floors(form: Form) -> bool
    ensures value { IsTrue result ↔ MayClaim form Kind.Between }
{
    form == Form::Third
}

// The floor of a certificate of this kind, 0 where it has none, and what follows it.
fn read_floor(kind: Kind, bytes: &[u8]) -> Result<(u32, &[u8]), CertFault>
    ensures read { IfOk result (λ r. ReadsFloor kind bytes.now (Ok (r.0, r.1.now))) }
    ensures fault { IfErr result (λ f. ReadsFloor kind bytes.now (Err f)) }
{
    match kind {
        Kind::Shortest | Kind::CannotWin => Ok((0, bytes)),
        Kind::Between => read_number(bytes),
    }
}

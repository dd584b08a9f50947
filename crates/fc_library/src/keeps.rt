//! What a call hands over, left in memory that is the caller's from then on.
ghost use Rattle.fc_library.specs.Keeps.{IsTextKept, AreBothKept};

use crate::call_refusals::CallRefusal;
use crate::rooms::{Call, refused, told_call};
use crate::told_answers::{Certified, Told};

/// Points the caller's slice at the text, which nothing of this library changes or frees from then on; at a refusal it stays as it
/// was.
pub fn keep(told: Result<Told, CallRefusal>, text: &mut &'static [u8]) -> Call
    ensures kept { IsTextKept told text.old.now text.new.now result }
{
    let told = match told {
        Ok(told) => told,
        Err(refusal) => return refused(&refusal),
    };
    let call = told_call(&told, 0);
    let Told {
        status: _,
        place: _,
        outcome: _,
        text: bytes,
    } = told;
    *text = bytes.leak();
    call
}

/// The same of a text and a certificate.
pub fn keep_certified(
    told: Result<Certified, CallRefusal>,
    text: &mut &'static [u8],
    certificate: &mut &'static [u8],
) -> Call
    ensures kept { AreBothKept told (text.old.now, certificate.old.now) (text.new.now, certificate.new.now) result }
{
    let Certified {
        told,
        certificate: bytes,
    } = match told {
        Ok(told) => told,
        Err(refusal) => return refused(&refusal),
    };
    let call = told_call(&told, bytes.len());
    let Told {
        status: _,
        place: _,
        outcome: _,
        text: line,
    } = told;
    *text = line.leak();
    *certificate = bytes.leak();
    call
}

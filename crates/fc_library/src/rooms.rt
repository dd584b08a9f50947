//! What a call hands over, put into rooms of the caller's.
ghost use Rattle.std.specs.Prelude.{◌≡◌};
ghost use Rattle.fc_library.specs.Rooms.{IsHandedOver, IsHandedOverBoth, refused_call, told_call};

use crate::call_refusals::CallRefusal;
use crate::figures::{Figures, figures_of};
use crate::numbers::NO_ROOM;
use crate::told_answers::{Certified, Told};

/// How a call ended.
#[repr(C)]
#[derive(Clone, Copy, Debug, PartialEq, Eq)]
pub struct Call {
    /// The status of what was handed over, or the number that tells why nothing was.
    pub status: u32,
    /// Where a refusal lies, or the move that loses, of a review that knows one; else 0.
    pub place: u32,
    /// What the text tells of an answer or a claim, whether or not there was room.
    pub figures: Figures,
    /// How many bytes the text has that was to be handed over, whether or not there was room.
    pub text_len: usize,
    /// How many bytes the certificate has.
    pub certificate_len: usize,
}

/// Puts the text into the front of the room, where it fits; else the room stays as it was, as at a refusal.
pub fn hand_over(told: &Result<Told, CallRefusal>, room: &mut [u8]) -> Call
    ensures handed { IsHandedOver told.now room.old room.new result }
{
    let told = match told {
        Ok(told) => told,
        Err(refusal) => return refused(refusal),
    };
    let text = told.text.as_slice();
    let mut call = told_call(told, 0);
    if text.len() <= room.len() {
        room[..text.len()].copy_from_slice(text);
    } else {
        call.status = NO_ROOM;
    }
    call
}

/// The same of a text and a certificate: both fit their rooms, or neither is put there.
pub fn hand_over_certified(
    told: &Result<Certified, CallRefusal>,
    room: &mut [u8],
    certificate_room: &mut [u8],
) -> Call
    ensures handed { IsHandedOverBoth told.now (room.old, certificate_room.old) (room.new, certificate_room.new) result }
{
    let Certified { told, certificate } = match told {
        Ok(told) => told,
        Err(refusal) => return refused(refusal),
    };
    let text = told.text.as_slice();
    let certificate = certificate.as_slice();
    let mut call = told_call(told, certificate.len());
    if text.len() <= room.len() && certificate.len() <= certificate_room.len() {
        room[..text.len()].copy_from_slice(text);
        certificate_room[..certificate.len()].copy_from_slice(certificate);
    } else {
        call.status = NO_ROOM;
    }
    call
}

// How a call ended that tells this, and a certificate of so many bytes.
pub(crate) fn told_call(told: &Told, certificate_len: usize) -> Call
    ensures value { result ≡ told_call told.now certificate_len told.now.status }
{
    Call {
        status: u32::from(told.status),
        place: told.place,
        figures: figures_of(told.outcome),
        text_len: told.text.len(),
        certificate_len,
    }
}

// How a call ended that was refused.
pub(crate) fn refused(refusal: &CallRefusal) -> Call
    ensures value { result ≡ refused_call refusal.now }
{
    Call {
        status: refusal.number(),
        place: refusal.place(),
        figures: figures_of(None),
        text_len: 0,
        certificate_len: 0,
    }
}

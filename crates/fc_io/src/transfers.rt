ghost use Rattle.std.specs.Prelude.{◌≡◌, ◌+◌, ◌<◌, ◌≤◌, ◌↔◌, length, take, IsTrue, IsErr, IfOk, OnOk, IsErrOf, vec_len};
ghost use Rattle.std.specs.Io.KnownBytes.{IsAtEnd};
ghost use Rattle.fc_io.specs.Moves.{Gives, GivesAtMost, IsAllTold, TellsAtLeast, TakesBytes, TakesFront, Stays};

use crate::devices::{Failed, Sink, Source};
use std::alloc::{AllocError, Global};
use thiserror::Error;

/// Writes the whole of `piece`. At `Err` some front of it was written, and nothing to a sink that had failed before.
pub fn write_all<K: Sink>(sink: &mut K, piece: &[u8]) -> Result<(), Failed>
    ensures front { TakesFront (K.held sink.old) (K.held sink.new) piece.now }
    ensures whole { OnOk result (TakesBytes (K.held sink.old) (K.held sink.new) piece.now) }

    ensures fault { IsErr result ↔ IsTrue (K.has_failed sink.new) }
    ensures stays { IsTrue (K.has_failed sink.old) → IsErr result }
    ensures unmoved { IsTrue (K.has_failed sink.old) → Stays (K.held sink.old) (K.held sink.new) }
{
    if sink.failed() {
        return Err(Failed);
    }
    let mut rest = piece;
    while !rest.is_empty() {
        let count = sink.write(rest)?;
        rest = &rest[count..];
    }
    Ok(())
}

/// Reads into `room` until it is full or the source is at its end, and answers how many bytes came. With room for one
/// byte more than a limit, a full room says that there were too many. At `Err` the bytes that had come are lost.
pub fn read_up_to<S: Source>(source: &mut S, room: &mut [u8]) -> Result<usize, Failed>
    ensures within { IfOk result (λ n. n ≤ length room.old) }
    ensures taken { GivesAtMost (S.told source.old) (S.told source.new) (length room.old) }
    ensures moved { IfOk result
        (λ n. Gives (S.told source.old) (S.told source.new) (take n room.new)) }
    ensures least { IfOk result (TellsAtLeast (S.told source.old)) }
    ensures whole { IfOk result
        (λ n. n < length room.old → IsAllTold (S.told source.old) (take n room.new)) }
    ensures ended { IfOk result (λ n. n < length room.old → IsAtEnd (S.told source.new)) }

    ensures fault { IsErr result ↔ IsTrue (S.has_failed source.new) }
    ensures stays { IsTrue (S.has_failed source.old) → IsErr result }
    ensures unmoved { IsTrue (S.has_failed source.old)
        → Stays (S.told source.old) (S.told source.new) }
{
    if source.failed() {
        return Err(Failed);
    }
    let mut filled = 0;
    while filled < room.len() {
        let count = source.read(&mut room[filled..])?;
        if count == 0 {
            return Ok(filled);
        }
        filled += count;
    }
    Ok(filled)
}

/// Why a source wasn't read to its end.
#[derive(Clone, Copy, Debug, PartialEq, Eq, Error)]
pub enum ReadFault {
    /// The source has failed.
    #[error("the source has failed")]
    Failed,
    /// More bytes came than were allowed.
    #[error("too many bytes")]
    TooLong,
    /// A growth of memory was refused.
    #[error("want of memory")]
    Memory,
}

impl From<Failed> for ReadFault {
    ghost use Rattle.fc_io.specs.declared.transfers.ReadFault.TheVariants.{Failed};

    ghost from_gives = { λ _ fault. fault ≡ Failed };

    fn from(_failed: Failed) -> ReadFault {
        ReadFault::Failed
    }
}

impl From<AllocError> for ReadFault {
    ghost use Rattle.fc_io.specs.declared.transfers.ReadFault.TheVariants.{Memory};

    ghost from_gives = { λ _ fault. fault ≡ Memory };

    fn from(_refused: AllocError) -> ReadFault {
        ReadFault::Memory
    }
}

// How many bytes are read before memory is asked for.
const PIECE: usize = 4096;

/// Reads all bytes to the end of the source, of which there may be `limit`; of more, `limit + 1` are read. At `Err`
/// the bytes that had come are lost.
pub fn read_to_vec<S: Source>(
    alloc: Global,
    source: &mut S,
    limit: usize,
) -> Result<Vec<u8>, ReadFault>
    ensures within { IfOk result (λ bytes. vec_len bytes ≤ limit) }
    ensures taken { GivesAtMost (S.told source.old) (S.told source.new) (limit + 1) }
    ensures moved { IfOk result
        (λ bytes. Gives (S.told source.old) (S.told source.new) bytes.items) }
    ensures whole { IfOk result (λ bytes. IsAllTold (S.told source.old) bytes.items) }
    ensures ended { OnOk result (IsAtEnd (S.told source.new)) }

    ensures long { IsErrOf result ReadFault.TooLong → TellsAtLeast (S.told source.old) (limit + 1) }
    ensures memory { IsErrOf result ReadFault.Memory → TellsAtLeast (S.told source.old) 1 }
    ensures fault { IsErrOf result ReadFault.Failed ↔ IsTrue (S.has_failed source.new) }
    ensures stays { IsTrue (S.has_failed source.old) → IsErrOf result ReadFault.Failed }
    ensures unmoved { IsTrue (S.has_failed source.old)
        → Stays (S.told source.old) (S.told source.new) }
{
    if source.failed() {
        return Err(ReadFault::Failed);
    }
    let mut bytes = Vec::new(alloc);
    let mut piece = [0; PIECE];
    loop {
        let most = (limit - bytes.len()).min(PIECE - 1) + 1;
        let count = read_up_to(source, &mut piece[..most])?;
        if count > limit - bytes.len() {
            return Err(ReadFault::TooLong);
        }
        if bytes.is_empty() && count == most {
            // Room for all that is still to come, at once.
            bytes.reserve_exact(count + source.likely_len().min(limit - count))?;
        }
        bytes.extend_from_slice(&piece[..count])?;
        if count < most {
            return Ok(bytes);
        }
    }
}

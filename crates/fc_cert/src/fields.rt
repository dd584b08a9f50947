ghost use Rattle.std.specs.Prelude.{◌≡◌, ◌+◌, ◌<◌, ◌^◌, [], ◌∷◌, ◌++◌, length, IfOk, IfErr, IfSome, IfNone, Option};
ghost use Rattle.fc_cert.specs.Content.{four_bytes};
ghost use Rattle.fc_cert.specs.Reading.{Field, SaysNumber};

use crate::faults::CertFault;

// A number of four bytes, and what follows it.
pub(crate) fn read_number(bytes: &[u8]) -> Result<(u32, &[u8]), CertFault>
    ensures read { IfOk result (λ r. Field 4 SaysNumber CertFault.Short bytes.now (Ok (r.0, r.1.now))) }
    ensures fault { IfErr result (λ f. Field 4 SaysNumber CertFault.Short bytes.now (Err f)) }
{
    split_number(bytes).ok_or(CertFault::Short)
}

/// The number that the first four bytes say, and what follows them. `None` where the bytes end first.
#[inline]
pub fn split_number(bytes: &[u8]) -> Option<(u32, &[u8])>
    ensures found { IfSome result (λ r. (bytes.now ≡ four_bytes r.0 ++ r.1.now) × (r.0 < 2 ^ 32)) }
    ensures none { IfNone result (length bytes.now < 4) }
{
    let (here, rest) = bytes.split_first_chunk::<4>()?;
    Some((u32::from_be_bytes(*here), rest))
}

// The first byte, and what follows it.
pub(crate) fn split_byte(bytes: &[u8]) -> Result<(u8, &[u8]), CertFault>
    ensures read { IfOk result (λ r. (bytes.now ≡ r.0 ∷ r.1.now) × (r.0 < 256)) }
    ensures fault { IfErr result (λ f. (bytes.now ≡ []) × (f ≡ CertFault.Short)) }
{
    let (byte, rest) = bytes.split_first().ok_or(CertFault::Short)?;
    Ok((*byte, rest))
}

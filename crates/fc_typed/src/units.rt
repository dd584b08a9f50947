ghost use Rattle.std.specs.Prelude.{◌≡◌, ◌+◌, ◌*◌, ◌≤◌, ◌++◌, length};
ghost use Rattle.fc_typed.specs.Unit.{in_bytes, unit_bytes, unit_of, units_bytes};

use crate::labels::push_all;
use crate::tidy_texts::{MOST_BYTES, ROOM};
use arrayvec::ArrayVec;

/// Which byte of a unit comes first.
#[derive(Clone, Copy, Debug)]
pub(crate) enum ByteOrder {
    /// The low one.
    Little,
    /// The high one.
    Big,
}

/// The text in bytes: one that begins with the mark of byte order in two bytes is in units of two bytes.
pub(crate) fn in_bytes(text: &[u8]) -> ArrayVec<u8, ROOM>
    requires room { length text.now ≤ MOST_BYTES }
    ensures value { result.items ≡ in_bytes text.now }
    ensures within { 2 * length result.items ≤ 3 * length text.now }
{
    match text {
        [0xFF, 0xFE, units @ ..] => units_bytes(units, ByteOrder::Little),
        [0xFE, 0xFF, units @ ..] => units_bytes(units, ByteOrder::Big),
        _ => {
            let mut bytes = ArrayVec::new();
            push_all(&mut bytes, text);
            bytes
        }
    }
}

// The bytes that units stand for.
fn units_bytes(units: &[u8], order: ByteOrder) -> ArrayVec<u8, ROOM>
    requires room { length units.now ≤ MOST_BYTES }
    ensures value { result.items ≡ units_bytes order units.now }
    ensures within { 2 * length result.items ≤ 3 * length units.now }
{
    let mut bytes = ArrayVec::new();
    let mut rest = units;
    while let [first, second, others @ ..] = rest {
        push_unit(&mut bytes, unit_of(order, *first, *second));
        rest = others;
    }
    if rest.is_empty() {
        return bytes;
    }
    bytes.push(b'?');
    bytes
}

// A unit from its two bytes.
fn unit_of(order: ByteOrder, first: u8, second: u8) -> u16
    ensures { result ≡ unit_of order first second }
{
    match order {
        ByteOrder::Little => 256 * u16::from(second) + u16::from(first),
        ByteOrder::Big => 256 * u16::from(first) + u16::from(second),
    }
}

// Pushes the bytes that a unit stands for.
fn push_unit(bytes: &mut ArrayVec<u8, ROOM>, unit: u16)
    requires room { length bytes.old.items + 3 ≤ ROOM }
    ensures pushed { bytes.new.items ≡ bytes.old.items ++ unit_bytes unit }
    ensures within { length bytes.new.items ≤ length bytes.old.items + 3 }
{
    let last = 128 + (unit % 64) as u8;
    match unit {
        0..=0x7F => bytes.push(unit as u8),
        0x80..=0x7FF => push_all(bytes, &[192 + (unit / 64) as u8, last]),
        0xD800..=0xDFFF => bytes.push(b'?'),
        _ => {
            let middle = 128 + (unit / 64 % 64) as u8;
            push_all(bytes, &[224 + (unit / 4096) as u8, middle, last]);
        }
    }
}

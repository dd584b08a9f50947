ghost use Rattle.std.specs.Prelude.{◌≡◌, ◌≤◌, ◌<◌, length, IfSome};
ghost use Rattle.fc_typed.specs.Tidy.{after_mark, selector_len, sign_of, space_sign, suit_of_symbol, without_signs};

use crate::tidy_texts::ROOM;
use arrayvec::ArrayVec;

/// The text without the mark of byte order that it may begin with.
pub(crate) fn after_mark(text: &[u8]) -> &[u8]
    ensures value { result.now ≡ after_mark text.now }
    ensures within { length result.now ≤ length text.now }
{
    match text {
        [0xEF, 0xBB, 0xBF, rest @ ..] => rest,
        _ => text,
    }
}

/// The text with each sign replaced by the byte that it stands for.
pub(crate) fn without_signs(text: &[u8]) -> ArrayVec<u8, ROOM>
    requires room { length text.now ≤ ROOM }
    ensures value { result.items ≡ without_signs 0 text.now }
    ensures within { length result.items ≤ length text.now }
{
    let mut tidy = ArrayVec::new();
    let mut rest = text;
    while let [first, others @ ..] = rest {
        match sign_of(rest) {
            Some((letter, len)) => {
                tidy.push(letter);
                rest = &rest[len..];
            }
            None => {
                tidy.push(*first);
                rest = others;
            }
        }
    }
    tidy
}

// The sign that a text begins with: the byte that it stands for, and how many bytes it has.
fn sign_of(text: &[u8]) -> Option<(u8, usize)>
    ensures value { result ≡ sign_of text.now }
    ensures some { IfSome result (λ sign. 0 < sign.1) }
    ensures within { IfSome result (λ sign. sign.1 ≤ length text.now) }
{
    match text {
        [0xE2, 0x99, symbol, rest @ ..] => {
            let letter = suit_of_symbol(*symbol)?;
            Some((letter, 3 + selector_len(rest)))
        }
        [0xC2, 0xA0, ..] => Some((b' ', 2)),
        _ => None,
    }
}

// The letter of the suit whose symbol ends with this byte.
fn suit_of_symbol(symbol: u8) -> Option<u8>
    ensures value { result ≡ suit_of_symbol symbol }
{
    match symbol {
        0xA0 | 0xA4 => Some(b'S'),
        0xA1 | 0xA5 => Some(b'H'),
        0xA2 | 0xA6 => Some(b'D'),
        0xA3 | 0xA7 => Some(b'C'),
        _ => None,
    }
}

// How many bytes are the selector of a symbol's shape, which may follow the symbol.
fn selector_len(text: &[u8]) -> usize
    ensures value { result ≡ selector_len text.now }
    ensures within { result ≤ length text.now }
{
    match text {
        [0xEF, 0xB8, 0x8E | 0x8F, ..] => 3,
        _ => 0,
    }
}

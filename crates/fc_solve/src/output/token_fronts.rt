//! How much of a token is shown where it is refused.

// How many bytes of a token are shown.
const LONGEST_SHOWN: usize = 24;

/// The bytes of a token that are shown.
pub fn front_of(token: &[u8]) -> &[u8] {
    &token[..token.len().min(LONGEST_SHOWN)]
}

/// What stands for the bytes that aren't.
pub fn rest_of(token: &[u8]) -> &'static str {
    if token.len() > LONGEST_SHOWN {
        ".."
    } else {
        ""
    }
}

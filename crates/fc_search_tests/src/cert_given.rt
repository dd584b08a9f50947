//! Certificates by their bytes.

use crate::given::{must, sure};
use fc_cert::Certificate;
use std::alloc::Global;
use std::process::Abort;

/// Two kings over queens of other suits, in the first form, by home rule 0: five moves and one record.
pub const TWO_KINGS: &[u8] = &[
    0x46, 0x43, 0x43, 0x31, 0, 1, 0, 0, 0, 5, 0x31, 0x61, 0x31, 0x68, 0x32, 0x68, 0x32, 0x68, 0x61,
    0x68, 0, 0, 0, 1, 0, 0, 0, 0, 13, 13, 11, 11, 0xFF, 0xFF, 0xFF, 0xFF, 2, 0x2E, 0x33, 2, 0x2F,
    0x32, 0, 0, 0, 0, 0, 0,
];

/// A locked board, in the first form, by home rule 1: no list wins.
pub const LOCKED: &[u8] = &[
    0x46, 0x43, 0x43, 0x31, 1, 2, 0, 0, 0, 1, 0, 0, 0, 0, 7, 7, 7, 7, 0x30, 0x31, 0x32, 0x33, 2,
    0x1C, 0x20, 2, 0x1D, 0x21, 2, 0x1E, 0x22, 2, 0x1F, 0x23, 3, 0x24, 0x2C, 0x28, 3, 0x25, 0x2D,
    0x29, 3, 0x26, 0x2E, 0x2A, 3, 0x27, 0x2F, 0x2B,
];

/// The certificate that the bytes are.
pub fn certificate<'a>(rt: &impl Abort, alloc: Global, bytes: &'a [u8]) -> Certificate<'a> {
    must(rt, bytes.len() <= 1000);
    sure(rt, Certificate::read(alloc, bytes))
}

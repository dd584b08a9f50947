//! The draws that numbered deals are made of, and the text of a board that is no deal.

use crate::given::{must, sure};
use fc_deal::{Draws, deal_text};
use fc_text::read_board;
use std::process::Abort;

// The first draws for a number.
fn check_draws(rt: &impl Abort, number: u32, numbers: &[u16]) {
    let mut draws = Draws::new(number);
    for drawn in numbers {
        must(rt, draws.next() == *drawn);
    }
    must(rt, draws != Draws::new(number));
}

#[test]
fn draws_the_first_numbers(rt: HostRuntime) {
    check_draws(&rt, 1, &[41, 18467, 6334, 26500]);
    check_draws(&rt, 32001, &[6236, 1776]);
    check_draws(&rt, 1_000_000, &[21585, 18586]);
    must(&rt, Draws::new(7) == Draws::new(7));
}

#[test]
fn prints_empty_columns(rt: HostRuntime) {
    let won = sure(&rt, read_board(b"Foundations: H-K C-K D-K S-K\n", 0));
    must(&rt, deal_text(&won).as_str() == "\n\n\n\n\n\n\n\n");
}

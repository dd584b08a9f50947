//! Board texts: what the program doesn't see, which makes a text plain before it is read, and where a card stands in one.

use crate::given::{card, must};
use fc_text::{BoardFault, Spot, first_spot_of, last_spot_of, read_board};
use std::process::Abort;

// A foundation is told with a dash.
#[test]
fn a_suit_and_a_rank_are_no_foundation(rt: HostRuntime) {
    let fault = read_board(b"Found:\nDeck: H2", 4).err();
    must(&rt, fault == Some(BoardFault::BadFoundation(2)));
}

// A spot is at this line and this place, with this token.
fn check_spot(rt: &impl Abort, spot: Option<Spot<'_>>, line: usize, place: usize, token: &[u8]) {
    let spot = spot.expect(rt, "a spot");
    must(rt, spot.line == line && spot.place == place);
    must(rt, spot.token == token);
}

#[test]
fn a_card_is_found_first_and_last(rt: HostRuntime) {
    let text = b"Foundations: C-K\n: QC 10d TD\nFC: - td\nTH\n";
    let ten = card(&rt, b"TD");
    check_spot(&rt, first_spot_of(text, ten), 2, 2, b"10d");
    check_spot(&rt, last_spot_of(text, ten), 3, 2, b"td");
    let queen = card(&rt, b"QC");
    check_spot(&rt, first_spot_of(text, queen), 2, 1, b"QC");
    check_spot(&rt, last_spot_of(text, queen), 2, 1, b"QC");
    let king = card(&rt, b"KC");
    must(&rt, first_spot_of(text, king).is_none());
    must(&rt, last_spot_of(text, king).is_none());
}

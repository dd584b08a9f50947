//! What is told of a board, as JSON.

use crate::given::{must, sure};
use fc_json::{ToldBoard, ToldList, object_text, review_object_text};
use std::alloc::Global;
use std::process::Abort;

// All that can be told of a board.
const FULL: ToldBoard<'static> = ToldBoard {
    deal: Some(617),
    board: Some("a \"board\"\n\u{2663}"),
    answer: "won",
    moves: Some(88),
    floor: Some(80),
    list: Some("7a 7b"),
    hint: Some("7a"),
    by_hand: Some(36),
    budget: Some(16_000_000),
    stored: Some(u64::MAX),
    turns: Some(0),
    most_open: Some(4_294_967_296),
    fault: Some("Open(3)"),
};

// What is told makes this object.
fn check_object(rt: &impl Abort, alloc: Global, told: &ToldBoard<'_>, text: &str) {
    let object = sure(rt, object_text(alloc, told));
    must(rt, object.as_str() == text);
}

// The object of all that can be told.
const FULL_TEXT: &str =
    "{\"answer\":\"won\",\"board\":\"a \\\"board\\\"\\n\u{2663}\",\"budget\":16000000,\"by_hand\":36,\"deal\":617,\"fault\":\"Open(3)\",\"floor\":80,\"hint\":\"7a\",\"list\":\"7a 7b\",\"moves\":88,\"open\":4294967296,\"stored\":18446744073709551615,\"turns\":0}";

#[test]
fn objects_have_what_is_told(rt: HostRuntime) {
    let told = ToldBoard::new("gave up");
    check_object(&rt, rt.alloc(), &told, "{\"answer\":\"gave up\"}");
    let mut told = ToldBoard::new("can't be won");
    told.deal = Some(11_982);
    let object = "{\"answer\":\"can't be won\",\"deal\":11982}";
    check_object(&rt, rt.alloc(), &told, object);
    check_object(&rt, rt.alloc(), &FULL, FULL_TEXT);
}

// All that can be told of a list of moves.
const FULL_REVIEW: ToldList<'static> = ToldList {
    deal: Some(617),
    board: Some("mine"),
    review: "loses",
    list: Some("1a 2b 3c"),
    moves: Some(3),
    inserted: Some(0),
    by_hand: Some(2),
    after: Some(1),
    best: Some(90),
    floor: Some(u64::MAX),
    losing: Some("2b"),
    lost_after: Some(4_294_967_296),
};

// The object of it.
const FULL_REVIEW_TEXT: &str =
    "{\"after\":1,\"best\":90,\"board\":\"mine\",\"by_hand\":2,\"deal\":617,\"floor\":18446744073709551615,\"inserted\":0,\"list\":\"1a 2b 3c\",\"losing\":\"2b\",\"lost_after\":4294967296,\"moves\":3,\"review\":\"loses\"}";

#[test]
fn objects_have_what_is_told_of_lists(rt: HostRuntime) {
    let object = sure(
        &rt,
        review_object_text(rt.alloc(), &ToldList::new("gave up")),
    );
    must(&rt, object.as_str() == "{\"review\":\"gave up\"}");
    let object = sure(&rt, review_object_text(rt.alloc(), &FULL_REVIEW));
    must(&rt, object.as_str() == FULL_REVIEW_TEXT);
}

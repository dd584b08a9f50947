//! What is read of certificates: their heads, moves, records and keys.

use crate::cert_given::{LOCKED, TWO_KINGS, certificate};
use crate::given::must;
use fc_cards::Place;
use fc_moves::Move;
use std::alloc::Global;
use std::process::Abort;

// A certificate, and what it tells: game, cells, home rule and kind, and how many moves and records there are.
const HEADS: [(&[u8], [u32; 6]); 6] = [
    (TWO_KINGS, [0, 4, 0, 1, 5, 1]),
    (LOCKED, [0, 4, 1, 2, 0, 1]),
    // All is home but the king of spades.
    (
        &[
            0x46, 0x43, 0x43, 0x31, 1, 1, 0, 0, 0, 1, 0x61, 0x68, 0, 0, 0, 0,
        ],
        [0, 4, 1, 1, 1, 0],
    ),
    // The same in the second form.
    (
        &[
            0x46, 0x43, 0x43, 0x32, 0, 4, 1, 1, 0, 0, 0, 1, 0x61, 0x68, 0, 0, 0, 0,
        ],
        [0, 4, 1, 1, 1, 0],
    ),
    // Kings alone go to empty columns, and there is no cell.
    (
        &[
            0x46, 0x43, 0x43, 0x32, 2, 0, 1, 2, 0, 0, 0, 1, 0, 0, 0, 0, 13, 13, 13, 10, 0xFF, 0xFF,
            0xFF, 0xFF, 2, 0x2B, 0x2F, 1, 0x33, 0, 0, 0, 0, 0, 0,
        ],
        [2, 0, 1, 2, 0, 1],
    ),
    // By home rule 2.
    (
        &[
            0x46, 0x43, 0x43, 0x32, 0, 4, 2, 1, 0, 0, 0, 3, 0x31, 0x68, 0x31, 0x68, 0x61, 0x68, 0,
            0, 0, 0,
        ],
        [0, 4, 2, 1, 3, 0],
    ),
];

#[test]
fn heads_of_certificates(rt: HostRuntime) {
    for &(bytes, head) in &HEADS {
        let read = certificate(&rt, rt.alloc(), bytes);
        let (game, cells) = (u32::from(read.game()), u32::from(read.cells()));
        let (rule, kind) = (u32::from(read.rule()), u32::from(read.kind()));
        must(
            &rt,
            [game, cells, rule, kind, read.move_count(), read.len()] == head,
        );
    }
}

// The key of the two kings, and of the king of spades alone in a cell.
const FIRST: &[u8] = &[
    13, 13, 11, 11, 0xFF, 0xFF, 0xFF, 0xFF, 2, 0x2E, 0x33, 2, 0x2F, 0x32, 0, 0, 0, 0, 0, 0,
];

const SECOND: &[u8] = &[
    13, 13, 13, 12, 0x33, 0xFF, 0xFF, 0xFF, 0, 0, 0, 0, 0, 0, 0, 0,
];

// Both of them, at the greatest cost and one less.
const TWO_RECORDS: &[u8] = &[
    0x46, 0x43, 0x43, 0x32, 0, 4, 2, 1, 0, 0, 0, 0, 0, 0, 0, 2, 0xFF, 0xFF, 0xFF, 0xFF, 13, 13, 11,
    11, 0xFF, 0xFF, 0xFF, 0xFF, 2, 0x2E, 0x33, 2, 0x2F, 0x32, 0, 0, 0, 0, 0, 0, 0xFF, 0xFF, 0xFF,
    0xFE, 13, 13, 13, 12, 0x33, 0xFF, 0xFF, 0xFF, 0, 0, 0, 0, 0, 0, 0, 0,
];

// Keys, and their costs there: those of both, of a front of the second, and of nothing.
const COSTS: [(&[u8], Option<u32>); 4] = [
    (FIRST, Some(u32::MAX)),
    (SECOND, Some(u32::MAX - 1)),
    (&[13, 13, 13, 12, 0x33, 0xFF, 0xFF, 0xFF], None),
    (&[], None),
];

// The first key, lent out of the bytes; the certificate is dropped.
fn first_key<'a>(rt: &impl Abort, alloc: Global, bytes: &'a [u8]) -> &'a [u8] {
    let read = certificate(rt, alloc, bytes);
    must(rt, read.len() == 2 && !read.is_empty());
    let (key, cost) = read.record_at(0);
    must(rt, key == FIRST && cost == u32::MAX);
    must(rt, read.record_at(1) == (SECOND, u32::MAX - 1));
    key
}

#[test]
fn records_and_their_costs(rt: HostRuntime) {
    must(&rt, first_key(&rt, rt.alloc(), TWO_RECORDS) == FIRST);
    let read = certificate(&rt, rt.alloc(), TWO_RECORDS);
    for &(key, cost) in &COSTS {
        must(&rt, read.find(key) == cost);
    }
    let other = certificate(&rt, rt.alloc(), TWO_KINGS);
    must(&rt, other.find(SECOND).is_none());
}

// The two kings' moves: `1a 1h 2h 2h ah`.
const MOVES: [Move; 5] = [
    Move {
        from: Place::Column(0),
        to: Place::Cell(0),
    },
    Move {
        from: Place::Column(0),
        to: Place::Home,
    },
    Move {
        from: Place::Column(1),
        to: Place::Home,
    },
    Move {
        from: Place::Column(1),
        to: Place::Home,
    },
    Move {
        from: Place::Cell(0),
        to: Place::Home,
    },
];

#[test]
fn moves_in_order(rt: HostRuntime) {
    let read = certificate(&rt, rt.alloc(), TWO_KINGS);
    must(&rt, read.move_count() == 5);
    for i in 0..read.move_count().min(5) {
        must(&rt, read.move_at(i) == MOVES[i as usize]);
    }
}

//! Lists whose entries may move several cards, expanded and gathered. The runs that replay them over devices that fail are
//! tried on the program, by `tests/hostile/devices.py`.

ghost use Rattle.std.specs.Prelude.{◌≤◌, length};

use crate::given::{board_for, free_cell, move_of, must, sure};
use fc_cards::Place;
use fc_moves::Move;
use fc_sequences::{GatherFault, Pair, expand, gather, may_carry, print_pair, read_pair};
use std::alloc::Global;
use std::process::Abort;

// Two columns of two cards that lie on each other.
const PAIRS: &str = "Foundations: H-J C-K D-K S-J\nKS QH\nKH QS\n";

// Four columns of all cards from king to ace.
const KINGS: &str = "\
    KS QH JS TH 9S 8H 7S 6H 5S 4H 3S 2H AS\n\
    KH QS JH TS 9H 8S 7H 6S 5H 4S 3H 2S AH\n\
    KC QD JC TD 9C 8D 7C 6D 5C 4D 3C 2D AC\n\
    KD QC JD TC 9D 8C 7D 6C 5D 4C 3D 2C AD\n";

// Some questions that no entry of a list asks.
#[test]
fn no_cards_and_no_entry(rt: HostRuntime) {
    let game = free_cell(&rt, 4);
    must(
        &rt,
        !may_carry(&game, &board_for(&rt, &game, PAIRS), 0, 2, 0),
    );
    must(&rt, read_pair(b"").is_none());
}

// A list of moves, of two letters each.
fn list_of(rt: &impl Abort, alloc: Global, text: &[u8]) -> Vec<Move>
    ensures few { length result.items ≤ 10 }
{
    let mut list = Vec::new(alloc);
    for word in text.chunks(2) {
        sure(rt, list.push(move_of(rt, word)));
    }
    must(rt, list.len() <= 10);
    list
}

// The moves of a list on the board of pairs are gathered to these entries.
fn gathers(rt: &impl Abort, alloc: Global, text: &[u8], wanted: &[&[u8]]) {
    let game = free_cell(rt, 4);
    let start = board_for(rt, &game, PAIRS);
    let list = list_of(rt, alloc, text);
    let pairs = sure(rt, gather(alloc, &game, &start, list.as_slice()));
    must(rt, pairs.len() == wanted.len());
    for index in 0..pairs.len() {
        let text = print_pair(pairs[index]);
        must(rt, text.as_slice() == wanted[index]);
    }
}

// Lists, and the entries to which they are gathered.
static LISTS: [(&[u8], &[&[u8]]); 6] = [
    (b"1a13a3", &[b"13v2"]),
    (b"131a", &[b"13v1", b"1a"]),
    (b"1a13", &[b"1a", b"13"]),
    (b"1h2h1h2h", &[b"1h", b"2h", b"1h", b"2h"]),
    (b"1a13a32h3h", &[b"13v2", b"2h", b"3h"]),
    (b"", &[]),
];

#[test]
fn moves_are_gathered(rt: HostRuntime) {
    for &(text, wanted) in &LISTS {
        gathers(&rt, rt.alloc(), text, wanted);
    }
}

#[test]
fn a_move_that_is_not_allowed_is_told(rt: HostRuntime) {
    let game = free_cell(&rt, 4);
    let start = board_for(&rt, &game, PAIRS);
    let list = list_of(&rt, rt.alloc(), b"1a1b1c");
    let told = gather(rt.alloc(), &game, &start, list.as_slice()).err();
    must(&rt, told == Some(GatherFault::NotAllowed(3)));
}

// So many cards are carried from the first column to the fifth, over so many cells, by moves that are gathered to that entry
// again.
fn gathers_again(rt: &impl Abort, alloc: Global, cells: u8, count: u8) {
    let game = free_cell(rt, cells);
    let kings = board_for(rt, &game, KINGS);
    let pair = Pair {
        from: Place::Column(0),
        to: Place::Column(4),
        count: Some(count),
    };
    // (eight cards are carried over three empty columns and no cell)
    if let Ok(moves) = expand(alloc, &game, &kings, &[pair]) {
        must(rt, moves.len() < 64);
        let pairs = sure(rt, gather(alloc, &game, &kings, moves.as_slice()));
        must(rt, pairs.as_slice() == [pair].as_slice());
    } else {
        must(rt, cells == 0 && count > 8);
    }
}

#[test]
fn expanded_sequences_are_gathered_again(rt: HostRuntime) {
    for cells in 0..5 {
        for count in 1..14 {
            gathers_again(&rt, rt.alloc(), cells, count);
        }
    }
}

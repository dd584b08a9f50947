//! A game of the tests' own is certified.

use crate::given::{board, must, sure};
use fc_cert::write_answer;
use fc_checker::{CheckFault, check};
use fc_io::ToArray;
use fc_moves::Kings;
use fc_search::solve;
use fc_tests::boards::TWO_KINGS;
use fc_tests::games::AnySuit;

// What is written for a game of code 200 is accepted for it, and for no other game. That the program's games refuse bytes with
// this head is asked by rows of `tests/rows/cert-of-other-games.tsv`.
#[test]
fn a_game_of_ones_own_is_certified(rt: HostRuntime) {
    let alloc = rt.alloc();
    let start = board(&rt, &AnySuit, TWO_KINGS);
    let answer = sure(&rt, solve(alloc, &AnySuit, 2, &start, 1000));
    let mut out = ToArray::<500>::new();
    must(&rt, write_answer(&AnySuit, &answer, &mut out).is_ok());
    must(&rt, out.held().starts_with(b"FCC2\xC8\x04\x02"));
    must(&rt, check(alloc, &AnySuit, &start, out.held()).is_ok());
    let told = check(alloc, &Kings::new(AnySuit), &start, out.held());
    must(&rt, told == Err(CheckFault::OtherGame));
}

//! The row of a board: its cells, and a certificate that can't be written.

use crate::given::{board, budget, free_cell, home_rule, must};
use fc_answers::Outcome;
use fc_io::ToArray;
use fc_io::testing::Failing;
use fc_runs::{Far, Output, ProgramFault, Row, answer_row};
use fc_search::{Method, Question, Sought};
use fc_tests::boards::TWO_KINGS;
use std::alloc::Global;
use std::process::Abort;

// The row of a board, of which this is sought, ends where its certificate can't be written.
fn ends_uncertified(rt: &impl Abort, alloc: Global, sought: Sought) {
    let game = free_cell(rt, 4);
    let method = Method::shortest(home_rule(rt, 2), budget(rt, 100));
    let question = Question::new(&game, sought, method);
    let start = board(rt, &game, TWO_KINGS);
    let mut cert = Failing::new(ToArray::<40>::new(), 3);
    let row = answer_row(alloc, &question, &start, Some(&mut cert));
    must(rt, row.err() == Some(ProgramFault::Write(Output::Cert)));
    must(rt, cert.device.held() == b"FCC".as_slice());
}

#[test]
fn certificates_that_cant_be_written_end_a_row(rt: HostRuntime) {
    for sought in [Sought::ByMethod, Sought::Best] {
        ends_uncertified(&rt, rt.alloc(), sought);
    }
}

// What a row by a budget of 100 tells, the text of its cells, and its status.
static CELLS: [(Option<Outcome>, Option<Far>, &[u8], u8); 6] = [
    (
        Some(Outcome::Shortest(75)),
        Some(Far {
            classes: 9,
            turns: 8,
            most_open: 7,
            at_least: 70,
        }),
        b"\tshortest\t75\t75\t100\t9\t8\t7\n",
        0,
    ),
    (
        Some(Outcome::Won {
            moves: 90,
            floor: 80,
        }),
        None,
        b"\twon\t90\t80\t100\t\t\t\n",
        0,
    ),
    (
        Some(Outcome::CannotWin),
        Some(Far {
            classes: 9,
            turns: 8,
            most_open: 7,
            at_least: 4,
        }),
        b"\tcan't be won\t\t\t100\t9\t8\t7\n",
        1,
    ),
    (
        Some(Outcome::GaveUp(5)),
        Some(Far {
            classes: 9,
            turns: 8,
            most_open: 7,
            at_least: 71,
        }),
        b"\tgave up\t\t71\t100\t9\t8\t7\n",
        2,
    ),
    (
        None,
        Some(Far {
            classes: 9,
            turns: 8,
            most_open: 7,
            at_least: 72,
        }),
        b"\twant of memory\t\t72\t100\t9\t8\t7\n",
        4,
    ),
    (None, None, b"\twant of memory\t\t\t100\t\t\t\n", 4),
];

#[test]
fn cells_are_parted_by_tabs(rt: HostRuntime) {
    for &(told, far, text, status) in &CELLS {
        let row = Row {
            budget: 100,
            told,
            list: None,
            far,
        };
        let cells = row.cells();
        must(&rt, cells.as_bytes() == text);
        must(&rt, row.status() == status);
    }
}

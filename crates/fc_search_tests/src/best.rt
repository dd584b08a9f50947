//! The best answer of a position, on boards whose answers are known.

ghost use Rattle.fc_methods.specs.Method.{QuestionData};
ghost use Rattle.fc_position.specs.Position.{Fits};

use crate::given::{
    bakers_game, board, check_table, check_wins, dealt, expanded, free_cell, method, must, sure,
};
use fc_answer_text::outcome_of;
use fc_answers::{MoveList, Outcome};
use fc_best::{Listener, Progress, Unheard, best};
use fc_moves::{Game, Kings};
use fc_position::Position;
use fc_search::{BoundKind, Expansion, Question, Sought, Verdict};
use fc_tests::boards::{
    ALL_HOME, CLASSES_495, FREE_KING, LOCKED, ONE_COLUMN, ONE_KING, QUEEN_UNDER_KING, THIRTY_MOVES,
    THREE_KINGS, THREE_SPADES, TWO_KINGS,
};
use std::alloc::Global;
use std::process::Abort;

// The best answer of a question for a board is what is known of it; it has a table where one is wanted.
fn check_best<G: Game + Drop>(
    rt: &impl Abort,
    alloc: Global,
    question: &Question<G>,
    start: &Position,
    known: Outcome,
    has_table: bool,
)
    requires fits { Fits question.now.game.cells start.now }
{
    let answer = sure(rt, best(alloc, question, start, has_table, &mut Unheard));
    must(rt, outcome_of(&answer.verdict) == known);
    if let Verdict::Shortest(list) = &answer.verdict {
        check_wins(rt, question.game(), start, list);
    }
    must(rt, answer.table.is_some() == has_table);
    if let Some(table) = &answer.table {
        check_table(rt, table, question.method().rule.get());
    }
}

// The best answers for a board by this rule are what is known of it, by either bound and expansion. A single search by the
// weight of the question wouldn't say that a list is a shortest one.
fn check_rule<G: Game + Drop>(
    rt: &impl Abort,
    alloc: Global,
    game: &G,
    rule: u8,
    start: &Position,
    known: Outcome,
) {
    must(rt, start.fits(game.cells()));
    for &bound in &[BoundKind::Plain, BoundKind::Clearing] {
        for &expansion in &[Expansion::Full, Expansion::Partial] {
            let asked = expanded(method(rt, rule, 30, bound, 10_000), expansion);
            let question = Question::new(game, Sought::Best, asked);
            check_best(rt, alloc, &question, start, known, true);
            check_best(rt, alloc, &question, start, known, false);
        }
    }
}

// A board's text, and what is known of it.
type Known = (&'static str, Outcome);

// The best answers for boards of a game are known, by each rule.
fn check_known<G: Game + Drop>(rt: &impl Abort, alloc: Global, game: &G, boards: &[Known]) {
    for &(text, known) in boards {
        let start = board(rt, game, text);
        for rule in 0..3 {
            check_rule(rt, alloc, game, rule, &start, known);
        }
    }
}

// Boards whose shortest lists, or whose want of any, are known: those of each game.
static FREECELL: [Known; 10] = [
    (ALL_HOME, Outcome::Shortest(0)),
    (ONE_KING, Outcome::Shortest(1)),
    (QUEEN_UNDER_KING, Outcome::Shortest(3)),
    (FREE_KING, Outcome::Shortest(3)),
    (TWO_KINGS, Outcome::Shortest(5)),
    (THREE_KINGS, Outcome::Shortest(5)),
    (THIRTY_MOVES, Outcome::Shortest(30)),
    (ONE_COLUMN, Outcome::Shortest(52)),
    (LOCKED, Outcome::CannotWin),
    (CLASSES_495, Outcome::CannotWin),
];

static NO_CELL: [Known; 1] = [(THREE_SPADES, Outcome::Shortest(4))];

static BAKERS: [Known; 2] = [
    (ONE_KING, Outcome::Shortest(1)),
    (THIRTY_MOVES, Outcome::Shortest(30)),
];

static LOST: [Known; 1] = [(THREE_SPADES, Outcome::CannotWin)];

#[test]
fn known_boards(rt: HostRuntime) {
    let alloc = rt.alloc();
    check_known(&rt, alloc, &free_cell(&rt, 4), &FREECELL);
    check_known(&rt, alloc, &free_cell(&rt, 0), &NO_CELL);
    check_known(&rt, alloc, &bakers_game(&rt, 4), &BAKERS);
    check_known(&rt, alloc, &Kings::new(free_cell(&rt, 1)), &NO_CELL);
    check_known(&rt, alloc, &Kings::new(free_cell(&rt, 0)), &LOST);
}

// Keeps what it heard last, of which list and floor, and whether a floor or the length of a list got worse.
#[derive(Drop)]
struct Ear {
    last: Option<Progress>,
    listed: Option<(u32, u32)>,
    has_got_worse: bool,
}

impl Listener for Ear {
    ghost hears = { λ _ _ _. Unit {0} };

    fn hear(&mut self, far: Progress) {
        if let Some(last) = self.last {
            let is_shorter = far.shortest.unwrap_or(u32::MAX) <= last.shortest.unwrap_or(u32::MAX);
            let is_worse = far.at_least < last.at_least || !is_shorter;
            self.has_got_worse = self.has_got_worse || is_worse;
        }
        self.last = Some(far);
    }

    fn hear_list(&mut self, moves: &MoveList, at_least: u32) {
        self.listed = Some((moves.len() as u32, at_least));
    }
}

// What is heard last of a search of FreeCell by the clearing bound within so many classes; nothing heard before was better, and
// the list that is heard last is as long.
fn heard_last(rt: &impl Abort, alloc: Global, start: &Position, classes: u32) -> Progress {
    let game = free_cell(rt, 4);
    must(rt, start.fits(game.cells()));
    let question = Question::new(
        &game,
        Sought::Best,
        method(rt, 2, 10, BoundKind::Clearing, classes),
    );
    let mut ear = Ear {
        last: None,
        listed: None,
        has_got_worse: false,
    };
    let _ = sure(rt, best(alloc, &question, start, false, &mut ear));
    must(rt, !ear.has_got_worse);
    let last = ear.last.expect(rt, "nothing heard");
    let answered = last.shortest.map(|moves| (moves, last.at_least));
    must(rt, ear.listed == answered);
    last
}

#[test]
fn searches_are_heard(rt: HostRuntime) {
    let game = free_cell(&rt, 4);
    let won = heard_last(&rt, rt.alloc(), &board(&rt, &game, TWO_KINGS), 100);
    must(&rt, won.budget == 100 && won.at_least == 5);
    must(&rt, won.shortest == Some(5));
    let lost = heard_last(&rt, rt.alloc(), &board(&rt, &game, CLASSES_495), 1000);
    must(&rt, lost.budget == 1000 && lost.shortest.is_none());
    let deal = heard_last(&rt, rt.alloc(), &dealt(&rt, &game, 59), 10_000);
    let moves = deal.shortest.expect(&rt, "no list");
    must(&rt, 73 <= moves && deal.at_least <= 73);
    must(&rt, 0 < deal.classes && deal.classes <= 10_000);
    must(&rt, 0 < deal.turns);
}

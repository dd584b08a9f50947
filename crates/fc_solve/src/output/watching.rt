//! How far a search is, told on standard error: on a terminal by one line that is written over, and at the end, where it is
//! asked for, by a line of numbers. Where a line can't be written, the search goes on.

use crate::output::answer_objects::Searched;
use fc_answers::MoveList;
use fc_best::{Listener, Progress};
use fc_runs::Far;
use std::cell::Cell;

/// After so many turns the line is written over.
const TURNS_A_LINE: u64 = 1 << 16;

/// The line on a terminal, for a numbered deal or another board.
#[derive(Drop)]
pub struct Line<'a> {
    rt: &'a HostRuntime,
    deal: Option<u32>,
    is_there: Cell<bool>,
}

impl<'a> Line<'a> {
    /// A line that isn't there yet.
    pub fn new(rt: &'a HostRuntime, deal: Option<u32>) -> Self {
        Line {
            rt,
            deal,
            is_there: Cell::new(false),
        }
    }

    /// The number of the deal, of a numbered one.
    pub fn deal(&self) -> Option<u32> {
        self.deal
    }

    /// Takes the line away, if it is there.
    pub fn clear(&self) {
        if self.is_there.replace(false) {
            let _told = eprint!(self.rt; "\r\x1b[K");
        }
    }

    // Begins the line anew: what it tells next may be shorter.
    fn begin(&self) {
        self.clear();
        self.is_there.set(true);
        let _told = eprint!(self.rt; "\rfc_solve: ");
        if let Some(number) = self.deal {
            let _told = eprint!(self.rt; "deal {number}: ");
        }
    }

    // (at its end the line begins again, so that a prompt doesn't stand behind it where the program is broken off)
    // Writes the line over: how full a search is, and its floor.
    fn show_kept(&self, classes: usize, budget: u32, at_least: u32) {
        self.begin();
        let _told = eprint!(self.rt;
            "{classes} of {budget} positions kept, at least {at_least} moves\r"
        );
    }

    // Writes the line over: how many moves the best list so far has, and the floor.
    fn show_best(&self, moves: u32, at_least: u32) {
        self.begin();
        let _told = eprint!(self.rt; "best so far {moves}, at least {at_least}\r");
    }

    /// Writes the line over: how many boards are done, of how many, if that is known, and how many have a shortest list.
    pub fn show_done(&self, done: u64, total: Option<u32>, shortest: u64) {
        self.begin();
        let _told = match total {
            Some(total) => eprint!(self.rt; "{done} of {total}, {shortest} shortest\r"),
            None => eprint!(self.rt; "{done} done, {shortest} shortest\r"),
        };
    }

    /// Ends a run whose searches told this last with a line of numbers: with the floor that the answer tells, if it does, and how many
    /// entries of its list are left to a player's hands.
    pub fn tell_stats(&self, searched: Searched, floor: Option<u32>, by_hand: Option<u64>) {
        let Far {
            classes,
            turns,
            most_open,
            at_least,
        } = searched.far;
        let floor = floor.unwrap_or(at_least);
        if let Some(number) = self.deal {
            let _told = eprint!(self.rt; "deal={number} ");
        }
        let _told = eprint!(self.rt;
            "stored={classes} turns={turns} open={most_open} floor={floor}"
        );
        let _told = match by_hand {
            Some(count) => eprintln!(self.rt; " by_hand={count}"),
            None => eprintln!(self.rt; ""),
        };
    }
}

/// Tells how far searches are.
#[derive(Drop)]
pub struct Teller<'a> {
    line: &'a Line<'a>,
    is_shown: bool,
    // What the line told last.
    shown: Option<Progress>,
    last: Option<Progress>,
}

impl<'a> Teller<'a> {
    /// One that shows the line or doesn't.
    pub fn new(line: &'a Line<'a>, is_shown: bool) -> Self {
        Teller {
            line,
            is_shown,
            shown: None,
            last: None,
        }
    }

    /// The line.
    pub fn line(&self) -> &'a Line<'a> {
        self.line
    }

    /// Whether the line is shown.
    pub fn is_shown(&self) -> bool {
        self.is_shown
    }

    /// What was heard last.
    pub fn last(&self) -> Option<Progress> {
        self.last
    }

    /// The same, in numbers for a reader.
    pub fn searched(&self) -> Option<Searched> {
        let far = self.last?;
        Some(Searched {
            budget: far.budget,
            far: Far {
                classes: far.classes as u64,
                turns: far.turns,
                most_open: far.most_open,
                at_least: far.at_least,
            },
        })
    }

    // Whether the line is to be written, first after so many turns: where the best list or its floor changed, or after so many
    // turns more.
    fn is_due(&self, far: Progress) -> bool {
        let lines = far.turns / TURNS_A_LINE;
        let Some(shown) = self.shown else {
            return lines > 0;
        };
        let is_better = shown.shortest != far.shortest
            || (far.shortest.is_some() && shown.at_least != far.at_least);
        is_better || lines > shown.turns / TURNS_A_LINE
    }

    // Writes the line over.
    fn show(&self, far: Progress) {
        match far.shortest {
            Some(moves) => self.line.show_best(moves, far.at_least),
            None => self.line.show_kept(far.classes, far.budget, far.at_least),
        }
    }
}

impl Listener for Teller<'_> {
    ghost use Rattle.fc_solve.specs.inner.Watching.{KeepsLast};

    ghost hears = { λ old report new. KeepsLast old.last report new.last };

    fn hear(&mut self, far: Progress) {
        if self.is_shown && self.is_due(far) {
            self.shown = Some(far);
            self.show(far);
        }
        self.last = Some(far);
    }

    fn hear_list(&mut self, _moves: &MoveList, _at_least: u32) {}
}

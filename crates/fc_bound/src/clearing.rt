ghost use Rattle.std.specs.Prelude.{◌≡◌, ◌≤◌, ◌↔◌, IsTrue, All};
ghost use Rattle.fc_position.specs.Position.{IsPosition};
ghost use Rattle.fc_position.specs.Tally.{AllCards};
ghost use Rattle.fc_bound.specs.Clearing.{cards_in, clearing_cost, clearing_bound};
ghost use Rattle.fc_bound.specs.Knots.{knot_count};

use crate::bits::{least, remove};
use crate::bounds::{GREATEST_BOUND, away};
use crate::columns_left::Left;
use crate::knots::knot_count;
use crate::waiting_rows::{blank, fill};
use fc_position::Position;

// Whether all cards can be taken out at so much. Loose cards go first, and are taken out in place; then some one column of
// the knot goes first in a best order, so these alone are tried, each on a copy, unless more knots are met than may be paid.
fn costs_at_most(left: &mut Left<'_>, most: u8) -> bool
    requires few { cards_in left.old ≤ 52 }
    requires cards { All AllCards left.old }
    ensures value { IsTrue result ↔ clearing_cost left.old ≤ most }
{
    if let Some(met) = left.take_loose() {
        if most < met {
            return false;
        }
        return costs_at_most(left, most - met);
    }
    if !left.has_cards() {
        return true;
    }
    if most == 0 {
        return false;
    }
    if most < count_knots(left) {
        return false;
    }
    let knot = left.knot();
    let mut rest = knot;
    while rest != 0 {
        let u = least(rest);
        rest = remove(rest, u);
        let mut others = left.copy();
        others.take(u);
        if costs_at_most(&mut others, most - 1) {
            return true;
        }
    }
    false
}

// How many knots are met in the columns: taking all cards out costs no less.
fn count_knots(left: &Left<'_>) -> u8
    requires few { cards_in left.now ≤ 52 }
    requires cards { All AllCards left.now }
    ensures value { result ≡ knot_count left.now }
    ensures least { result ≤ clearing_cost left.now }
{
    let mut copy = left.copy();
    knot_count(&mut copy)
}

/// The number of cards that are not home, plus the least cost of taking all cards out of their columns: at most 104. No
/// list of moves that wins from the position is shorter. It is sought by branch and bound: tied columns alone are tried,
/// one after another.
pub fn clearing_bound(position: &Position) -> u8
    ensures value { result ≡ clearing_bound position.now }
    ensures most { result ≤ GREATEST_BOUND }
    ensures whole { IsPosition position.now }
{
    let away = away(position);
    let mut rows = blank();
    let marks = fill(&mut rows, position);
    let left = Left::new(position, &rows, marks);
    for cost in count_knots(&left)..52 {
        if costs_at_most(&mut left.copy(), cost) {
            return away + cost;
        }
    }
    away + 52
}

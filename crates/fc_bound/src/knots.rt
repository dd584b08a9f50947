ghost use Rattle.std.specs.Prelude.{◌≡◌, ◌+◌, ◌≤◌, false, count_by};
ghost use Rattle.std.specs.List.{list_any};
ghost use Rattle.fc_cards.specs.Card.{all_cards};
ghost use Rattle.fc_position.specs.Position.{IsPosition};
ghost use Rattle.fc_bound.specs.Bound.{is_away};
ghost use Rattle.fc_bound.specs.Clearing.{cards_in};
ghost use Rattle.fc_bound.specs.Knots.{is_loose, knot_count, knot_bound};
ghost use Rattle.fc_bound.specs.Rows.{IsTableOf};
ghost use Rattle.fc_bound.specs.inner.Rows.{AreLow, waiting_in};

use crate::bounds::{GREATEST_BOUND, away};
use crate::columns_left::Left;
use crate::waiting_rows::ColumnTable;
use fc_position::Position;

// Takes out loose cards, one at a time, until no card is loose: the bits of the cards that wait for none afterwards, by those before.
#[inline(always)]
fn loosen(left: &mut Left<'_>, lows: u64) -> u64
    requires lows { AreLow lows left.old }
    ensures lows { AreLow result left.new }
    ensures count { knot_count left.old + waiting_in left.new ≡ knot_count left.new + waiting_in left.old }
    ensures tight { list_any (is_loose left.new) left.new ≡ false }
    ensures fewer { cards_in left.new ≤ cards_in left.old }
{
    let mut lows = lows;
    while let Some(u) = left.first_loose(lows) {
        lows = left.take_of(u, lows);
    }
    lows
}

// How many knots are met until no card is left, counted no further than asked: all of them where they are at most so many,
// else as many as it was known by then that there are. It takes the cards out. Each card that waits for one beneath it is
// met sooner or later, and none of the others but by a knot: so the former are counted first, all at once.
#[inline(always)]
fn knots_within(left: &mut Left<'_>, most: u8) -> u8
    requires few { cards_in left.old ≤ 52 }
    ensures lower { result ≤ knot_count left.old }
    ensures exact { result ≤ most → result ≡ knot_count left.old }
    ensures greatest { result ≤ 52 }
{
    let mut count = left.waiting();
    // A knot's cards wait, and for cards that stay: who waits for none is the same without them.
    let mut lows = left.lows();
    while count <= most {
        lows = loosen(left, lows);
        if !left.has_cards() {
            return count;
        }
        let knot = left.knot();
        left.shed(knot);
        count += 1;
    }
    count
}

// How many knots are met until no card is left; it takes all cards out.
#[inline(always)]
pub(crate) fn knot_count(left: &mut Left<'_>) -> u8
    requires few { cards_in left.old ≤ 52 }
    ensures value { result ≡ knot_count left.old }
    ensures most { result ≤ 52 }
{
    knots_within(left, 52)
}

/// The number of cards that are not home, plus the number of knots that are met while the cards are taken out of the
/// columns: at most 104, nowhere less than the plain bound, and nowhere greater than the clearing bound.
pub fn knot_bound(position: &Position) -> u8
    ensures value { result ≡ knot_bound position.now }
    ensures most { result ≤ GREATEST_BOUND }
    ensures whole { IsPosition position.now }
{
    knot_bound_within(position, GREATEST_BOUND)
}

// The knot bound, counted no further than asked: the bound itself where it is at most so much, else a number above that which
// is nowhere greater than the bound. The plain bound isn't asked first: of the children of a search it is almost never past
// what is asked, and takes a sixth as long.
pub(crate) fn knot_bound_within(position: &Position, most: u8) -> u8
    ensures lower { result ≤ knot_bound position.now }
    ensures exact { result ≤ most → result ≡ knot_bound position.now }
    ensures greatest { result ≤ GREATEST_BOUND }
    ensures whole { IsPosition position.now }
{
    let away = away(position);
    if most < away {
        return away;
    }
    with_knots(position, &ColumnTable::new(position), away, most)
}

// The same by the table of the position's columns.
pub(crate) fn knot_bound_by(position: &Position, table: &ColumnTable, most: u8) -> u8
    requires table { IsTableOf position.now.columns table.now }
    ensures lower { result ≤ knot_bound position.now }
    ensures exact { result ≤ most → result ≡ knot_bound position.now }
    ensures greatest { result ≤ GREATEST_BOUND }
    ensures whole { IsPosition position.now }
{
    let away = away(position);
    if most < away {
        return away;
    }
    with_knots(position, table, away, most)
}

// The same where the cards that are not home are counted already, and no more than are asked about.
#[inline(always)]
fn with_knots(position: &Position, table: &ColumnTable, away: u8, most: u8) -> u8
    requires table { IsTableOf position.now.columns table.now }
    requires whole { IsPosition position.now }
    requires away { away ≡ count_by (is_away position.now) all_cards }
    requires within { away ≤ most }
    ensures lower { result ≤ knot_bound position.now }
    ensures exact { result ≤ most → result ≡ knot_bound position.now }
    ensures greatest { result ≤ GREATEST_BOUND }
{
    let mut left = Left::new(position, &table.rows, table.marks);
    away + knots_within(&mut left, most - away)
}

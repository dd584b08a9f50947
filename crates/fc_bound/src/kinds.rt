ghost use Rattle.std.specs.Prelude.{◌≡◌, ◌≢◌, ℕ, ◌≤◌, Some, IfSome, IsSome};
ghost use Rattle.fc_cards.specs.declared.places.Place.TheVariants.{Home};
ghost use Rattle.fc_position.specs.Board.{Board, playable};
ghost use Rattle.fc_position.specs.Position.{IsPosition};
ghost use Rattle.fc_moves.specs.GameRules.{GameRules};
ghost use Rattle.fc_moves.specs.Step.{Step};
ghost use Rattle.fc_bound.specs.declared.kinds.BoundKind.TheVariants.{Plain};
ghost use Rattle.fc_bound.specs.Kinds.{guide_of, low_of};
ghost use Rattle.fc_bound.specs.Rows.{IsTableOf};

use crate::bounds::{GREATEST_BOUND, bound};
use crate::clearing::clearing_bound;
use crate::fares::{bound_after, knots_after};
use crate::knots::{knot_bound, knot_bound_by, knot_bound_within};
use crate::waiting_rows::ColumnTable;
use fc_moves::Move;
use fc_position::Position;

/// The lower bound by which a search shows numbers and a table is closed.
#[derive(Clone, Copy, Debug, PartialEq, Eq, Default)]
pub enum BoundKind {
    /// The cards that are not home, and those that stand above a lower card of their own suit.
    #[default]
    Plain,
    /// The cards that are not home, and the least cost of taking all cards out of their columns.
    Clearing,
}

impl BoundKind {
    /// The guide, by which a table's rows are chosen, at most 104: the plain bound, or the knot bound, which is counted
    /// quickly, and is nowhere less than the plain bound and nowhere greater than the clearing bound.
    #[inline]
    pub fn guide(self, position: &Position) -> u8
        ensures value { result ≡ guide_of self position.now }
        ensures most { result ≤ GREATEST_BOUND }
        ensures whole { IsPosition position.now }
    {
        match self {
            BoundKind::Plain => bound(position),
            BoundKind::Clearing => knot_bound(position),
        }
    }

    /// The guide, counted no further than asked: the bound itself where that is at most
    /// `most`, else a number above `most` that is nowhere greater than the bound. At most 104.
    #[inline]
    pub fn guide_within(self, position: &Position, most: u8) -> u8
        ensures lower { result ≤ guide_of self position.now }
        ensures exact { result ≤ most → result ≡ guide_of self position.now }
        ensures greatest { result ≤ GREATEST_BOUND }
        ensures whole { IsPosition position.now }
    {
        match self {
            BoundKind::Plain => bound(position),
            BoundKind::Clearing => knot_bound_within(position, most),
        }
    }

    /// The same by the table of the position's columns.
    #[inline]
    pub fn guide_by(self, position: &Position, table: &ColumnTable, most: u8) -> u8
        requires table { IsTableOf position.now.columns table.now }
        ensures lower { result ≤ guide_of self position.now }
        ensures exact { result ≤ most → result ≡ guide_of self position.now }
        ensures greatest { result ≤ GREATEST_BOUND }
        ensures whole { IsPosition position.now }
    {
        match self {
            BoundKind::Plain => bound(position),
            BoundKind::Clearing => knot_bound_by(position, table, most),
        }
    }

    /// The guide of where a move leads that takes no card home, by that of where it is made,
    /// where that is plain to see: it isn't counted. By the plain bound it is for each card that may be taken.
    pub fn guide_after(self, position: &Position, m: Move, bound: u8) -> Option<u8>
        requires bound { bound ≡ guide_of self position.now }
        ensures value { IfSome result (λ after. (g : GameRules) (z : Board) → Step g position.now m z → m.to ≢ Home → after ≡ guide_of self z) }
        ensures plain { self ≡ Plain → (u : ℕ) → playable position.now m.from ≡ Some u → IsSome result }
        ensures whole { IsPosition position.now }
    {
        match self {
            BoundKind::Plain => bound_after(position, m, bound),
            BoundKind::Clearing => knots_after(position, m, bound),
        }
    }

    /// The bound by which a table of this kind is closed, at most 104: the plain bound, or the clearing bound.
    pub fn low(self, position: &Position) -> u8
        ensures value { result ≡ low_of self position.now }
        ensures most { result ≤ GREATEST_BOUND }
        ensures whole { IsPosition position.now }
    {
        match self {
            BoundKind::Plain => bound(position),
            BoundKind::Clearing => clearing_bound(position),
        }
    }
}

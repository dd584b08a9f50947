//! What is looked up of the columns of a record's position, once for all its steps.

ghost use Rattle.std.specs.Prelude.{◌≡◌, ◌≤◌};
ghost use Rattle.fc_position.specs.Board.{board_without};
ghost use Rattle.fc_position.specs.Position.{IsPosition};
ghost use Rattle.fc_bound.specs.Kinds.{guide_of};
ghost use Rattle.fc_checker.specs.inner.Lookups.{IsLookupOf};

use fc_bound::{BoundKind, ColumnTable, GREATEST_BOUND};
use fc_cards::Place;
use fc_position::Position;

// The table of a position's columns, where its guide is asked and counted by one.
#[derive(Drop)]
pub(crate) enum Lookup {
    Nothing,
    Table(ColumnTable),
}

impl Lookup {
    // Of a position whose guide is asked.
    #[inline]
    pub(crate) fn new(kind: BoundKind, position: &Position) -> Lookup
        ensures lookup { IsLookupOf position.now result }
    {
        match kind {
            BoundKind::Plain => Lookup::Nothing,
            BoundKind::Clearing => Lookup::Table(ColumnTable::new(position)),
        }
    }

    // Takes the playable card of a place out.
    #[inline]
    pub(crate) fn lift(&mut self, position: &Position, from: Place)
        requires lookup { IsLookupOf position.now self.old }
        ensures lookup { IsLookupOf (board_without position.now from) self.new }
    {
        match self {
            Lookup::Nothing => {}
            Lookup::Table(table) => table.lift(position, from),
        }
    }

    // Puts the playable card of a place back in.
    #[inline]
    pub(crate) fn put(&mut self, position: &Position, to: Place)
        requires lookup { IsLookupOf (board_without position.now to) self.old }
        ensures lookup { IsLookupOf position.now self.new }
    {
        match self {
            Lookup::Nothing => {}
            Lookup::Table(table) => table.put(position, to),
        }
    }

    // The guide of the position, counted no further than asked.
    #[inline]
    pub(crate) fn guide_within(&self, kind: BoundKind, position: &Position, most: u8) -> u8
        requires lookup { IsLookupOf position.now self.now }
        ensures lower { result ≤ guide_of kind position.now }
        ensures exact { result ≤ most → result ≡ guide_of kind position.now }
        ensures greatest { result ≤ GREATEST_BOUND }
        ensures whole { IsPosition position.now }
    {
        match self {
            Lookup::Nothing => kind.guide_within(position, most),
            Lookup::Table(table) => kind.guide_by(position, table, most),
        }
    }
}

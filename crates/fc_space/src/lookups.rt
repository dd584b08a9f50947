//! What is looked up of the columns of the positions of a walk, one after the other.

ghost use Rattle.std.specs.Prelude.{◌≡◌, true};
ghost use Rattle.fc_position.specs.Board.{Board};
ghost use Rattle.fc_bound.specs.Rows.{HaveMoved};
ghost use Rattle.fc_space.specs.inner.Lookups.{IsLookupOf};

use fc_bound::ColumnTable;
use fc_position::Position;

// The table of the columns of the position that was laid last, over that of the start's, from which these cards had moved, one bit
// for each; and whether the walk stands at that position.
#[derive(Drop)]
pub(crate) struct Lookup {
    pub(crate) start: ColumnTable,
    pub(crate) table: ColumnTable,
    pub(crate) moved: u64,
    pub(crate) is_laid: bool,
}

impl Lookup {
    // Of a position that is laid first, as if all cards had moved.
    pub(crate) fn new(start: &Position, position: &Position) -> Lookup
        ensures lookup { IsLookupOf start.now position.now result }
        ensures laid { result.is_laid ≡ true }
    {
        Lookup {
            start: ColumnTable::new(start),
            table: ColumnTable::new(position),
            moved: u64::MAX,
            is_laid: true,
        }
    }

    // Of the next position, where these cards have moved: it is laid where that is asked.
    #[inline]
    pub(crate) fn lay(&mut self, is_asked: bool, position: &Position, moved: u64)
        requires next { (s b : Board) × IsLookupOf s b self.old × HaveMoved s.columns position.now.columns moved }
        ensures lookup { (s b : Board) → IsLookupOf s b self.old → HaveMoved s.columns position.now.columns moved
            → IsLookupOf s position.now self.new }
        ensures laid { self.new.is_laid ≡ is_asked }
    {
        if is_asked {
            self.table
                .lay_over(&self.start, self.moved, position, moved);
            self.moved = moved;
        }
        self.is_laid = is_asked;
    }
}

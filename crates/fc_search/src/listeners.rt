//! How far searches are, each better list, and who hears it.

ghost use Rattle.std.specs.Prelude.{◌≡◌};

use fc_answers::MoveList;

/// How far a search is, or several together. Where memory stops a search, what is told last is of the search only by its budget, its
/// turns and `at_least`. Of several the counts of classes and of turns stop at the greatest number of their type.
#[derive(Clone, Copy, Debug, PartialEq, Eq)]
pub struct Progress {
    /// How many classes of positions are stored, or were by searches that have ended.
    pub classes: usize,
    /// How many may be.
    pub budget: u32,
    /// How many turns there were.
    pub turns: u64,
    /// How many entries are open in the search that is told.
    pub open: u128,
    /// The most that were in one search, whenever it was told.
    pub most_open: u128,
    /// How many moves the best list has that searches before this one found, if they found any. It never gets longer.
    pub shortest: Option<u32>,
    /// No list of fewer moves wins. It never falls.
    pub at_least: u32,
}

/// Who hears how far searches are, and each better list.
pub trait Listener {
    ghost use Rattle.std.specs.Prelude.{◌≤◌, All, length};
    ghost use Rattle.fc_moves.specs.MoveText.{HasText};
    ghost use Rattle.fc_answers.specs.declared.answers.TheConstants.{MOST_MOVES};
    ghost use Rattle.fc_search.specs.Watch.{Better, Far, Report};

    /// What hearing one or the other does to the listener.
    ghost hears: { Self → Report → Self → Type 0 };

    /// Hears once more how far they are.
    fn hear(&mut self, far: Progress)
        ensures heard { hears self.old (Far far) self.new };

    /// Hears the best list so far, and a number of moves that no list that wins is below: once one of several searches has ended by
    /// which the list or the number got better. One search alone tells none.
    fn hear_list(&mut self, moves: &MoveList, at_least: u32)
        requires texts { All HasText moves.now }
        requires few { length moves.now ≤ MOST_MOVES }
        ensures heard { hears self.old (Better moves.now at_least) self.new };
}

/// Nobody hears it.
#[derive(Clone, Copy, Debug, PartialEq, Eq)]
pub struct Unheard;

impl Listener for Unheard {
    ghost hears = { λ old _ new. new ≡ old };

    fn hear(&mut self, _far: Progress) {}

    fn hear_list(&mut self, _moves: &MoveList, _at_least: u32) {}
}

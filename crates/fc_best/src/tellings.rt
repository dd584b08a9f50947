//! Each better list is told of, once the search that made it so has ended.

ghost use Rattle.std.specs.Prelude.{◌≡◌, ◌≤◌, All, IfSome, IsTrue, length};
ghost use Rattle.fc_moves.specs.MoveText.{HasText};
ghost use Rattle.fc_answers.specs.declared.answers.TheConstants.{MOST_MOVES};
ghost use Rattle.fc_best.specs.inner.Watch.{HearsList};

use crate::standings::Standing;
use fc_search::{Listener, Progress};

impl Standing {
    // Tells of the best list with the floor, where there is one and either is better than what was told before.
    pub(crate) fn tell<L: Listener>(&self, before: Progress, listener: &mut L)
        requires written { IfSome self.now.list (λ moves. All HasText moves × (length moves ≤ MOST_MOVES)) }
        ensures told { HearsList L.hears before self.now listener.old listener.new }
    {
        if is_same(self.far, before) {
            return;
        }
        if let Some(list) = &self.list {
            listener.hear_list(list, self.far.at_least);
        }
    }
}

// Whether both tell of as long a list, or of none, and of the same floor.
fn is_same(one: Progress, other: Progress) -> bool
    ensures same { IsTrue result → (one.shortest ≡ other.shortest) × (one.at_least ≡ other.at_least) }
{
    one.shortest == other.shortest && one.at_least == other.at_least
}

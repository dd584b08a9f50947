//! How far the searches for a best answer are, taken together.

ghost use Rattle.fc_best.specs.inner.Watch.{IsAfter, IsFirst, IsJoined};

use fc_search::Progress;

// Before the first search.
pub(crate) fn first_progress(budget: u32) -> Progress
    ensures first { IsFirst budget result }
{
    Progress {
        classes: 0,
        budget,
        turns: 0,
        open: 0,
        most_open: 0,
        shortest: None,
        at_least: 0,
    }
}

// While a further search is as far as this. Its floor isn't told before it ends: what is open then may show less.
pub(crate) fn joined(before: Progress, far: Progress) -> Progress
    ensures joined { IsJoined before far result }
{
    Progress {
        classes: before.classes.saturating_add(far.classes),
        budget: before.budget,
        turns: before.turns.saturating_add(far.turns),
        open: far.open,
        most_open: before.most_open.max(far.most_open),
        shortest: before.shortest,
        at_least: before.at_least,
    }
}

// Once a search that told this last has shown so much, and the best list has so many moves.
pub(crate) fn progress_after(last: Progress, shown: Option<u32>, shortest: Option<u32>) -> Progress
    ensures after { IsAfter last shown shortest result }
{
    Progress {
        shortest,
        at_least: last.at_least.max(shown.unwrap_or(0)),
        ..last
    }
}

//! Which searches come before the last one.

use Purpose::{Look, Rescue, Shorten};

// What a stage is for.
#[derive(Clone, Copy)]
pub(crate) enum Purpose {
    // To show soon that none wins, or to find any list: by the plain bound, storing all children, which takes least time for a class.
    // Only where the last search left from so many to so many hundredths of its classes open.
    Look(u8, u8),
    // To find any list where none is found.
    Rescue,
    // To find a shorter list, where the best one has more than so many moves above the floor that is shown.
    Shorten(u8),
}

// The budgets from one up to, but not with, another.
#[derive(Clone, Copy)]
struct Budgets {
    from: u32,
    below: u32,
}

// Where two fifths of the budget aren't enough to store every class of the lost boards that are known.
const LITTLE: Budgets = Budgets {
    from: 0,
    below: 350_000,
};

const MIDDLE: Budgets = Budgets {
    from: 350_000,
    below: LEAST_LARGE,
};

const SMALL: Budgets = Budgets {
    from: 0,
    below: LEAST_LARGE,
};

const LARGE: Budgets = Budgets {
    from: LEAST_LARGE,
    below: LEAST_GREAT,
};

const GREAT: Budgets = Budgets {
    from: LEAST_GREAT,
    below: u32::MAX,
};

const ANY: Budgets = Budgets {
    from: 0,
    below: u32::MAX,
};

// The least budget that is for the last search, but for a few hundredths.
const LEAST_LARGE: u32 = 3_000_000;

// The least budget of which more can be spared, since a hundredth is enough for a search.
const LEAST_GREAT: u32 = 8_000_000;

// A stage before the last search.
#[derive(Clone, Copy)]
pub(crate) struct Stage {
    pub(crate) purpose: Purpose,
    // How many tenths as much as a cost its bound counts.
    pub(crate) weight_tenths: u8,
    // How many hundredths of the budget it may store at most.
    pub(crate) most: u8,
    // How many hundredths are kept for what comes after it.
    pub(crate) kept: u8,
    // How often it is searched at most: again while it finds a shorter list.
    pub(crate) times: u8,
    budgets: Budgets,
}

// A stage as a row of a table: what for, by how many tenths, how many hundredths at most and kept, how often, within which budgets.
#[derive(Clone, Copy)]
pub(crate) struct Row(Purpose, u8, u8, u8, u8, Budgets);

// How far above the floor of a short search by weight 1 a list is that is worth more than the last search's floor: with a hundred times
// as many classes a floor rises by 7 to 10 moves.
const FAR_ABOVE: u8 = 13;

// First a look. Within little, where it leaves few classes open, the board may be lost: so a longer one, the more so the fewer there are,
// and by a lower weight, which reaches all that can be reached in fewer turns. Then by weight 2; where no list is found by then, a look
// by 7 and a search by 4 with all that is left, since no one weight finds a list of every deal: each but the last keeps half of the
// budget for what follows, so a search that gives up has had half of it. Then shorter lists, as long as enough is left for the last
// search. A large budget is for that one, but for a few hundredths, by which weight 1.7 gives the shortest lists. Of a great one more can
// be spared: for a look, and for a short search by weight 1, which foretells the last one's floor; lists that are far above it are
// searched for again and again, each below the one before, as long as a small share is enough for that.
static STAGES: [Row; 17] = [
    Row(Look(0, 255), 30, 12, 51, 1, LITTLE),
    Row(Look(0, 255), 30, 4, 51, 1, MIDDLE),
    Row(Look(0, 255), 30, 1, 51, 1, GREAT),
    Row(Look(28, 44), 30, 18, 51, 1, LITTLE),
    Row(Look(28, 34), 30, 68, 0, 1, LITTLE),
    Row(Look(20, 27), 20, 70, 0, 1, LITTLE),
    Row(Look(0, 19), 10, 70, 0, 1, LITTLE),
    Row(Shorten(0), 20, 20, 51, 1, ANY),
    Row(Look(0, 255), 70, 15, 51, 1, ANY),
    Row(Rescue, 40, 100, 0, 1, ANY),
    Row(Shorten(0), 15, 100, 30, 1, SMALL),
    Row(Shorten(0), 13, 100, 40, 1, SMALL),
    Row(Shorten(0), 17, 100, 96, 20, LARGE),
    Row(Shorten(0), 10, 1, 40, 1, GREAT),
    Row(Shorten(FAR_ABOVE), 20, 1, 40, 20, GREAT),
    Row(Shorten(FAR_ABOVE), 17, 5, 40, 10, GREAT),
    Row(Shorten(10), 17, 2, 40, 10, GREAT),
];

// The stages, in turn.
pub(crate) fn stages() -> &'static [Row] {
    &STAGES
}

impl Row {
    // The stage that it tells.
    pub(crate) fn stage(self) -> Stage {
        let Row(purpose, weight_tenths, most, kept, times, budgets) = self;
        Stage {
            purpose,
            weight_tenths,
            most,
            kept,
            times,
            budgets,
        }
    }
}

impl Stage {
    // Whether it is one within this budget.
    pub(crate) fn is_within(self, budget: u32) -> bool {
        self.budgets.from <= budget && budget < self.budgets.below
    }
}

// How far above the floor the best list is at least that tails of it are searched for, within a budget.
pub(crate) fn tails_above(budget: u32) -> u8 {
    match budget {
        ..LEAST_LARGE => 0,
        LEAST_LARGE..LEAST_GREAT => u8::MAX,
        _ => FAR_ABOVE,
    }
}

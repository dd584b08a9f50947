//! Laws of the bounds, each the contract of a function that does nothing.

ghost use Rattle.fc_bound.specs.Laws.{TestsTellTheCards, StepsLowerTheBoundByOne, StepsMoveTheBoundByTheirCard, WinsNeedTheBound, ClassMatesHaveOneBound, BoundsAreSmall, ClearingCostIsLeast, ClassMatesHaveOneClearingBound, FreeCardsGoFirst, StepsLowerTheClearingBoundByOne, WinsNeedTheClearingBound, ClearingIsNoLess, KnotBoundIsNoGreater, KnotBoundIsNoLess, ClassMatesHaveOneKnotBound, OneOfTheTiedGoesFirst, TheBoundsAreLowerBounds, GuidesAreNoGreater, RingsCostOneEach, WinsNeedTheRings, RingsStay, RingsKeepFromHome, ShownIsNoGreater, ShownIsSmall, ClassMatesShowTheSame, HomeShowsOneLess, SettlingShowsOneLessEach};

/// The bound counts exactly the cards that are not home, and the cards that stand above a lower card of their own suit
/// in their column.
pub fn tests_tell_the_cards()
    ensures { TestsTellTheCards }
{}

/// A step from a position lowers the bound by one at most, in every game.
pub fn steps_lower_the_bound_by_one()
    ensures { StepsLowerTheBoundByOne }
{}

/// A step that takes no card home changes the bound only by whether its card is held back, before and after.
pub fn steps_move_the_bound_by_their_card()
    ensures { StepsMoveTheBoundByTheirCard }
{}

/// Every list of moves that wins from a position has at least as many moves as the bound says, in every game.
pub fn wins_need_the_bound()
    ensures { WinsNeedTheBound }
{}

/// Boards of one class have one bound.
pub fn class_mates_have_one_bound()
    ensures { ClassMatesHaveOneBound }
{}

/// The bound is at most 104, so a byte holds it.
pub fn bounds_are_small()
    ensures { BoundsAreSmall }
{}

/// No order of taking the cards out of their columns costs less than the clearing cost, and some order costs as much.
pub fn clearing_costs_are_least()
    ensures { ClearingCostIsLeast }
{}

/// Boards of one class have one clearing bound.
pub fn class_mates_have_one_clearing_bound()
    ensures { ClassMatesHaveOneClearingBound }
{}

/// A last card that waits for none may be taken first: without it the columns cost as much.
pub fn free_cards_go_first()
    ensures { FreeCardsGoFirst }
{}

/// A step from a position lowers the clearing bound by one at most, in every game.
pub fn steps_lower_the_clearing_bound_by_one()
    ensures { StepsLowerTheClearingBoundByOne }
{}

/// Every list of moves that wins from a position has at least as many moves as the clearing bound says, in every game.
pub fn wins_need_the_clearing_bound()
    ensures { WinsNeedTheClearingBound }
{}

/// The clearing bound of a board is nowhere less than its plain bound.
pub fn clearing_is_no_less()
    ensures { ClearingIsNoLess }
{}

/// The knot bound of a position is nowhere greater than its clearing bound.
pub fn knot_bound_is_no_greater()
    ensures { KnotBoundIsNoGreater }
{}

/// The knot bound of a board is nowhere less than its plain bound.
pub fn knot_bound_is_no_less()
    ensures { KnotBoundIsNoLess }
{}

/// Boards of one class have one knot bound.
pub fn class_mates_have_one_knot_bound()
    ensures { ClassMatesHaveOneKnotBound }
{}

/// Where the last card of each of some columns waits for a lower card in one of them, one of these last cards goes first
/// in a best order, at a cost of one.
pub fn one_of_the_tied_goes_first()
    ensures { OneOfTheTiedGoesFirst }
{}

/// The bounds of each kind are lower bounds: no list that wins is shorter, and boards of one class have the same.
pub fn the_bounds_are_lower_bounds()
    ensures { TheBoundsAreLowerBounds }
{}

/// Of a position the guide is nowhere greater than the bound that a table is closed by.
pub fn guides_are_no_greater()
    ensures { GuidesAreNoGreater }
{}

/// Rings without a card in common cost one each, at least.
pub fn rings_cost_one_each()
    ensures { RingsCostOneEach }
{}

/// A list that wins has a move for each card that is not home and each that is held back, and one more for each ring of
/// a family, in every game.
pub fn wins_need_the_rings()
    ensures { WinsNeedTheRings }
{}

/// A ring stays one where a card that isn't in it moves.
pub fn rings_stay()
    ensures { RingsStay }
{}

/// No card of a ring of a position is next to go home.
pub fn rings_keep_from_home()
    ensures { RingsKeepFromHome }
{}

/// What is shown of a position is no greater than the bound that a table is closed by.
pub fn shown_is_no_greater()
    ensures { ShownIsNoGreater }
{}

/// What is shown of a position is at most 104, so a byte holds it.
pub fn shown_is_small()
    ensures { ShownIsSmall }
{}

/// Of boards of one class the same is shown.
pub fn class_mates_show_the_same()
    ensures { ClassMatesShowTheSame }
{}

/// Where a card that was lifted goes home, one less is shown than without it, by the same note.
pub fn home_shows_one_less()
    ensures { HomeShowsOneLess }
{}

/// Once a position has settled, one less for each card that went home is shown by the same note.
pub fn settling_shows_one_less_each()
    ensures { SettlingShowsOneLessEach }
{}

//! Laws of closed tables, each the contract of a function that does nothing.

ghost use Rattle.fc_tables.specs.Laws.{GreaterBoundsCloseToo, ClosedBelowLeavesNoShorterList, ClosedLeavesNoList, ClosedByAnySettlingLeavesNoList, ClosedTablesNeedSettling, ClosedTablesNeedFitting, ClosedTablesNeedPositions, ClosedInsideLeavesNoShorterList, ClosedBelowIsClosedInside, OneBoardOfAClassIsEnough, OneBoardIsEnoughWithoutBound, ClosedBelowIsSeen, ClosedIsSeen, RowsInsideAreClosedBelow, ClosedInsideAllIsClosed, CostsOfClosedTablesAreFree, NoEmptyTableIsClosed};

/// A table that is closed below n by a bound is so by each bound that is nowhere less of a position.
pub fn greater_bounds_close_too()
    ensures { GreaterBoundsCloseToo }
{}

/// A table of classes and costs that is closed below n, from a position that fits the game, leaves no winning list
/// shorter than n, in every game and by every home rule.
pub fn closed_below_leaves_no_shorter_list()
    ensures { ClosedBelowLeavesNoShorterList }
{}

/// A closed table leaves no winning list at all, in every game and by every home rule.
pub fn closed_leaves_no_list()
    ensures { ClosedLeavesNoList }
{}

/// Nor does a table that is closed by any other way of settling, if every position of the game settles by it and nothing
/// is lost; the home rules are such ways.
pub fn closed_by_any_settling_leaves_no_list()
    ensures { ClosedByAnySettlingLeavesNoList }
{}

/// Where positions need not settle, a closed table proves nothing: in every game, by some way of settling that loses
/// nothing, some table is closed for a position from which a list wins.
pub fn closed_tables_need_settling()
    ensures { ClosedTablesNeedSettling }
{}

/// A closed table proves nothing of a position that doesn't fit the game: in each game with fewer than four cells in
/// which the king of spades may go to an empty column, and by each home rule, some table is closed for a position from
/// which a list wins.
pub fn closed_tables_need_fitting()
    ensures { ClosedTablesNeedFitting }
{}

/// Nor of a board on which a card has two places, even one that fits: in each game with a cell, and by each home rule,
/// some table is closed for such a board from which a list wins.
pub fn closed_tables_need_positions()
    ensures { ClosedTablesNeedPositions }
{}

/// A table that lists won classes, where their cost and their bound reach n, leaves no winning list shorter than n
/// either.
pub fn closed_inside_leaves_no_shorter_list()
    ensures { ClosedInsideLeavesNoShorterList }
{}

/// A table that is closed below n is closed inside n.
pub fn closed_below_is_closed_inside()
    ensures { ClosedBelowIsClosedInside }
{}

/// One position of a listed class is enough: of two positions of one class that fit the game, each class that the steps
/// of the one lead to is covered, looked at once, exactly where the steps of the other are covered.
pub fn one_board_of_a_class_is_enough()
    ensures { OneBoardOfAClassIsEnough }
{}

/// The same where the bound isn't looked at: the classes are listed exactly where the other's steps are.
pub fn one_board_is_enough_without_bound()
    ensures { OneBoardIsEnoughWithoutBound }
{}

/// A table is closed below n exactly where a look at its listed boards alone, by one step to each class, shows it, if a
/// listed board fits the game wherever a position of its class does.
pub fn closed_below_is_seen()
    ensures { ClosedBelowIsSeen }
{}

/// A table is closed exactly where a look at its listed boards alone, by one step to each class, shows it, if a listed
/// board fits the game wherever a position of its class does.
pub fn closed_is_seen()
    ensures { ClosedIsSeen }
{}

/// Of a table that is closed inside n, the classes whose cost and bound are below n are a table closed below n.
pub fn rows_inside_are_closed_below()
    ensures { RowsInsideAreClosedBelow }
{}

/// A table that is closed inside every number is closed.
pub fn closed_inside_all_is_closed()
    ensures { ClosedInsideAllIsClosed }
{}

/// A table with the boards of a closed one is closed, whatever its costs are.
pub fn costs_of_closed_tables_are_free()
    ensures { CostsOfClosedTablesAreFree }
{}

/// No empty table is closed, for any board, since every board settles.
pub fn no_empty_table_is_closed()
    ensures { NoEmptyTableIsClosed }
{}

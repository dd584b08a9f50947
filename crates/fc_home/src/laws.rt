//! Laws of the definitions, each the contract of a function that does nothing.

ghost use Rattle.fc_home.specs.Laws.{CardsAreFreeByOthers, ClassMatesSettleAlike, EveryBoardSettles, ForcedCardsAreFree, GoersStay, NumbersAreTold, PositionsSettleInOneWay, SettledBoardsStay, SettlingIsARun, SettlingKeepsPositions, SettlingLosesNothing, SettlingMovesAreOne};

/// By the rules of a game, a card is free exactly where it is next and each card that may stand on it is home or free.
pub fn cards_are_free_by_others()
    ensures { CardsAreFreeByOthers }
{}

/// A forced card is free.
pub fn forced_cards_are_free()
    ensures { ForcedCardsAreFree }
{}

/// A card that goes home by a rule still does so once another next card is home.
pub fn goers_stay()
    ensures { GoersStay }
{}

/// The moves by which a board settles are steps, one by one, each allowed by the rules.
pub fn settling_is_a_run()
    ensures { SettlingIsARun }
{}

/// A position that fits the game settles to one that fits it.
pub fn settling_keeps_positions()
    ensures { SettlingKeepsPositions }
{}

/// What is settled settles by no move.
pub fn settled_boards_stay()
    ensures { SettledBoardsStay }
{}

/// Every board settles by every home rule, in every game, whether or not each card has one place.
pub fn every_board_settles()
    ensures { EveryBoardSettles }
{}

/// A position settles by a rule in one number of moves and to one board.
pub fn positions_settle_in_one_way()
    ensures { PositionsSettleInOneWay }
{}

/// A position settles by a rule by one list of moves.
pub fn settling_moves_are_one()
    ensures { SettlingMovesAreOne }
{}

/// Boards of one class settle in equally many moves to boards of one class.
pub fn class_mates_settle_alike()
    ensures { ClassMatesSettleAlike }
{}

/// Settling loses nothing: a list of at most so many moves wins from a position exactly where the settling moves are no
/// more, and a list of at most the others wins from the settled position.
pub fn settling_loses_nothing()
    ensures { SettlingLosesNothing }
{}

/// The home rules are 0, 1 and 2.
pub fn numbers_are_told()
    ensures { NumbersAreTold }
{}

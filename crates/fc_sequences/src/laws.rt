//! Laws of entries, each the contract of a function that does nothing.

ghost use Rattle.fc_sequences.specs.Laws.{GatheredExpandAlways, GatheredExpandToNoMore, GatheredLeadToOneBoard, GatheredToOneList, NumbersAreTold, TextsTellEntriesApart};

/// Entries to which moves are gathered lead to the board to which the moves run, and to no other.
pub fn gathered_lead_to_one_board()
    ensures { GatheredLeadToOneBoard }
{}

/// Entries to which moves are gathered expand to no more moves than those, which lead to the same board.
pub fn gathered_expand_to_no_more()
    ensures { GatheredExpandToNoMore }
{}

/// Nothing but want of memory keeps entries to which moves are gathered from being expanded.
pub fn gathered_expand_always()
    ensures { GatheredExpandAlways }
{}

/// From a position that fits the game a list of moves is gathered to one list of entries.
pub fn gathered_to_one_list()
    ensures { GatheredToOneList }
{}

/// A text is of one entry.
pub fn texts_tell_entries_apart()
    ensures { TextsTellEntriesApart }
{}

/// The entries of a list up to one lead to at most 1,000 boards, and at most 64 moves are gathered to one entry.
pub fn numbers_are_told()
    ensures { NumbersAreTold }
{}

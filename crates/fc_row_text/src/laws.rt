//! Laws of the definitions, each the contract of a function that does nothing.

ghost use Rattle.fc_row_text.specs.Laws.{DrawingsAreBoards, DrawingsAreTidy, DrawingsReadBack, EntriesAreColumns};

/// Where the text in columns spells a position, the entries of the rows for a column, the deepest first, spell its cards.
pub fn entries_are_columns()
    ensures { EntriesAreColumns }
{}

/// The drawing of a position in a game with at most four cells, without colours, has no fault, and its text in columns is the
/// one that `print_board` prints.
pub fn drawings_are_boards()
    ensures { DrawingsAreBoards }
{}

/// The drawing of a position in a game with at most four cells, without colours, is tidy already.
pub fn drawings_are_tidy()
    ensures { DrawingsAreTidy }
{}

/// The reader reads the position back from its drawing, made tidy and put into columns.
pub fn drawings_read_back()
    ensures { DrawingsReadBack }
{}

//! The numbers that tell what an answer is, and how a call ended. `lib/luffaknife.h` names the same ones.

/// No answer and no claim is told.
pub const KIND_NONE: u32 = 0;
/// A shortest list.
pub const KIND_SHORTEST: u32 = 1;
/// A list that wins, and a number that each such list has at least.
pub const KIND_WON: u32 = 2;
/// That no list wins.
pub const KIND_CANNOT_WIN: u32 = 3;
/// That the search gave up.
pub const KIND_GAVE_UP: u32 = 4;

/// A list that wins was told, a certificate was accepted, a list was played to a won board, or a deal was told.
pub const DONE: u32 = 0;
/// No list wins.
pub const CANNOT_WIN: u32 = 1;
/// The search gave up within its budget.
pub const GAVE_UP: u32 = 2;
/// A list was played to its end, and not all cards are home there.
pub const NOT_WON: u32 = 3;

/// No game has this name.
pub const BAD_GAME: u32 = 16;
/// No deal has this number.
pub const BAD_DEAL: u32 = 17;
/// The budget is outside 1 to 16,000,000, or of one search 4,000,000.
pub const BAD_BUDGET: u32 = 18;
/// A growth of memory was refused.
pub const NO_MEMORY: u32 = 19;
/// What was to be handed over has more bytes than its room.
pub const NO_ROOM: u32 = 20;
/// A list has more than 1,048,576 bytes, or a certificate more than 1 GiB.
pub const TOO_LONG: u32 = 21;
/// The token of this step is no move.
pub const NOT_A_MOVE: u32 = 22;
/// The move of this step isn't allowed.
pub const NOT_ALLOWED: u32 = 23;
/// The entries of a list up to this step lead to more than 1,000 boards.
pub const TOO_MANY_WAYS: u32 = 24;
/// No home rule has this number.
pub const BAD_RULE: u32 = 25;
/// No kind of bound has this number.
pub const BAD_BOUND: u32 = 26;
/// So many tenths are no weight.
pub const BAD_WEIGHT: u32 = 27;
/// No expansion has this number.
pub const BAD_EXPANSION: u32 = 28;

/// The board's text is too long.
pub const BOARD_TOO_LONG: u32 = 32;
/// A token of this line's column or cells is no card.
pub const NOT_A_CARD: u32 = 33;
/// A token of this line is no foundation, or tells of a suit again.
pub const NOT_A_FOUNDATION: u32 = 34;
/// This line has more tokens than the game has cells.
pub const TOO_MANY_CELLS: u32 = 35;
/// This line has cards, and eight column lines stand before it.
pub const TOO_MANY_COLUMNS: u32 = 36;
/// This line tells of the foundations, or of the cells, again.
pub const REPEATED_LINE: u32 = 37;
/// This card has two places or more.
pub const REPEATED_CARD: u32 = 38;
/// This card has no place.
pub const MISSING_CARD: u32 = 39;

/// A certificate ends too soon.
pub const CERT_SHORT: u32 = 48;
/// It doesn't begin as one.
pub const CERT_BAD_MAGIC: u32 = 49;
/// Its number of cells is none.
pub const CERT_BAD_CELLS: u32 = 50;
/// Its home rule is none.
pub const CERT_BAD_RULE: u32 = 51;
/// Its bound is none.
pub const CERT_BAD_BOUND: u32 = 52;
/// Its kind is none.
pub const CERT_BAD_KIND: u32 = 53;
/// Its floor is above its number of moves.
pub const CERT_BAD_FLOOR: u32 = 54;
/// This move is none; moves count from 1.
pub const CERT_BAD_MOVE: u32 = 55;
/// This record's key is none; records count from 0.
pub const CERT_BAD_RECORD: u32 = 56;
/// This record's key isn't above the one before.
pub const CERT_ORDER: u32 = 57;
/// This record's cost isn't 0, where no list wins.
pub const CERT_LABEL: u32 = 58;
/// Something stands behind its end.
pub const CERT_TRAILING: u32 = 59;
/// It is of another game.
pub const CERT_OTHER_GAME: u32 = 60;
/// This move of it isn't allowed.
pub const CERT_NOT_ALLOWED: u32 = 61;
/// Its moves don't bring all cards home.
pub const CERT_NOT_HOME: u32 = 62;
/// The start isn't covered, or not listed.
pub const CERT_START_OPEN: u32 = 63;
/// The class of this record is won.
pub const CERT_WON_LISTED: u32 = 64;
/// From the class of this record a move leads to one that isn't covered, or not listed.
pub const CERT_OPEN: u32 = 65;

//! What the tests share: boards.

/// Every card is home.
pub const ALL_HOME: &str = "Foundations: H-K C-K D-K S-K\n";

/// The king of spades is left, in the first cell.
pub const ONE_KING: &str = "\
    Foundations: H-K C-K D-K S-Q\n\
    Freecells: KS\n";

/// The queen of spades lies under her king.
pub const QUEEN_UNDER_KING: &str = "\
    Foundations: H-K C-K D-K S-J\n\
    QS KS\n";

/// The jack of spades lies under his queen, and the king beside them.
pub const THREE_SPADES: &str = "\
    Foundations: H-K C-K D-K S-T\n\
    JS QS\n\
    KS\n";

/// Three spades are left, each alone.
pub const LONE_SPADES: &str = "\
    Foundations: H-K C-K D-K S-T\n\
    QS\n\
    JS\n\
    KS\n";

/// Two kings lie on two queens of other suits.
pub const TWO_KINGS: &str = "\
    Foundations: H-J C-K D-K S-J\n\
    QS KH\n\
    QH KS\n";

/// The same after `1a`, and after `1h` then, as a replay writes them.
pub const TWO_BOARDS: &[u8] = b"\
    Foundations: H-J C-K D-K S-J\n\
    Freecells: KH - - -\n\
    : QS\n\
    : QH KS\n\
    :\n\
    :\n\
    :\n\
    :\n\
    :\n\
    :\n\
    Foundations: H-J C-K D-K S-Q\n\
    Freecells: KH - - -\n\
    :\n\
    : QH KS\n\
    :\n\
    :\n\
    :\n\
    :\n\
    :\n\
    :\n";

/// A queen lies under the king of her suit, and two kings beside them.
pub const THREE_KINGS: &str = "\
    Foundations: H-Q C-K D-Q S-J\n\
    QS KS\n\
    KD KH\n";

/// The queen of hearts lies under the king of spades, whose queen is home; her own king stands in a cell.
pub const FREE_KING: &str = "\
    Foundations: H-J C-K D-K S-Q\n\
    Freecells: KH\n\
    QH KS\n";

/// Cards in the first cell and the third, and two columns behind an empty one.
pub const WITH_CELLS: &str = "\
    Foundations: H-J C-K D-K S-T\n\
    Freecells: JS - KS\n\
    :\n\
    QH\n\
    KH QS\n";

/// Four kings fill the cells, and no last card may stand on another or go home.
pub const LOCKED: &str = "\
    Foundations: H-7 C-7 D-7 S-7\n\
    Freecells: KC KD KH KS\n\
    8C 9C\n\
    8D 9D\n\
    8H 9H\n\
    8S 9S\n\
    TC QC JC\n\
    TD QD JD\n\
    TH QH JH\n\
    TS QS JS\n";

/// Full cells, from which a list of thirty moves leads home. The nine of spades is next; the red eights, which could
/// stand on it, are not home.
pub const THIRTY_MOVES: &str = "\
    Foundations: H-6 C-7 D-7 S-8\n\
    Freecells: 9C KC KD KH\n\
    9H 9S\n\
    7H 8H\n\
    8D 9D\n\
    8C JC\n\
    QH TH JH\n\
    QS TS JS\n\
    QD TD JD\n\
    QC TC KS\n";

/// All cards in one column, the king of spades deepest and the ace of clubs last: each goes home after the other.
pub const ONE_COLUMN: &str = "\
    KS KH KD KC QS QH QD QC JS JH JD JC TS \
    TH TD TC 9S 9H 9D 9C 8S 8H 8D 8C 7S 7H \
    7D 7C 6S 6H 6D 6C 5S 5H 5D 5C 4S 4H 4D \
    4C 3S 3H 3D 3C 2S 2H 2D 2C AS AH AD AC\n";

/// Nothing goes home or on a column: a class says how many of the last cards of each column stand in cells, at most four
/// together, which makes 495 classes.
pub const CLASSES_495: &str = "\
    AC QC 3C 5C 4C 2C KC\n\
    TC 8C 7C 6C 9C JC\n\
    AD QD 3D 5D 4D 2D KD\n\
    TD 8D 7D 6D 9D JD\n\
    AH QH 3H 5H 4H 2H KH\n\
    TH 8H 7H 6H 9H JH\n\
    AS QS 3S 5S 4S 2S KS\n\
    TS 8S 7S 6S 9S JS\n";

/// The first of the numbered deals.
pub const DEAL_ONE: &str = "\
    JD KD 2S 4C 3S 6D 6S\n\
    2D KC KS 5C TD 8S 9C\n\
    9H 9S 9D TS 4S 8D 2H\n\
    JC 5S QD QH TH QS 6H\n\
    5D AD JS 4H 8H 6C\n\
    7H QC AS AC 2C 3D\n\
    7C KH AH 4D JH 8C\n\
    5H 3H 3C 7S 7D TC\n";

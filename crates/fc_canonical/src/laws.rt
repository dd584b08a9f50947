//! Laws of the definitions, each the contract of a function that does nothing.

ghost use Rattle.fc_canonical.specs.Laws.{ClassesHaveOneCanonicalBoard, KeysTellClasses, BytesBeginWithOneKey, KeysHaveExtents, ExtentsAreOne, FrontsHaveTheirExtent, KeysAreShort, PositionsHaveKeys, KeysSpellPositions, KeysBeginThemselves, FrontKeysSpellTheirBoard, CanonicalBoardsFit, CanonicalBoardsFitByCount, KeysOfGamesByCells};

/// A position's class has one canonical board.
pub fn classes_have_one_canonical_board()
    ensures { ClassesHaveOneCanonicalBoard }
{}

/// Two keys are the same exactly where they are of positions of one class.
pub fn keys_tell_classes()
    ensures { KeysTellClasses }
{}

/// No bytes begin with two keys, whatever follows.
pub fn bytes_begin_with_one_key()
    ensures { BytesBeginWithOneKey }
{}

/// Where bytes begin with a key, the extent by the length bytes is the key's.
pub fn keys_have_extents()
    ensures { KeysHaveExtents }
{}

/// Every position has a key.
pub fn positions_have_keys()
    ensures { PositionsHaveKeys }
{}

/// The key of a position that fits the game spells the canonical position of its class, which fits the game.
pub fn keys_spell_positions()
    ensures { KeysSpellPositions }
{}

/// A canonical board fits the game wherever any position of its class does.
pub fn canonical_boards_fit()
    ensures { CanonicalBoardsFit }
{}

/// A canonical position has no card in its cells from the n-th on exactly where at most n of its cells are full.
pub fn canonical_boards_fit_by_count()
    ensures { CanonicalBoardsFitByCount }
{}

/// The extent of a key by its length bytes is one, whatever the other bytes are.
pub fn extents_are_one()
    ensures { ExtentsAreOne }
{}

/// A front of bytes that have an extent has that one where it is long enough to hold it, and else none.
pub fn fronts_have_their_extent()
    ensures { FrontsHaveTheirExtent }
{}

/// A key has at most 68 bytes.
pub fn keys_are_short()
    ensures { KeysAreShort }
{}

/// A key of the game stands at its own front, as the key of the position that it spells.
pub fn keys_begin_themselves()
    ensures { KeysBeginThemselves }
{}

/// Bytes that begin with the key of a position spell that position, whatever follows.
pub fn front_keys_spell_their_board()
    ensures { FrontKeysSpellTheirBoard }
{}

/// Bytes are a key of a game exactly where they are one of whose cells at most as many as the game has hold a card.
pub fn keys_of_games_by_cells()
    ensures { KeysOfGamesByCells }
{}

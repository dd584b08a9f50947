ghost use Rattle.std.specs.Prelude.{◌≡◌, ◌≤◌, IfSome, length, map};
ghost use Rattle.std.specs.Option.{option_copied};
ghost use Rattle.fc_text.specs.Line.{after_name, begins_with};

// The names that a foundation line begins with, to the reader.
pub(crate) const FOUNDATION_NAMES: [&[u8]; 6] = [
    b"Foundations:",
    b"Foundation:",
    b"Founds:",
    b"Found:",
    b"Decks:",
    b"Deck:",
];

// The names that a cell line begins with, to the reader.
pub(crate) const CELL_NAMES: [&[u8]; 3] = [b"Freecells:", b"Freecell:", b"FC:"];

// Further names of a cell line.
pub(crate) const MORE_CELL_NAMES: [&[u8]; 5] = [
    b"Cells:",
    b"Cell:",
    b"Free cells:",
    b"Free cell:",
    b"Free:",
];

// Further names of a foundation line.
pub(crate) const MORE_HOME_NAMES: [&[u8]; 2] = [b"Homes:", b"Home:"];

/// What follows the first of the names that the piece begins with.
pub(crate) fn after_name<'a>(names: &[&[u8]], piece: &'a [u8]) -> Option<&'a [u8]>
    ensures value { option_copied result ≡ after_name (map (λ name. name.now) names.now) piece.now }
    ensures within { IfSome result (λ rest. length rest.now ≤ length piece.now) }
{
    for name in names {
        if begins_with(piece, name) {
            return Some(&piece[name.len()..]);
        }
    }
    None
}

// Whether the piece begins with the name, in either case.
fn begins_with(piece: &[u8], name: &[u8]) -> bool
    ensures { result ≡ begins_with piece.now name.now }
{
    let count = piece.len().min(name.len());
    piece[..count].eq_ignore_ascii_case(name)
}

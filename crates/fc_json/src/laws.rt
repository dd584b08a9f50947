//! Laws of the definitions, each the contract of a function that does nothing.

ghost use Rattle.fc_json.specs.Laws.{ObjectsAreLines};

/// The object of a board or of a list is one line, whatever texts and numbers it tells.
pub fn objects_are_lines()
    ensures { ObjectsAreLines }
{}

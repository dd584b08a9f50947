ghost use Rattle.std.specs.Prelude.{◌≡◌, IfSome, IfNone};
ghost use Rattle.fc_best_first.specs.declared.strategies.Expansion.{Expansion};
ghost use Rattle.fc_words.specs.Names.{expansion_name, usual_expansion};

use crate::name_places::place_of;
use fc_methods::{BoundKind, Expansion};

/// Each expansion's name, in the order of the expansions.
pub(crate) const EXPANSION_NAMES: [&str; 2] = ["full", "partial"];

// The expansions.
const EXPANSIONS: [Expansion; 2] = [Expansion::Full, Expansion::Partial];

/// The name of an expansion.
pub fn expansion_name(expansion: Expansion) -> &'static str
    ensures value { result.now ≡ expansion_name expansion }
{
    EXPANSION_NAMES[expansion as usize]
}

/// The expansion of this name; `None` where it is none's.
pub fn expansion_of_name(name: &str) -> Option<Expansion>
    ensures named { IfSome result (λ expansion. expansion_name expansion ≡ name.now) }
    ensures unknown { IfNone result ((expansion : Expansion) → expansion_name expansion ≡ name.now → ⊥) }
{
    let place = place_of(EXPANSION_NAMES.as_slice(), name)?;
    EXPANSIONS.get(place).copied()
}

/// The expansion of a search by a bound where none is told: full by the plain bound, by which a class costs less to store than
/// to expand twice, and partial by the clearing bound, by which it costs more.
pub fn usual_expansion(bound: BoundKind) -> Expansion
    ensures value { result ≡ usual_expansion bound }
{
    match bound {
        BoundKind::Plain => Expansion::Full,
        BoundKind::Clearing => Expansion::Partial,
    }
}

ghost use Rattle.std.specs.Prelude.{◌≡◌, IfSome, IfNone};
ghost use Rattle.fc_bound.specs.declared.kinds.BoundKind.{BoundKind};
ghost use Rattle.fc_words.specs.Names.{bound_name};

use crate::name_places::place_of;
use fc_methods::BoundKind;

/// Each bound's name, in the order of the bounds; the first is meant where none is told.
pub(crate) const BOUND_NAMES: [&str; 2] = ["plain", "clearing"];

// The bounds.
const BOUNDS: [BoundKind; 2] = [BoundKind::Plain, BoundKind::Clearing];

/// The name of a bound.
pub fn bound_name(bound: BoundKind) -> &'static str
    ensures value { result.now ≡ bound_name bound }
{
    BOUND_NAMES[bound as usize]
}

/// The bound of this name; `None` where it is none's.
pub fn bound_of_name(name: &str) -> Option<BoundKind>
    ensures named { IfSome result (λ bound. bound_name bound ≡ name.now) }
    ensures unknown { IfNone result ((bound : BoundKind) → bound_name bound ≡ name.now → ⊥) }
{
    let place = place_of(BOUND_NAMES.as_slice(), name)?;
    BOUNDS.get(place).copied()
}

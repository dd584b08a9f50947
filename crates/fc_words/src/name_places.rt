ghost use Rattle.std.specs.Prelude.{◌≡◌, ◌<◌, ℕ, IfSome, IfNone, Some, option_map, slice_get};

/// The first place of a name among the names of a table; `None` where it is none of them.
pub(crate) fn place_of(names: &[&str], name: &str) -> Option<usize>
    ensures place { IfSome result (λ i. option_map (λ s. s.now) (slice_get names.now i) ≡ Some name.now) }
    ensures first { IfSome result (λ i. (k : ℕ) → k < i → option_map (λ s. s.now) (slice_get names.now k) ≡ Some name.now → ⊥) }
    ensures unknown { IfNone result ((i : ℕ) → option_map (λ s. s.now) (slice_get names.now i) ≡ Some name.now → ⊥) }
{
    for (i, known) in names.iter().enumerate() {
        if *known == name {
            return Some(i);
        }
    }
    None
}

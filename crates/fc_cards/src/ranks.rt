ghost use Rattle.std.specs.Prelude.{◌≡◌, ℕ, ◌<◌, ◌≤◌, IfSome, IfNone};
ghost use Rattle.fc_cards.specs.Texts.{rank_letter, IsRank, IsRankText};

/// The letter of a rank from 1, the ace, to 13, the king: one of `A23456789TJQK`.
pub fn rank_letter(rank: u8) -> u8
    requires { IsRank rank }
    ensures value { result ≡ rank_letter rank }
    ensures ascii { result < 128 }
{
    match rank {
        1 => b'A',
        2..=9 => b'0' + rank,
        10 => b'T',
        11 => b'J',
        12 => b'Q',
        _ => b'K',
    }
}

/// The rank that a text spells, 1 to 13: a rank's letter in either case, or `10`; `None` at any other text.
pub fn read_rank(text: &[u8]) -> Option<u8>
    ensures read { IfSome result (λ rank. IsRank rank × IsRankText rank text.now) }
    ensures refused { IfNone result ((rank : ℕ) → IsRank rank → IsRankText rank text.now → ⊥) }
{
    match text {
        [letter] => rank_of_letter(letter.to_ascii_uppercase()),
        b"10" => Some(10),
        _ => None,
    }
}

// The rank with this letter.
fn rank_of_letter(letter: u8) -> Option<u8>
    ensures read { IfSome result (λ rank. IsRank rank × (rank_letter rank ≡ letter)) }
    ensures refused { IfNone result ((rank : ℕ) → IsRank rank → rank_letter rank ≡ letter → ⊥) }
{
    match letter {
        b'A' => Some(1),
        b'2'..=b'9' => Some(letter - b'0'),
        b'T' => Some(10),
        b'J' => Some(11),
        b'Q' => Some(12),
        b'K' => Some(13),
        _ => None,
    }
}

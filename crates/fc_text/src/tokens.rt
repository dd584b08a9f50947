ghost use Rattle.std.specs.Prelude.{◌≡◌, ℕ, ◌≤◌, IfSome, IfNone};
ghost use Rattle.fc_cards.specs.Suit.{suit_index};
ghost use Rattle.fc_text.specs.Fault.{IsNoCard, IsNoHome};
ghost use Rattle.fc_text.specs.Spelling.{SpellsCard, SpellsCell, SpellsCount, SpellsHome, IsMark};

use fc_cards::{Card, Suit, read_rank};

// The card that a token spells.
pub(crate) fn read_card(token: &[u8]) -> Option<Card>
    ensures read { IfSome result (SpellsCard token.now) }
    ensures refused { IfNone result (IsNoCard token.now) }
{
    Card::read(token)
}

// What a token says that a cell holds.
pub(crate) fn read_cell(token: &[u8]) -> Option<Option<Card>>
    ensures read { IfSome result (SpellsCell token.now) }
    ensures bad { IfNone result (IsNoCard token.now) }
    ensures full { IfNone result (IsMark token.now → ⊥) }
{
    match token {
        b"-" | b"*" => Some(None),
        _ => Some(Some(read_card(token)?)),
    }
}

// How many cards of which suit a token says are home.
pub(crate) fn read_home(token: &[u8]) -> Option<(Suit, u8)>
    ensures read { IfSome result (λ home. SpellsHome token.now (suit_index home.0) home.1) }
    ensures most { IfSome result (λ home. home.1 ≤ 13) }
    ensures refused { IfNone result (IsNoHome token.now) }
{
    let [suit, dash, rank @ ..] = token else {
        return None;
    };
    if *dash != b'-' {
        return None;
    }
    Some((Suit::read(*suit)?, read_count(rank)?))
}

// How many cards are home of a suit with this rank on its foundation: 0 or a rank.
fn read_count(text: &[u8]) -> Option<u8>
    ensures read { IfSome result (SpellsCount text.now) }
    ensures most { IfSome result (λ count. count ≤ 13) }
    ensures refused { IfNone result ((count : ℕ) → SpellsCount text.now count → ⊥) }
{
    if text == b"0".as_slice() {
        return Some(0);
    }
    read_rank(text)
}

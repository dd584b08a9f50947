ghost use Rattle.std.specs.Prelude.{◌≡◌, ◌+◌, ◌*◌, ◌≤◌, ◌++◌, length, IfSome, IfNone, Some, None};
ghost use Rattle.std.specs.Option.{option_or};
ghost use Rattle.fc_typed.specs.Respelled.{colon_dash, is_rank, is_rank_letter, is_suit, rank_first, respelled_card, respelled_home, suit_first};
ghost use Rattle.fc_typed.specs.inner.Respelled.{respelled_token};

use crate::labels::push_all;
use crate::tidy_texts::ROOM;
use arrayvec::ArrayVec;

/// What the tokens of a line tell.
#[derive(Clone, Copy, Debug)]
pub(crate) enum Telling {
    /// Cards, those of a column or of the cells.
    Cards,
    /// The last card of each foundation.
    Homes,
}

/// Pushes a token as the reader spells it.
pub(crate) fn push_token(tidy: &mut ArrayVec<u8, ROOM>, token: &[u8], telling: Telling)
    requires room { 2 * length tidy.old.items + 3 * length token.now ≤ 2 * ROOM }
    ensures pushed { tidy.new.items ≡ tidy.old.items ++ respelled_token telling token.now }
    ensures within { 2 * length tidy.new.items ≤ 2 * length tidy.old.items + 3 * length token.now }
{
    match telling {
        Telling::Cards => push_card(tidy, token),
        Telling::Homes => push_home(tidy, token),
    }
}

// Pushes a token of a column or a cell, rank first.
fn push_card(tidy: &mut ArrayVec<u8, ROOM>, token: &[u8])
    requires room { 2 * length tidy.old.items + 3 * length token.now ≤ 2 * ROOM }
    ensures pushed { tidy.new.items ≡ tidy.old.items ++ respelled_card token.now }
    ensures within { 2 * length tidy.new.items ≤ 2 * length tidy.old.items + 3 * length token.now }
{
    match suit_first(token) {
        Some((suit, rank)) => {
            push_all(tidy, rank);
            tidy.push(suit);
        }
        None => push_all(tidy, token),
    }
}

// Pushes a token of a foundation line, as suit, dash and rank where it is a card.
fn push_home(tidy: &mut ArrayVec<u8, ROOM>, token: &[u8])
    requires room { 2 * length tidy.old.items + 3 * length token.now ≤ 2 * ROOM }
    ensures pushed { tidy.new.items ≡ tidy.old.items ++ respelled_home token.now }
    ensures within { 2 * length tidy.new.items ≤ 2 * length tidy.old.items + 3 * length token.now }
{
    match card_parts(token) {
        Some((suit, rank)) => {
            push_all(tidy, &[suit, b'-']);
            push_all(tidy, rank);
        }
        None => push_dashed(tidy, token),
    }
}

// Pushes a token with a dash for the colon that stands behind a suit's letter.
fn push_dashed(tidy: &mut ArrayVec<u8, ROOM>, token: &[u8])
    requires room { length tidy.old.items + length token.now ≤ ROOM }
    ensures pushed { tidy.new.items ≡ tidy.old.items ++ colon_dash token.now }
    ensures within { length tidy.new.items ≡ length tidy.old.items + length token.now }
{
    match token {
        [suit, b':', rank @ ..] if is_suit(*suit) => {
            push_all(tidy, &[*suit, b'-']);
            push_all(tidy, rank);
        }
        _ => push_all(tidy, token),
    }
}

/// The suit and the rank of a card that is told in either order.
pub(crate) fn card_parts(token: &[u8]) -> Option<(u8, &[u8])>
    ensures some { IfSome result (λ card. option_or (suit_first token.now) (rank_first token.now) ≡ Some (card.0, card.1.now)) }
    ensures size { IfSome result (λ card. (length token.now ≡ 1 + length card.1.now) × (1 ≤ length card.1.now)) }
    ensures none { IfNone result (option_or (suit_first token.now) (rank_first token.now) ≡ None) }
{
    match suit_first(token) {
        Some(card) => Some(card),
        None => rank_first(token),
    }
}

// The suit and the rank of a card that is told by its suit first.
fn suit_first(token: &[u8]) -> Option<(u8, &[u8])>
    ensures some { IfSome result (λ card. suit_first token.now ≡ Some (card.0, card.1.now)) }
    ensures size { IfSome result (λ card. (length token.now ≡ 1 + length card.1.now) × (1 ≤ length card.1.now)) }
    ensures none { IfNone result (suit_first token.now ≡ None) }
{
    match token {
        [suit, rank @ ..] if is_suit(*suit) && is_rank(rank) => Some((*suit, rank)),
        _ => None,
    }
}

// The suit and the rank of a card that is told by its rank first.
fn rank_first(token: &[u8]) -> Option<(u8, &[u8])>
    ensures some { IfSome result (λ card. rank_first token.now ≡ Some (card.0, card.1.now)) }
    ensures size { IfSome result (λ card. (length token.now ≡ 1 + length card.1.now) × (1 ≤ length card.1.now)) }
    ensures none { IfNone result (rank_first token.now ≡ None) }
{
    match token {
        [rank @ .., suit] if is_suit(*suit) && is_rank(rank) => Some((*suit, rank)),
        _ => None,
    }
}

// Whether a byte is a suit's letter.
fn is_suit(byte: u8) -> bool
    ensures { result ≡ is_suit byte }
{
    matches!(byte.to_ascii_uppercase(), b'C' | b'D' | b'H' | b'S')
}

// Whether a text is a rank's.
fn is_rank(text: &[u8]) -> bool
    ensures value { result ≡ is_rank text.now }
{
    match text {
        [letter] => is_rank_letter(letter.to_ascii_uppercase()),
        b"10" => true,
        _ => false,
    }
}

// Whether a capital letter or a digit is a rank's.
fn is_rank_letter(letter: u8) -> bool
    ensures { result ≡ is_rank_letter letter }
{
    matches!(letter, b'2'..=b'9' | b'A' | b'T' | b'J' | b'Q' | b'K')
}

ghost use Rattle.std.specs.Prelude.{◌≡◌, ◌≤◌, length};
ghost use Rattle.fc_show.specs.Drawing.{card_shown};

use arrayvec::ArrayVec;
use fc_cards::Card;

// What a terminal takes for red, and for no colour.
const RED: &[u8] = b"\x1b[31m";

const NO_COLOUR: &[u8] = b"\x1b[0m";

/// The text of a card as it is shown: where colours are, one of a red suit is in red, as terminals take it.
pub fn card_shown(card: Card, is_coloured: bool) -> ArrayVec<u8, 16>
    ensures value { result.items ≡ card_shown is_coloured card }
    ensures within { length result.items ≤ 11 }
{
    let mut text = ArrayVec::new();
    if is_coloured && card.is_red() {
        let _fits = text.try_extend_from_slice(RED);
        let _fits = text.try_extend_from_slice(&card.text());
        let _fits = text.try_extend_from_slice(NO_COLOUR);
    } else {
        let _fits = text.try_extend_from_slice(&card.text());
    }
    text
}

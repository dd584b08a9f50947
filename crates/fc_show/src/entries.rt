ghost use Rattle.std.specs.Prelude.{◌≡◌, ◌+◌, ◌*◌, ◌≤◌, ◌++◌, length, slice_get};
ghost use Rattle.fc_show.specs.Drawing.{card_entry, held_entry, names_row, place_entry};

use crate::drawings::Drawing;
use crate::inks::card_shown;
use crate::styles::Style;
use fc_cards::Card;

// Appends a text.
pub(crate) fn push(text: &mut Drawing, piece: &[u8])
    requires room { length text.old.items + length piece.now ≤ 8192 }
    ensures text { text.new.items ≡ text.old.items ++ piece.now }
{
    let _fits = text.try_extend_from_slice(piece);
}

// Appends a card, with what stands before it.
fn push_card(text: &mut Drawing, style: &Style, card: Card)
    requires room { length text.old.items + 12 ≤ 8192 }
    ensures text { text.new.items ≡ text.old.items ++ card_entry style.now card }
    ensures within { length text.new.items ≤ length text.old.items + 12 }
{
    push(text, &[style.mark_of(card)]);
    push(text, &card_shown(card, style.is_coloured));
}

// Appends what a cell or a foundation holds.
pub(crate) fn push_held(text: &mut Drawing, style: &Style, held: Option<Card>)
    requires room { length text.old.items + 12 ≤ 8192 }
    ensures text { text.new.items ≡ text.old.items ++ held_entry style.now held }
    ensures within { length text.new.items ≤ length text.old.items + 12 }
{
    match held {
        Some(card) => push_card(text, style, card),
        None => push(text, b"  -"),
    }
}

// Appends the card of a column at a place, or blanks where the column has none there.
pub(crate) fn push_place(text: &mut Drawing, style: &Style, cards: &[Card], i: usize)
    requires room { length text.old.items + 12 ≤ 8192 }
    ensures text { text.new.items ≡ text.old.items ++ place_entry style.now (slice_get cards.now i) }
    ensures within { length text.new.items ≤ length text.old.items + 12 }
{
    match cards.get(i) {
        Some(card) => push_card(text, style, *card),
        None => push(text, b"   "),
    }
}

// Appends names of places.
pub(crate) fn push_names(text: &mut Drawing, letters: &[u8])
    requires room { length text.old.items + 3 * length letters.now ≤ 8192 }
    ensures text { text.new.items ≡ text.old.items ++ names_row letters.now }
    ensures size { length text.new.items ≡ length text.old.items + 3 * length letters.now }
{
    for letter in letters {
        push(text, &[b' ', b' ', *letter]);
    }
}

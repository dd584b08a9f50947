ghost use Rattle.std.specs.Prelude.{◌≡◌, ℕ, ◌+◌, ◌*◌, ◌≤◌, ◌++◌, length};
ghost use Rattle.arrayvec.specs.ArrayString.{array_string_len};
ghost use Rattle.fc_cards.specs.Texts.{card_text};
ghost use Rattle.fc_deal.specs.DealText.{cards_text, line_text, deal_text};

use arrayvec::ArrayString;
use fc_cards::Card;
use fc_position::Position;

/// The eight columns alone, a line each: the deepest card first, a blank between two cards, LF after each line. A
/// column with no card is an empty line. Cells and foundations are not told.
pub fn deal_text(position: &Position) -> ArrayString<200>
    ensures text { result.bytes ≡ deal_text position.now }
{
    let mut text = ArrayString::new();
    for i in 0..8 {
        push_line(&mut text, position.column(i));
    }
    text
}

// Appends the line of a column.
fn push_line(text: &mut ArrayString<200>, cards: &[Card])
    requires room { array_string_len text.old + 3 * length cards.now + 1 ≤ 200 }
    ensures text { text.new.bytes ≡ text.old.bytes ++ line_text cards.now }
{
    push_cards(text, cards);
    text.push('\n');
}

// Appends the texts of cards, with a blank between two.
fn push_cards(text: &mut ArrayString<200>, cards: &[Card])
    requires room { array_string_len text.old + 3 * length cards.now ≤ 200 }
    ensures text { text.new.bytes ≡ text.old.bytes ++ cards_text cards.now }
{
    let Some((first, rest)) = cards.split_first() else {
        return;
    };
    push_card(text, *first);
    for card in rest {
        text.push(' ');
        push_card(text, *card);
    }
}

// Appends the text of a card.
fn push_card(text: &mut ArrayString<200>, card: Card)
    requires room { array_string_len text.old + 2 ≤ 200 }
    ensures text { text.new.bytes ≡ text.old.bytes ++ card_text card }
{
    let [rank, suit] = card.text();
    text.push(rank as char);
    text.push(suit as char);
}

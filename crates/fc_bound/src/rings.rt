//! What rings show of a position: one move more than the plain bound for each ring of a family.

ghost use Rattle.std.specs.Prelude.{◌≡◌, ℕ, ◌<◌, ◌≤◌, ◌^◌};
ghost use Rattle.std.specs.Int.{bit_at};
ghost use Rattle.fc_position.specs.Board.{Board};
ghost use Rattle.fc_position.specs.Position.{IsPosition};
ghost use Rattle.fc_bound.specs.declared.kinds.BoundKind.{BoundKind};
ghost use Rattle.fc_bound.specs.declared.kinds.BoundKind.TheVariants.{Clearing};
ghost use Rattle.fc_bound.specs.Bound.{bound};
ghost use Rattle.fc_bound.specs.Kinds.{IsShown};
ghost use Rattle.fc_bound.specs.Rows.{IsTableOf};
ghost use Rattle.fc_bound.specs.inner.Tied.{AreTiedIn, IsWithin};

use crate::bits::{remove, suit_cards};
use crate::bounds::away;
use crate::emptying::Emptying;
use crate::ring_search::{CARDS, least_card, pruned, ring_through};
use crate::waiting_rows::ColumnTable;
use fc_position::Position;

/// A number that is shown of a position, at most 104, and the note that shows it: the plain bound; or the plain bound and the
/// number of rings of a family, whose cards are among those of the note, one bit for each by its number.
#[derive(Clone, Copy, Debug, PartialEq, Eq)]
pub struct Shown {
    /// No list of moves that wins is shorter.
    pub number: u8,
    /// The cards of the rings.
    pub note: u64,
}

// The plain bound, by the table of the position's columns: no ring shows more yet.
#[inline]
pub(crate) fn plain(position: &Position, table: &ColumnTable) -> Shown
    requires table { IsTableOf position.now.columns table.now }
    ensures number { result.number ≡ bound position.now }
    ensures shown { IsShown Clearing position.now result.number result.note }
    ensures note { result.note ≡ 0 }
    ensures whole { IsPosition position.now }
{
    Shown {
        number: away(position) + table.marks.held.count_ones() as u8,
        note: 0,
    }
}

// The cards of columns that aren't held and are none of these.
#[inline]
fn able(position: &Position, table: &ColumnTable, note: u64) -> u64
    requires table { IsTableOf position.now.columns table.now }
    ensures below { result < 2 ^ 52 }
    ensures stand { IsWithin result table.now.marks.all }
    ensures free { (c : ℕ) → bit_at result c ≡ 1 → bit_at table.now.marks.held c ≡ 0 }
    ensures apart { (c : ℕ) → bit_at result c ≡ 1 → bit_at note c ≡ 0 }
    ensures whole { IsPosition position.now }
{
    let _cell = position.cell(0);
    table.marks.all & !(table.marks.held | note)
}

// Whether a lower card of this one's suit stands in the columns: else the card is on no ring.
#[inline]
pub(crate) fn has_lower(table: &ColumnTable, card: u8) -> bool
    requires card { card < 52 }
{
    table.marks.all & suit_cards(card) & ((1 << card) - 1) != 0
}

impl Shown {
    /// The same with a note of cards alone, one bit for each by its number.
    #[inline]
    pub fn of_cards(self) -> Shown
        ensures number { result.number ≡ self.number }
        ensures shown { (kind : BoundKind) (b : Board) → IsPosition b → IsShown kind b self.number self.note → IsShown kind b result.number result.note }
        ensures cards { result.note < 2 ^ 52 }
        ensures same { (c : ℕ) → c < 52 → bit_at result.note c ≡ bit_at self.note c }
    {
        Shown {
            number: self.number,
            note: self.note & CARDS,
        }
    }

    // With these cards as a ring more, if they are one apart from those that are noted.
    #[inline]
    fn with_ring(self, position: &Position, table: &ColumnTable, ring: u64) -> Shown
        requires table { IsTableOf position.now.columns table.now }
        requires shown { IsShown Clearing position.now self.number self.note }
        requires tied { AreTiedIn table.now.rows ring }
        ensures shown { IsShown Clearing position.now result.number result.note }
        ensures apart { (c : ℕ) → bit_at self.note c ≡ 0 → bit_at ring c ≡ 0 → bit_at result.note c ≡ 0 }
        ensures cards { self.note < 2 ^ 52 → result.note < 2 ^ 52 }
    {
        if ring == 0 || ring & !able(position, table, self.note) != 0 {
            return self;
        }
        Shown {
            number: self.number + 1,
            note: self.note | ring,
        }
    }

    // With a ring more that is found through one of these cards, of cards that are able to be on it.
    fn one_more(self, position: &Position, table: &ColumnTable, able: u64, through: u64) -> Shown
        requires table { IsTableOf position.now.columns table.now }
        requires able { able < 2 ^ 52 }
        requires shown { IsShown Clearing position.now self.number self.note }
        ensures shown { IsShown Clearing position.now result.number result.note }
        ensures apart { (c : ℕ) → bit_at self.note c ≡ 0 → bit_at able c ≡ 0 → bit_at result.note c ≡ 0 }
        ensures cards { self.note < 2 ^ 52 → result.note < 2 ^ 52 }
    {
        let mut rest = through & able;
        while rest != 0 {
            let card = least_card(rest);
            rest = remove(rest, card);
            let ring = ring_through(&table.rows, able, card);
            if ring != 0 {
                return self.with_ring(position, table, ring);
            }
        }
        self
    }
}

// What rings show that are met while all cards are taken out: at most 26, since each has two cards at least.
pub(crate) fn counted(position: &Position, table: &ColumnTable) -> Shown
    requires table { IsTableOf position.now.columns table.now }
    ensures shown { IsShown Clearing position.now result.number result.note }
    ensures whole { IsPosition position.now }
    ensures cards { result.note < 2 ^ 52 }
{
    let mut shown = plain(position, table);
    let mut emptying = Emptying::new(table.marks);
    for _ in 0..26 {
        emptying.loosen(&table.rows);
        if emptying.is_done() {
            return shown;
        }
        let knot = emptying.knot(&table.rows);
        shown = shown.with_ring(position, table, knot);
        emptying.shed(&table.rows, knot);
    }
    shown
}

// What rings among these cards show, taken one after the other.
fn counted_among(position: &Position, table: &ColumnTable, cards: u64) -> Shown
    requires table { IsTableOf position.now.columns table.now }
    requires cards { cards < 2 ^ 52 }
    ensures shown { IsShown Clearing position.now result.number result.note }
    ensures apart { (c : ℕ) → bit_at cards c ≡ 0 → bit_at result.note c ≡ 0 }
    ensures cards { result.note < 2 ^ 52 }
{
    let mut shown = plain(position, table);
    let mut left = cards;
    while left != 0 {
        let card = least_card(left);
        let ring = ring_through(&table.rows, left, card);
        shown = shown.with_ring(position, table, ring);
        left = remove(left, card) & !ring;
    }
    shown
}

// What the rings show that are left without this card of the note.
fn without_ring(position: &Position, table: &ColumnTable, card: u8, shown: Shown) -> Shown
    requires table { IsTableOf position.now.columns table.now }
    requires card { card < 52 }
    requires shown { IsShown Clearing position.now shown.number shown.note }
    ensures shown { IsShown Clearing position.now result.number result.note }
    ensures apart { bit_at result.note card ≡ 0 }
    ensures cards { result.note < 2 ^ 52 }
{
    let plain = plain(position, table);
    let number = shown.number.saturating_sub(1).max(plain.number);
    let others = remove(shown.note, card) & table.marks.all;
    let note = pruned(&table.rows, others);
    let left = Shown { number, note };
    if note != others {
        return left;
    }
    // Cards of its ring still lie between others, so that the rings are told apart to free them. Fewer may be taken than there are.
    let among = counted_among(position, table, others);
    if among.number < number { left } else { among }
}

// What is shown of the position without this last card of a column, which isn't held.
pub(crate) fn without(position: &Position, table: &ColumnTable, card: u8, shown: Shown) -> Shown
    requires table { IsTableOf position.now.columns table.now }
    requires card { card < 52 }
    requires shown { IsShown Clearing position.now shown.number shown.note }
    ensures shown { IsShown Clearing position.now result.number result.note }
    ensures apart { bit_at result.note card ≡ 0 }
    ensures cards { shown.note < 2 ^ 52 → result.note < 2 ^ 52 }
{
    if shown.note >> card & 1 == 0 {
        return shown;
    }
    let left = without_ring(position, table, card, shown);
    let able = remove(able(position, table, left.note), card);
    left.one_more(position, table, able, shown.note & !left.note)
}

// What is shown of the position with this last card of a column, which isn't held, by what is shown without it.
pub(crate) fn with(
    position: &Position,
    table: &ColumnTable,
    card: u8,
    kept: Shown,
    most: u8,
) -> Shown
    requires table { IsTableOf position.now.columns table.now }
    requires card { card < 52 }
    requires kept { IsShown Clearing position.now kept.number kept.note }
    ensures shown { IsShown Clearing position.now result.number result.note }
    ensures cards { kept.note < 2 ^ 52 → result.note < 2 ^ 52 }
{
    if most < kept.number || !has_lower(table, card) {
        return kept;
    }
    let able = able(position, table, kept.note);
    let more = kept.one_more(position, table, able, 1 << card);
    if kept.number < more.number {
        return more;
    }
    let anew = counted(position, table);
    if kept.number < anew.number {
        anew
    } else {
        kept
    }
}

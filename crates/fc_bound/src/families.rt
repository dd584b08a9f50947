//! What is shown of a position, a number and a note, carried from position to position.

ghost use Rattle.std.specs.Prelude.{◌≡◌, ℕ, ◌<◌, ◌≤◌, ◌^◌, false, true, Some, IfSome, IsSome};
ghost use Rattle.std.specs.Int.{bit_at};
ghost use Rattle.fc_cards.specs.declared.places.Place.TheVariants.{Column};
ghost use Rattle.fc_position.specs.Board.{Board, column, last_of, board_without, playable};
ghost use Rattle.fc_position.specs.Position.{IsPosition};
ghost use Rattle.fc_moves.specs.declared.steps.Move.{Move};
ghost use Rattle.fc_moves.specs.GameRules.{GameRules};
ghost use Rattle.fc_moves.specs.Step.{Step};
ghost use Rattle.fc_bound.specs.declared.kinds.BoundKind.TheVariants.{Clearing, Plain};
ghost use Rattle.fc_bound.specs.Bound.{is_held_back};
ghost use Rattle.fc_bound.specs.Kinds.{IsShown};
ghost use Rattle.fc_bound.specs.Knots.{ends_among};
ghost use Rattle.fc_bound.specs.Rows.{IsTableOf};
ghost use Rattle.fc_bound.specs.inner.Steps.{OfEachStep};

use crate::bounds::{GREATEST_BOUND, is_held_back};
use crate::fares::is_held_there;
use crate::kinds::BoundKind;
use crate::rings::{Shown, counted, plain, with, without};
use crate::waiting_rows::ColumnTable;
use fc_cards::Place;
use fc_moves::Move;
use fc_position::Position;

impl BoundKind {
    /// What is shown of a position, looked for anew by the table of its columns.
    pub fn shown(self, position: &Position, table: &ColumnTable) -> Shown
        requires table { IsTableOf position.now.columns table.now }
        ensures shown { IsShown self position.now result.number result.note }
        ensures most { result.number ≤ GREATEST_BOUND }
        ensures whole { IsPosition position.now }
        ensures cards { result.note < 2 ^ 52 }
    {
        match self {
            BoundKind::Plain => plain(position, table),
            BoundKind::Clearing => counted(position, table),
        }
    }

    /// What is shown of the position without the playable card of a place, by what is shown with it.
    #[inline(always)]
    pub fn lifted(
        self,
        position: &Position,
        table: &ColumnTable,
        from: Place,
        shown: Shown,
    ) -> Shown
        requires table { IsTableOf position.now.columns table.now }
        requires shown { IsShown self position.now shown.number shown.note }
        ensures shown { IsShown self (board_without position.now from) result.number result.note }
        ensures most { result.number ≤ GREATEST_BOUND }
        ensures whole { IsPosition position.now }
        ensures cards { shown.note < 2 ^ 52 → result.note < 2 ^ 52 }
    {
        match (from, position.playable(from)) {
            (Place::Column(_), Some(card)) => self.without_last(
                position,
                table,
                card.index(),
                shown,
            ),
            (Place::Column(_), None) => shown,
            (Place::Cell(_), _) => shown,
            (Place::Home, _) => shown,
        }
    }

    // The same without the last card of a column.
    #[inline]
    fn without_last(self, position: &Position, table: &ColumnTable, card: u8, shown: Shown) -> Shown
        requires table { IsTableOf position.now.columns table.now }
        requires card { card < 52 }
        requires last { ends_among position.now.columns card ≡ true }
        requires shown { IsShown self position.now shown.number shown.note }
        ensures shown { (i : ℕ) → last_of (column position.now i) ≡ Some card → IsShown self (board_without position.now (Column i)) result.number result.note }
        ensures cards { shown.note < 2 ^ 52 → result.note < 2 ^ 52 }
    {
        if is_held(position, table, card) {
            return Shown {
                number: shown.number - 1,
                note: shown.note,
            };
        }
        match self {
            BoundKind::Plain => shown,
            BoundKind::Clearing => without(position, table, card, shown),
        }
    }

    /// What is shown of a position whose playable card of a place, of a column or a cell, was put there last, by what is shown
    /// without it. Where that is more than `most` already, nothing is looked for.
    #[inline(always)]
    pub fn landed(
        self,
        position: &Position,
        table: &ColumnTable,
        to: Place,
        kept: Shown,
        most: u8,
    ) -> Shown
        requires table { IsTableOf position.now.columns table.now }
        requires kept { IsShown self (board_without position.now to) kept.number kept.note }
        ensures shown { IsShown self position.now result.number result.note }
        ensures most { result.number ≤ GREATEST_BOUND }
        ensures whole { IsPosition position.now }
        ensures cards { kept.note < 2 ^ 52 → result.note < 2 ^ 52 }
    {
        match (to, position.playable(to)) {
            (Place::Column(_), Some(card)) => self.with_last(
                position,
                table,
                card.index(),
                kept,
                most,
            ),
            (Place::Column(_), None) => kept,
            (Place::Cell(_), _) => kept,
            (Place::Home, _) => kept,
        }
    }

    // The same with the last card of a column.
    #[inline]
    fn with_last(
        self,
        position: &Position,
        table: &ColumnTable,
        card: u8,
        kept: Shown,
        most: u8,
    ) -> Shown
        requires table { IsTableOf position.now.columns table.now }
        requires card { card < 52 }
        requires last { ends_among position.now.columns card ≡ true }
        requires kept { (i : ℕ) → last_of (column position.now i) ≡ Some card → IsShown self (board_without position.now (Column i)) kept.number kept.note }
        ensures shown { IsShown self position.now result.number result.note }
        ensures cards { kept.note < 2 ^ 52 → result.note < 2 ^ 52 }
    {
        if is_held(position, table, card) {
            return Shown {
                number: kept.number + 1,
                note: kept.note,
            };
        }
        match self {
            BoundKind::Plain => kept,
            BoundKind::Clearing => with(position, table, card, kept, most),
        }
    }

    /// A number that is plain to see, without a table: of where a move leads something is shown that is no less.
    pub fn least_after(self, position: &Position, m: Move, shown: Shown) -> u8
        requires shown { IsShown self position.now shown.number shown.note }
        ensures least { (g : GameRules) (z : Board) → Step g position.now m z → (number : ℕ) × (note : ℕ) × IsShown self z number note × (result ≤ number) }
        ensures whole { IsPosition position.now }
    {
        let Some(card) = position.playable(m.from) else {
            return 0;
        };
        let less = self.is_needed(position, m.from, shown.note) as u8;
        match m.to {
            Place::Home => shown.number.saturating_sub(less + 1),
            to => (shown.number + is_held_there(position, card, to) as u8).saturating_sub(less),
        }
    }

    /// What is shown of where a move leads, where nothing more has to be looked for, without a table: `None` where the move's card is
    /// noted, or goes onto another one, where it may be on a ring more.
    #[inline(always)]
    pub fn known_after(self, position: &Position, m: Move, shown: Shown) -> Option<Shown>
        requires shown { IsShown self position.now shown.number shown.note }
        ensures known { IfSome result (λ known. (g : GameRules) (z : Board) → Step g position.now m z → IsShown self z known.number known.note) }
        ensures plain { self ≡ Plain → (u : ℕ) → playable position.now m.from ≡ Some u → IsSome result }
        ensures whole { IsPosition position.now }
    {
        let card = position.playable(m.from)?;
        let there = is_held_there(position, card, m.to);
        if !there && self.is_onto(position, m.to) {
            return None;
        }
        let held = is_held_back(position, m.from);
        self.known(m, card.index(), held, there, shown)
    }

    // What is shown of where a move leads, by whether its card is held back where it is and where it goes: `None` where the card is
    // noted and isn't held back where it is.
    #[inline]
    pub(crate) fn known(
        self,
        m: Move,
        card: u8,
        held: bool,
        there: bool,
        shown: Shown,
    ) -> Option<Shown>
        requires card { card < 52 }
        requires most { shown.number ≤ GREATEST_BOUND }
        ensures known { IfSome result (λ known. OfEachStep m card held there
            (λ b z. IsShown self b shown.number shown.note → IsShown self z known.number known.note)) }
        ensures plain { self ≡ Plain → IsSome result }
        ensures told { bit_at shown.note card ≡ 0 → IsSome result }
    {
        if self.is_noted(card, shown.note) && !held {
            return None;
        }
        let kept = shown.number.saturating_sub(held as u8);
        let number = match m.to {
            Place::Home => kept.saturating_sub(1),
            _ => kept + there as u8,
        };
        Some(Shown {
            number,
            note: shown.note,
        })
    }

    // Whether a card that goes there may be on a ring more.
    #[inline]
    fn is_onto(self, position: &Position, to: Place) -> bool
        ensures plain { self ≡ Plain → result ≡ false }
    {
        match (self, to) {
            (BoundKind::Clearing, Place::Column(i)) if i < 8 => !position.column(i).is_empty(),
            _ => false,
        }
    }

    // Whether what is shown may be less without the playable card of a place: it is held there, or noted.
    #[inline]
    fn is_needed(self, position: &Position, from: Place, note: u64) -> bool
        ensures held { (u : ℕ) → playable position.now from ≡ Some u → result ≡ false → is_held_back position.now u ≡ false }
        ensures noted { (u : ℕ) → playable position.now from ≡ Some u → result ≡ false → self ≡ Clearing → bit_at note u ≡ 0 }
        ensures whole { IsPosition position.now }
    {
        let is_noted = match (self, position.playable(from)) {
            (BoundKind::Clearing, Some(card)) => note >> card.index() & 1 != 0,
            _ => false,
        };
        is_noted || is_held_back(position, from)
    }

    // The same of a card of the position, by the table of its columns.
    #[inline]
    pub(crate) fn is_needed_by(
        self,
        position: &Position,
        table: &ColumnTable,
        card: u8,
        note: u64,
    ) -> bool
        requires table { IsTableOf position.now.columns table.now }
        requires card { card < 52 }
        ensures held { result ≡ false → is_held_back position.now card ≡ false }
        ensures noted { result ≡ false → self ≡ Clearing → bit_at note card ≡ 0 }
    {
        self.is_noted(card, note) || is_held(position, table, card)
    }

    // Whether a card is one of those that the rings are of.
    #[inline]
    fn is_noted(self, card: u8, note: u64) -> bool
        requires card { card < 52 }
        ensures value { result ≡ false → self ≡ Clearing → bit_at note card ≡ 0 }
        ensures plain { self ≡ Plain → result ≡ false }
        ensures noted { bit_at note card ≡ 0 → result ≡ false }
    {
        match self {
            BoundKind::Plain => false,
            BoundKind::Clearing => note >> card & 1 != 0,
        }
    }
}

// Whether this card of a column stands above a lower card of its own suit.
#[inline]
pub(crate) fn is_held(position: &Position, table: &ColumnTable, card: u8) -> bool
    requires table { IsTableOf position.now.columns table.now }
    requires card { card < 52 }
    ensures value { result ≡ is_held_back position.now card }
    ensures whole { IsPosition position.now }
{
    let _cell = position.cell(0);
    table.marks.held >> card & 1 != 0
}

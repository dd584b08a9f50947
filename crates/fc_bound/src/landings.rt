//! What is plain to see of where a move leads that takes no card home, by the table of the position's columns.

ghost use Rattle.std.specs.Prelude.{◌≡◌, ◌≢◌, ℕ, ◌<◌, ◌≤◌, Some, None, IfSome, IsSome};
ghost use Rattle.std.specs.Int.{bit_at};
ghost use Rattle.fc_cards.specs.declared.places.Place.TheVariants.{Home};
ghost use Rattle.fc_position.specs.Board.{Board, playable};
ghost use Rattle.fc_position.specs.Position.{IsPosition};
ghost use Rattle.fc_moves.specs.declared.steps.Move.{Move};
ghost use Rattle.fc_moves.specs.GameRules.{GameRules};
ghost use Rattle.fc_moves.specs.Step.{Step};
ghost use Rattle.fc_bound.specs.Bound.{is_held_back};
ghost use Rattle.fc_bound.specs.Kinds.{IsShown};
ghost use Rattle.fc_bound.specs.Landings.{IsLanding};
ghost use Rattle.fc_bound.specs.Rows.{IsTableOf};

use crate::families::is_held;
use crate::kinds::BoundKind;
use crate::rings::{Shown, has_lower};
use crate::waiting_rows::ColumnTable;
use fc_cards::{Card, Place};
use fc_moves::Move;
use fc_position::Position;

/// A move that takes no card home, with its card, and the last card of the column to which it goes, if there is one.
#[derive(Clone, Copy)]
pub struct Landing {
    pub m: Move,
    pub card: Card,
    pub host: Option<Card>,
}

impl Landing {
    /// That of a move of a position. `None` where it takes a card home, or none at all.
    #[inline(always)]
    pub fn of(position: &Position, m: Move) -> Option<Landing>
        ensures landing { IfSome result (λ landing. IsLanding position.now landing × (landing.m ≡ m)) }
        ensures none { (u : ℕ) → playable position.now m.from ≡ Some u → m.to ≢ Home → IsSome result }
    {
        if m.to == Place::Home {
            return None;
        }
        let card = position.playable(m.from)?;
        Some(Landing {
            m,
            card,
            host: position.playable(m.to),
        })
    }
}

impl BoundKind {
    /// The same as [`least_after`](BoundKind::least_after), by the table of the position's columns.
    #[inline]
    pub fn least_by(
        self,
        position: &Position,
        table: &ColumnTable,
        landing: &Landing,
        shown: Shown,
    ) -> u8
        requires table { IsTableOf position.now.columns table.now }
        requires landing { IsLanding position.now landing.now }
        requires shown { IsShown self position.now shown.number shown.note }
        ensures least { (g : GameRules) (z : Board) → Step g position.now landing.now.m z
            → (number : ℕ) × (note : ℕ) × IsShown self z number note × (result ≤ number) }
        ensures whole { IsPosition position.now }
    {
        let card = landing.card.index();
        let less = self.is_needed_by(position, table, card, shown.note) as u8;
        let there = is_held_on(position, table, card, landing.host) as u8;
        (shown.number + there).saturating_sub(less)
    }

    /// The same as [`known_after`](BoundKind::known_after), by the table of the position's columns, of more moves: also where the card
    /// goes onto another one, but none of its suit in the columns is lower. A card that isn't noted and goes onto none is always known of.
    #[inline]
    pub fn known_by(
        self,
        position: &Position,
        table: &ColumnTable,
        landing: &Landing,
        shown: Shown,
    ) -> Option<Shown>
        requires table { IsTableOf position.now.columns table.now }
        requires landing { IsLanding position.now landing.now }
        requires shown { IsShown self position.now shown.number shown.note }
        ensures known { IfSome result (λ known. (g : GameRules) (z : Board) → Step g position.now landing.now.m z → IsShown self z known.number known.note) }
        ensures told { landing.now.host ≡ None → bit_at shown.note landing.now.card ≡ 0 → IsSome result }
        ensures whole { IsPosition position.now }
    {
        let card = landing.card.index();
        let there = is_held_on(position, table, card, landing.host);
        if !there && landing.host.is_some() && has_lower(table, card) {
            return None;
        }
        let held = is_held(position, table, card);
        self.known(landing.m, card, held, there, shown)
    }
}

// Whether a card is held back on this one, or on none, by the table of the columns without it there.
#[inline]
fn is_held_on(position: &Position, table: &ColumnTable, card: u8, host: Option<Card>) -> bool
    requires table { IsTableOf position.now.columns table.now }
    requires card { card < 52 }
    ensures value { (g : GameRules) (z : Board) (m : Move) (step : Step g position.now m z) → step.card ≡ card → m.to ≢ Home
        → playable position.now m.to ≡ host → result ≡ is_held_back z card }
    ensures whole { IsPosition position.now }
{
    let _cell = position.cell(0);
    match host {
        Some(host) => table.rows[host.index() as usize].waiting >> card & 1 != 0,
        None => false,
    }
}

//! A walk over the children of a class: where it steps next, and what is shown of where it stands.

ghost use Rattle.std.specs.Prelude.{◌≡◌, ◌≢◌, ◌+◌, ℕ, true, Some, None, IfSome, IsSome};
ghost use Rattle.fc_position.specs.Board.{Board, board_without};
ghost use Rattle.fc_position.specs.Position.{IsPosition};
ghost use Rattle.fc_cards.specs.declared.places.Place.TheVariants.{Home};
ghost use Rattle.fc_moves.specs.declared.steps.Move.{Move};
ghost use Rattle.fc_moves.specs.GameRules.{GameRules, IsPositionOf};
ghost use Rattle.fc_moves.specs.Step.{Allows, Step};
ghost use Rattle.fc_home.specs.Settles.{Settles};
ghost use Rattle.fc_bound.specs.declared.kinds.BoundKind.TheVariants.{Clearing, Plain};
ghost use Rattle.fc_bound.specs.Kinds.{IsShown};
ghost use Rattle.fc_bound.specs.Landings.{IsLanding};
ghost use Rattle.fc_bound.specs.Rows.{IsTableOf};
ghost use Rattle.fc_space.specs.Children.{frame_left, StandsAt};
ghost use Rattle.fc_space.specs.inner.Children.{IsNoMore, IsShownAfter, OfLastChild};
ghost use Rattle.fc_space.specs.inner.Lookups.{IsLookupOf};

use crate::class_space::{ClassRules, child_by_copy};
use crate::coded::code_after;
use crate::lookups::Lookup;
use crate::stays::lands;
use arrayvec::ArrayVec;
use fc_bound::{BoundKind, ColumnTable, Landing, Shown};
use fc_cards::Place;
use fc_codes::{Code, Layout};
use fc_moves::{Game, Move, apply};
use fc_position::Position;
use std::marker::Model;

// Where a walk stands: at the class that it visits; where this move lands, after which no card goes home; or at the class with this
// code, to which the result of this move settles in so many moves.
#[derive(Clone, Copy)]
pub(crate) enum Standing {
    Here,
    Shifted(Landing),
    Settled { m: Move, code: Code, count: u8 },
}

/// The children of a class that are left: its position, with its code and what is shown of it, and the moves that lead to them, the
/// next one last.
#[derive(Drop)]
pub struct Children<G: Game + Drop> {
    pub(crate) rules: ClassRules<G>,
    pub(crate) layout: Layout,
    pub(crate) position: Position,
    pub(crate) code: Code,
    pub(crate) shown: Shown,
    pub(crate) left: ArrayVec<Move, 132>,
    pub(crate) standing: Standing,
    // What is looked up of the position's columns: by the clearing bound always, by the plain one at a first visit.
    pub(crate) lookup: Lookup,
    // What is shown of the position without the card of a place, once that was asked for.
    pub(crate) kept: Option<(Place, Shown)>,
}

impl<G: Game + Drop> Model for Children<G> {
    ghost use Rattle.fc_space.specs.Children.{ChildrenLeft, frame_by, last_move};

    ghost Value = { ChildrenLeft G };

    ghost use Rattle.fc_space.specs.inner.Visits.{IsVisit};

    ghost view = { λ s. record { game = s.rules.game; rule = s.rules.rule; kind = s.rules.kind; start = s.layout; position = s.position; moves = s.left.items; last = last_move s.standing } };

    ghost invariant = { λ s. IsVisit (frame_by G.game s.rules s.layout) s };
}

impl<G: Game + Drop> Children<G> {
    // Goes on to the child to which a move leads, and tells how many moves that takes.
    #[inline(always)]
    pub(crate) fn step(&mut self, m: Move) -> u8
        requires allowed { Allows (G.game self.old.game) self.old.position m }
        ensures cost { (z q : Board) (count : ℕ) → Step (G.game self.old.game) self.old.position m z
            → Settles (G.game self.old.game) self.old.rule z count q → result ≡ 1 + count }
        ensures last { self.new.last ≡ Some m }
        ensures same { (self.new.game ≡ self.old.game) × (self.new.rule ≡ self.old.rule) × (self.new.kind ≡ self.old.kind)
            × (self.new.start ≡ self.old.start) × (self.new.position ≡ self.old.position) × (self.new.moves ≡ self.old.moves) }
    {
        if let Some(landing) = lands(&self.rules, &mut self.position, m) {
            self.standing = Standing::Shifted(landing);
            return 1;
        }
        let code = self.layout.moved(&self.code, &self.position, m);
        let (code, count) = child_by_copy(&self.rules, &self.position, m, code);
        self.standing = Standing::Settled { m, code, count };
        1 + count
    }

    // The code of the class at which the walk stands.
    #[inline(always)]
    pub(crate) fn key(&self) -> Code
        ensures at { StandsAt (frame_left G.game self.now) self.now.position self.now.last result }
    {
        match self.standing {
            Standing::Here => self.code,
            Standing::Shifted(landing) => code_after(&self.layout, &self.code, &landing),
            Standing::Settled { code, .. } => code,
        }
    }

    // A number that is plain to see: of where the walk stands something is shown that is no less.
    #[inline(always)]
    pub(crate) fn least(&self) -> u8
        ensures least { OfLastChild G.game self.now (λ q. IsNoMore self.now.kind q result) }
        ensures none { self.now.last ≡ None → result ≡ 0 }
        ensures fits { IsPositionOf (G.game self.now.game) self.now.position }
    {
        match self.standing {
            Standing::Here => 0,
            Standing::Shifted(landing) => least_where(
                self.rules.kind,
                &self.position,
                &self.lookup,
                &landing,
                self.shown,
            ),
            Standing::Settled { m, count, .. } => self
                .rules
                .kind
                .least_after(&self.position, m, self.shown)
                .saturating_sub(count),
        }
    }

    // What is shown of where the walk stands, looked for no further where it is more than this already. The walk is as it was.
    pub(crate) fn shown_there(&mut self, most: u8) -> Shown
        ensures shown { OfLastChild G.game self.old (λ q. IsShown self.old.kind q result.number result.note) }
        ensures here { self.old.last ≡ None → IsShown self.old.kind self.old.position result.number result.note }
        ensures fits { IsPositionOf (G.game self.old.game) self.old.position }
        ensures same { self.new ≡ self.old }
    {
        match self.standing {
            Standing::Here => self.shown,
            Standing::Shifted(landing) => self.shown_where(landing, most),
            Standing::Settled { m, count, .. } => {
                let shown = self.shown_after(m, most.saturating_add(count));
                Shown {
                    number: shown.number - count,
                    note: shown.note,
                }
            }
        }
    }

    // What is shown of where a move lands. The walk is as it was.
    fn shown_where(&mut self, landing: Landing, most: u8) -> Shown
        requires landing { IsLanding self.old.position landing }
        requires allowed { Allows (G.game self.old.game) self.old.position landing.m }
        ensures shown { IsShownAfter G.game self.old landing.m result }
        ensures same { self.new ≡ self.old }
    {
        match self.rules.kind {
            BoundKind::Plain => self.shown_plainly(landing.m),
            BoundKind::Clearing => match self.known_where(&landing) {
                Some(shown) => shown,
                None => self.sought(landing.m, most),
            },
        }
    }

    // What is shown of where a move lands, where nothing more has to be looked for.
    #[inline(always)]
    fn known_where(&self, landing: &Landing) -> Option<Shown>
        requires landing { IsLanding self.now.position landing.now }
        requires kind { self.now.kind ≡ Clearing }
        ensures known { IfSome result (IsShownAfter G.game self.now landing.now.m) }
    {
        self.rules
            .kind
            .known_by(&self.position, &self.lookup.table, landing, self.shown)
    }

    // What is shown of where a move leads, before cards go home. The walk is as it was.
    fn shown_after(&mut self, m: Move, most: u8) -> Shown
        requires allowed { Allows (G.game self.old.game) self.old.position m }
        ensures shown { IsShownAfter G.game self.old m result }
        ensures same { self.new ≡ self.old }
    {
        match self.rules.kind {
            BoundKind::Plain => self.shown_plainly(m),
            BoundKind::Clearing => match self.known_after(m) {
                Some(shown) => shown,
                None => self.sought(m, most),
            },
        }
    }

    // The same where nothing more has to be looked for.
    #[inline(always)]
    fn known_after(&self, m: Move) -> Option<Shown>
        ensures known { IfSome result (IsShownAfter G.game self.now m) }
        ensures plain { self.now.kind ≡ Plain → Allows (G.game self.now.game) self.now.position m → IsSome result }
    {
        self.rules.kind.known_after(&self.position, m, self.shown)
    }

    // The same by the plain bound, by which it always is so.
    fn shown_plainly(&self, m: Move) -> Shown
        requires allowed { Allows (G.game self.now.game) self.now.position m }
        requires kind { self.now.kind ≡ Plain }
        ensures shown { IsShownAfter G.game self.now m result }
    {
        self.known_after(m).unwrap()
    }

    // What is shown of where a move leads, looked for without its card and with it. The walk is as it was.
    fn sought(&mut self, m: Move, most: u8) -> Shown
        requires allowed { Allows (G.game self.old.game) self.old.position m }
        requires kind { self.old.kind ≡ Clearing }
        ensures shown { IsShownAfter G.game self.old m result }
        ensures same { self.new ≡ self.old }
    {
        let kept = self.kept(m.from);
        match m.to {
            Place::Home => Shown {
                number: kept.number - 1,
                note: kept.note,
            },
            _ => self.landed(m, kept, most),
        }
    }

    // What is shown of the position without the playable card of a place, where that was asked for last.
    #[inline(always)]
    fn known_kept(&self, from: Place) -> Option<Shown>
        ensures kept { IfSome result (λ kept. IsShown self.now.kind (board_without self.now.position from) kept.number kept.note) }
    {
        match &self.kept {
            Some((place, kept)) if *place == from => Some(*kept),
            _ => None,
        }
    }

    // What is shown of the position without the playable card of a place. Looking for it once a place is enough. The walk is as it was.
    fn kept(&mut self, from: Place) -> Shown
        requires kind { self.old.kind ≡ Clearing }
        ensures kept { IsShown self.old.kind (board_without self.old.position from) result.number result.note }
        ensures fits { IsPositionOf (G.game self.old.game) self.old.position }
        ensures same { self.new ≡ self.old }
    {
        if let Some(kept) = self.known_kept(from) {
            return kept;
        }
        let kept = self
            .rules
            .kind
            .lifted(&self.position, &self.lookup.table, from, self.shown);
        self.kept = Some((from, kept));
        kept
    }

    // What is shown of where a move leads that takes no card home, by what is shown without its card: where a ring was lost with it,
    // more may be shown anew, which is looked for where this isn't more than asked already. The walk is as it was.
    fn landed(&mut self, m: Move, kept: Shown, most: u8) -> Shown
        requires allowed { Allows (G.game self.old.game) self.old.position m }
        requires away { m.to ≢ Home }
        requires kind { self.old.kind ≡ Clearing }
        requires kept { IsShown self.old.kind (board_without self.old.position m.from) kept.number kept.note }
        ensures shown { IsShownAfter G.game self.old m result }
        ensures same { self.new ≡ self.old }
    {
        self.lookup.table.lift(&self.position, m.from);
        apply(&self.rules.game, &mut self.position, m);
        self.lookup.table.put(&self.position, m.to);
        let kind = self.rules.kind;
        let landed = kind.landed(&self.position, &self.lookup.table, m.to, kept, most);
        let has_lost_a_ring = kept.number < self.shown.number && kept.note != self.shown.note;
        let shown = if has_lost_a_ring && landed.number <= most {
            or_anew(kind, &self.position, &self.lookup.table, landed)
        } else {
            landed
        };
        self.lookup.table.lift(&self.position, m.to);
        self.position.shift(m.to, m.from);
        self.lookup.table.put(&self.position, m.from);
        shown
    }
}

// What is shown of a position, or what is shown of it anew, where that is more.
fn or_anew(kind: BoundKind, position: &Position, table: &ColumnTable, shown: Shown) -> Shown
    requires table { IsTableOf position.now.columns table.now }
    requires shown { IsShown kind position.now shown.number shown.note }
    ensures shown { IsShown kind position.now result.number result.note }
    ensures whole { IsPosition position.now }
{
    let anew = kind.shown(position, table);
    if shown.number < anew.number {
        anew
    } else {
        shown
    }
}

// A number that is plain to see of where a move lands, by the table of the columns where it was laid.
#[inline(always)]
fn least_where(
    kind: BoundKind,
    position: &Position,
    lookup: &Lookup,
    landing: &Landing,
    shown: Shown,
) -> u8
    requires lookup { (s : Board) × IsLookupOf s position.now lookup.now }
    requires landing { IsLanding position.now landing.now }
    requires shown { IsShown kind position.now shown.number shown.note }
    ensures least { (g : GameRules) (z : Board) → Step g position.now landing.now.m z → IsNoMore kind z result }
{
    if lookup.is_laid {
        kind.least_by(position, &lookup.table, landing, shown)
    } else {
        kind.least_after(position, landing.m, shown)
    }
}

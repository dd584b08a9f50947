//! What is asked of a position that moves lead to, and of where its own steps lead.

ghost use Rattle.std.specs.Prelude.{◌≡◌, ◌≢◌, ◌+◌, ◌<◌, ◌≤◌, ◌^◌, ◌↔◌, length, IsTrue, IfSome};
ghost use Rattle.fc_cards.specs.declared.places.Place.TheVariants.{Home};
ghost use Rattle.fc_position.specs.Board.{Board};
ghost use Rattle.fc_position.specs.Position.{IsPosition};
ghost use Rattle.fc_moves.specs.GameRules.{GameRules};
ghost use Rattle.fc_moves.specs.Step.{Allows, Step};
ghost use Rattle.fc_canonical.specs.Key.{BeginsWithBoard};
ghost use Rattle.fc_bound.specs.Kinds.{guide_of, low_of};
ghost use Rattle.fc_tables.specs.Table.{IsCoveredBelow, Lists, ListsClass, as_boards};
ghost use Rattle.fc_cert.specs.Content.{IsContent};
ghost use Rattle.fc_checker.specs.Check.{Holds, level as level_of};
ghost use Rattle.fc_checker.specs.inner.Lookups.{IsLookupOf};
ghost use Rattle.fc_checker.specs.inner.Steps.{IsKnownNear, IsListedCost, SettledHolds, StepHolds};

use crate::lookups::Lookup;
use arrayvec::ArrayVec;
use fc_bound::{BoundKind, GREATEST_BOUND, is_held_back};
use fc_canonical::{key, list_distinct_moves, position_of};
use fc_cards::Place;
use fc_cert::{Certificate, Kind};
use fc_home::settle;
use fc_moves::{Game, Move, apply};
use fc_position::Position;

// A record whose steps are looked at, as far as that is known: its key, its cost, and what makes it near.
#[derive(Clone, Copy)]
pub(crate) struct Parent<'a> {
    pub key: &'a [u8],
    pub cost: u32,
    pub near: Option<Near>,
}

// The level below which no list is to win, and the guide of a record's position, which leaves it below.
#[derive(Clone, Copy)]
pub(crate) struct Near {
    pub level: u32,
    pub guide: u8,
}

// The number of moves below which no list is to win, `None` where no list is to win at all.
#[inline]
pub(crate) fn level(certificate: &Certificate) -> Option<u32>
    ensures value { result ≡ level_of certificate.now }
{
    let head = certificate.head();
    match head.kind {
        Kind::Shortest => Some(certificate.move_count()),
        Kind::CannotWin => None,
        Kind::Between => Some(head.floor),
    }
}

// Whether so many moves and the bound of the position to which they lead reach the level. The bound itself, which may take
// long to count, is asked last.
pub(crate) fn is_far(
    certificate: &Certificate,
    level: u32,
    position: &Position,
    lookup: &Lookup,
    moves: u64,
) -> bool
    requires lookup { IsLookupOf position.now lookup.now }
    requires few { moves < 2 ^ 33 }
    ensures value { IsTrue result ↔ level ≤ moves + low_of certificate.now.head.bound position.now }
{
    is_seen_far(certificate, level, position, lookup, moves)
        || u64::from(level) <= moves + u64::from(certificate.head().bound.low(position))
}

// The same by the guide, which is counted quickly and nowhere greater: where that is enough, they do.
// It is counted no further than asked.
fn is_seen_far(
    certificate: &Certificate,
    level: u32,
    position: &Position,
    lookup: &Lookup,
    moves: u64,
) -> bool
    requires lookup { IsLookupOf position.now lookup.now }
    requires few { moves < 2 ^ 33 }
    ensures seen { IsTrue result → level ≤ moves + low_of certificate.now.head.bound position.now }
    ensures value { IsTrue result ↔ level ≤ moves + guide_of certificate.now.head.bound position.now }
{
    let Some(most) = u64::from(level).checked_sub(moves + 1) else {
        return true;
    };
    let most = most.min(u64::from(GREATEST_BOUND)) as u8;
    most < lookup.guide_within(certificate.head().bound, position, most)
}

// The cost at which the position's class is listed, `None` where it isn't.
fn listed_cost(certificate: &Certificate, position: &Position) -> Option<u32>
    requires content { IsContent certificate.now }
    ensures value { IsListedCost (as_boards certificate.now.rows) position.now result }
{
    certificate.find(key(position).as_slice())
}

// Whether the position's class is listed.
fn is_listed(certificate: &Certificate, position: &Position) -> bool
    requires content { IsContent certificate.now }
    ensures value { IsTrue result ↔ ListsClass (as_boards certificate.now.rows) position.now }
{
    listed_cost(certificate, position).is_some()
}

// Whether the position, to which so many moves lead, is listed at no greater cost.
fn is_listed_within(certificate: &Certificate, position: &Position, moves: u64) -> bool
    requires content { IsContent certificate.now }
    ensures value { IsTrue result ↔ Lists (as_boards certificate.now.rows) position.now moves }
{
    match listed_cost(certificate, position) {
        Some(cost) => u64::from(cost) <= moves,
        None => false,
    }
}

// Whether the position, to which so many moves lead, is covered below the level. Where it looks far, that is asked first.
fn is_covered(
    certificate: &Certificate,
    level: u32,
    position: &Position,
    lookup: &Lookup,
    moves: u64,
    looks_far: bool,
) -> bool
    requires content { IsContent certificate.now }
    requires lookup { IsLookupOf position.now lookup.now }
    requires few { moves < 2 ^ 33 }
    ensures value { IsTrue result ↔ IsCoveredBelow (low_of certificate.now.head.bound) level (as_boards certificate.now.rows) position.now moves }
{
    (looks_far && is_seen_far(certificate, level, position, lookup, moves))
        || is_listed_within(certificate, position, moves)
        || is_far(certificate, level, position, lookup, moves)
}

// Whether the position, to which so many moves lead, is covered, or where no list is to win, listed.
fn holds(
    certificate: &Certificate,
    position: &Position,
    lookup: &Lookup,
    moves: u64,
    looks_far: bool,
) -> bool
    requires content { IsContent certificate.now }
    requires lookup { IsLookupOf position.now lookup.now }
    requires few { moves < 2 ^ 33 }
    ensures value { IsTrue result ↔ Holds certificate.now (level_of certificate.now) position.now moves }
{
    match level(certificate) {
        Some(level) => is_covered(certificate, level, position, lookup, moves, looks_far),
        None => is_listed(certificate, position),
    }
}

// Whether the start holds, once settled: the position is.
pub(crate) fn start_holds<G: Game>(
    game: &G,
    certificate: &Certificate,
    position: &mut Position,
) -> bool
    requires content { IsContent certificate.now }
    requires whole { IsPosition position.old }
    ensures value { IsTrue result ↔ SettledHolds (G.game game.now) certificate.now position.old 0 }
{
    let count = settle(game, position, certificate.rule()).len();
    holds(certificate, position, &Lookup::Nothing, count as u64, false)
}

// What the bound of where a step leads that takes no card home is no less than, where that is plain to see of its card, by the
// guide of the position: a card in a cell holds nothing back, so without it no less is to be cleared.
fn plain_after(kind: BoundKind, position: &Position, m: Move, guide: u8) -> Option<u8>
    requires guide { guide ≡ guide_of kind position.now }
    ensures lower { IfSome result (λ after. (g : GameRules) (y : Board) → Step g position.now m y → m.to ≢ Home → after ≤ low_of kind y) }
    ensures whole { IsPosition position.now }
{
    let told = kind.guide_after(position, m, guide);
    match (told, kind, m.from) {
        (None, BoundKind::Clearing, Place::Cell(_)) => Some(guide),
        _ => told,
    }
}

// Whether where a step leads that takes no card home is plain to see to be far: then so it is once settled, since no move lowers
// the bound by more than one.
fn is_step_far(certificate: &Certificate, position: &Position, parent: &Parent<'_>, m: Move) -> bool
    requires near { IsKnownNear certificate.now position.now parent.now.near }
    ensures far { (g : GameRules) → IsTrue result → StepHolds g certificate.now position.now parent.now.cost m }
{
    let Some(near) = parent.near else {
        return false;
    };
    if m.to == Place::Home {
        return false;
    }
    match plain_after(certificate.head().bound, position, m, near.guide) {
        Some(after) => u64::from(near.level) <= u64::from(parent.cost) + 1 + u64::from(after),
        None => false,
    }
}

// Whether where a step leads is far if its card adds nothing to the bound, there and where it lay: a guess, as most cards do
// that stand above no lower card of their own suit.
fn looks_far(position: &Position, parent: &Parent<'_>, m: Move) -> bool {
    match parent.near {
        Some(near) => {
            m.to != Place::Home
                && u64::from(near.level) <= u64::from(parent.cost) + 1 + u64::from(near.guide)
                && !is_held_back(position, m.from)
        }
        None => false,
    }
}

// Whether where the move leads holds, once settled. The position is made as it was, and what is looked up of it: the card is moved
// back, or where cards went home, the position read again from the key that spells it.
fn step_holds<G: Game>(
    game: &G,
    certificate: &Certificate,
    position: &mut Position,
    lookup: &mut Lookup,
    parent: &Parent<'_>,
    m: Move,
) -> bool
    requires content { IsContent certificate.now }
    requires whole { IsPosition position.old }
    requires lookup { IsLookupOf position.old lookup.old }
    requires key { BeginsWithBoard parent.now.key.now position.old }
    requires near { IsKnownNear certificate.now position.old parent.now.near }
    requires allowed { Allows (G.game game.now) position.old m }
    ensures value { IsTrue result ↔ StepHolds (G.game game.now) certificate.now position.old parent.now.cost m }
    ensures same { position.new ≡ position.old }
    ensures lookup { IsLookupOf position.new lookup.new }
{
    if is_step_far(certificate, position, parent, m) {
        return true;
    }
    let looks_far = looks_far(position, parent, m);
    let moves = u64::from(parent.cost) + 1;
    lookup.lift(position, m.from);
    apply(game, position, m);
    let sent = settle(game, position, certificate.rule()).len();
    if sent == 0 && m.to != Place::Home {
        lookup.put(position, m.to);
        let holds = holds(certificate, position, lookup, moves, looks_far);
        lookup.lift(position, m.to);
        position.shift(m.to, m.from);
        lookup.put(position, m.from);
        return holds;
    }
    let moves = moves + sent as u64;
    let holds = holds(certificate, position, &Lookup::Nothing, moves, looks_far);
    *position = position_of(parent.key);
    lookup.put(position, m.from);
    holds
}

// Whether where each step of the position leads holds, once settled. Of the steps to one class, one is looked at.
pub(crate) fn steps_hold<G: Game>(
    game: &G,
    certificate: &Certificate,
    position: &mut Position,
    lookup: &mut Lookup,
    parent: &Parent<'_>,
) -> bool
    requires content { IsContent certificate.now }
    requires whole { IsPosition position.old }
    requires lookup { IsLookupOf position.old lookup.old }
    requires key { BeginsWithBoard parent.now.key.now position.old }
    requires near { IsKnownNear certificate.now position.old parent.now.near }
    ensures value { IsTrue result ↔ ((m : Move) → StepHolds (G.game game.now) certificate.now position.old parent.now.cost m) }
    ensures same { position.new ≡ position.old }
    ensures lookup { IsLookupOf position.new lookup.new }
{
    let mut moves = ArrayVec::new();
    list_distinct_moves(game, position, &mut moves);
    for m in moves.as_slice() {
        if !step_holds(game, certificate, position, lookup, parent, *m) {
            return false;
        }
    }
    true
}

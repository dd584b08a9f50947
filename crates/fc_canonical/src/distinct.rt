ghost use Rattle.std.specs.Prelude.{slice_index_or, ◌≡◌, ℕ, ◌+◌, ◌*◌, ◌<◌, ◌≤◌, ◌↔◌, IsTrue, IfSome, IfNone, Some, None, length};
ghost use Rattle.std.specs.Int.{bit_at};
ghost use Rattle.arrayvec.specs.ArrayVec.{array_vec_len};
ghost use Rattle.fc_cards.specs.declared.places.Place.TheVariants.{Column, Cell};
ghost use Rattle.fc_cards.specs.Card.{rank};
ghost use Rattle.fc_position.specs.Board.{Board, playable, column, last_of};
ghost use Rattle.fc_position.specs.Position.{IsPosition};
ghost use Rattle.fc_moves.specs.Step.{place_number};
ghost use Rattle.fc_canonical.specs.Distinct.{ListsClasses, AreFirst, AreInOrder};
ghost use Rattle.fc_canonical.specs.inner.Distinct.{TellLasts, HaveHosts, IsCellOf, IsEmptyColumn, IsOpening, GoesTo, IsFirstCell, IsFirstColumn, ListsDistinctBelow, AddsDistinct, IsLaterLone, IsLoneBelow, IsLone};

use arrayvec::ArrayVec;
use fc_cards::{Card, Place};
use fc_moves::{Game, Move};
use fc_position::Position;

/// Allowed moves, of which no two lead to positions of one class, and to each class to which an allowed move leads one:
/// the first by source and then by destination, in which order they are listed.
pub fn distinct_moves<G: Game>(game: &G, position: &Position) -> ArrayVec<Move, 132>
    ensures classes { ListsClasses (G.game game.now) position.now result.items }
    ensures first { AreFirst (G.game game.now) position.now result.items }
    ensures order { AreInOrder result.items }
{
    let mut list = ArrayVec::new();
    list_distinct_moves(game, position, &mut list);
    list
}

/// Lists the moves of [`distinct_moves`] in the place of what was in the list, so that none is copied.
pub fn list_distinct_moves<G: Game>(game: &G, position: &Position, list: &mut ArrayVec<Move, 132>)
    ensures classes { ListsClasses (G.game game.now) position.now list.new.items }
    ensures first { AreFirst (G.game game.now) position.now list.new.items }
    ensures order { AreInOrder list.new.items }
{
    // What a call tells of the position, each of the 52 cards in one place, is needed below.
    let _home = position.playable(Place::Home);
    let column = first_empty_column(position);
    let cell = first_empty_cell(game, position);
    let mut lasts = [0; 15];
    note_lasts(&mut lasts, position);
    list.clear();
    list_from_columns(game, position, &lasts, column, cell, list);
    list_from_cells(game, position, &lasts, column, list);
}

// Of each rank the columns whose last card has it, as bits.
pub(crate) type Lasts = [u8; 15];

// Notes the rank of each column's last card.
#[inline(always)]
pub(crate) fn note_lasts(lasts: &mut Lasts, position: &Position)
    requires count { length lasts.old ≡ 15 }
    ensures lasts { TellLasts position.now 8 lasts.new }
    ensures count { length lasts.new ≡ 15 }
{
    for j in 0..8 {
        note_last(lasts, j, position.column(j));
    }
}

// Notes the rank of the last card of the column with this number, if there is one.
#[inline(always)]
fn note_last(lasts: &mut Lasts, j: u8, cards: &[Card])
    requires there { j < 8 }
    requires count { length lasts.old ≡ 15 }
    ensures last { (l : ℕ) → last_of cards.now ≡ Some l → bit_at (slice_index_or lasts.new (rank l) 0) j ≡ 1 }
    ensures kept { (r i : ℕ) → bit_at (slice_index_or lasts.old r 0) i ≡ 1 → bit_at (slice_index_or lasts.new r 0) i ≡ 1 }
    ensures count { length lasts.new ≡ 15 }
{
    let Some(card) = cards.last() else {
        return;
    };
    lasts[card.rank() as usize] |= 1 << j;
}

// The columns whose last card is one rank higher than this one, as bits.
#[inline(always)]
pub(crate) fn hosts_of(lasts: &Lasts, card: Card) -> u8
    requires count { length lasts.now ≡ 15 }
    ensures hosts { (b : Board) → TellLasts b 8 lasts.now → HaveHosts b card result }
{
    lasts[card.rank() as usize + 1]
}

// The first column that holds no card.
pub(crate) fn first_empty_column(position: &Position) -> Option<u8>
    ensures first { IsFirstColumn position.now result }
{
    for j in 0..8 {
        if position.column(j).is_empty() {
            return Some(j);
        }
    }
    None
}

// The first cell of the game that holds no card.
pub(crate) fn first_empty_cell<G: Game>(game: &G, position: &Position) -> Option<u8>
    ensures first { IsFirstCell position.now (G.game game.now).cells result }
{
    let cells = game.cells();
    for j in 0..cells {
        if position.cell(j).is_none() {
            return Some(j);
        }
    }
    None
}

// Lists the moves of the last card of each column.
fn list_from_columns<G: Game>(
    game: &G,
    position: &Position,
    lasts: &Lasts,
    column: Option<u8>,
    cell: Option<u8>,
    list: &mut ArrayVec<Move, 132>,
)
    requires whole { IsPosition position.now }
    requires lasts { TellLasts position.now 8 lasts.now × (length lasts.now ≡ 15) }
    requires column { IsFirstColumn position.now column }
    requires cell { IsFirstCell position.now (G.game game.now).cells cell }
    requires empty { array_vec_len list.old ≡ 0 }
    ensures after { ListsDistinctBelow (G.game game.now) position.now (8 * 13) list.new.items }
    ensures count { array_vec_len list.new ≤ 80 }
{
    for i in 0..8 {
        if let Some(card) = position.column(i).last() {
            let from = Place::Column(i);
            let opening = opening_of(game, position, from, *card, column);
            let source = Source {
                from,
                card: *card,
                hosts: hosts_of(lasts, *card),
            };
            list_from(game, position, &source, opening, cell, list);
        }
    }
}

// Lists the moves of the card in each cell. None goes to a cell.
fn list_from_cells<G: Game>(
    game: &G,
    position: &Position,
    lasts: &Lasts,
    column: Option<u8>,
    list: &mut ArrayVec<Move, 132>,
)
    requires whole { IsPosition position.now }
    requires lasts { TellLasts position.now 8 lasts.now × (length lasts.now ≡ 15) }
    requires column { IsFirstColumn position.now column }
    requires before { ListsDistinctBelow (G.game game.now) position.now (8 * 13) list.old.items }
    requires room { array_vec_len list.old ≤ 80 }
    ensures after { ListsDistinctBelow (G.game game.now) position.now (12 * 13) list.new.items }
{
    for i in 0..4 {
        if let Some(card) = position.cell(i) {
            let from = Place::Cell(i);
            let opening = opening_of(game, position, from, card, column);
            let source = Source {
                from,
                card,
                hosts: hosts_of(lasts, card),
            };
            list_from(game, position, &source, opening, None, list);
        }
    }
}

// The empty column to which the card is listed: the first one, where the card may go there. A column's only card that
// goes there leads to the class itself, as does another's, so it is listed of the first such column alone.
#[inline(always)]
pub(crate) fn opening_of<G: Game>(
    game: &G,
    position: &Position,
    from: Place,
    card: Card,
    column: Option<u8>,
) -> Option<u8>
    requires whole { IsPosition position.now }
    requires card { playable position.now from ≡ Some card }
    requires column { IsFirstColumn position.now column }
    ensures value { IsOpening (G.game game.now) position.now from result }
    ensures empty { IfSome result (IsEmptyColumn position.now) }
{
    let j = column?;
    if game.opens(card) && !is_later_lone(game, position, from) {
        Some(j)
    } else {
        None
    }
}

// Whether the place is a column of one card, and an earlier column is one too whose card may go to an empty column.
fn is_later_lone<G: Game>(game: &G, position: &Position, from: Place) -> bool
    ensures value { IsTrue result ↔ IsLaterLone (G.game game.now) position.now from }
{
    match from {
        Place::Column(i) => i < 8 && position.column(i).len() == 1 && has_lone(game, position, i),
        _ => false,
    }
}

// Whether one of the first columns has one card alone, which may go to an empty column.
fn has_lone<G: Game>(game: &G, position: &Position, count: u8) -> bool
    requires few { count ≤ 8 }
    ensures value { IsTrue result ↔ IsLoneBelow (G.game game.now) position.now count }
{
    for k in 0..count {
        if is_lone(game, position.column(k)) {
            return true;
        }
    }
    false
}

// Whether the cards are one card alone, which may go to an empty column.
fn is_lone<G: Game>(game: &G, cards: &[Card]) -> bool
    ensures value { IsTrue result ↔ IsLone (G.game game.now) cards.now }
{
    match cards {
        [card] => game.opens(*card),
        _ => false,
    }
}

// A playable card, its place, and the columns, as bits, whose last card is one rank higher: on no other a card stands.
#[derive(Clone, Copy)]
pub(crate) struct Source {
    pub(crate) from: Place,
    pub(crate) card: Card,
    pub(crate) hosts: u8,
}

// Lists the moves of the card, behind what is in the list.
#[inline(always)]
pub(crate) fn list_from<G: Game>(
    game: &G,
    position: &Position,
    source: &Source,
    opening: Option<u8>,
    cell: Option<u8>,
    list: &mut ArrayVec<Move, 132>,
)
    requires whole { IsPosition position.now }
    requires card { playable position.now source.now.from ≡ Some source.now.card }
    requires hosts { HaveHosts position.now source.now.card source.now.hosts }
    requires opening { IsOpening (G.game game.now) position.now source.now.from opening }
    requires cell { IsCellOf (G.game game.now) position.now source.now.from cell }
    requires room { array_vec_len list.old + 10 ≤ 132 }
    ensures adds { AddsDistinct (G.game game.now) position.now source.now.from (place_number source.now.from * 13) (place_number source.now.from * 13 + 13) list.old.items list.new.items }
    ensures count { array_vec_len list.new ≤ array_vec_len list.old + 10 }
{
    list_to_columns(game, position, source, opening, list);
    if let Some(j) = cell {
        let to = Place::Cell(j);
        list.push(Move {
            from: source.from,
            to,
        });
    }
    list_to_home(game, position, source.from, source.card, list);
}

// Lists the moves of the card to columns, of which those are looked at that may take it: most cards have no such.
#[inline(always)]
fn list_to_columns<G: Game>(
    game: &G,
    position: &Position,
    source: &Source,
    opening: Option<u8>,
    list: &mut ArrayVec<Move, 132>,
)
    requires whole { IsPosition position.now }
    requires card { playable position.now source.now.from ≡ Some source.now.card }
    requires hosts { HaveHosts position.now source.now.card source.now.hosts }
    requires opening { IsOpening (G.game game.now) position.now source.now.from opening }
    requires room { array_vec_len list.old + 8 ≤ 132 }
    ensures adds { AddsDistinct (G.game game.now) position.now source.now.from (place_number source.now.from * 13) (place_number source.now.from * 13 + 8) list.old.items list.new.items }
    ensures count { array_vec_len list.new ≤ array_vec_len list.old + 8 }
{
    let mut rest = takers_of(source, opening);
    let mut j = 0;
    while rest != 0 {
        let passed = rest.trailing_zeros() as u8;
        j += passed;
        rest = rest >> passed >> 1;
        list_to_column(game, position, source, opening, j, list);
        j += 1;
    }
}

// The columns that may take the card, as bits: all where it opens one, which it seldom does, else its hosts.
#[inline(always)]
fn takers_of(source: &Source, opening: Option<u8>) -> u8
    ensures some { IfSome opening (λ _. result ≡ 255) }
    ensures none { IfNone opening (result ≡ source.now.hosts) }
{
    match opening {
        Some(_) => 255,
        None => source.hosts,
    }
}

// Lists the move of the card to one column.
#[inline(always)]
fn list_to_column<G: Game>(
    game: &G,
    position: &Position,
    source: &Source,
    opening: Option<u8>,
    j: u8,
    list: &mut ArrayVec<Move, 132>,
)
    requires whole { IsPosition position.now }
    requires there { j < 8 }
    requires card { playable position.now source.now.from ≡ Some source.now.card }
    requires opening { IsOpening (G.game game.now) position.now source.now.from opening }
    requires room { array_vec_len list.old < 132 }
    ensures adds { AddsDistinct (G.game game.now) position.now source.now.from (place_number source.now.from * 13 + j) (place_number source.now.from * 13 + (j + 1)) list.old.items list.new.items }
    ensures count { array_vec_len list.new ≤ array_vec_len list.old + 1 }
{
    if goes_to(game, position.column(j), source.card, opening == Some(j)) {
        let to = Place::Column(j);
        list.push(Move {
            from: source.from,
            to,
        });
    }
}

// Whether the card is listed to a column with these cards: to an empty one where this says so, else where it stands on
// the last. No card stands on itself, so its own column needs no test.
pub(crate) fn goes_to<G: Game>(game: &G, cards: &[Card], card: Card, opens: bool) -> bool
    ensures value { IsTrue result ↔ GoesTo (G.game game.now) cards.now card (IsTrue opens) }
{
    match cards.last() {
        Some(last) => game.stands(card, *last),
        None => opens,
    }
}

// Lists the move of the card home, where it is next in its suit.
#[inline(always)]
fn list_to_home<G: Game>(
    game: &G,
    position: &Position,
    from: Place,
    card: Card,
    list: &mut ArrayVec<Move, 132>,
)
    requires whole { IsPosition position.now }
    requires card { playable position.now from ≡ Some card }
    requires room { array_vec_len list.old < 132 }
    ensures adds { AddsDistinct (G.game game.now) position.now from (place_number from * 13 + 12) (place_number from * 13 + 13) list.old.items list.new.items }
    ensures count { array_vec_len list.new ≤ array_vec_len list.old + 1 }
{
    if position.is_next(card) {
        let to = Place::Home;
        list.push(Move { from, to });
    }
}

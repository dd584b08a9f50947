ghost use Rattle.std.specs.Prelude.{◌≡◌, ℕ, ◌+◌, ◌*◌, ◌≤◌, ◌↔◌, IsTrue, Some, length};
ghost use Rattle.arrayvec.specs.ArrayVec.{array_vec_len};
ghost use Rattle.fc_position.specs.Board.{Board, playable};
ghost use Rattle.fc_position.specs.Position.{IsPosition};
ghost use Rattle.fc_moves.specs.Step.{place_number};
ghost use Rattle.fc_canonical.specs.Distinct.{ListsWanted, is_wanted};
ghost use Rattle.fc_canonical.specs.inner.Distinct.{TellLasts, HaveHosts, IsCellOf, AddsDistinct, IsFirstCell, IsFirstColumn};
ghost use Rattle.fc_canonical.specs.inner.Wanted.{HasHost, HasListed, ListsWantedBelow};

use crate::distinct::{
    Lasts, Source, first_empty_cell, first_empty_column, goes_to, hosts_of, list_from, note_lasts,
    opening_of,
};
use arrayvec::ArrayVec;
use fc_cards::{Card, Place};
use fc_moves::{Game, Move};
use fc_position::Position;

/// Lists the moves of [`distinct_moves`](crate::distinct_moves) that take a wanted card, one bit for each by its number, in
/// the place of what was in the list, and tells whether there are others, which take a card that isn't wanted.
pub fn list_wanted_moves<G: Game>(
    game: &G,
    position: &Position,
    wanted: u64,
    list: &mut ArrayVec<Move, 132>,
) -> bool
    ensures listed { ListsWanted (G.game game.now) position.now wanted list.new.items result }
{
    // What a call tells of the position, each of the 52 cards in one place, is needed below.
    let _home = position.playable(Place::Home);
    let spaces = Spaces {
        column: first_empty_column(position),
        cell: first_empty_cell(game, position),
    };
    let mut lasts = [0; 15];
    note_lasts(&mut lasts, position);
    list.clear();
    let others = list_from_columns(game, position, &lasts, spaces, wanted, list);
    let sought = Sought {
        cards: wanted,
        others,
    };
    list_from_cells(game, position, &lasts, spaces, sought, list)
}

// The empty column and the empty cell to which a card may be listed.
#[derive(Clone, Copy)]
struct Spaces {
    column: Option<u8>,
    cell: Option<u8>,
}

// The wanted cards, one bit for each, and whether a card that isn't wanted has a move so far.
#[derive(Clone, Copy)]
struct Sought {
    cards: u64,
    others: bool,
}

// Lists the moves of the last card of each column that is wanted, and tells whether another has one. That is asked only
// until one has: from then on a card that isn't wanted costs no more than its test.
fn list_from_columns<G: Game>(
    game: &G,
    position: &Position,
    lasts: &Lasts,
    spaces: Spaces,
    wanted: u64,
    list: &mut ArrayVec<Move, 132>,
) -> bool
    requires whole { IsPosition position.now }
    requires lasts { TellLasts position.now 8 lasts.now × (length lasts.now ≡ 15) }
    requires column { IsFirstColumn position.now spaces.column }
    requires cell { IsFirstCell position.now (G.game game.now).cells spaces.cell }
    requires empty { array_vec_len list.old ≡ 0 }
    ensures after { ListsWantedBelow (G.game game.now) position.now wanted (8 * 13) list.new.items result }
    ensures count { array_vec_len list.new ≤ 80 }
{
    let mut others = false;
    for i in 0..8 {
        if let Some(card) = position.column(i).last() {
            if is_wanted(wanted, *card) {
                let source = source_of(lasts, Place::Column(i), *card);
                list_card(game, position, &source, spaces, list);
            } else if !others {
                let source = source_of(lasts, Place::Column(i), *card);
                others = has_move(game, position, &source, spaces);
            }
        }
    }
    others
}

// Lists the moves of the card in each cell that is wanted, and tells whether there are others. None goes to a cell.
fn list_from_cells<G: Game>(
    game: &G,
    position: &Position,
    lasts: &Lasts,
    spaces: Spaces,
    mut sought: Sought,
    list: &mut ArrayVec<Move, 132>,
) -> bool
    requires whole { IsPosition position.now }
    requires lasts { TellLasts position.now 8 lasts.now × (length lasts.now ≡ 15) }
    requires column { IsFirstColumn position.now spaces.column }
    requires before { ListsWantedBelow (G.game game.now) position.now sought.cards (8 * 13) list.old.items sought.others }
    requires room { array_vec_len list.old ≤ 80 }
    ensures after { ListsWantedBelow (G.game game.now) position.now sought.cards (12 * 13) list.new.items result }
{
    let spaces = Spaces {
        cell: None,
        ..spaces
    };
    for i in 0..4 {
        if let Some(card) = position.cell(i) {
            if is_wanted(sought.cards, card) {
                let source = source_of(lasts, Place::Cell(i), card);
                list_card(game, position, &source, spaces, list);
            } else if !sought.others {
                let source = source_of(lasts, Place::Cell(i), card);
                sought.others = has_move(game, position, &source, spaces);
            }
        }
    }
    sought.others
}

// Whether the card is one of those that are wanted.
#[inline(always)]
fn is_wanted(wanted: u64, card: Card) -> bool
    ensures value { result ≡ is_wanted wanted (Some card) }
{
    wanted >> card.index() & 1 != 0
}

// The card at its place, with the columns that may take it.
#[inline(always)]
fn source_of(lasts: &Lasts, from: Place, card: Card) -> Source
    requires count { length lasts.now ≡ 15 }
    ensures from { result.from ≡ from }
    ensures card { result.card ≡ card }
    ensures hosts { (b : Board) → TellLasts b 8 lasts.now → HaveHosts b card result.hosts }
{
    Source {
        from,
        card,
        hosts: hosts_of(lasts, card),
    }
}

// Lists the moves of the card, behind what is in the list.
#[inline(always)]
fn list_card<G: Game>(
    game: &G,
    position: &Position,
    source: &Source,
    spaces: Spaces,
    list: &mut ArrayVec<Move, 132>,
)
    requires whole { IsPosition position.now }
    requires card { playable position.now source.now.from ≡ Some source.now.card }
    requires hosts { HaveHosts position.now source.now.card source.now.hosts }
    requires column { IsFirstColumn position.now spaces.column }
    requires cell { IsCellOf (G.game game.now) position.now source.now.from spaces.cell }
    requires room { array_vec_len list.old + 10 ≤ 132 }
    ensures adds { AddsDistinct (G.game game.now) position.now source.now.from (place_number source.now.from * 13) (place_number source.now.from * 13 + 13) list.old.items list.new.items }
    ensures count { array_vec_len list.new ≤ array_vec_len list.old + 10 }
{
    let opening = opening_of(game, position, source.from, source.card, spaces.column);
    list_from(game, position, source, opening, spaces.cell, list);
}

// Whether a move of the card is to be listed, asked in the order of what it costs.
fn has_move<G: Game>(game: &G, position: &Position, source: &Source, spaces: Spaces) -> bool
    requires whole { IsPosition position.now }
    requires card { playable position.now source.now.from ≡ Some source.now.card }
    requires hosts { HaveHosts position.now source.now.card source.now.hosts }
    requires column { IsFirstColumn position.now spaces.column }
    requires cell { IsCellOf (G.game game.now) position.now source.now.from spaces.cell }
    ensures value { IsTrue result ↔ HasListed (G.game game.now) position.now source.now.from }
{
    if spaces.cell.is_some() {
        return true;
    }
    if position.is_next(source.card) {
        return true;
    }
    if opening_of(game, position, source.from, source.card, spaces.column).is_some() {
        return true;
    }
    has_host(game, position, source)
}

// Whether the card may be put on the last card of a column.
fn has_host<G: Game>(game: &G, position: &Position, source: &Source) -> bool
    requires hosts { HaveHosts position.now source.now.card source.now.hosts }
    ensures value { IsTrue result ↔ HasHost (G.game game.now) position.now source.now.card }
{
    if source.hosts == 0 {
        return false;
    }
    for j in 0..8 {
        if source.hosts >> j & 1 != 0 && goes_to(game, position.column(j), source.card, false) {
            return true;
        }
    }
    false
}

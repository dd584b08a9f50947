//! Which entry of a list is refused, where it stands, which card it would move, and why it can't: the line after the fault's
//! own.
ghost use Rattle.fc_position.specs.Position.{Fits};
ghost use Rattle.fc_moves.specs.GameRules.{IsPositionOf};

use crate::output::token_fronts::{front_of, rest_of};
use fc_cards::{Card, Place};
use fc_lists::{LONGEST_MOVES, ListQuestion, ListWants, list_board};
use fc_moves::{Game, Move, Refusal, refusal_of};
use fc_position::Position;
use fc_replay::{MoveGaps, RefusedMove, ReplayFault, Stop, first_stop};
use fc_runs::ProgramFault;
use fc_sequences::{Pair, read_pair};
use fc_text::Tokens;
use std::alloc::Global;

/// Says which move of a list is refused, each of whose entries moves one card.
pub fn tell_move<G: Game>(rt: &HostRuntime, game: &G, start: &Position, list: &[u8])
    requires fits { Fits (G.game game.now).cells start.now }
{
    if list.len() > LONGEST_MOVES {
        // (the run has refused these)
        return;
    }
    let Some(Stop { step, refused, .. }) = first_stop(game, start, list) else {
        return;
    };
    let Some(refused) = refused else {
        tell_entry(
            rt,
            list,
            step,
            " is no move: a move is two letters, from where to where: columns 1 to 8, cells a to d, home h",
        );
        return;
    };
    tell_place(rt, list, step);
    tell_refusal(rt, &refused);
}

/// Says which entry of a list is refused, whose entries may move several cards.
pub fn tell_sequence<G: Game>(
    rt: &HostRuntime,
    game: &G,
    start: &Position,
    list: &[u8],
    fault: ProgramFault,
)
    requires position { IsPositionOf (G.game game.now) start.now }
{
    match fault {
        ProgramFault::Moves(ReplayFault::BadMove(step)) => tell_entry(
            rt,
            list,
            step,
            " is no entry: a move's two letters, and perhaps v and how many cards, as 24 or 24v2",
        ),
        ProgramFault::Moves(ReplayFault::NotAllowed(step)) => {
            tell_place(rt, list, step);
            tell_unplayed(rt, game, start, list, step);
        }
        ProgramFault::TooManyWays(step) => {
            tell_entry(rt, list, step, " is where there are more than 1000 boards")
        }
        _ => {}
    }
}

// Says where an entry stands, and this of it, in a line.
fn tell_entry(rt: &HostRuntime, list: &[u8], entry: u32, words: &str) {
    tell_place(rt, list, entry);
    let _told = eprintln!(rt; "{words}");
}

// Says the number of an entry, which counts from 1, its line and what stands there, at the beginning of a line.
fn tell_place(rt: &HostRuntime, list: &[u8], entry: u32) {
    let _told = eprint!(rt; "fc_solve: entry {entry}");
    let Some((line, token)) = place_of(list, entry) else {
        return;
    };
    let (shown, more) = (front_of(token).escape_ascii(), rest_of(token));
    let _told = eprint!(rt; ", line {line}: '{shown}{more}'");
}

// The line of an entry and what stands there; both count from 1.
fn place_of(list: &[u8], entry: u32) -> Option<(usize, &[u8])> {
    let mut left = entry as usize;
    for (number, line) in list.split(|byte| *byte == b'\n').enumerate() {
        let count = entries_of(line);
        if left <= count {
            return Some((number.saturating_add(1), token_of(line, left)?));
        }
        left -= count;
    }
    None
}

// How many entries a line has.
fn entries_of(line: &[u8]) -> usize {
    let mut count = 0usize;
    for _token in Tokens::new(line, MoveGaps) {
        count = count.saturating_add(1);
    }
    count
}

// The entry of a number in a line, which counts from 1.
fn token_of(line: &[u8], number: usize) -> Option<&[u8]> {
    let mut left = number;
    for token in Tokens::new(line, MoveGaps) {
        if left <= 1 {
            return Some(token);
        }
        left -= 1;
    }
    None
}

// Says which card a refused move would move, and why it doesn't, at the end of a line.
fn tell_refusal(rt: &HostRuntime, refused: &RefusedMove) {
    let (told, refusal) = (&refused.told, refused.refusal);
    tell_card(rt, told.card);
    let _told = match told.beneath {
        Some(last) if refusal == Refusal::NoStand => eprintln!(rt; ": {refusal}, the {last}"),
        _ => eprintln!(rt; ": {refusal}"),
    };
}

// Says which card would be moved, if there is one.
fn tell_card(rt: &HostRuntime, card: Option<Card>) {
    if let Some(card) = card {
        let _told = eprint!(rt; " would move the {card}");
    }
}

// Says which card an entry would move that can't be played, and why it can't, at the end of a line.
fn tell_unplayed<G: Game>(rt: &HostRuntime, game: &G, start: &Position, list: &[u8], step: u32)
    requires position { IsPositionOf (G.game game.now) start.now }
{
    let entry = match place_of(list, step) {
        Some((_, token)) => read_pair(token),
        None => None,
    };
    let board = board_before(rt.alloc(), game, start, list, step);
    let (Some(pair), Some(board)) = (entry, board) else {
        let _told = eprintln!(rt; " can't be played");
        return;
    };
    tell_card(rt, first_card(&board, &pair));
    let _told = match hindrance(game, &board, &pair) {
        Some(refusal) => eprintln!(rt; ": {refusal}"),
        None if is_carried(&pair) => eprintln!(rt;
            ": no cards may go that way, with the free cells and the empty columns that there are"
        ),
        None => eprintln!(rt; ": one card at a time goes to a cell, from a cell, or home"),
    };
}

// The board before a step of a list, up to which its entries can be played.
fn board_before<G: Game>(
    alloc: Global,
    game: &G,
    start: &Position,
    list: &[u8],
    step: u32,
) -> Option<Position>
    requires position { IsPositionOf (G.game game.now) start.now }
{
    if list.len() > LONGEST_MOVES {
        // (the run has refused these)
        return None;
    }
    let question = ListQuestion {
        wants: ListWants::BoardAfter(step.checked_sub(1)?),
        has_sequences: true,
    };
    list_board(alloc, game, start, list, question).ok()
}

// Whether an entry carries cards from column to column.
fn is_carried(pair: &Pair) -> bool {
    matches!((pair.from, pair.to), (Place::Column(_), Place::Column(_)))
}

// The deepest card of those that an entry tells to be moved, which is one where it doesn't tell how many.
fn first_card(board: &Position, pair: &Pair) -> Option<Card> {
    if let (Place::Column(column), Place::Column(_), Some(count)) = (pair.from, pair.to, pair.count)
        && column < 8
    {
        let cards = board.column(column);
        return cards.get(cards.len().checked_sub(count as usize)?).copied();
    }
    board.playable(pair.from)
}

// Why the rules refuse an entry, where that is plain from one card: of a sequence there is none, or it has no way.
fn hindrance<G: Game>(game: &G, board: &Position, pair: &Pair) -> Option<Refusal> {
    let (from, to) = (pair.from, pair.to);
    let refusal = refusal_of(game, board, Move { from, to })?;
    match refusal {
        Refusal::NoCard | Refusal::NoWay => Some(refusal),
        _ if is_carried(pair) => None,
        _ => Some(refusal),
    }
}

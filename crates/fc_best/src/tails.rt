//! A shorter tail of a list that wins: from a board on its way another search goes for fewer moves than are left.

ghost use Rattle.std.specs.Prelude.{◌≤◌, length, IfOk};
ghost use Rattle.fc_position.specs.Board.{Board};
ghost use Rattle.fc_position.specs.Position.{Fits};
ghost use Rattle.fc_moves.specs.Run.{Run};
ghost use Rattle.fc_best.specs.inner.Attempt.{IsGoodList};
ghost use Rattle.fc_best.specs.inner.Tail.{IsTail, IsWithEnd};
ghost use Rattle.fc_best.specs.inner.Watch.{HearsFurther, IsFurther};

use crate::attempts::Aim;
use crate::relays::attempt_after;
use fc_answers::MoveList;
use fc_methods::Question;
use fc_moves::{Game, Move, apply};
use fc_position::Position;
use fc_search::{Listener, Progress};
use std::alloc::{AllocError, Global};

// What a search for a shorter tail of a list has found.
#[derive(Drop)]
pub(crate) struct Tail {
    // The list with a shorter tail, where it found one.
    pub(crate) list: Option<MoveList>,
    // How many classes it stored.
    pub(crate) stored: u32,
    // Whether it gave up.
    pub(crate) has_given_up: bool,
    // How far the searches are after it.
    pub(crate) far: Progress,
}

// So many moves at the end of a list.
#[derive(Clone, Copy)]
pub(crate) struct Rest<'a> {
    pub(crate) list: &'a MoveList,
    pub(crate) last: u32,
}

impl Tail {
    // Searches for fewer moves than the last so many of a list that wins, after searches that told this.
    pub(crate) fn of<G: Game + Drop, L: Listener>(
        alloc: Global,
        question: &Question<G>,
        position: &Position,
        rest: Rest<'_>,
        before: Progress,
        listener: &mut L,
    ) -> Result<Self, AllocError>
        requires fits { Fits question.now.game.cells position.now }
        requires good { IsGoodList question.now.game position.now rest.list.now }
        requires within { rest.last ≤ length rest.list.now }
        ensures right { IfOk result (IsTail question.now position.now rest.entry.list.now) }
        ensures far { IfOk result (λ tail. IsFurther before tail.far) }
        ensures heard { HearsFurther L.hears before listener.old listener.new }
    {
        let Rest { list, last } = rest;
        let (front, _) = list.as_slice().split_at(list.len() - last as usize);
        let middle = position_after(question.game(), position, front);
        let aim = Aim::below(last);
        let (attempt, far) = attempt_after(alloc, question, &middle, aim, before, listener)?;
        let (stored, has_given_up) = (attempt.stored, attempt.given_up.is_some());
        let list = with_end(alloc, front, attempt.list, last as usize)?;
        Ok(Tail {
            list,
            stored,
            has_given_up,
            far,
        })
    }
}

// The position that these moves lead to.
fn position_after<G: Game>(game: &G, position: &Position, moves: &[Move]) -> Position
    requires fits { Fits (G.game game.now).cells position.now }
    requires run { (c : Board) × Run (G.game game.now) position.now moves.now c }
    ensures there { Run (G.game game.now) position.now moves.now result }
    ensures fits { Fits (G.game game.now).cells result }
{
    let mut board = position.copy();
    for m in moves {
        apply(game, &mut board, *m);
    }
    board
}

// The moves with the end that was found, where it has fewer than so many.
fn with_end(
    alloc: Global,
    front: &[Move],
    end: Option<MoveList>,
    limit: usize,
) -> Result<Option<MoveList>, AllocError>
    ensures value { IfOk result (IsWithEnd front.now end limit) }
{
    let Some(end) = end else {
        return Ok(None);
    };
    if limit <= end.len() {
        return Ok(None);
    }
    let mut moves = Vec::from_slice(alloc, front)?;
    moves.extend_from_slice(end.as_slice())?;
    Ok(Some(MoveList::new(moves)))
}

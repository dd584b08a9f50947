ghost use Rattle.std.specs.Prelude.{◌≤◌, ◌<◌, ◌⊎◌, ◌↔◌, length, IsErr, IsTrue};
ghost use Rattle.fc_io.specs.Moves.{Stays};
ghost use Rattle.fc_position.specs.Board.{Board};
ghost use Rattle.fc_position.specs.Position.{Fits};
ghost use Rattle.fc_moves.specs.Run.{Run};
ghost use Rattle.fc_replay.specs.Played.{PlaysAs, sink_change};

use crate::pages::{Page, write_page};
use crate::replays::Ended;
use crate::tellings::ToldMove;
use fc_io::{Failed, Sink};
use fc_moves::{Game, Move, apply};
use fc_position::Position;

/// Makes a list of moves that runs from a position that fits the game, writes a page after each move to `sink`, one straight
/// after the other, and answers the number of moves, and whether the last board is won. Steps count from 1.
///
/// # Errors
/// The sink failed at the page of a move: a front of the pages up to that one is written. A sink that had failed before
/// the call takes nothing, and fails at the first page.
pub fn play<G: Game, K: Sink>(
    game: &G,
    position: &Position,
    moves: &[Move],
    page: Page,
    sink: &mut K,
) -> Result<Ended, Failed>
    requires fits { Fits (G.game game.now).cells position.now }
    requires run { (c : Board) × Run (G.game game.now) position.now moves.now c }
    requires few { length moves.now ≤ 4294967295 }
    ensures played { PlaysAs page (G.game game.now) position.now moves.now
        (sink_change (K.held sink.old) (K.held sink.new)) result }
    ensures fault { IsTrue (K.has_failed sink.new) ↔ (IsErr result ⊎ IsTrue (K.has_failed sink.old)) }
    ensures stays { IsTrue (K.has_failed sink.old) → 0 < length moves.now → IsErr result }
    ensures unmoved { IsTrue (K.has_failed sink.old) → Stays (K.held sink.old) (K.held sink.new) }
{
    let mut board = position.copy();
    let mut steps = 0;
    for m in moves {
        steps += 1;
        let told = ToldMove::of(steps, &board, *m);
        apply(game, &mut board, *m);
        write_page(page, game.cells(), &told, &board, sink)?;
    }
    Ok(Ended {
        moves: steps,
        is_won: board.is_won(),
    })
}

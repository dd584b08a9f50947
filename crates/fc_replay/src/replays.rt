ghost use Rattle.std.specs.Prelude.{◌≡◌, ◌≤◌, ◌⊎◌, ◌↔◌, length, IsTrue, IsErrOf};
ghost use Rattle.fc_io.specs.Moves.{Stays};
ghost use Rattle.fc_position.specs.Position.{Fits};
ghost use Rattle.fc_replay.specs.Token.{move_tokens};
ghost use Rattle.fc_replay.specs.Played.{Replays, ReplaysAs, BeginsWithStep, ended_status, sink_change};

use crate::faults::ReplayFault;
use crate::move_tokens::{MoveGaps, read_token};
use crate::pages::{Page, write_page};
use crate::tellings::ToldMove;
use fc_io::Sink;
use fc_moves::{Game, allows, apply};
use fc_position::Position;
use fc_text::Tokens;

/// What a list of moves came to.
#[derive(Clone, Copy, Debug, PartialEq, Eq)]
pub struct Ended {
    /// How many moves there were.
    pub moves: u32,
    /// Whether every card is home after them.
    pub is_won: bool,
}

impl Ended {
    /// The exit status that tells how a list ended: 1 where it had to win and didn't, else 0.
    pub fn status(self, must_win: bool) -> u8
        ensures value { result ≡ ended_status must_win self }
    {
        if must_win && !self.is_won { 1 } else { 0 }
    }
}

/// Plays a text of moves from a position that fits the game, writes the printed board after each move to `sink`, one
/// straight after the other, and answers the number of moves.
///
/// The moves are those of `fc_moves::read_move` with letters in either case, parted by spaces, tabs, CR and LF. The
/// text has at most 1,048,576 bytes.
///
/// # Errors
/// The first step whose token is no move or isn't allowed, steps counting from 1: the boards before it stand written.
/// Or `Write` where the sink failed at the board of an allowed move: a front of the boards up to that one is written. A
/// sink that had failed before the call takes nothing, and fails at the first board.
pub fn replay<G: Game, K: Sink>(
    game: &G,
    position: &Position,
    text: &[u8],
    sink: &mut K,
) -> Result<u32, ReplayFault>
    requires fits { Fits (G.game game.now).cells position.now }
    requires short { length text.now ≤ 1048576 }
    ensures replayed { Replays (G.game game.now) position.now (move_tokens text.now)
        (K.held sink.old) (K.held sink.new) result }
    ensures fault { IsTrue (K.has_failed sink.new)
        ↔ (IsErrOf result ReplayFault.Write ⊎ IsTrue (K.has_failed sink.old)) }
    ensures stays { IsTrue (K.has_failed sink.old)
        → BeginsWithStep (G.game game.now) position.now (move_tokens text.now)
        → IsErrOf result ReplayFault.Write }
    ensures unmoved { IsTrue (K.has_failed sink.old) → Stays (K.held sink.old) (K.held sink.new) }
{
    match replay_as(game, position, text, Page::Board, sink) {
        Ok(ended) => Ok(ended.moves),
        Err(fault) => Err(fault),
    }
}

/// Plays a text of moves as `replay` does, and writes a page after each move: what it says of a step is chosen by the
/// caller. Steps count from 1. It answers the number of moves, and whether the last board is won.
///
/// # Errors
/// Those of `replay`, pages standing where boards do there.
pub fn replay_as<G: Game, K: Sink>(
    game: &G,
    position: &Position,
    text: &[u8],
    page: Page,
    sink: &mut K,
) -> Result<Ended, ReplayFault>
    requires fits { Fits (G.game game.now).cells position.now }
    requires short { length text.now ≤ 1048576 }
    ensures replayed { ReplaysAs page (G.game game.now) position.now (move_tokens text.now)
        (sink_change (K.held sink.old) (K.held sink.new)) result }
    ensures fault { IsTrue (K.has_failed sink.new)
        ↔ (IsErrOf result ReplayFault.Write ⊎ IsTrue (K.has_failed sink.old)) }
    ensures stays { IsTrue (K.has_failed sink.old)
        → BeginsWithStep (G.game game.now) position.now (move_tokens text.now)
        → IsErrOf result ReplayFault.Write }
    ensures unmoved { IsTrue (K.has_failed sink.old) → Stays (K.held sink.old) (K.held sink.new) }
{
    let mut board = position.copy();
    let mut steps = 0;
    for token in Tokens::new(text, MoveGaps) {
        steps += 1;
        let Some(m) = read_token(token) else {
            return Err(ReplayFault::BadMove(steps));
        };
        if !allows(game, &board, m) {
            return Err(ReplayFault::NotAllowed(steps));
        }
        let told = ToldMove::of(steps, &board, m);
        apply(game, &mut board, m);
        write_page(page, game.cells(), &told, &board, sink)?;
    }
    Ok(Ended {
        moves: steps,
        is_won: board.is_won(),
    })
}

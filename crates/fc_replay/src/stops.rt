ghost use Rattle.std.specs.Prelude.{◌≤◌, length, IfSome, IfNone};
ghost use Rattle.fc_position.specs.Position.{Fits};
ghost use Rattle.fc_replay.specs.Played.{IsFirstStop, PlayAll};
ghost use Rattle.fc_replay.specs.Token.{move_tokens};

use crate::move_tokens::{MoveGaps, read_token};
use crate::tellings::ToldMove;
use fc_moves::{Game, Refusal, apply, refusal_of};
use fc_position::Position;
use fc_text::Tokens;

/// A move that the rules refuse.
#[derive(Clone, Copy, Debug, PartialEq, Eq)]
pub struct RefusedMove {
    /// The move, as it is told from the board before it.
    pub told: ToldMove,
    /// Why the rules refuse it.
    pub refusal: Refusal,
}

/// Where a text of moves stops being one that the rules allow.
#[derive(Clone, Copy, Debug)]
pub struct Stop<'a> {
    /// The number of the step, which counts from 1.
    pub step: u32,
    /// What stands there in the text.
    pub token: &'a [u8],
    /// The move that the rules refuse; `None` where the token is no move.
    pub refused: Option<RefusedMove>,
}

/// The first token of a text of moves, as `replay` reads them, that is no move or isn't allowed, played from a position that
/// fits the game; `None` where all are. The text has at most 1,048,576 bytes.
pub fn first_stop<'a, G: Game>(game: &G, position: &Position, text: &'a [u8]) -> Option<Stop<'a>>
    requires fits { Fits (G.game game.now).cells position.now }
    requires short { length text.now ≤ 1048576 }
    ensures stopped { IfSome result (λ stop. IsFirstStop (G.game game.now) position.now (move_tokens text.now)
        stop.step stop.token.now stop.refused) }
    ensures played { IfNone result (PlayAll (G.game game.now) position.now (move_tokens text.now)) }
{
    let mut board = position.copy();
    let mut step = 0;
    for token in Tokens::new(text, MoveGaps) {
        step += 1;
        let Some(m) = read_token(token) else {
            return Some(Stop {
                step,
                token,
                refused: None,
            });
        };
        let told = ToldMove::of(step, &board, m);
        if let Some(refusal) = refusal_of(game, &board, m) {
            return Some(Stop {
                step,
                token,
                refused: Some(RefusedMove { told, refusal }),
            });
        }
        apply(game, &mut board, m);
    }
    None
}

ghost use Rattle.std.specs.Prelude.{IfSome, IfNone};
ghost use Rattle.fc_replay.specs.Token.{is_move_gap, SpellsMove, IsNoMove};

use fc_moves::{Move, read_move};
use fc_text::Gaps;

/// What parts moves: spaces, tabs, CR and LF.
#[derive(Debug, Drop)]
pub struct MoveGaps;

impl Gaps for MoveGaps {
    ghost gap = { is_move_gap };

    fn is_gap(&self, byte: u8) -> bool {
        matches!(byte, b' ' | b'\t' | b'\r' | b'\n')
    }
}

/// The move that a token of a list spells, with letters in either case; `None` where it spells none.
pub fn read_token(token: &[u8]) -> Option<Move>
    ensures read { IfSome result (SpellsMove token.now) }
    ensures refused { IfNone result (IsNoMove token.now) }
{
    match token {
        [from, to] => read_move(&[from.to_ascii_lowercase(), to.to_ascii_lowercase()]),
        _ => None,
    }
}

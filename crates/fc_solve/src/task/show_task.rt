//! `show`: a board is drawn.

use crate::input::board_sources::{find_board, read_start};
use crate::input::command_games::InGame;
use crate::output::endings::Ending;
use crate::output::outputs::Out;
use fc_moves::Game;
use fc_runs::{Look, run_show};
use fc_words::ShowWords;
use std::io::IsTerminal;

impl InGame for ShowWords<'_> {
    fn perform<G: Game + Drop>(&self, rt: &HostRuntime, game: &G) -> Result<u8, Ending> {
        let start = read_start(rt, find_board(rt, &self.board)?, game.cells())?;
        let look = if self.is_plain {
            Look::Text
        } else if self.colours.are_shown(rt.stdout().is_terminal()) {
            Look::Coloured
        } else {
            Look::Drawn
        };
        let mut out = Out::new(rt);
        let ran = run_show(game, look, &start, &mut out);
        out.end_of(ran)
    }
}

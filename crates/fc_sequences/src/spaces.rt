//! Where cards can be put aside.

ghost use Rattle.std.specs.Prelude.{◌≡◌, ◌<◌};
ghost use Rattle.fc_sequences.specs.Sequence.{free_cells, is_spare, spare_columns};

use arrayvec::ArrayVec;
use fc_moves::Game;
use fc_position::Position;

// The game's cells that are empty.
pub(crate) fn free_cells<G: Game>(game: &G, position: &Position) -> ArrayVec<u8, 4>
    ensures value { result.items ≡ free_cells (G.game game.now) position.now }
{
    let mut cells = ArrayVec::new();
    for i in 0..game.cells() {
        if position.cell(i).is_none() {
            cells.push(i);
        }
    }
    cells
}

// The columns other than `to` that are empty.
pub(crate) fn spare_columns(position: &Position, to: u8) -> ArrayVec<u8, 8>
    ensures value { result.items ≡ spare_columns position.now to }
{
    let mut columns = ArrayVec::new();
    for i in 0..8 {
        if is_spare(position, to, i) {
            columns.push(i);
        }
    }
    columns
}

// Whether the column is another than `to` and empty.
#[tactic(auto, unfolding(crate::specs::Sequence::is_spare))]
fn is_spare(position: &Position, to: u8, i: u8) -> bool
    requires there { i < 8 }
    ensures value { result ≡ is_spare position.now to i }
{
    i != to && position.column(i).is_empty()
}

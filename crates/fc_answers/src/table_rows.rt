ghost use Rattle.std.specs.Prelude.{◌≡◌};
ghost use Rattle.fc_position.specs.Board.{Board};
ghost use Rattle.fc_codes.specs.Spelled.{board_of_code};
ghost use Rattle.fc_answers.specs.Table.{IsCoded, IsRowOf, front_of, key_by};
ghost use Rattle.fc_answers.specs.inner.Table.{BeginsAsKey};

use fc_canonical::{Key, key};
use fc_codes::{Code, Layout};
use fc_position::Position;

/// A class, by its code as seen from a start, and a cost in moves from there. It takes 32 bytes, where the key alone would
/// take 80; four bytes are of the front of the key, since rows are put in order by keys.
#[derive(Clone, Copy)]
pub struct Row {
    pub code: Code,
    // (before the cost, as fields lie in the order in which they are declared)
    pub(crate) front: [u8; 4],
    pub cost: u32,
}

impl Row {
    /// The row of a class, by its code and the canonical position that the code spells.
    pub fn new(code: Code, position: &Position, cost: u32) -> Row
        ensures code { result.code ≡ code }
        ensures cost { result.cost ≡ cost }
        ensures row { (start : Board) → IsCoded start code → position.now ≡ board_of_code start code → IsRowOf start result }
    {
        Row {
            code,
            front: front_of(&key(position)),
            cost,
        }
    }

    /// The key of the row's class.
    pub fn key(&self, layout: &Layout) -> Key
        requires coded { IsCoded layout.now self.now.code }
        ensures value { result.items ≡ key_by layout.now self.now.code }
    {
        key(&layout.position_of(&self.code))
    }
}

// What is kept of the front of a key, in its order.
fn front_of(key: &Key) -> [u8; 4]
    requires begins { BeginsAsKey key.now.items }
    ensures value { result ≡ front_of key.now.items }
{
    let bytes = key.as_slice();
    [
        bytes[0] * 16 + bytes[1],
        bytes[2] * 16 + bytes[3],
        bytes[4],
        bytes[5],
    ]
}

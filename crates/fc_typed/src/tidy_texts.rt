ghost use Rattle.std.specs.Prelude.{◌≡◌, ℕ, List, ◌+◌, ◌*◌, ◌≤◌, ◌↔◌, length, IsSome, IsTrue, IsErrOf, IfOk, IfSome};
ghost use Rattle.fc_io.specs.Moves.{Gives, GivesAtMost, IsAllTold, TellsAtLeast, Stays};
ghost use Rattle.fc_typed.specs.Comment.{without_comments};
ghost use Rattle.fc_typed.specs.Tidy.{after_mark, tidy, without_signs};
ghost use Rattle.fc_typed.specs.Unit.{in_bytes};

use crate::comments::without_comments;
use crate::labels::without_labels;
use crate::signs::{after_mark, without_signs};
use crate::spellings::respelled_text;
use crate::titles::without_title;
use crate::units::in_bytes;
use arrayvec::ArrayVec;
use fc_io::{ReadFault, Source, read_up_to};
use std::marker::Model;

/// The most bytes that a text may have that is made tidy. A tidy board text has at most 4,096.
pub const MOST_BYTES: usize = 16_384;

// The most bytes that a tidy text may have: two bytes of a unit may stand for three, and a token of a foundation line may
// grow from two bytes to three.
pub(crate) const ROOM: usize = 36_864;

/// A board text that was made tidy, seen by contracts as its bytes.
#[derive(Debug, Drop)]
pub struct TidyText {
    bytes: ArrayVec<u8, ROOM>,
}

impl Model for TidyText {
    ghost use Rattle.std.specs.Prelude.{ℕ, List};

    ghost Value = { List ℕ };

    ghost view = { λ s. s.bytes.items };
}

impl TidyText {
    /// The tidy text that a text stands for. Six steps make it:
    /// 1. A text in units of two bytes (UTF-16), which begins with the mark of byte order, is put into bytes (UTF-8); a
    ///    half of a pair of units and a byte that is left alone become `?`.
    /// 2. A mark of byte order before the text is left out, and symbols of suits and no-break spaces are replaced.
    /// 3. Comments are left out, from `#` to the end of the line; a line that has nothing but a comment and blanks before
    ///    it vanishes. Commas become blanks. In either case `Cells:`, `Cell:`, `Free cells:`, `Free cell:` and `Free:`
    ///    become `FC:`, and `Homes:` and `Home:` become `Deck:`. Where a line begins, after its blanks, with `1` to `8`, a
    ///    full stop or a bracket behind it becomes a colon.
    /// 4. A title is left out, the first line that has more than blanks: one without a name of the foundations or the cells,
    ///    of whose tokens one has four letters in a row, and none is a card, `-`, `--`, `*` or `.`, where another line stands
    ///    below it. [`Title::of`] tells it.
    /// 5. Tokens are respelled: in columns and cells a card that is told suit first is told rank first (`D7` as `7D`), a
    ///    foundation that is told by its last card, in either order, is told by its count (`4H` as `H-4`), or with a colon by
    ///    a dash (`H:4`), and a dash that stands alone in a column line is left out.
    /// 6. A column that is numbered loses its number: `1:` to `8:`, first in its line but for blanks, is taken off where
    ///    it heads the column line of its number; the colon stays. Column lines are all that the reader sorts as such:
    ///    those that don't begin with a name of the foundations or the cells, blank lines too.
    ///
    /// Nothing else changes, so the reader refuses a column with another's number. Where the reader accepts what the second
    /// and the last step alone make of a text, the other steps change nothing.
    ///
    /// `None` for a text of more than 16,384 bytes.
    ///
    /// [`Title::of`]: crate::Title::of
    pub fn of(text: &[u8]) -> Option<TidyText>
        ensures value { IfSome result (λ tidy_text. tidy_text ≡ tidy text.now) }
        ensures some { IsSome result ↔ length text.now ≤ MOST_BYTES }
    {
        if text.len() > MOST_BYTES {
            return None;
        }
        let said = said_text(text);
        let bare = without_title(said.as_slice());
        let told = respelled_text(bare.as_slice());
        Some(TidyText {
            bytes: without_labels(told.as_slice()),
        })
    }

    /// The tidy text of all that a source gives.
    ///
    /// # Errors
    /// `Failed` exactly where the source has failed, `TooLong` where it gave more than 16,384 bytes. Never `Memory`.
    pub fn read<S: Source>(source: &mut S) -> Result<TidyText, ReadFault>
        ensures value { IfOk result (λ tidy_text. (bytes : List ℕ) × Gives (S.told source.old) (S.told source.new) bytes
            × IsAllTold (S.told source.old) bytes × (length bytes ≤ MOST_BYTES) × (tidy_text ≡ tidy bytes)) }
        ensures taken { GivesAtMost (S.told source.old) (S.told source.new) (MOST_BYTES + 1) }
        ensures long { IsErrOf result ReadFault.TooLong → TellsAtLeast (S.told source.old) (MOST_BYTES + 1) }
        ensures memory { IsErrOf result ReadFault.Memory → ⊥ }
        ensures fault { IsErrOf result ReadFault.Failed ↔ IsTrue (S.has_failed source.new) }
        ensures stays { IsTrue (S.has_failed source.old) → IsErrOf result ReadFault.Failed }
        ensures unmoved { IsTrue (S.has_failed source.old) → Stays (S.told source.old) (S.told source.new) }
    {
        let mut room = [0; MOST_BYTES + 1];
        let count = read_up_to(source, &mut room)?;
        TidyText::of(&room[..count]).ok_or(ReadFault::TooLong)
    }

    /// Its bytes, at most 36,864.
    pub fn bytes(&self) -> &[u8]
        ensures value { result.now ≡ self.now }
        ensures most { length result.now ≤ 36864 }
    {
        self.bytes.as_slice()
    }
}

/// What a text says in bytes, without its signs and its comments.
pub(crate) fn said_text(text: &[u8]) -> ArrayVec<u8, ROOM>
    requires short { length text.now ≤ MOST_BYTES }
    ensures value { result.items ≡ without_comments (without_signs 0 (after_mark (in_bytes text.now))) }
    ensures within { 3 * length result.items ≤ 2 * ROOM }
{
    let bytes = in_bytes(text);
    let spelled = without_signs(after_mark(bytes.as_slice()));
    without_comments(spelled.as_slice())
}

use thiserror::Error;

/// Why a text in rows is no board. Lines count from 1.
#[derive(Clone, Copy, Debug, PartialEq, Eq, Error)]
pub enum RowTextFault {
    /// The text has more than 16,384 bytes, or the text in columns would have.
    #[error("too long")]
    TooLong,
    /// The line stands below the names of cells and foundations, and hasn't an entry for each of them.
    #[error("line {0}: each cell and each foundation has an entry: - stands for none")]
    BadHead(u32),
    /// The row has fewer than eight entries, and a gap stands before the one with this number, from 1: which columns the entries
    /// are those of is left open.
    #[error("line {0}: a gap stands before entry {1}: -- stands for none")]
    OpenRow(u32, usize),
    /// The row has more than eight entries.
    #[error("line {0}: a row has eight entries at most, one a column")]
    LongRow(u32),
    /// The row has fewer than eight entries, and one below it has a card in a column that it leaves out.
    #[error("line {0}: a row has eight entries: -- stands for none")]
    ShortRow(u32),
}

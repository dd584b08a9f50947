/// A place from which or to which a card moves. Columns are numbered from 0 to 7, cells from 0 to 3.
#[derive(Clone, Copy, Debug, PartialEq, Eq, Hash, Default)]
pub enum Place {
    /// A column, by its number.
    Column(u8),
    /// A freecell, by its number.
    Cell(u8),
    /// The foundation of the card's own suit.
    #[default]
    Home,
}

ghost use Rattle.std.specs.Prelude.{◌≡◌};
ghost use Rattle.fc_cert.specs.Content.{kind_byte};

use fc_bound::BoundKind;

/// The form of a certificate: the first is of FreeCell with four cells and home rule 0 or 1, the second names its game, the
/// third its bound and a floor too.
#[derive(Clone, Copy, Debug, PartialEq, Eq)]
pub enum Form {
    /// `FCC1`
    First,
    /// `FCC2`
    Second,
    /// `FCC3`
    Third,
}

/// The kind of a certificate.
#[derive(Clone, Copy, Debug, PartialEq, Eq)]
pub enum Kind {
    /// Moves that win, and classes that show that no list is shorter.
    Shortest,
    /// Classes that show that no list wins.
    CannotWin,
    /// Moves that win, and classes that show that no list of fewer moves than a floor does.
    Between,
}

impl Kind {
    /// The byte that names the kind.
    pub fn byte(self) -> u8
        ensures value { result ≡ kind_byte self }
    {
        match self {
            Kind::Shortest => 1,
            Kind::CannotWin => 2,
            Kind::Between => 3,
        }
    }
}

/// The fields that stand before the moves: the form, the code of the game, its number of cells, the home rule, the bound that
/// the classes are closed by, the kind, and the floor, which is 0 unless the kind is `Between`.
#[derive(Clone, Copy, Debug, PartialEq, Eq)]
pub struct Head {
    pub form: Form,
    pub game: u8,
    pub cells: u8,
    pub rule: u8,
    pub bound: BoundKind,
    pub kind: Kind,
    pub floor: u32,
}

//! `--link`, which shows an answer on the page.

use crate::options::{Kind, Word};

/// `--link` of an answer that may also be an object.
pub(crate) const LINK: Word = Word {
    name: "link",
    kind: Kind::FlagInPlaceOf(&["json"]),
    help: LINK_HELP,
};

/// `--link` of others.
pub(crate) const PLAIN_LINK: Word = Word {
    name: "link",
    kind: Kind::Flag,
    help: LINK_HELP,
};

pub(crate) const LINK_HELP: &str = "Ends with a link that shows it on the page, to play";

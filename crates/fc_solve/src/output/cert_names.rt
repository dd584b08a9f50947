//! What the certificates of a table's boards are called.

use crate::output::answer_objects::Name;
use std::alloc::{AllocError, Global};

/// The name of a board's certificate, without its ending: the number of a deal; else the board's own name, its file and its place
/// there. No two files have one name: `%2F` stands for what parts folders, and `%25` for `%`, and `./` is left out in front.
pub fn cert_name(alloc: Global, name: Name<'_>) -> Result<String, AllocError> {
    let path = match name {
        Name::Deal(number) => return format!(in alloc; "{number}"),
        Name::Board(path) => path,
    };
    let mut text = String::new(alloc);
    for c in from_here(path).chars() {
        match c {
            '/' => text.push_str("%2F")?,
            '%' => text.push_str("%25")?,
            c => text.push(c)?,
        }
    }
    Ok(text)
}

// The path without what only says that it begins here: `.//a` is `a`, and not `/a`.
fn from_here(path: &str) -> &str {
    match path.strip_prefix("./") {
        Some(rest) => rest.trim_start_matches("./").trim_start_matches('/'),
        None => path,
    }
}

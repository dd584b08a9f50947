//! Where a review writes: nowhere where it reads, and to no file twice.

use crate::input::apart::{Held, INPUT, is_apart};
use fc_words::{FileWord, ReviewWords};
use std::alloc::AllocError;

// The files that are written to the folder of `--certs`.
const BOARD_FILES: [&str; 4] = ["before.txt", "before.cert", "after.txt", "after.cert"];

/// Whether no output leads to where the board or the list stands, or to another one; else it is said which does.
pub fn are_outputs_apart(
    rt: &HostRuntime,
    words: &ReviewWords<'_>,
    board: Option<&str>,
    list: &str,
) -> Result<bool, AllocError> {
    let inputs = [
        Held {
            path: board,
            name: "the board",
        },
        Held {
            path: Some(list),
            name: "the list",
        },
    ];
    if let Some(path) = words.cert
        && !is_apart(rt, path, &inputs)
    {
        return Ok(false);
    }
    let Some(folder) = words.certs else {
        return Ok(true);
    };
    let cert = Held {
        path: words.cert,
        name: "the list's certificate",
    };
    for name in &BOARD_FILES {
        if !is_board_apart(rt, folder, name, &inputs, &[cert])? {
            return Ok(false);
        }
    }
    Ok(true)
}

// The same of the file of this name in the folder of `--certs`.
fn is_board_apart(
    rt: &HostRuntime,
    folder: &str,
    name: &str,
    inputs: &[Held<'_>],
    outputs: &[Held<'_>],
) -> Result<bool, AllocError> {
    let path = format!(in rt.alloc(); "{folder}/{name}")?;
    Ok(is_apart(rt, path.as_str(), inputs) && is_apart(rt, path.as_str(), outputs))
}

/// The path of the file from which a list is read.
pub fn path_of<'a>(word: &FileWord<'a>) -> &'a str {
    match *word {
        FileWord::Input => INPUT,
        FileWord::File(path) => path,
    }
}

//! Standard streams that the program was begun without: a file that is opened takes the first number that is free, and so
//! could take the place of one.

use std::fs::{File, exists};

/// Files in the places of standard streams that are closed: reading from the first of them, and writing to the others,
/// fails as it does on a closed stream.
#[derive(Drop)]
pub struct StandIns {
    input: Option<File>,
    output: Option<File>,
    errors: Option<File>,
}

impl StandIns {
    /// One for each standard stream that is closed, in the order of their numbers.
    pub fn new(rt: &HostRuntime) -> Self {
        let input = match exists(rt, "/dev/fd/0") {
            Ok(false) => File::create(rt, NOTHING).ok(),
            _ => None,
        };
        let output = unwritable(rt, "/dev/fd/1");
        let errors = unwritable(rt, "/dev/fd/2");
        StandIns {
            input,
            output,
            errors,
        }
    }
}

// A file that holds nothing and takes everything.
const NOTHING: &str = "/dev/null";

// A file to which nothing can be written, where this stream is closed.
fn unwritable(rt: &HostRuntime, stream: &str) -> Option<File> {
    match exists(rt, stream) {
        Ok(false) => File::open(rt, NOTHING).ok(),
        _ => None,
    }
}

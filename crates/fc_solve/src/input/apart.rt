//! Which files a run may write: none from which it reads, and none to which it writes something else.

use crate::output::endings::{Ending, REFUSED};
use std::fs;
use std::os::unix::fs::MetadataExt;

/// Standard input, as a path.
pub const INPUT: &str = "/dev/fd/0";

// What else is written by a run, as paths, and what each is called.
const OUTPUTS: [(&str, &str); 2] = [
    ("/dev/fd/1", "standard output"),
    ("/dev/fd/2", "standard error"),
];

// What takes everything and keeps nothing.
const NOTHING: &str = "/dev/null";

/// What a run has in a file beside the one that it is to write.
#[derive(Clone, Copy)]
pub struct Held<'a> {
    /// The file's path; none where it is in no file.
    pub path: Option<&'a str>,
    /// What it is called.
    pub name: &'a str,
}

// A file, by its device and its number there: several paths may lead to one. One that isn't there yet has those of its folder, and
// its name.
#[derive(Clone, Copy, PartialEq)]
struct Spot<'a> {
    device: u64,
    number: u64,
    name: &'a str,
}

impl<'a> Spot<'a> {
    // Where a path leads; none where not even its folder is there.
    fn of(rt: &HostRuntime, path: &'a str) -> Option<Spot<'a>> {
        if let Some(file) = Spot::named(rt, path, "") {
            return Some(file);
        }
        match path.rsplit_once('/') {
            Some(("", name)) => Spot::named(rt, "/", name),
            Some((folder, name)) => Spot::named(rt, folder, name),
            None => Spot::named(rt, ".", path),
        }
    }

    // What has this path, with a name in it.
    fn named(rt: &HostRuntime, path: &str, name: &'a str) -> Option<Spot<'a>> {
        let metadata = fs::metadata(rt, path).ok()?;
        Some(Spot {
            device: metadata.dev(),
            number: metadata.ino(),
            name,
        })
    }
}

/// Refuses a path that is to be written where it isn't apart. Nothing is written.
pub fn keep_apart(rt: &HostRuntime, path: &str, others: &[Held<'_>]) -> Result<(), Ending> {
    if is_apart(rt, path, others) {
        Ok(())
    } else {
        Err(Ending::Told(REFUSED))
    }
}

/// Whether a path that is to be written leads neither where one of these stands nor to a standard stream, or keeps nothing; else it is
/// said what stands there: of the two in one file the later would take away the other.
pub fn is_apart(rt: &HostRuntime, path: &str, others: &[Held<'_>]) -> bool {
    let Some(written) = Spot::of(rt, path) else {
        return true;
    };
    if Spot::of(rt, NOTHING) == Some(written) {
        return true;
    }
    for other in others {
        if let Some(other_path) = other.path
            && Spot::of(rt, other_path) == Some(written)
        {
            tell_other(rt, path, other.name);
            return false;
        }
    }
    for (output, name) in OUTPUTS {
        if Spot::of(rt, output) == Some(written) {
            tell_other(rt, path, name);
            return false;
        }
    }
    true
}

// Says what else stands in a file that is to be written.
fn tell_other(rt: &HostRuntime, path: &str, other: &str) {
    let _told = eprintln!(rt; "fc_solve: a certificate takes a file of its own: {path} is {other}");
}

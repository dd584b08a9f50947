//! Files that certificates are written to: a certificate takes its name once it is whole, so what stood there stays until then.

ghost use Rattle.std.specs.Prelude.{◌≡◌, ◌≤◌, length, IfSome};

use crate::output::endings::{Ending, tell_of_file};
use fc_io::{Failed, Sink};
use fc_runs::{Output, ProgramFault};
use std::alloc::AllocError;
use std::cell::Cell;
use std::fs::{File, OpenOptions};
use std::io::{ErrorKind, Write};
use std::path::Path;
use std::{fs, process};

/// Why a run ends whose certificate isn't written.
pub const UNWRITTEN: ProgramFault = ProgramFault::Write(Output::Cert);

// How many files that are being written may be left beside a certificate by processes of one number.
const MOST_PARTS: u32 = 100;

/// The name of a certificate, which takes it once it is whole.
#[derive(Drop)]
pub struct CertName {
    path: String,
    // The file beside it that is written until then; none where what has the name is written itself: a device, a pipe, an open file.
    part: Option<String>,
    // Whether this run made an empty file of the name.
    is_new: bool,
    is_taken: Cell<bool>,
}

impl CertName {
    /// The name of this path, where an empty file is made if there is none; and what takes the certificate.
    pub fn new(rt: &HostRuntime, path: &str) -> Result<(CertName, CertFile), Ending> {
        let metadata = match fs::metadata(rt, path) {
            Ok(metadata) => metadata,
            Err(error) if error.kind() == ErrorKind::NotFound => return CertName::made(rt, path),
            Err(_) => return CertName::in_place(rt, path, false),
        };
        if !metadata.is_file() {
            return CertName::in_place(rt, path, false);
        }
        if is_open_file(rt, path)? {
            return CertName::in_place(rt, path, metadata.len() > 0);
        }
        CertName::beside(rt, path)
    }

    // The name of what is no plain file, such as a device or a pipe, or is an open one; and whether something stands there.
    fn in_place(
        rt: &HostRuntime,
        path: &str,
        has_old: bool,
    ) -> Result<(CertName, CertFile), Ending> {
        match OpenOptions::new().write(true).open(rt, path) {
            Ok(file) => {
                let path = String::from_str(rt.alloc(), path)?;
                Ok((CertName::of(path, None), CertFile::of(file, has_old)))
            }
            Err(error) => Err(tell_of_file(rt, UNWRITTEN, path, error)),
        }
    }

    // The name of a file that is made, empty.
    fn made(rt: &HostRuntime, path: &str) -> Result<(CertName, CertFile), Ending> {
        let opened = OpenOptions::new().write(true).create(true).open(rt, path);
        if let Err(error) = opened {
            return Err(tell_of_file(rt, UNWRITTEN, path, error));
        }
        match CertName::beside(rt, path) {
            Ok((mut name, file)) => {
                name.is_new = true;
                Ok((name, file))
            }
            Err(ending) => {
                let _removed = fs::remove_file(rt, path);
                Err(ending)
            }
        }
    }

    /// The name of a file that isn't made; and a new one beside it, which takes the certificate.
    pub fn beside(rt: &HostRuntime, path: &str) -> Result<(CertName, CertFile), Ending> {
        let path = own_path(rt, path)?;
        let process = process::id(rt.process());
        for turn in 0..MOST_PARTS {
            let part = format!(in rt.alloc(); "{path}.{process}-{turn}.part")?;
            let opened = OpenOptions::new()
                .write(true)
                .create_new(true)
                .open(rt, part.as_str());
            match opened {
                Ok(file) => return Ok((CertName::of(path, Some(part)), CertFile::of(file, false))),
                // (left by a process that had this one's number)
                Err(error) if error.kind() == ErrorKind::AlreadyExists => {}
                Err(error) => return Err(tell_of_file(rt, UNWRITTEN, path.as_str(), error)),
            }
        }
        Err(Ending::Fault(UNWRITTEN))
    }

    // A name that no certificate has taken.
    fn of(path: String, part: Option<String>) -> CertName {
        CertName {
            path,
            part,
            is_new: false,
            is_taken: Cell::new(false),
        }
    }

    /// Gives the name to the certificate, which is whole, if it has a byte; whether that could be done.
    pub fn take(&self, rt: &HostRuntime) -> bool {
        let Some(part) = &self.part else {
            return true;
        };
        if self.is_taken.get() || is_empty(rt, part.as_str()) {
            return true;
        }
        let is_taken = fs::rename(rt, part.as_str(), self.path.as_str()).is_ok();
        self.is_taken.set(is_taken);
        is_taken
    }

    /// Ends as the run did: of a certificate that didn't take its name nothing stays, nor does an empty file that was made where the
    /// run gave no answer.
    pub fn end(&self, rt: &HostRuntime, ended: Result<u8, Ending>) -> Result<u8, Ending> {
        if self.is_taken.get() {
            return ended;
        }
        if let Some(part) = &self.part {
            let _removed = fs::remove_file(rt, part.as_str());
        }
        let is_answered = matches!(ended, Ok(0..=2));
        if self.is_new && !is_answered {
            let _removed = fs::remove_file(rt, self.path.as_str());
        }
        ended
    }
}

// Whether a file has no byte.
fn is_empty(rt: &HostRuntime, path: &str) -> bool {
    match fs::metadata(rt, path) {
        Ok(metadata) => metadata.len() == 0,
        Err(_) => false,
    }
}

// Whether a path is an open file's, as `/dev/fd/3` is: it may have no name of its own, and who opened it reads it there.
fn is_open_file(rt: &HostRuntime, path: &str) -> Result<bool, AllocError> {
    let Some((folder, _)) = path.rsplit_once('/') else {
        return Ok(false);
    };
    match Path::new(folder).canonicalize(rt) {
        Ok(own) => Ok(own.to_str().is_some_and(|own| own.starts_with("/proc/"))),
        Err(error) if error.kind() == ErrorKind::OutOfMemory => Err(AllocError),
        Err(_) => Ok(false),
    }
}

// The path of the file to which a path leads, where that is by a link.
fn own_path(rt: &HostRuntime, path: &str) -> Result<String, AllocError> {
    let is_link = match fs::symlink_metadata(rt, path) {
        Ok(metadata) => metadata.is_symlink(),
        Err(error) if error.kind() == ErrorKind::OutOfMemory => return Err(AllocError),
        Err(_) => false,
    };
    if !is_link {
        return String::from_str(rt.alloc(), path);
    }
    match Path::new(path).canonicalize(rt) {
        Ok(own) => String::from_str(rt.alloc(), own.to_str().unwrap_or(path)),
        Err(error) if error.kind() == ErrorKind::OutOfMemory => Err(AllocError),
        Err(_) => String::from_str(rt.alloc(), path),
    }
}

/// What takes the bytes of a certificate.
#[derive(Drop)]
pub struct CertFile {
    file: File,
    // Whether something stands there that the first byte takes away.
    has_old: bool,
    has_failed: bool,
    has_bytes: bool,
}

impl CertFile {
    // What is written goes to this file.
    fn of(file: File, has_old: bool) -> CertFile {
        CertFile {
            file,
            has_old,
            has_failed: false,
            has_bytes: false,
        }
    }

    /// Whether a byte of a certificate was written to it.
    pub fn has_bytes(&self) -> bool {
        self.has_bytes
    }

    // Takes away what stood there, and writes.
    fn write_anew(&mut self, piece: &[u8]) -> Option<usize>
        ensures within { IfSome result (λ n. n ≤ length piece.now) }
        ensures stays { self.new.has_failed ≡ self.old.has_failed }
    {
        if self.has_old {
            self.file.set_len(0).ok()?;
            self.has_old = false;
        }
        self.file.write(piece).ok()
    }
}

impl Sink for CertFile {
    ghost use Rattle.std.specs.Prelude.{None};

    ghost held = { λ _. None };

    ghost has_failed = { λ s. s.has_failed };

    fn write(&mut self, piece: &[u8]) -> Result<usize, Failed> {
        if self.has_failed {
            return Err(Failed);
        }
        self.has_bytes = true;
        match self.write_anew(piece) {
            Some(count) if count > 0 || piece.is_empty() => Ok(count),
            _ => {
                self.has_failed = true;
                Err(Failed)
            }
        }
    }

    fn failed(&self) -> bool {
        self.has_failed
    }
}

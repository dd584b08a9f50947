//! Standard output, as the program writes it.

use crate::output::certs::{CertName, UNWRITTEN};
use crate::output::endings::{Ending, tell};
use crate::output::watching::Line;
use fc_io::{Failed, Sink};
use fc_runs::{Output, ProgramFault};
use std::io;
use std::io::Write;

/// Standard output: what stands on the line of a terminal is taken away before it is written, and a certificate takes its name.
#[derive(Drop)]
pub struct Out<'a> {
    rt: &'a HostRuntime,
    line: Option<&'a Line<'a>>,
    cert: Option<&'a CertName>,
    has_failed: bool,
    is_closed: bool,
    // Whether nothing is written since a certificate couldn't take its name.
    has_no_cert: bool,
}

impl<'a> Out<'a> {
    /// What is written goes to standard output.
    pub fn new(rt: &'a HostRuntime) -> Self {
        Out {
            rt,
            line: None,
            cert: None,
            has_failed: false,
            is_closed: false,
            has_no_cert: false,
        }
    }

    /// What is written goes to standard output, once the line is taken away.
    pub fn after(rt: &'a HostRuntime, line: &'a Line<'a>) -> Self {
        let mut out = Out::new(rt);
        out.line = Some(line);
        out
    }

    /// What is written goes behind a certificate, which takes its name before.
    pub fn behind(mut self, cert: Option<&'a CertName>) -> Self {
        self.cert = cert;
        self
    }

    /// Ends as a run did that wrote here: where whoever reads the output has closed it, as `head` does, nothing is said.
    pub fn end_of(&self, ran: Result<u8, ProgramFault>) -> Result<u8, Ending> {
        match ran {
            Ok(status) => Ok(status),
            Err(fault) => Err(self.ending_of(fault)),
        }
    }

    /// Ends with a fault of a run that wrote here.
    pub fn ending_of(&self, fault: ProgramFault) -> Ending {
        match fault {
            ProgramFault::Write(Output::Answer) if self.has_no_cert => Ending::Fault(UNWRITTEN),
            ProgramFault::Write(Output::Answer) if self.is_closed => Ending::Told(fault.status()),
            _ => Ending::Fault(fault),
        }
    }

    /// Says what the fault of a run is that wrote here, but for a closed output; its status.
    pub fn tell(&self, fault: &ProgramFault) -> u8 {
        match self.ending_of(*fault) {
            Ending::Told(status) => status,
            Ending::Fault(fault) => tell(self.rt, &fault),
        }
    }
}

impl Sink for Out<'_> {
    ghost use Rattle.std.specs.Prelude.{None};

    ghost held = { λ _. None };

    ghost has_failed = { λ s. s.has_failed };

    fn write(&mut self, piece: &[u8]) -> Result<usize, Failed> {
        if self.has_failed {
            return Err(Failed);
        }
        if let Some(line) = self.line {
            line.clear();
        }
        if let Some(cert) = self.cert
            && !cert.take(self.rt)
        {
            self.has_no_cert = true;
            self.has_failed = true;
            return Err(Failed);
        }
        let mut out = self.rt.stdout();
        match out.write(piece) {
            Ok(count) if count > 0 || piece.is_empty() => Ok(count),
            Ok(_) => {
                self.has_failed = true;
                Err(Failed)
            }
            Err(error) => {
                self.is_closed = error.kind() == io::ErrorKind::BrokenPipe;
                self.has_failed = true;
                Err(Failed)
            }
        }
    }

    fn failed(&self) -> bool {
        self.has_failed
    }
}

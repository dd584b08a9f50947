//! How the program ends early, and what it says of it on standard error: the line of the fault, and then perhaps one more,
//! which tells where it lies and why. Where a line can't be written, the status still tells the fault.

ghost use Rattle.std.specs.Prelude.{◌≤◌};

use crate::output::notes::add_note;
use fc_cert::LONGEST_CERTIFICATE;
use fc_methods::{MOST_GREAT_BUDGET, Sought};
use fc_notes::{BoardText, in_file, is_blank, row_in_file};
use fc_row_text::RowTextFault;
use fc_runs::{Input, Output, ProgramFault};
use fc_text::BoardFault;
use std::alloc::AllocError;
use std::{fs, io};

/// The exit status of a command line that is refused.
pub const REFUSED: u8 = 3;

/// Why the program ends early.
#[derive(Clone, Copy)]
pub enum Ending {
    /// A fault that is still to be told.
    Fault(ProgramFault),
    /// What was wrong is told; the status.
    Told(u8),
}

impl From<ProgramFault> for Ending {
    ghost use Rattle.std.specs.Prelude.{◌≡◌};
    ghost use Rattle.fc_solve.specs.declared.output.endings.Ending.TheVariants.{Fault};

    ghost from_gives = { λ fault ending. ending ≡ Fault fault };

    fn from(fault: ProgramFault) -> Ending {
        Ending::Fault(fault)
    }
}

impl From<AllocError> for Ending {
    ghost use Rattle.std.specs.Prelude.{◌≡◌};
    ghost use Rattle.fc_solve.specs.declared.output.endings.Ending.TheVariants.{Fault};
    ghost use Rattle.fc_board_runs.specs.declared.faults.ProgramFault.TheVariants.{Memory};

    ghost from_gives = { λ _ ending. ending ≡ Fault Memory };

    fn from(_refused: AllocError) -> Ending {
        Ending::Fault(ProgramFault::Memory)
    }
}

/// Says what the fault is.
pub fn tell(rt: &HostRuntime, fault: &ProgramFault) -> u8 {
    let _told = eprintln!(rt; "fc_solve: {fault}");
    fault.status()
}

/// Says that the budget of a best answer is none.
pub fn tell_of_great_budget(rt: &HostRuntime) -> Ending {
    let _told = eprintln!(rt; "fc_solve: the budget is outside 1 to {MOST_GREAT_BUDGET}");
    Ending::Told(REFUSED)
}

/// Ends with the range of a budget that is none, by what is sought.
pub fn no_budget(rt: &HostRuntime, sought: Sought) -> Ending {
    match sought {
        Sought::ByMethod => Ending::Fault(ProgramFault::Budget),
        Sought::Best => tell_of_great_budget(rt),
    }
}

/// Says that no certificate is written, since it would have more bytes than one may have; the status.
pub fn tell_of_long_certificate(rt: &HostRuntime, path: &str) -> u8 {
    let _told = eprintln!(rt;
        "fc_solve: {path}: the certificate would have more than {LONGEST_CERTIFICATE} bytes, and isn't written"
    );
    ProgramFault::Write(Output::Cert).status()
}

/// Says that a file can't be opened or made, and why.
pub fn tell_of_file(rt: &HostRuntime, fault: ProgramFault, path: &str, error: io::Error) -> Ending {
    if error.kind() == io::ErrorKind::OutOfMemory {
        return Ending::Fault(ProgramFault::Memory);
    }
    let status = tell(rt, &fault);
    let path = path.escape_debug();
    let _told = eprintln!(rt; "fc_solve: {path}: {error}");
    Ending::Told(status)
}

/// Says that a file was opened and can't be read.
pub fn tell_of_reading(rt: &HostRuntime, input: Input, path: &str) -> Ending {
    let status = tell(rt, &ProgramFault::Read(input));
    let is_folder = match fs::metadata(rt, path) {
        Ok(metadata) => metadata.is_dir(),
        Err(_) => false,
    };
    let why = if is_folder {
        "it is a folder"
    } else {
        "it can't be read to its end"
    };
    let path = path.escape_debug();
    let _told = eprintln!(rt; "fc_solve: {path}: {why}");
    Ending::Told(status)
}

/// Says that the text of a board is too long, and what to do.
pub fn tell_of_length(rt: &HostRuntime) -> Ending {
    let status = tell(rt, &ProgramFault::Board(BoardFault::TooLong));
    let none = BoardText {
        tidy: &[],
        typed: &[],
        above: 0,
    };
    add_note(rt, BoardFault::TooLong, &none, 0);
    Ending::Told(status)
}

// What is said of a text with nothing in it.
const NO_BOARD: &str = "the board is empty: its text has nothing but blanks";

/// Says what is wrong with a board's text, read for a game with so many cells, and where it lies.
pub fn tell_of_board(
    rt: &HostRuntime,
    fault: ProgramFault,
    text: &BoardText<'_>,
    cells: u8,
) -> Ending
    requires cells { cells ≤ 4 }
{
    let status = tell_in_file(rt, &fault, text);
    if let ProgramFault::Board(fault) = fault {
        if is_blank(text.tidy) {
            let _told = eprintln!(rt; "fc_solve: {NO_BOARD}");
        } else {
            add_note(rt, fault, text, cells);
        }
    }
    Ending::Told(status)
}

// Says what the fault is, its line told by its number in its file.
fn tell_in_file(rt: &HostRuntime, fault: &ProgramFault, text: &BoardText<'_>) -> u8 {
    match fault {
        ProgramFault::Board(fault) => tell(rt, &ProgramFault::Board(in_file(text, *fault))),
        _ => tell(rt, fault),
    }
}

/// Says what is wrong with a board's text in rows.
pub fn tell_of_row_text(rt: &HostRuntime, fault: RowTextFault, text: &BoardText<'_>) -> Ending {
    let fault = row_in_file(text, fault);
    match fault {
        RowTextFault::TooLong => tell_of_length(rt),
        RowTextFault::BadHead(_)
        | RowTextFault::OpenRow(..)
        | RowTextFault::LongRow(_)
        | RowTextFault::ShortRow(_) => {
            let _told = eprintln!(rt; "fc_solve: board: {fault}");
            Ending::Told(REFUSED)
        }
    }
}

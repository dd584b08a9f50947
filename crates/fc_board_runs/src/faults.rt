ghost use Rattle.std.specs.Prelude.{◌≡◌, Some};
ghost use Rattle.fc_board_runs.specs.Fault.{fault_status, input_text, output_text, read_fault};

use fc_checker::CheckFault;
use fc_io::ReadFault;
use fc_lists::PlayFault;
use fc_replay::ReplayFault;
use fc_text::BoardFault;
use std::alloc::AllocError;
use std::fmt;
use thiserror::Error;

/// What the program reads.
#[derive(Clone, Copy, Debug, PartialEq, Eq)]
pub enum Input {
    /// A board's text, of at most 4,096 bytes.
    Board,
    /// A text of moves, of at most 1,048,576 bytes.
    Moves,
    /// A certificate, of at most 1,073,741,824 bytes.
    Cert,
}

/// What the program writes.
#[derive(Clone, Copy, Debug, PartialEq, Eq)]
pub enum Output {
    /// The text that tells the answer.
    Answer,
    /// The certificate of the answer.
    Cert,
}

impl fmt::Display for Input {
    ghost output = { λ input. Some (input_text input) };

    fn fmt<W: fmt::Write>(&self, f: &mut fmt::Formatter<W>) -> fmt::Result {
        match self {
            Input::Board => f.write_str("board"),
            Input::Moves => f.write_str("moves"),
            Input::Cert => f.write_str("certificate"),
        }
    }
}

impl fmt::Display for Output {
    ghost output = { λ output. Some (output_text output) };

    fn fmt<W: fmt::Write>(&self, f: &mut fmt::Formatter<W>) -> fmt::Result {
        match self {
            Output::Answer => f.write_str("answer"),
            Output::Cert => f.write_str("certificate"),
        }
    }
}

/// Why a run of the program ended without an answer.
#[derive(Clone, Copy, Debug, PartialEq, Eq, Error)]
pub enum ProgramFault {
    /// No deal has this number.
    #[error("deal number {0} is outside 1 to 1000000")]
    Number(u32),
    /// The deals of a batch are none, or more than 32.
    #[error("a batch is 1 to 32 deals")]
    Range,
    /// The budget is 0 or above 4,000,000.
    #[error("the budget is outside 1 to 4000000")]
    Budget,
    /// The text spells no board of the game.
    #[error("board: {0}")]
    Board(BoardFault),
    /// More bytes were told than a text of this kind may have.
    #[error("{0}: too long")]
    TooLong(Input),
    /// A step is no move or isn't allowed; it is never a fault of the sink.
    #[error("{0}")]
    Moves(ReplayFault),
    /// The entries of a list up to this step, which counts from 1, lead to more than 1,000 boards, since how many cards go
    /// to empty columns isn't told.
    #[error("step {0}: too many ways: tell how many cards go to an empty column")]
    TooManyWays(u32),
    /// The list has so many entries, which are fewer than are asked of.
    #[error("the list ends after entry {0}")]
    ListEnds(u32),
    /// The bytes are no certificate of the board; it is never want of memory.
    #[error("certificate refused: {0}")]
    Cert(CheckFault),
    /// The device that is read has failed.
    #[error("cannot read the {0}")]
    Read(Input),
    /// The device that is written has failed.
    #[error("cannot write the {0}")]
    Write(Output),
    /// A growth of memory was refused.
    #[error("want of memory")]
    Memory,
}

impl ProgramFault {
    /// The exit status that tells the fault: 3 for what was asked, 4 for memory, 5 for a device.
    pub fn status(&self) -> u8
        ensures value { result ≡ fault_status self.now }
    {
        match self {
            ProgramFault::Number(_)
            | ProgramFault::Range
            | ProgramFault::Budget
            | ProgramFault::Board(_)
            | ProgramFault::TooLong(_)
            | ProgramFault::Moves(_)
            | ProgramFault::TooManyWays(_)
            | ProgramFault::ListEnds(_)
            | ProgramFault::Cert(_) => 3,
            ProgramFault::Memory => 4,
            ProgramFault::Read(_) | ProgramFault::Write(_) => 5,
        }
    }
}

impl From<AllocError> for ProgramFault {
    ghost use Rattle.fc_board_runs.specs.declared.faults.ProgramFault.TheVariants.{Memory};

    ghost from_gives = { λ _ fault. fault ≡ Memory };

    fn from(_refused: AllocError) -> ProgramFault {
        ProgramFault::Memory
    }
}

impl From<PlayFault> for ProgramFault {
    ghost use Rattle.fc_board_runs.specs.Fault.{play_fault};

    ghost from_gives = { λ fault program. program ≡ play_fault fault };

    fn from(fault: PlayFault) -> ProgramFault {
        match fault {
            PlayFault::NoEntry(step) => ProgramFault::Moves(ReplayFault::BadMove(step)),
            PlayFault::NotAllowed(step) => ProgramFault::Moves(ReplayFault::NotAllowed(step)),
            PlayFault::TooManyWays(step) => ProgramFault::TooManyWays(step),
            PlayFault::ListEnds(count) => ProgramFault::ListEnds(count),
            PlayFault::TooLong => ProgramFault::TooLong(Input::Moves),
            PlayFault::Memory => ProgramFault::Memory,
        }
    }
}

/// The fault of an input that wasn't read to its end.
pub fn read_fault(input: Input, fault: ReadFault) -> ProgramFault
    ensures value { result ≡ read_fault input fault }
{
    match fault {
        ReadFault::Failed => ProgramFault::Read(input),
        ReadFault::TooLong => ProgramFault::TooLong(input),
        ReadFault::Memory => ProgramFault::Memory,
    }
}

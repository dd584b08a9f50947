//! The program: FreeCell boards dealt, solved with answers that are proved, and moves replayed.
#![tactic(auto)]

mod input;
mod output;
mod task;

ghost use Rattle.fc_words.specs.Sound.{IsSoundCommand};

use clap::error::ErrorKind;
use fc_runs::ProgramFault;
use fc_words::{Command, WordsFault, is_number, is_subcommand, mean_board, read};
use input::board_sources::listed_board;
use input::command_games::in_game;
use input::streams::StandIns;
use output::endings::{Ending, REFUSED, tell};
use std::fs::exists;
use std::process::ExitCode;
use std::{env, io};
use task::deal_task::deal;

fn main(rt: HostRuntime) -> ExitCode {
    let _stand_ins = StandIns::new(&rt);
    match follow_words(&rt) {
        Ok(status) | Err(Ending::Told(status)) => ExitCode::from(status),
        Err(Ending::Fault(fault)) => ExitCode::from(tell(&rt, &fault)),
    }
}

// Reads the command line, and does what it says.
fn follow_words(rt: &HostRuntime) -> Result<u8, Ending> {
    let alloc = rt.alloc();
    let args = match env::args(rt) {
        Ok(args) => args,
        Err(error) if error.kind() == io::ErrorKind::OutOfMemory => {
            return Err(Ending::Fault(ProgramFault::Memory));
        }
        Err(_) => return Ok(refuse(rt, "the command line is not UTF-8")),
    };
    let mut words: Vec<String> = args.collect(alloc)?;
    if words
        .get(1)
        .is_some_and(|word| names_board(rt, word.as_str()))
    {
        mean_board(alloc, &mut words)?;
    }
    match read(alloc, words.as_slice()) {
        Ok(command) => follow(rt, &command),
        Err(fault) => tell_words(rt, &fault),
    }
}

// Whether the words are of a board alone: the first is a number, `-`, an option that doesn't ask for help or the version, or
// no subcommand's name and the path of a file, which is there or looks like one.
fn names_board(rt: &HostRuntime, word: &str) -> bool {
    if word.starts_with("-") {
        return !matches!(word, "-h" | "--help" | "-V" | "--version");
    }
    let is_path = word.bytes().any(|byte| byte == b'.' || byte == b'/');
    let is_there = exists(rt, word).unwrap_or(false) || listed_board(rt, word).is_some();
    is_number(word) || (!is_subcommand(word) && (is_path || is_there))
}

// What a board alone is, on a command line that begins with none and with no command.
const BOARDS: &str =
    "a board alone is the number of a deal, the path of a file that is there, or - for standard input";

// Ends where the words ask for nothing that can be done, or for help.
fn tell_words(rt: &HostRuntime, fault: &WordsFault) -> Result<u8, Ending> {
    match fault {
        WordsFault::Memory => Err(Ending::Fault(ProgramFault::Memory)),
        WordsFault::Usage(usage) => {
            let _told = usage.print(rt);
            if let ErrorKind::InvalidSubcommand = usage.kind() {
                let _told = eprintln!(rt; "fc_solve: {BOARDS}");
            }
            Ok(if usage.exit_code() == 0 { 0 } else { REFUSED })
        }
        WordsFault::NoBudget
        | WordsFault::NoWeight
        | WordsFault::CertInAnswer
        | WordsFault::OneInput(_)
        | WordsFault::InputTwice(_)
        | WordsFault::Missing => {
            let _told = eprintln!(rt; "fc_solve: {fault}");
            Ok(REFUSED)
        }
    }
}

// Says why the command line is refused.
fn refuse(rt: &HostRuntime, reason: &str) -> u8 {
    let _told = eprintln!(rt; "fc_solve: {reason}");
    REFUSED
}

// Does what a command line asks for.
fn follow(rt: &HostRuntime, command: &Command<'_>) -> Result<u8, Ending>
    requires sound { IsSoundCommand command.now }
{
    match command {
        Command::Deal(words) => deal(rt, words),
        Command::Show(words) => in_game(rt, &words.game, words),
        Command::Best(words) => in_game(rt, &words.game, words),
        Command::Hint(words) => in_game(rt, &words.game, words),
        Command::Solve(words) => in_game(rt, &words.game, words),
        Command::Check(words) => in_game(rt, &words.game, words),
        Command::Replay(words) => in_game(rt, &words.game, words),
        Command::Review(words) => in_game(rt, &words.game, words),
        Command::Batch(words) => in_game(rt, &words.game, words),
    }
}

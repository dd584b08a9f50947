ghost use Rattle.std.specs.Prelude.{IfOk};
ghost use Rattle.fc_words.specs.Sound.{IsSoundCommand};

use crate::batch_words::batch;
use crate::clap_commands;
use crate::commands::Command;
use crate::faults::WordsFault;
use crate::hint_words::hint;
use crate::replay_words::replay;
use crate::review_words::review;
use crate::subcommands::{best, check, deal, show, solve};
use crate::tasks::Task;
use clap::ArgMatches;
use std::alloc::Global;

/// What a command line asks for; its first word is the program's name.
///
/// # Errors
/// Words that the table of words doesn't let through, and help and the version, which come in the same way; a budget that is
/// no number; a certificate that is to go to standard output; a board and moves, or boards or lists twice, that are to be read from
/// standard input; or want of memory.
pub fn read<'a>(alloc: Global, words: &'a [String]) -> Result<Command<'a>, WordsFault>
    ensures sound { IfOk result IsSoundCommand }
{
    let matches = match clap_commands::command(alloc)?.try_get_matches_from(words) {
        Ok(matches) => matches,
        Err(error) => return Err(WordsFault::from(error)),
    };
    match matches.subcommand() {
        Some((name, words)) => match Task::of_name(name) {
            Some(task) => read_task(alloc, task, words),
            None => Err(WordsFault::Missing),
        },
        None => Err(WordsFault::Missing),
    }
}

// What the words of a task's subcommand ask for.
fn read_task<'a>(
    alloc: Global,
    task: Task,
    words: &ArgMatches<'a>,
) -> Result<Command<'a>, WordsFault>
    ensures sound { IfOk result IsSoundCommand }
{
    match task {
        Task::Deal => match deal(words) {
            Some(words) => Ok(Command::Deal(words)),
            None => Err(WordsFault::Missing),
        },
        Task::Show => match show(words) {
            Some(words) => Ok(Command::Show(words)),
            None => Err(WordsFault::Missing),
        },
        Task::Best => match best(words) {
            Ok(words) => Ok(Command::Best(words)),
            Err(fault) => Err(fault),
        },
        Task::Hint => match hint(words) {
            Ok(words) => Ok(Command::Hint(words)),
            Err(fault) => Err(fault),
        },
        Task::Solve => match solve(words) {
            Ok(words) => Ok(Command::Solve(words)),
            Err(fault) => Err(fault),
        },
        Task::Check => match check(words) {
            Ok(words) => Ok(Command::Check(words)),
            Err(fault) => Err(fault),
        },
        Task::Replay => match replay(words) {
            Ok(words) => Ok(Command::Replay(words)),
            Err(fault) => Err(fault),
        },
        Task::Review => match review(alloc, words) {
            Ok(words) => Ok(Command::Review(words)),
            Err(fault) => Err(fault),
        },
        Task::Batch => match batch(alloc, words) {
            Ok(words) => Ok(Command::Batch(words)),
            Err(fault) => Err(fault),
        },
    }
}

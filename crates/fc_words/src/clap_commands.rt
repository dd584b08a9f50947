//! The command line as clap reads it.

use crate::options::{Kind, Word};
use crate::subcommands::{Subcommand, subcommand_of};
use crate::tasks::Task;
use clap::{Arg, ArgAction, Command, value_parser};
use std::alloc::{AllocError, Global};

/// The program's command line, with a subcommand for each task.
pub(crate) fn command<'a>(alloc: Global) -> Result<Command<'a>, AllocError> {
    let mut command = Command::new(alloc, "fc_solve")
        .bin_name("fc_solve")?
        .version("0.2.0")
        .about("Solves FreeCell in the fewest moves, or proves that a board can't be won.")
        .after_help(
            "A number or a file alone is answered as by `best`; with --within, --bound or
--expand as by `solve`, within twice the fewest moves and by the clearing bound
where these aren't told.

Examples:
  fc_solve 617        the best solution of deal 617 that a moment gives
  fc_solve show 617   the board of deal 617
  fc_solve solve 941  a shortest solution of deal 941",
        )
        .subcommand_required(true)
        .arg_required_else_help(true);
    for task in Task::ALL {
        command = command.subcommand(command_of(alloc, task.name(), subcommand_of(task))?)?;
    }
    Ok(command)
}

// A subcommand of this name, with its words.
fn command_of<'a>(
    alloc: Global,
    name: &'static str,
    subcommand: &'static Subcommand,
) -> Result<Command<'a>, AllocError> {
    let mut command = Command::new(alloc, name)
        .about(subcommand.about)
        .after_help(subcommand.after_help);
    for word in subcommand.words {
        command = command.arg(arg_of(alloc, word)?)?;
    }
    Ok(command)
}

// A word as an argument.
fn arg_of<'a>(alloc: Global, word: &'static Word) -> Result<Arg<'a>, AllocError> {
    let arg = Arg::new(alloc, word.name).help(word.help);
    Ok(match word.kind {
        Kind::Number {
            value,
            range: (least, most),
            default,
        } => {
            let parser = value_parser!(u8).range(i64::from(least)..=i64::from(most));
            with_value(arg, word.name, value, Some(default)).value_parser(parser)
        }
        Kind::Name(names) => {
            with_value(arg, word.name, "NAME", names.first().copied())
                .value_parser(names)
                .hide_possible_values(true)
        }
        Kind::NameByOthers(names) => with_value(arg, word.name, "NAME", None)
            .value_parser(names)
            .hide_possible_values(true),
        Kind::Text { value, default } => with_value(arg, word.name, value, default),
        Kind::Flag => flag(arg, word.name),
        Kind::FlagInPlaceOf(others) => flag(arg, word.name).conflicts_with_all(others)?,
        Kind::DealInPlaceOf(board) => with_value(arg, word.name, "N", None)
            .value_parser(value_parser!(u32))
            .conflicts_with(board)?,
        Kind::EntryInPlaceOf(others) => with_value(arg, word.name, "N", None)
            .value_parser(value_parser!(u32).range(1..=i64::from(u32::MAX)))
            .conflicts_with_all(others)?,
        Kind::DealNumber => arg.required(true).value_parser(value_parser!(u32)),
        Kind::DealNumberUnless(other) => unless(arg.value_parser(value_parser!(u32)), other)?,
        Kind::Files => files(arg, word.name),
        Kind::FilesInPlaceOf(others) => files(arg, word.name).conflicts_with_all(others)?,
        Kind::Needed => arg.required(true),
        Kind::NeededUnless(other) => unless(arg, other)?,
        Kind::Optional => arg,
    })
}

// The argument as one that must be there but where another one is.
fn unless<'a>(arg: Arg<'a>, other: &'a str) -> Result<Arg<'a>, AllocError> {
    arg.required_unless_present(other)?.conflicts_with(other)
}

// The argument as an option with the paths of one file or more.
fn files<'a>(arg: Arg<'a>, name: &'a str) -> Arg<'a> {
    arg.long(name).value_name("FILE").num_args(1..)
}

// The argument as a flag.
fn flag<'a>(arg: Arg<'a>, name: &'a str) -> Arg<'a> {
    arg.long(name).action(ArgAction::SetTrue)
}

// The argument as an option with a value, which help calls by this name, and perhaps a default.
fn with_value<'a>(
    arg: Arg<'a>,
    name: &'a str,
    value: &'a str,
    default: Option<&'a str>,
) -> Arg<'a> {
    let arg = arg.long(name).value_name(value);
    match default {
        Some(default) => arg.default_value(default),
        None => arg,
    }
}

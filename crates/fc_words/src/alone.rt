ghost use Rattle.std.specs.Prelude.{◌≡◌, ◌↔◌, ◌++◌, IsTrue, IfOk, map, codes, string_bytes};
ghost use Rattle.fc_words.specs.Alone.{IsNumber, has_option, is_option, meant_words, with_word, solve_words, asks_to_solve, with_option};
ghost use Rattle.fc_words.specs.Sound.{IsSubcommand};

use crate::bound_names::bound_name;
use crate::options::{BOUND, EXPAND, WITHIN};
use crate::tasks::Task;
use fc_methods::BoundKind;
use std::alloc::{AllocError, Global};

/// Whether a word is a subcommand's name; `help` is clap's own.
pub fn is_subcommand(word: &str) -> bool
    ensures value { IsTrue result ↔ IsSubcommand word.now }
{
    word == "help" || Task::of_name(word).is_some()
}

/// Whether a word is made of digits alone.
pub fn is_number(word: &str) -> bool
    ensures value { IsTrue result ↔ IsNumber word.now }
{
    !word.is_empty() && word.bytes().all(|byte| byte.is_ascii_digit())
}

/// Puts the words before a board that it means alone, behind the program's name: its best answer is asked for, or, where the
/// words have an option that only `solve` has, it is solved, within twice the fewest moves and by the clearing bound where they
/// don't tell these.
///
/// # Errors
/// Want of memory; some of the words may have been put there.
#[tactic(auto, using(crate::proofs::AloneLemmas::best_meant, crate::proofs::AloneLemmas::solving_meant))]
pub fn mean_board(alloc: Global, words: &mut Vec<String>) -> Result<(), AllocError>
    ensures meant_words { IfOk result (λ _. map (λ s. string_bytes s) words.new.items ≡ meant_words (map (λ s. string_bytes s) words.old.items)) }
{
    if asks_to_solve(words.as_slice()) {
        return mean_solving(alloc, words);
    }
    put_first(words, String::from_str(alloc, Task::Best.name())?)?;
    Ok(())
}

// Whether the words have an option that only `solve` has.
fn asks_to_solve(words: &[String]) -> bool
    ensures value { result ≡ asks_to_solve (map (λ s. string_bytes s) words.now) }
{
    has_option(words, WITHIN.name)
        || has_option(words, BOUND.name)
        || has_option(words, EXPAND.name)
}

// Puts the words before a board that solve it, as the other words say, and by what is meant where they don't say.
#[tactic(auto, using(crate::proofs::AloneLemmas::all_meant))]
fn mean_solving(alloc: Global, words: &mut Vec<String>) -> Result<(), AllocError>
    ensures solve_words { IfOk result (λ _. map (λ s. string_bytes s) words.new.items ≡ solve_words (map (λ s. string_bytes s) words.old.items)) }
{
    mean_option(alloc, words, WITHIN.name, "2")?;
    mean_option(alloc, words, BOUND.name, bound_name(BoundKind::Clearing))?;
    put_first(words, String::from_str(alloc, Task::Solve.name())?)?;
    Ok(())
}

// Puts an option with a value before the words that don't have it.
#[tactic(auto, using(crate::proofs::AloneLemmas::option_put))]
fn mean_option(
    alloc: Global,
    words: &mut Vec<String>,
    name: &str,
    value: &str,
) -> Result<(), AllocError>
    ensures meant_words { IfOk result (λ _. map (λ s. string_bytes s) words.new.items ≡ with_option name.now value.now (map (λ s. string_bytes s) words.old.items)) }
{
    if has_option(words.as_slice(), name) {
        return Ok(());
    }
    put_first(words, format!(in alloc; "--{name}={value}")?)?;
    Ok(())
}

// Whether an option of this name stands among the words.
fn has_option(words: &[String], name: &str) -> bool
    ensures value { result ≡ has_option name.now (map (λ s. string_bytes s) words.now) }
{
    for word in words {
        if is_option(word.as_str(), name) {
            return true;
        }
    }
    false
}

// Whether a word is an option of this name, whatever is told of it.
fn is_option(word: &str, name: &str) -> bool
    ensures value { result ≡ is_option name.now word.now }
{
    let bytes = word.as_bytes();
    bytes.starts_with(b"--") && bytes[2..].starts_with(name.as_bytes())
}

// Puts a word before the others, behind the program's name.
fn put_first(words: &mut Vec<String>, word: String) -> Result<(), AllocError>
    ensures with_word { IfOk result (λ _. map (λ s. string_bytes s) words.new.items ≡ with_word (string_bytes word) (map (λ s. string_bytes s) words.old.items)) }
{
    let place = words.len().min(1);
    words.insert(place, word)?;
    Ok(())
}

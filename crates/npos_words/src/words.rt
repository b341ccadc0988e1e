//! From words to a command.
ghost use Rattle.std.specs.Prelude.{◌≡◌, ◌≤◌, IsOk, false, drop, map, option_map, IfOk, IfSome, string_bytes};
ghost use Rattle.std.specs.List.{list_any};
ghost use Rattle.clap.specs.Words.{found_of, first_value};
ghost use Rattle.npos_words.specs.Words.{command_of, command_after, command_by, alone, mine_by, demo_by, mine_of, demo_of, rounds_of, option_number, is_bare, is_verb, begins_with_verb, has_verb, KeepsBounds};

use crate::Command;
use crate::numbers::number_within;
use crate::options::options_of;
use clap::ArgMatches;
use npos_base::{MOST_ROUNDS, MOST_SEATS, MOST_VOTERS, Miner, NoMemory};
use std::alloc::Global;

/// The rounds where none are given.
const ROUNDS: u32 = 8;

/// The rounds that the option gives. They are looked at whoever mines.
fn rounds_of(text: Option<&str>) -> Option<u32>
    ensures { result ≡ rounds_of (option_map (λ text. text.now) text.entry) }
{
    match text {
        Some(text) => Some(number_within(text, 1, u64::from(MOST_ROUNDS))? as u32),
        None => Some(ROUNDS),
    }
}

/// The number that an option gives, from the least to the most.
fn option_number(options: &ArgMatches, name: &str, least: u64, most: u64) -> Option<u64>
    ensures number { result ≡ option_number (first_value (found_of options.now)) name.now least most }
    ensures most { IfSome result (λ number. number ≤ most) }
{
    number_within(options.get_str(name)?, least, most)
}

/// The command of the verb `mine` with these options.
fn mine_of(options: &ArgMatches) -> Option<Command>
    ensures { result ≡ mine_of (first_value (found_of options.now)) }
{
    let rounds = rounds_of(options.get_str("rounds"))?;
    let miner = Miner::named(options.get_str("miner")?, rounds)?;
    Some(Command::Mine(miner))
}

/// The command of the verb `demo` with these options.
fn demo_of(options: &ArgMatches) -> Option<Command>
    ensures { result ≡ demo_of (first_value (found_of options.now)) }
{
    let seed = option_number(options, "seed", 0, u64::MAX)?;
    let voters = option_number(options, "voters", 1, MOST_VOTERS as u64)? as u32;
    let seats = option_number(options, "seats", 1, u64::from(MOST_SEATS))? as u32;
    Some(Command::Demo {
        seed,
        voters,
        seats,
    })
}

/// A command that has no options.
fn alone(alloc: Global, command: Command, words: &[String]) -> Result<Option<Command>, NoMemory>
    requires { list_any is_bare (drop 1 (map string_bytes words.now)) ≡ false }
    ensures { IfOk result (λ found. found
        ≡ alone command (drop 1 (map string_bytes words.now))) }
{
    match options_of(alloc, words, &[])? {
        Some(_) => Ok(Some(command)),
        None => Ok(None),
    }
}

/// The command of the verb `mine`, by the words behind the first.
fn mine_by(alloc: Global, words: &[String]) -> Result<Option<Command>, NoMemory>
    requires { list_any is_bare (drop 1 (map string_bytes words.now)) ≡ false }
    ensures { IfOk result (λ found. found ≡ mine_by (drop 1 (map string_bytes words.now))) }
{
    match options_of(alloc, words, &["miner", "rounds"])? {
        Some(options) => Ok(mine_of(&options)),
        None => Ok(None),
    }
}

/// The command of the verb `demo`, by the words behind the first.
fn demo_by(alloc: Global, words: &[String]) -> Result<Option<Command>, NoMemory>
    requires { list_any is_bare (drop 1 (map string_bytes words.now)) ≡ false }
    ensures { IfOk result (λ found. found ≡ demo_by (drop 1 (map string_bytes words.now))) }
{
    match options_of(alloc, words, &["seed", "voters", "seats"])? {
        Some(options) => Ok(demo_of(&options)),
        None => Ok(None),
    }
}

/// The command of a verb with the options that the words behind the first give.
fn command_by(alloc: Global, verb: &str, words: &[String]) -> Result<Option<Command>, NoMemory>
    requires { list_any is_bare (drop 1 (map string_bytes words.now)) ≡ false }
    ensures found { IfOk result (λ found. found
        ≡ command_by verb.now (drop 1 (map string_bytes words.now))) }
    ensures memory { is_verb verb.now ≡ false → IsOk result }
{
    match verb {
        "replay" => alone(alloc, Command::Replay, words),
        "check" => alone(alloc, Command::Check, words),
        "mine" => mine_by(alloc, words),
        "pack" => alone(alloc, Command::Pack, words),
        "show" => alone(alloc, Command::Show, words),
        "demo" => demo_by(alloc, words),
        "checkpoint" => alone(alloc, Command::Checkpoint, words),
        "resume" => alone(alloc, Command::Resume, words),
        "pools" => alone(alloc, Command::Pools, words),
        _ => Ok(None),
    }
}

/// Whether the word is one or two hyphens alone. clap would end the options at the second.
fn is_bare(word: &str) -> bool
    ensures { result ≡ is_bare word.now }
{
    word == "-" || word == "--"
}

/// Whether one of the words is bare.
fn has_bare(words: &[String]) -> bool
    ensures { result ≡ list_any is_bare (map string_bytes words.now) }
{
    words.iter().any(|word| is_bare(word.as_str()))
}

/// The command that the words ask for, of which the first is the verb.
fn command_after(alloc: Global, words: &[String]) -> Result<Option<Command>, NoMemory>
    requires { list_any is_bare (map string_bytes words.now) ≡ false }
    ensures found { IfOk result (λ found. found ≡ command_after (map string_bytes words.now)) }
    ensures memory { begins_with_verb (map string_bytes words.now) ≡ false → IsOk result }
{
    match words.first() {
        Some(verb) => command_by(alloc, verb.as_str(), words),
        None => Ok(None),
    }
}

/// The command that the words ask for, or None where they ask for none. `words[0]` is the program's
/// name and is not looked at. Memory is wanted only where the second word is a verb and no word
/// behind the first is of hyphens alone.
pub fn command_of(alloc: Global, words: &[String]) -> Result<Option<Command>, NoMemory>
    ensures ok { IfOk result (λ command. command ≡ command_of (map string_bytes words.now)) }
    ensures bounds { IfOk result KeepsBounds }
    ensures memory { has_verb (map string_bytes words.now) ≡ false → IsOk result }
{
    match words.split_first() {
        Some((_, words)) if !has_bare(words) => command_after(alloc, words),
        _ => Ok(None),
    }
}

//! The options behind a verb, read by clap.
ghost use Rattle.std.specs.Prelude.{◌≡◌, false, map, IfOk, string_bytes, drop};
ghost use Rattle.std.specs.List.{list_any};
ghost use Rattle.clap.specs.Words.{app_of, rule_of};
ghost use Rattle.npos_words.specs.Options.{options_of};
ghost use Rattle.npos_words.specs.Words.{is_bare};
ghost use Rattle.npos_words.specs.Found.{app_with, option_rule, Finds};

use clap::error::ErrorKind;
use clap::{Arg, ArgAction, ArgMatches};
use npos_base::NoMemory;
use std::alloc::Global;

/// An option of clap, whose value is a text.
fn option_of<'a>(alloc: Global, name: &'a str) -> Arg<'a>
    ensures rule { rule_of result ≡ option_rule name.entry.now }
    ensures local { result.global ≡ false }
{
    Arg::new(alloc, name).long(name).action(ArgAction::Set)
}

/// A command of clap with these options, whose values are texts. It has no help and no version, and
/// requires no option.
fn command_with<'a>(alloc: Global, names: &[&'a str]) -> Result<clap::Command<'a>, NoMemory>
    ensures { IfOk result
        (λ command. app_of command ≡ app_with (map (λ name. name.now) names.now)) }
{
    let mut command = clap::Command::new(alloc, "npos").disable_help_flag(true);
    for name in names {
        command = command.arg(option_of(alloc, *name))?;
    }
    Ok(command)
}

/// The options of these names that the words behind the first give, or None where they are not read
/// as such options.
pub fn options_of<'a>(
    alloc: Global,
    words: &'a [String],
    names: &[&'a str],
) -> Result<Option<ArgMatches<'a>>, NoMemory>
    requires { list_any is_bare (drop 1 (map string_bytes words.now)) ≡ false }
    ensures { IfOk result (λ found. Finds found
        (options_of (map (λ name. name.now) names.now) (drop 1 (map string_bytes words.now)))) }
{
    let command = command_with(alloc, names)?;
    match command.try_get_matches_from(words) {
        Ok(matches) => Ok(Some(matches)),
        Err(error) => {
            if error.kind() == ErrorKind::OutOfMemory {
                return Err(NoMemory);
            }
            Ok(None)
        }
    }
}

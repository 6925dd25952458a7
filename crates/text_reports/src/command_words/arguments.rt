//! The arguments of a command, and the command without them.

ghost use Rattle.std.specs.Prelude.{false, ◌≡◌};
ghost use Rattle.clap.specs.Walk.{rule_of};
ghost use Rattle.clap.specs.Simple.{app_of};
ghost use Rattle.text_reports.specs.CommandWords.Rules as rules;

use clap::{Arg, ArgAction, Command};
use std::alloc::Global;

/// A word that belongs to no option.
pub fn positional<'a>(alloc: Global, id: &'a str, required: bool) -> Arg<'a>
    ensures rule { rule_of result ≡ rules.positional id.entry.now required }
    ensures local { result.global ≡ false }
{
    Arg::new(alloc, id).required(required)
}

/// An option, with the value that it has where it is left out.
pub fn option<'a>(alloc: Global, id: &'a str, default: &'a str) -> Arg<'a>
    ensures rule { rule_of result ≡ rules.option id.entry.now default.entry.now }
    ensures local { result.global ≡ false }
{
    Arg::new(alloc, id).long(id).default_value(default)
}

/// An option that has no value where it is left out.
pub fn optional<'a>(alloc: Global, id: &'a str) -> Arg<'a>
    ensures rule { rule_of result ≡ rules.optional id.entry.now }
    ensures local { result.global ≡ false }
{
    Arg::new(alloc, id).long(id)
}

/// A flag.
pub fn flag<'a>(alloc: Global, id: &'a str) -> Arg<'a>
    ensures rule { rule_of result ≡ rules.flag id.entry.now }
    ensures local { result.global ≡ false }
{
    Arg::new(alloc, id).long(id).action(ArgAction::SetTrue)
}

/// The command of that name without arguments.
pub fn bare_command<'a>(alloc: Global, name: &'a str) -> Command<'a>
    ensures { app_of result ≡ rules.bare_command name.entry.now }
{
    Command::new(alloc, name)
        .no_binary_name(true)
        .disable_help_flag(true)
        .disable_version_flag(true)
}

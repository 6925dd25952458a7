//! The values that words give to the arguments of a command.

ghost use Rattle.std.specs.Prelude.{true, ◌≡◌, ◌≢◌, [], map, IfOk, MatchOption, option_map};
ghost use Rattle.std.specs.String.{string_bytes};
ghost use Rattle.clap.specs.Matches.{found_of};
ghost use Rattle.clap.specs.Walk.{first_of, rows_of};
ghost use Rattle.clap.specs.Simple.{app_of, matches_of};
ghost use Rattle.clap.specs.Faults.{fault_of, is_simple_and_free};
ghost use Rattle.text_reports.specs.CommandWords.Rules.{is_given};

use clap::error::ErrorKind;
use clap::{ArgMatches, Command};
use std::alloc::AllocError;

/// The values that the words give to the arguments of the command; none where it refuses the words.
#[tactic(auto, using(crate::proofs::CommandWords::MatchLaws::refused))]
pub fn matched<'a>(
    command: Command<'a>,
    words: &'a [String],
) -> Result<Option<ArgMatches<'a>>, AllocError>
    requires { is_simple_and_free (app_of command) ≡ true }
    ensures { IfOk result (λ r. MatchOption r
        (fault_of (app_of command.entry) (map string_bytes words.now) ≢ [])
        (λ m. (fault_of (app_of command.entry) (map string_bytes words.now) ≡ [])
        × (rows_of (found_of m) ≡ matches_of (app_of command.entry) (map string_bytes words.now)))) }
{
    match command.try_get_matches_from(words) {
        Ok(matches) => Ok(Some(matches)),
        Err(error) => match error.kind() {
            ErrorKind::OutOfMemory => Err(AllocError),
            _ => Ok(None),
        },
    }
}

/// The value of the argument of that name.
pub fn value<'a>(matches: &ArgMatches<'a>, id: &str) -> Option<&'a str>
    ensures { first_of id.now (rows_of (found_of matches.now)) ≡ option_map (λ text. text.now) result }
{
    matches.get_str(id)
}

/// Whether the flag of that name is set; none where the command has no such flag.
pub fn is_set(matches: &ArgMatches<'_>, id: &str) -> Option<bool>
    ensures { is_given id.now (rows_of (found_of matches.now)) ≡ result }
{
    let text = value(matches, id)?;
    Some(text == "true")
}

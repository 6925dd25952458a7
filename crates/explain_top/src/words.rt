//! The words of the command line.

ghost use Rattle.std.specs.Prelude.{◌≡◌, map, IfOk, option_map};
ghost use Rattle.std.specs.String.{string_bytes};
ghost use Rattle.clap.specs.Matches.{found_of};
ghost use Rattle.clap.specs.Walk.{rows_of};
ghost use Rattle.clap.specs.Simple.{app_of};
ghost use Rattle.explain_top.specs.CommandLine as line;
ghost use Rattle.explain_top.specs.Ties.Views.{asked};

use clap::{ArgMatches, Command};
use std::alloc::{AllocError, Global};
use text_reports::command_words::{bare_command, flag, is_set, matched, option, positional, value};

/// What the words ask for.
#[derive(Clone, Copy)]
pub(crate) struct Request<'a> {
    /// The name of the program text.
    pub program: &'a str,
    /// The name of what was answered to it.
    pub answer: &'a str,
    /// The name of the procedure at which runs begin.
    pub entry: &'a str,
    /// Whether all steps of a long run are told.
    pub all: bool,
}

/// The command that the words are read by.
fn command<'a>(alloc: Global) -> Result<Command<'a>, AllocError>
    ensures { IfOk result (λ c. app_of c ≡ line.command) }
{
    bare_command(alloc, "explain")
        .arg(positional(alloc, "program", true))?
        .arg(positional(alloc, "answer", true))?
        .arg(option(alloc, "entry", "main"))?
        .arg(flag(alloc, "all"))
}

/// What the values of the arguments ask for.
fn request_of<'a>(matches: &ArgMatches<'a>) -> Option<Request<'a>>
    ensures { line.request_of (rows_of (found_of matches.now)) ≡ option_map asked result }
{
    let program = value(matches, "program")?;
    let answer = value(matches, "answer")?;
    let entry = value(matches, "entry")?;
    let all = is_set(matches, "all")?;
    Some(Request {
        program,
        answer,
        entry,
        all,
    })
}

/// What the words ask for; none where they are faulty.
pub(crate) fn read_words<'a>(
    alloc: Global,
    words: &'a [String],
) -> Result<Option<Request<'a>>, AllocError>
    ensures { IfOk result (λ r. option_map asked r ≡ line.requested (map string_bytes words.now)) }
{
    let command = command(alloc)?;
    let Some(matches) = matched(command, words)? else {
        return Ok(None);
    };
    Ok(request_of(&matches))
}

ghost use Rattle.std.specs.Prelude.{◌≡◌, ◌≤◌, map, IfOk, IfSome, option_map};
ghost use Rattle.std.specs.String.{string_bytes};
ghost use Rattle.clap.specs.Matches.{found_of};
ghost use Rattle.clap.specs.Walk.{rows_of};
ghost use Rattle.clap.specs.Simple.{app_of};
ghost use Rattle.race_rounds.specs.Limits.{AreInRange};
ghost use Rattle.automizer_top.specs.Ties.Asked.{asked, task, settings, program_name, IsCounted};
ghost use Rattle.automizer_top.specs.CommandLine as line;

use clap::{ArgMatches, Command};
use race_rounds::Limits;
use std::alloc::{AllocError, Global};
use text_reports::command_words::{
    bare_command, flag, is_set, matched, option, optional, positional, value,
};

/// What is to be done with texts of these names.
#[derive(Clone, Copy)]
pub(crate) enum Mode<'a> {
    /// `check PROGRAM SECOND`
    Check { program: &'a str, second: &'a str },
    /// `replay PROGRAM SECOND`
    Replay { program: &'a str, second: &'a str },
    /// `print PROGRAM`
    Print { program: &'a str },
    /// `verify PROGRAM`
    Verify { program: &'a str },
    /// `lasso PROGRAM SECOND`
    Lasso { program: &'a str, second: &'a str },
    /// `ranked PROGRAM SECOND`
    Ranked { program: &'a str, second: &'a str },
}

impl<'a> Mode<'a> {
    /// The name of the program text.
    pub fn program(&self) -> &'a str
        ensures { result.now ≡ program_name self.now }
    {
        match self {
            Mode::Check { program, second: _ }
            | Mode::Replay { program, second: _ }
            | Mode::Lasso { program, second: _ }
            | Mode::Ranked { program, second: _ }
            | Mode::Print { program }
            | Mode::Verify { program } => program,
        }
    }
}

/// What is to be done.
#[derive(Clone, Copy)]
pub(crate) enum Task<'a> {
    /// Something with texts of the shelf.
    Texts(Mode<'a>),
    /// `big PROGRAM`, with the generated program of so many procedures.
    Generated(u32),
}

/// The values of the options.
#[derive(Clone, Copy)]
pub(crate) struct Options<'a> {
    /// The name of the procedure at which runs begin.
    pub entry: &'a str,
    /// The limits of a race.
    pub limits: Limits,
    /// Whether each procedure is verified by itself.
    pub modular: bool,
    /// The name of the text of an earlier annotation, where one is named.
    pub reuse: Option<&'a str>,
}

/// What the words ask for.
#[derive(Clone, Copy)]
pub(crate) struct Request<'a> {
    pub task: Task<'a>,
    pub options: Options<'a>,
}

/// The command that the words are read by.
fn command<'a>(alloc: Global) -> Result<Command<'a>, AllocError>
    ensures { IfOk result (λ c. app_of c ≡ line.command) }
{
    bare_command(alloc, "automizer")
        .arg(positional(alloc, "mode", true))?
        .arg(positional(alloc, "program", true))?
        .arg(positional(alloc, "second", false))?
        .arg(option(alloc, "entry", "main"))?
        .arg(option(alloc, "rounds", "1000"))?
        .arg(option(alloc, "workers", "4"))?
        .arg(option(alloc, "depth", "16"))?
        .arg(flag(alloc, "modular"))?
        .arg(optional(alloc, "reuse"))
}

/// Whether there is no digit, or a plus or a superfluous zero stands first.
fn is_padded(digits: &[u8]) -> bool
    ensures { result ≡ line.is_padded digits.now }
{
    digits.is_empty() || digits[0] == b'+' || (digits[0] == b'0' && digits.len() > 1)
}

/// The number that the text spells in decimal digits, without sign or leading zero, where it lies in that range.
fn number(text: &str, least: u32, most: u32) -> Option<u32>
    ensures value { result ≡ line.number_in_bounds least most text.now }
    ensures within { IfSome result (λ n. (least ≤ n) × (n ≤ most)) }
{
    if is_padded(text.as_bytes()) {
        return None;
    }
    let Ok(number) = text.parse::<u32>() else {
        return None;
    };
    if number < least || most < number {
        return None;
    }
    Some(number)
}

/// What a mode with two texts asks for.
fn task_of_two<'a>(mode: &str, program: &'a str, second: &'a str) -> Option<Task<'a>>
    ensures task { option_map task result ≡ line.task_of_two mode.now program.now second.now }
    ensures counted { IfSome result IsCounted }
{
    match mode {
        "check" => Some(Task::Texts(Mode::Check { program, second })),
        "replay" => Some(Task::Texts(Mode::Replay { program, second })),
        "lasso" => Some(Task::Texts(Mode::Lasso { program, second })),
        "ranked" => Some(Task::Texts(Mode::Ranked { program, second })),
        _ => None,
    }
}

/// What `big` asks for.
fn generated<'a>(count: &str) -> Option<Task<'a>>
    ensures task { option_map task result ≡ option_map line.Big (line.number_in_bounds 1 200 count.now) }
    ensures counted { IfSome result IsCounted }
{
    let count = number(count, 1, 200)?;
    Some(Task::Generated(count))
}

/// What a mode with one text or a number asks for.
fn task_of_one<'a>(mode: &str, program: &'a str) -> Option<Task<'a>>
    ensures task { option_map task result ≡ line.task_of_one mode.now program.now }
    ensures counted { IfSome result IsCounted }
{
    match mode {
        "print" => Some(Task::Texts(Mode::Print { program })),
        "verify" => Some(Task::Texts(Mode::Verify { program })),
        "big" => generated(program),
        _ => None,
    }
}

/// What is to be done, by the values of the arguments.
fn task_of<'a>(matches: &ArgMatches<'a>) -> Option<Task<'a>>
    ensures task { line.task_of (rows_of (found_of matches.now)) ≡ option_map task result }
    ensures counted { IfSome result IsCounted }
{
    let mode = value(matches, "mode")?;
    let program = value(matches, "program")?;
    match value(matches, "second") {
        None => task_of_one(mode, program),
        Some(second) => task_of_two(mode, program, second),
    }
}

/// The values of the options, each number in its range, and not both `--modular` and `--reuse`.
fn options_of<'a>(matches: &ArgMatches<'a>) -> Option<Options<'a>>
    ensures value { line.settings_of (rows_of (found_of matches.now)) ≡ option_map settings result }
    ensures limits { IfSome result (λ o. AreInRange o.limits) }
{
    let entry = value(matches, "entry")?;
    let rounds = number(value(matches, "rounds")?, 1, 100_000)?;
    let workers = number(value(matches, "workers")?, 1, 64)?;
    let depth = number(value(matches, "depth")?, 0, 64)?;
    let modular = is_set(matches, "modular")?;
    let reuse = value(matches, "reuse");
    if modular && reuse.is_some() {
        return None;
    }
    let limits = Limits {
        rounds: u64::from(rounds),
        workers,
        depth,
    };
    Some(Options {
        entry,
        limits,
        modular,
        reuse,
    })
}

/// What the values of the arguments ask for.
fn request_of<'a>(matches: &ArgMatches<'a>) -> Option<Request<'a>>
    ensures value { line.request_of (rows_of (found_of matches.now)) ≡ option_map asked result }
    ensures limits { IfSome result (λ r. AreInRange r.options.limits) }
    ensures counted { IfSome result (λ r. IsCounted r.task) }
{
    let options = options_of(matches)?;
    let task = task_of(matches)?;
    Some(Request { task, options })
}

/// What the words ask for; none where they are faulty.
pub(crate) fn read_words<'a>(
    alloc: Global,
    words: &'a [String],
) -> Result<Option<Request<'a>>, AllocError>
    ensures value { IfOk result (λ r. option_map asked r ≡ line.requested (map string_bytes words.now)) }
    ensures limits { IfOk result (λ r. IfSome r (λ q. AreInRange q.options.limits)) }
    ensures counted { IfOk result (λ r. IfSome r (λ q. IsCounted q.task)) }
{
    let command = command(alloc)?;
    let Some(matches) = matched(command, words)? else {
        return Ok(None);
    };
    Ok(request_of(&matches))
}

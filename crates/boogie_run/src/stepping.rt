//! The start of a run, and one step.

ghost use Rattle.std.specs.Prelude.{◌≡◌, ◌↔◌, true, Option, Ok, Err, IfOk, IsOk, IsErr};
ghost use Rattle.typed_tree.specs.TypingRules.TypedParts.{typed_program};
ghost use Rattle.boogie_run.specs.BoogiePoints.Actions.{action_at};
ghost use Rattle.boogie_run.specs.BoogiePoints.View.{action_view};
ghost use Rattle.boogie_run.specs.BoogiePoints.Told.{told};
ghost use Rattle.boogie_run.specs.Fitting.{NextFits};
ghost use Rattle.boogie_run.specs.Needs as needs;
ghost use Rattle.boogie_run.specs.Steps as steps;
ghost use Rattle.boogie_run.specs.RunView.{config_of, FitsProgram};
ghost use Rattle.boogie_run.specs.StepView.{need_view, choice_view, line_at, IsMoved, happening, Performs, StepsTo, is_way};
ghost use Rattle.boogie_run.specs.ToldActs.{told_need};

use crate::actions::{assign, check, demand, guess, jump, pick, suppose, test};
use crate::boogie_points::{Action, Numbers, action_at, start_point};
use crate::calls::{enter, finish, grant, keep, leave};
use crate::choices::{locals_at, need_at, need_of_action, taken};
use crate::configurations::{Config, RunFrame};
use crate::frames::{choose_global, choose_local, top};
use crate::types::{Choice, Moved, Need, RunFault};
use std::alloc::{AllocError, Global};
use typed_tree::typing_rules::Typed;

/// The configuration before the first step.
pub fn start(alloc: Global, program: &Typed) -> Result<Config<'_>, AllocError>
    ensures start { IfOk result (λ config. config_of config ≡ steps.start (typed_program program.now)) }
    ensures fits { IfOk result (λ config. FitsProgram program.now config) }
{
    let numbers = Numbers::of(alloc, program)?;
    let point = start_point(alloc, program, &numbers)?;
    let mut frames = Vec::new(alloc);
    frames.push(RunFrame {
        proc: program.entry(),
        locals: Vec::new(alloc),
        entry: Vec::new(alloc),
        point,
        kept: Vec::new(alloc),
    })?;
    Ok(Config {
        alloc,
        program,
        numbers,
        globals: Vec::new(alloc),
        frames,
    })
}

/// What happens where the frame that runs stands.
pub(crate) fn action_here<'a>(config: &Config<'a>) -> Action<'a>
    requires { FitsProgram config.now.program.now config.now }
    ensures { action_view result ≡ told (happening config.now) }
{
    let frame = top(config);
    action_at(config.program, &config.numbers, frame.proc, &frame.point)
}

/// What the next step takes.
pub fn needs(program: &Typed, config: &Config<'_>) -> Need
    requires fits { FitsProgram program.now config.now }
    ensures { need_view result ≡ needs.need (typed_program program.now) (config_of config.now) }
{
    let globals = program.globals();
    let chosen = config.globals.len();
    if chosen < globals.len() {
        return need_at(globals, chosen);
    }
    let frame = top(config);
    let locals = locals_at(program, frame.proc);
    let chosen = frame.locals.len();
    if chosen < locals.len() {
        return need_at(locals, chosen);
    }
    need_of_action(program, frame.proc, action_here(config))
}

/// What the action at the point of the frame that runs makes.
fn act(config: &mut Config<'_>, chosen: i128) -> Result<Moved, RunFault>
    requires fits { FitsProgram config.old.program.now config.old }
    requires way { is_way (told_need (typed_program config.old.program.now) (config_of config.old).top.proc (told (happening config.old))) chosen ≡ true }
    ensures answer { Performs config.old chosen (told (happening config.old)) result config.new }
    ensures fits { FitsProgram config.old.program.now config.new }
{
    match action_here(config) {
        Action::Check { number, span, cond } => check(config, number, span, cond),
        Action::Suppose { cond } => suppose(config, cond),
        Action::Demand {
            number,
            span,
            cond,
            args,
        } => demand(config, number, span, cond, args),
        Action::Write { targets, values } => assign(config, targets, values),
        Action::Guess { column } => guess(config, column, chosen),
        Action::Test { cond } => test(config, cond),
        Action::Pick { ways } => pick(config, ways, chosen),
        Action::Jump => jump(config),
        Action::Enter { callee, args } => enter(config, callee, args),
        Action::Keep {
            callee,
            args,
            column,
        } => keep(config, callee, args, column, chosen),
        Action::Grant { callee, args, cond } => grant(config, callee, args, cond),
        Action::Finish {
            callee,
            args,
            targets,
        } => finish(config, callee, args, targets),
        Action::Leave => leave(config),
    }
}

/// The next configuration, with the choice as a number.
fn next(config: &mut Config<'_>, chosen: i128) -> Result<Moved, RunFault>
    requires fits { FitsProgram config.old.program.now config.old }
    requires way { is_way (needs.need (typed_program config.old.program.now) (config_of config.old)) chosen ≡ true }
    ensures answer { StepsTo (typed_program config.old.program.now) (config_of config.old) chosen result (config_of config.new) }
    ensures fits { FitsProgram config.old.program.now config.new }
{
    let program = config.program;
    if config.globals.len() < program.globals().len() {
        choose_global(config, chosen)?;
        return Ok(Moved::Went);
    }
    let frame = top(config);
    if frame.locals.len() < locals_at(program, frame.proc).len() {
        choose_local(config, chosen)?;
        return Ok(Moved::Went);
    }
    act(config, chosen)
}

/// Makes one step. Where it does not go on, the configuration is as before, so the answer is the same again.
pub fn step(
    program: &Typed,
    config: &mut Config<'_>,
    choice: Option<Choice>,
) -> Result<Moved, RunFault>
    requires fits { FitsProgram program.now config.old }

    // Where the configuration goes on, it is the next one; where it does not, it is as before. A failure names the assertion with its line.
    ensures moved { IfOk result (λ moved. IsMoved (line_at (typed_program program.now) (config_of config.old)) (config_of config.old) (steps.step (typed_program program.now) (config_of config.old) (choice_view choice)) moved (config_of config.new)) }
    ensures fit { IsOk result → NextFits (typed_program program.now) (config_of config.old) }

    ensures needs_choice { (result ≡ Err RunFault.NeedsChoice) ↔ (needs.is_missing (needs.need (typed_program program.now) (config_of config.old)) (choice_view choice) ≡ true) }
    ensures bad_choice { (result ≡ Err RunFault.BadChoice) ↔ (needs.is_refused (needs.need (typed_program program.now) (config_of config.old)) (choice_view choice) ≡ true) }
    ensures number_taken { result ≡ Err RunFault.Number → needs.is_taken (needs.need (typed_program program.now) (config_of config.old)) (choice_view choice) ≡ true }
    ensures number { result ≡ Err RunFault.Number → NextFits (typed_program program.now) (config_of config.old) → ⊥ }

    // A refusal leaves the configuration as it is.
    ensures kept { IsErr result → config_of config.new ≡ config_of config.old }
    ensures fits { FitsProgram program.now config.new }
{
    let chosen = taken(needs(program, config), choice)?;
    next(config, chosen)
}

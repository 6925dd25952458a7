//! What a step does at calls and returns.

ghost use Rattle.std.specs.Prelude.{◌≡◌, ◌<◌, pos, [], map, length, take, drop, slice_get};
ghost use Rattle.typed_tree.specs.TypedView as view;
ghost use Rattle.typed_tree.specs.TypingRules.TypedParts.{typed_program};
ghost use Rattle.boogie_run.specs.BoogiePoints.Told.{Enter, Keep, Grant, Finish, Leave, told};
ghost use Rattle.boogie_run.specs.Steps as spec;
ghost use Rattle.boogie_run.specs.RunView.{frame_of, config_of, FitsProgram};
ghost use Rattle.boogie_run.specs.StepView.{happening, Performs, IsGranted, returned};

use crate::boogie_points::{entry_point, targets};
use crate::configurations::{Config, RunFrame};
use crate::evaluation::{Env, all_fit, all_values, value};
use crate::frames::{env, go_keeping, go_with, pass, take_kept, top};
use crate::types::{Moved, RunFault};
use crate::writing::{put_all, write_all, write_globals};
use boogie_tree::Column;
use typed_tree::TExpr;
use typed_tree::typing_rules::Typed;

/// The members from that number on.
fn behind(values: &[i128], from: usize) -> &[i128]
    ensures { result.now ≡ drop from values.now }
{
    if from <= values.len() {
        &values[from..]
    } else {
        &[]
    }
}

/// The first members, so many of them.
fn front(values: &[i128], count: usize) -> &[i128]
    ensures { result.now ≡ take count values.now }
{
    if count <= values.len() {
        &values[..count]
    } else {
        values
    }
}

/// The numbers of the globals that a procedure modifies; none where there is no such procedure.
pub fn modifies_at(program: &Typed, proc: u32) -> &[u32]
    ensures { result.now ≡ spec.modifies_of (slice_get (typed_program program.now).procs proc) }
{
    match program.procs().get(proc as usize) {
        Some(found) => &found.modifies,
        None => &[],
    }
}

/// The results of a frame.
fn results<'c>(program: &Typed, frame: &'c RunFrame<'_>) -> &'c [i128]
    ensures { result.now ≡ spec.results_left (typed_program program.now) (frame_of frame.now) }
{
    match program.procs().get(frame.proc as usize) {
        Some(found) => front(
            behind(&frame.locals, found.params as usize),
            found.results as usize,
        ),
        None => &[],
    }
}

/// Enters a procedure with a body.
#[tactic(auto, using(crate::proofs::FrameLemmas::pushed))]
pub(crate) fn enter(config: &mut Config<'_>, callee: u32, args: &[TExpr]) -> Result<Moved, RunFault>
    requires fits { FitsProgram config.old.program.now config.old }
    requires here { told (happening config.old) ≡ Enter callee (map view.expression args.now) }
    ensures answer { Performs config.old (pos 0) (Enter callee (map view.expression args.now)) result config.new }
    ensures fits { FitsProgram config.old.program.now config.new }
{
    let (alloc, program) = (config.alloc, config.program);
    let locals = all_values(alloc, env(config), args)?;
    let at_entry = Vec::from_slice(alloc, &config.globals)?;
    let point = entry_point(alloc, program, &config.numbers, callee)?;
    config.frames.push(RunFrame {
        proc: callee,
        locals,
        entry: at_entry,
        point,
        kept: Vec::new(alloc),
    })?;
    Ok(Moved::Went)
}

/// Of a call without body: keeps a chosen value.
pub(crate) fn keep(
    config: &mut Config<'_>,
    callee: u32,
    args: &[TExpr],
    column: Column,
    chosen: i128,
) -> Result<Moved, RunFault>
    requires fits { FitsProgram config.old.program.now config.old }
    requires here { told (happening config.old) ≡ Keep callee (map view.expression args.now) column }
    ensures answer { Performs config.old chosen (Keep callee (map view.expression args.now) column) result config.new }
    ensures fits { FitsProgram config.old.program.now config.new }
{
    all_fit(env(config), args)?;
    go_with(config, chosen, 0)?;
    Ok(Moved::Went)
}

/// Of a call without body: assumes an ensures.
pub(crate) fn grant(
    config: &mut Config<'_>,
    callee: u32,
    args: &[TExpr],
    cond: &TExpr,
) -> Result<Moved, RunFault>
    requires fits { FitsProgram config.old.program.now config.old }
    requires here { told (happening config.old) ≡ Grant callee (map view.expression args.now) (view.expression cond.now) }
    ensures answer { Performs config.old (pos 0) (Grant callee (map view.expression args.now) (view.expression cond.now)) result config.new }
    ensures fits { FitsProgram config.old.program.now config.new }
{
    if granted(config, callee, args, cond)? == 0 {
        return Ok(Moved::Blocked);
    }
    go_keeping(config, 0)?;
    Ok(Moved::Went)
}

/// The value of an ensures behind a call without body.
fn granted(config: &Config<'_>, callee: u32, args: &[TExpr], cond: &TExpr) -> Result<i128, RunFault>
    requires { 0 < length config.now.frames.items }
    ensures { IsGranted (typed_program config.now.program.now) (config_of config.now) callee (map view.expression args.now) (view.expression cond.now) result }
{
    let alloc = config.alloc;
    let mut locals = all_values(alloc, env(config), args)?;
    let mut globals = Vec::from_slice(alloc, &config.globals)?;
    let modified = modifies_at(config.program, callee);
    let kept = &top(config).kept;
    put_all(&mut globals, modified, kept);
    locals.extend_from_slice(behind(kept, modified.len()))?;
    let env = Env {
        globals: &globals,
        old: &config.globals,
        locals: &locals,
    };
    value(env, cond)
}

/// Of a call without body: writes what was chosen.
#[tactic(auto, using(crate::proofs::ToldLemmas::ways_told, crate::proofs::Going::finished_after))]
pub(crate) fn finish(
    config: &mut Config<'_>,
    callee: u32,
    args: &[TExpr],
    targets: &[Column],
) -> Result<Moved, RunFault>
    requires fits { FitsProgram config.old.program.now config.old }
    requires here { told (happening config.old) ≡ Finish callee (map view.expression args.now) targets.now }
    ensures answer { Performs config.old (pos 0) (Finish callee (map view.expression args.now) targets.now) result config.new }
    ensures fits { FitsProgram config.old.program.now config.new }
{
    all_fit(env(config), args)?;
    go_keeping(config, 0)?;
    let kept = take_kept(config);
    let modified = modifies_at(config.program, callee);
    write_globals(config, modified, &kept);
    write_all(config, targets, behind(&kept, modified.len()));
    Ok(Moved::Went)
}

/// Returns to the caller, or ends the run.
pub(crate) fn leave(config: &mut Config<'_>) -> Result<Moved, RunFault>
    requires fits { FitsProgram config.old.program.now config.old }
    requires here { told (happening config.old) ≡ Leave }
    ensures answer { Performs config.old (pos 0) Leave result config.new }
    ensures fits { FitsProgram config.old.program.now config.new }
{
    if config.frames.len() < 2 {
        return Ok(Moved::Ended);
    }
    let Some(done) = config.frames.pop() else {
        return Ok(Moved::Ended);
    };
    take_results(config, results(config.program, &done));
    Ok(Moved::Went)
}

/// Writes the results to the targets of the call at which the frame stands, which is then past it.
#[tactic(auto, using(crate::proofs::Going::all_written_point))]
fn take_results(config: &mut Config<'_>, results: &[i128])
    requires fits { FitsProgram config.old.program.now config.old }
    ensures value { config_of config.new ≡ returned (typed_program config.old.program.now) (config_of config.old) results.now }
    ensures fits { FitsProgram config.old.program.now config.new }
{
    let targets = targets(&top(config).point);
    write_all(config, targets, results);
    pass(config);
}

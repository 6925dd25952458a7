//! Reading and moving the frame that runs.

ghost use Rattle.std.specs.Prelude.{◌≡◌, ◌<◌, [], length, slice_get, IsOk, IsErr, Some};
ghost use Rattle.typed_tree.specs.TypingRules.TypedParts.{typed_program};
ghost use Rattle.boogie_run.specs.BoogiePoints.Points.{settled, past_first};
ghost use Rattle.boogie_run.specs.BoogiePoints.Told.{ways_of};
ghost use Rattle.boogie_run.specs.Configurations.{state_of};
ghost use Rattle.boogie_run.specs.Steps.{Went, went_if, moved_to, with_global, with_local};
ghost use Rattle.boogie_run.specs.Ties.Environments.{state};
ghost use Rattle.boogie_run.specs.ToldActs.{kept_on_if, kept_to_if};
ghost use Rattle.boogie_run.specs.RunView.{frame_of, config_of, FitsProgram};
ghost use Rattle.boogie_run.specs.StepView.{happening};

use crate::boogie_points::{go_on, pass_call};
use crate::configurations::{Config, RunFrame};
use crate::evaluation::Env;
use std::alloc::AllocError;

/// The frame that runs.
#[tactic(auto, using(crate::proofs::FrameLemmas::top_is))]
pub(crate) fn top<'c, 'a>(config: &'c Config<'a>) -> &'c RunFrame<'a>
    requires { 0 < length config.now.frames.items }
    ensures { frame_of result.now ≡ (config_of config.now).top }
{
    &config.frames[config.frames.len() - 1]
}

/// What expressions of the frame that runs are read in.
pub(crate) fn env<'c>(config: &'c Config<'_>) -> Env<'c>
    requires { 0 < length config.now.frames.items }
    ensures { state result ≡ state_of (config_of config.now) }
{
    let frame = top(config);
    Env {
        globals: config.globals.as_slice(),
        old: frame.entry.as_slice(),
        locals: frame.locals.as_slice(),
    }
}

/// On by a way of the action that stands here, with what was kept. Refused for want of memory alone.
#[tactic(auto, using(crate::proofs::FrameLemmas::with_top, crate::proofs::FrameLemmas::top_is))]
pub(crate) fn go_keeping(config: &mut Config<'_>, way: usize) -> Result<(), AllocError>
    requires fits { FitsProgram config.old.program.now config.old }
    requires way { way < length (ways_of (happening config.old)) }
    ensures went { IsOk result → kept_on_if (slice_get (ways_of (happening config.old)) way) (config_of config.old) ≡ Went (config_of config.new) }
    ensures kept { IsErr result → config_of config.new ≡ config_of config.old }
    ensures fits { FitsProgram config.old.program.now config.new }
{
    let program = config.program;
    match config.frames.last_mut() {
        Some(frame) => go_on(program, &config.numbers, frame.proc, &mut frame.point, way),
        None => Ok(()),
    }
}

/// Forgets what was kept.
pub(crate) fn clear_kept(config: &mut Config<'_>)
    requires { FitsProgram config.old.program.now config.old }
    ensures value { config_of config.new ≡ record (config_of config.old) { top = record (config_of config.old).top { kept = [] } } }
    ensures fits { FitsProgram config.old.program.now config.new }
{
    if let Some(frame) = config.frames.last_mut() {
        frame.kept.clear();
    }
}

/// On by a way of the action that stands here. Refused for want of memory alone.
pub(crate) fn go(config: &mut Config<'_>, way: usize) -> Result<(), AllocError>
    requires fits { FitsProgram config.old.program.now config.old }
    requires way { way < length (ways_of (happening config.old)) }
    ensures went { IsOk result → went_if (slice_get (ways_of (happening config.old)) way) (config_of config.old) ≡ Went (config_of config.new) }
    ensures kept { IsErr result → config_of config.new ≡ config_of config.old }
    ensures fits { FitsProgram config.old.program.now config.new }
{
    go_keeping(config, way)?;
    clear_kept(config);
    Ok(())
}

/// On by a way of the action that stands here, with one more value kept. Refused for want of memory alone.
#[tactic(auto, using(crate::proofs::FrameLemmas::with_top, crate::proofs::FrameLemmas::top_is))]
pub(crate) fn go_with(config: &mut Config<'_>, value: i128, way: usize) -> Result<(), AllocError>
    requires fits { FitsProgram config.old.program.now config.old }
    requires way { way < length (ways_of (happening config.old)) }
    ensures went { IsOk result → kept_to_if (slice_get (ways_of (happening config.old)) way) (config_of config.old) value ≡ Went (config_of config.new) }
    ensures kept { IsErr result → config_of config.new ≡ config_of config.old }
    ensures fits { FitsProgram config.old.program.now config.new }
{
    let program = config.program;
    let Some(frame) = config.frames.last_mut() else {
        return Ok(());
    };
    frame.kept.push(value)?;
    let gone = go_on(program, &config.numbers, frame.proc, &mut frame.point, way);
    if gone.is_err() {
        frame.kept.pop();
        return Err(AllocError);
    }
    Ok(())
}

/// What was kept, which is then forgotten.
pub(crate) fn take_kept(config: &mut Config<'_>) -> Vec<i128>
    requires { FitsProgram config.old.program.now config.old }
    ensures kept { result.items ≡ (config_of config.old).top.kept }
    ensures value { config_of config.new ≡ record (config_of config.old) { top = record (config_of config.old).top { kept = [] } } }
    ensures fits { FitsProgram config.old.program.now config.new }
{
    let alloc = config.alloc;
    match config.frames.last_mut() {
        Some(frame) => std::mem::replace(&mut frame.kept, Vec::new(alloc)),
        None => Vec::new(alloc),
    }
}

/// Goes behind the call at which the frame stands.
#[tactic(auto, using(crate::proofs::FrameLemmas::with_top, crate::proofs::FrameLemmas::top_is))]
pub(crate) fn pass(config: &mut Config<'_>)
    requires { FitsProgram config.old.program.now config.old }
    ensures value { config_of config.new ≡ moved_to (config_of config.old) (settled (past_first (typed_program config.old.program.now).procs (config_of config.old).top.point.todo)) }
    ensures fits { FitsProgram config.old.program.now config.new }
{
    let program = config.program;
    if let Some(frame) = config.frames.last_mut() {
        pass_call(program, &mut frame.point);
        frame.kept.clear();
    }
}

/// One more constant or global.
#[tactic(auto, using(crate::proofs::FrameLemmas::with_top, crate::proofs::FrameLemmas::top_is))]
pub(crate) fn choose_global(config: &mut Config<'_>, chosen: i128) -> Result<(), AllocError>
    requires { FitsProgram config.old.program.now config.old }
    ensures value { IsOk result → config_of config.new ≡ with_global (config_of config.old) chosen }
    ensures kept { IsErr result → config_of config.new ≡ config_of config.old }
    ensures fits { FitsProgram config.old.program.now config.new }
{
    let Some(frame) = config.frames.last_mut() else {
        return Ok(());
    };
    frame.entry.push(chosen)?;
    if config.globals.push(chosen).is_err() {
        frame.entry.pop();
        return Err(AllocError);
    }
    Ok(())
}

/// One more local.
#[tactic(auto, using(crate::proofs::FrameLemmas::with_top, crate::proofs::FrameLemmas::top_is))]
pub(crate) fn choose_local(config: &mut Config<'_>, chosen: i128) -> Result<(), AllocError>
    requires { FitsProgram config.old.program.now config.old }
    ensures value { IsOk result → config_of config.new ≡ with_local (config_of config.old) chosen }
    ensures kept { IsErr result → config_of config.new ≡ config_of config.old }
    ensures fits { FitsProgram config.old.program.now config.new }
{
    if let Some(frame) = config.frames.last_mut() {
        frame.locals.push(chosen)?;
    }
    Ok(())
}

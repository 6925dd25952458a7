//! What a step changes.

ghost use Rattle.std.specs.Prelude.{◌≡◌, ◌++◌, map, slice_get, OnOk};
ghost use Rattle.boogie_tree.specs.declared.tree.Column.TheVariants as columns;
ghost use Rattle.typed_tree.specs.TypingRules.TypedParts.{typed_program};
ghost use Rattle.boogie_run.specs.BoogiePoints.Actions.{action_at};
ghost use Rattle.boogie_run.specs.BoogiePoints.Told.{told};
ghost use Rattle.boogie_run.specs.Steps.{modifies_of};
ghost use Rattle.boogie_run.specs.RunView.{config_of, FitsProgram};
ghost use Rattle.explain_top.specs.RunStory.Lines.{Adds};
ghost use Rattle.explain_top.specs.RunStory.Notes as spec;
ghost use Rattle.explain_top.specs.RunStory.Ties.Changes.{changed_columns};

use crate::run_story::lines::Line;
use crate::run_story::values::{note_all, note_held};
use boogie_run::boogie_points::{Action, procedure_at, targets};
use boogie_run::{Config, calling, happens, locals_at, modifies_at, running};
use boogie_tree::Column;
use std::alloc::AllocError;
use typed_tree::typing_rules::Typed;

/// The columns that a step changes, in the frame in which it goes on.
#[derive(Clone, Copy)]
pub(crate) enum Changes<'a> {
    Nothing,
    One(Column),
    Each(&'a [Column]),
    /// The parameters of a procedure, in order.
    Parameters(u32),
    /// The globals that a procedure without body modifies, and the targets.
    Finished(u32, &'a [Column]),
}

/// What an action changes.
fn changed_by<'a>(program: &Typed, config: &Config<'a>) -> Changes<'a>
    requires fits { FitsProgram program.now config.now }
    ensures { changed_columns (typed_program program.now) result ≡ spec.changed_by (typed_program program.now) (config_of config.now) (told (action_at (typed_program program.now) (config_of config.now).top.proc (config_of config.now).top.point)) }
{
    match happens(program, config) {
        Action::Write { targets, .. } => Changes::Each(targets),
        Action::Guess { column } => Changes::One(column),
        Action::Enter { callee, .. } => Changes::Parameters(callee),
        Action::Finish {
            callee,
            targets,
            ..
        } => Changes::Finished(callee, targets),
        Action::Leave => match calling(program, config) {
            Some(frame) => Changes::Each(targets(frame.point())),
            None => Changes::Nothing,
        },
        _ => Changes::Nothing,
    }
}

/// What the next step changes.
pub(crate) fn step_changes<'a>(program: &Typed, config: &Config<'a>) -> Changes<'a>
    requires fits { FitsProgram program.now config.now }
    ensures { changed_columns (typed_program program.now) result ≡ spec.changes (typed_program program.now) (config_of config.now) }
{
    let frame = running(program, config);
    if config.globals().len() < program.globals().len()
        || frame.locals().len() < locals_at(program, frame.proc()).len()
    {
        return Changes::Nothing;
    }
    changed_by(program, config)
}

/// Adds a note of each of so many locals, from the first on.
fn note_first(
    line: &mut Line,
    program: &Typed,
    config: &Config<'_>,
    count: u32,
) -> Result<(), AllocError>
    requires fits { FitsProgram program.now config.now }
    ensures { OnOk result (Adds line.old (spec.held (typed_program program.now) (config_of config.now) (spec.first_locals 0 count)) line.new) }
{
    for n in 0..count {
        note_held(line, program, config, Column::Local(n))?;
    }
    Ok(())
}

/// Adds a note of each of these globals.
fn note_globals(
    line: &mut Line,
    program: &Typed,
    config: &Config<'_>,
    numbers: &[u32],
) -> Result<(), AllocError>
    requires fits { FitsProgram program.now config.now }
    ensures { OnOk result (Adds line.old (spec.held (typed_program program.now) (config_of config.now) (map columns.Global numbers.now)) line.new) }
{
    for n in numbers {
        note_held(line, program, config, Column::Global(*n))?;
    }
    Ok(())
}

/// Adds a note of each global that a procedure without body modifies, and of each target.
fn note_finished(
    line: &mut Line,
    program: &Typed,
    config: &Config<'_>,
    callee: u32,
    targets: &[Column],
) -> Result<(), AllocError>
    requires fits { FitsProgram program.now config.now }
    ensures { OnOk result (Adds line.old (spec.held (typed_program program.now) (config_of config.now) (map columns.Global (modifies_of (slice_get (typed_program program.now).procs callee)) ++ targets.now)) line.new) }
{
    note_globals(line, program, config, modifies_at(program, callee))?;
    note_all(line, program, config, targets)
}

/// Adds the values of the columns that were changed.
pub(crate) fn note_changes(
    line: &mut Line,
    program: &Typed,
    config: &Config<'_>,
    changes: Changes<'_>,
) -> Result<(), AllocError>
    requires fits { FitsProgram program.now config.now }
    ensures { OnOk result (Adds line.old (spec.held (typed_program program.now) (config_of config.now) (changed_columns (typed_program program.now) changes.entry)) line.new) }
{
    match changes {
        Changes::Nothing => Ok(()),
        Changes::One(column) => note_held(line, program, config, column),
        Changes::Each(columns) => note_all(line, program, config, columns),
        Changes::Parameters(callee) => match procedure_at(program.procs(), callee) {
            Some(called) => note_first(line, program, config, called.params),
            None => Ok(()),
        },
        Changes::Finished(callee, columns) => {
            note_finished(line, program, config, callee, columns)
        }
    }
}

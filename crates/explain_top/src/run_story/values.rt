//! Notes on values.

ghost use Rattle.std.specs.Prelude.{◌≡◌, ◌++◌, ◌∷◌, [], slice_get, OnOk};
ghost use Rattle.std.specs.Option.{option_copied};
ghost use Rattle.typed_tree.specs.TypingRules.TypedParts.{typed_program};
ghost use Rattle.boogie_run.specs.Needs.{locals_at};
ghost use Rattle.boogie_run.specs.RunView.{config_of, FitsProgram};
ghost use Rattle.explain_top.specs.RunStory.Lines.{Adds};
ghost use Rattle.explain_top.specs.RunStory.Notes as spec;

use crate::run_story::lines::{Line, next_note};
use boogie_run::{Config, held, locals_at, running};
use boogie_tree::printing::{append, literal, truth};
use boogie_tree::{Column, Ty, VarInfo};
use std::alloc::AllocError;
use typed_tree::typing_rules::Typed;

/// A value of that type.
fn typed_value(out: &mut Vec<u8>, ty: Ty, value: i128) -> Result<(), AllocError>
    ensures { OnOk result (out.new.items ≡ out.old.items ++ spec.value_text ty value) }
{
    match ty {
        Ty::Int => literal(out, value),
        Ty::Bool => truth(out, value != 0),
    }
}

/// A variable with its value.
fn variable(out: &mut Vec<u8>, found: Option<&VarInfo>, value: i128) -> Result<(), AllocError>
    ensures { OnOk result (out.new.items ≡ out.old.items ++ spec.variable_note (option_copied found.entry) value) }
{
    match found {
        Some(info) => {
            append(out, info.name.bytes())?;
            append(out, b" = ")?;
            typed_value(out, info.ty, value)
        }
        None => literal(out, value),
    }
}

/// A global with its value at the procedure's entry.
fn old_variable(out: &mut Vec<u8>, found: Option<&VarInfo>, value: i128) -> Result<(), AllocError>
    ensures { OnOk result (out.new.items ≡ out.old.items ++ spec.old_note (option_copied found.entry) value) }
{
    match found {
        Some(info) => {
            append(out, b"old(")?;
            append(out, info.name.bytes())?;
            append(out, b") = ")?;
            typed_value(out, info.ty, value)
        }
        None => literal(out, value),
    }
}

/// A column of a procedure with a value.
fn column(
    out: &mut Vec<u8>,
    program: &Typed,
    proc: u32,
    column: Column,
    value: i128,
) -> Result<(), AllocError>
    ensures { OnOk result (out.new.items ≡ out.old.items ++ spec.note (typed_program program.now) proc column value) }
{
    match column {
        Column::Global(n) => variable(out, program.globals().get(n as usize), value),
        Column::Old(n) => old_variable(out, program.globals().get(n as usize), value),
        Column::Local(n) => variable(out, locals_at(program, proc).get(n as usize), value),
    }
}

/// Adds a note of a column of a procedure with a value.
pub(crate) fn note(
    line: &mut Line,
    program: &Typed,
    proc: u32,
    read: Column,
    value: i128,
) -> Result<(), AllocError>
    ensures { OnOk result (Adds line.old (spec.note (typed_program program.now) proc read value ∷ []) line.new) }
{
    next_note(line)?;
    column(&mut line.text, program, proc, read, value)
}

/// The constant or global of that number with a value.
fn global_text(
    out: &mut Vec<u8>,
    program: &Typed,
    number: usize,
    value: i128,
) -> Result<(), AllocError>
    ensures { OnOk result (out.new.items ≡ out.old.items ++ spec.variable_note (slice_get (typed_program program.now).globals number) value) }
{
    variable(out, program.globals().get(number), value)
}

/// The variable of that number of a procedure with a value.
fn local_text(
    out: &mut Vec<u8>,
    program: &Typed,
    proc: u32,
    number: usize,
    value: i128,
) -> Result<(), AllocError>
    ensures { OnOk result (out.new.items ≡ out.old.items ++ spec.variable_note (slice_get (locals_at (typed_program program.now) proc) number) value) }
{
    variable(out, locals_at(program, proc).get(number), value)
}

/// Adds a note of the constant or global of that number with a value.
pub(crate) fn note_global(
    line: &mut Line,
    program: &Typed,
    number: usize,
    value: i128,
) -> Result<(), AllocError>
    ensures { OnOk result (Adds line.old (spec.variable_note (slice_get (typed_program program.now).globals number) value ∷ []) line.new) }
{
    next_note(line)?;
    global_text(&mut line.text, program, number, value)
}

/// Adds a note of the variable of that number of a procedure with a value.
pub(crate) fn note_local(
    line: &mut Line,
    program: &Typed,
    proc: u32,
    number: usize,
    value: i128,
) -> Result<(), AllocError>
    ensures { OnOk result (Adds line.old (spec.variable_note (slice_get (locals_at (typed_program program.now) proc) number) value ∷ []) line.new) }
{
    next_note(line)?;
    local_text(&mut line.text, program, proc, number, value)
}

/// Adds a note of a column with the value that it has in the frame that runs.
pub(crate) fn note_held(
    line: &mut Line,
    program: &Typed,
    config: &Config<'_>,
    read: Column,
) -> Result<(), AllocError>
    requires fits { FitsProgram program.now config.now }
    ensures { OnOk result (Adds line.old (spec.held (typed_program program.now) (config_of config.now) (read ∷ [])) line.new) }
{
    let proc = running(program, config).proc();
    note(line, program, proc, read, held(program, config, read))
}

/// Adds a note of each of these columns.
pub(crate) fn note_all(
    line: &mut Line,
    program: &Typed,
    config: &Config<'_>,
    columns: &[Column],
) -> Result<(), AllocError>
    requires fits { FitsProgram program.now config.now }
    ensures { OnOk result (Adds line.old (spec.held (typed_program program.now) (config_of config.now) columns.now) line.new) }
{
    for column in columns {
        note_held(line, program, config, *column)?;
    }
    Ok(())
}

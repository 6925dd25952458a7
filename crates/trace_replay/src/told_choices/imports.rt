//! What a call of a procedure without body chooses.

ghost use Rattle.std.specs.Prelude.{◌≡◌, ◌++◌, map, replicate, IfOk, OnOk, slice_get};
ghost use Rattle.std.specs.Option.{option_copied};
ghost use Rattle.math_facts.specs.Fits.{Fits};
ghost use Rattle.std.specs.List.{AllByRecursion};
ghost use Rattle.typed_tree.specs.TypingRules.TypedParts.{typed_program};
ghost use Rattle.letter_acts.specs.Values.{picked};
ghost use Rattle.letter_acts.specs.Reading.{is_listed};
ghost use Rattle.lowered_graph.specs.LoweredSteps.Edges as edges;
ghost use Rattle.lowered_graph.specs.LoweredImports.Imports as spec;
ghost use Rattle.lowered_graph.specs.LoweredRuns.Choices.{call_choices};
ghost use Rattle.trace_replay.specs.ToldChoices.Telling.{ChoicesFit};

use crate::told_choices::statements::ensured;
use crate::told_choices::values::value_at;
use boogie_run::boogie_points::procedure_at;
use boogie_tree::{Ty, VarInfo};
use std::alloc::{AllocError, Global};
use typed_tree::typing_rules::Typed;

fn is_in(numbers: &[usize], number: u32) -> bool
    ensures { result ≡ is_listed numbers.now number }
{
    for listed in numbers {
        if *listed == number as usize {
            return true;
        }
    }
    false
}

/// Those of the modified globals that are targets, too.
fn shared(alloc: Global, targets: &[usize], modified: &[u32]) -> Result<Vec<u32>, AllocError>
    ensures { IfOk result (λ v. v.items ≡ edges.those_in targets.now modified.now) }
{
    let mut found = Vec::new(alloc);
    for global in modified {
        if is_in(targets, *global) {
            found.push(*global)?;
        }
    }
    Ok(found)
}

/// The first place of a number in a list.
fn place_of(numbers: &[u32], number: u32) -> Option<usize>
    ensures { result ≡ edges.found_from 0 numbers.now number }
{
    for (place, listed) in numbers.iter().enumerate() {
        if *listed == number {
            return Some(place);
        }
    }
    None
}

/// A truth value; 0 in place of another number.
fn as_truth(value: i128) -> i128
    ensures { result ≡ spec.as_truth value }
{
    if value == 1 { 1 } else { 0 }
}

/// The value as one of the variable's type.
fn value_of_variable(variable: Option<&VarInfo>, value: i128) -> i128
    ensures value { result ≡ spec.value_of_variable (option_copied variable.entry) value }
    ensures fits { Fits value → Fits result }
{
    match variable {
        Some(info) => match info.ty {
            Ty::Int => value,
            Ty::Bool => as_truth(value),
        },
        None => value,
    }
}

/// The value that is chosen for a modified global: its value behind the call, or that of its helper where it is a target, too.
fn chosen_global(
    globals: &[VarInfo],
    helpers: &[i128],
    after: &[i128],
    helper: Option<usize>,
    global: u32,
) -> i128
    ensures value { result ≡ spec.told_global globals.now helpers.now after.now helper global }
    ensures fits { AllByRecursion Fits helpers.now → AllByRecursion Fits after.now → Fits result }
{
    match helper {
        Some(place) => value_of_variable(globals.get(global as usize), value_at(helpers, place)),
        None => value_at(after, global as usize),
    }
}

/// Adds the values that are chosen for the modified globals.
fn add_globals(
    told: &mut Vec<Option<i128>>,
    globals: &[VarInfo],
    modified: &[u32],
    targets: &[usize],
    helpers: &[i128],
    after: &[i128],
) -> Result<(), AllocError>
    ensures value { OnOk result (told.new.items ≡ told.old.items ++ map Some (spec.told_globals globals.now modified.now targets.now helpers.now after.now)) }
    ensures fits { OnOk result (AllByRecursion Fits helpers.now → AllByRecursion Fits after.now → ChoicesFit told.old.items → ChoicesFit told.new.items) }
{
    let shared = shared(*told.allocator(), targets, modified)?;
    for global in modified {
        let helper = place_of(&shared, *global);
        told.push(Some(chosen_global(globals, helpers, after, helper, *global)))?;
    }
    Ok(())
}

/// Adds the values of these columns.
fn add_values(
    told: &mut Vec<Option<i128>>,
    columns: &[usize],
    after: &[i128],
) -> Result<(), AllocError>
    ensures value { OnOk result (told.new.items ≡ told.old.items ++ map Some (picked after.now columns.now)) }
    ensures fits { OnOk result (AllByRecursion Fits after.now → ChoicesFit told.old.items → ChoicesFit told.new.items) }
{
    for column in columns {
        told.push(Some(value_at(after, *column)))?;
    }
    Ok(())
}

/// Adds so many steps that choose nothing.
fn add_none(told: &mut Vec<Option<i128>>, count: usize) -> Result<(), AllocError>
    ensures value { OnOk result (told.new.items ≡ told.old.items ++ replicate count None) }
    ensures fits { OnOk result (ChoicesFit told.old.items → ChoicesFit told.new.items) }
{
    for _i in 0..count {
        told.push(None)?;
    }
    Ok(())
}

/// Adds the choices of all steps of a call of that procedure: of the modified globals and the results, and none for each ensures and the writing.
pub(crate) fn add_import(
    told: &mut Vec<Option<i128>>,
    program: &Typed,
    callee: u32,
    targets: &[usize],
    helpers: &[i128],
    after: &[i128],
) -> Result<(), AllocError>
    ensures value { OnOk result (told.new.items ≡ told.old.items ++ call_choices (typed_program program.now).globals (slice_get (typed_program program.now).procs callee) targets.now helpers.now after.now) }
    ensures fits { OnOk result (AllByRecursion Fits helpers.now → AllByRecursion Fits after.now → ChoicesFit told.old.items → ChoicesFit told.new.items) }
{
    let Some(called) = procedure_at(program.procs(), callee) else {
        return Ok(());
    };
    add_globals(
        told,
        program.globals(),
        &called.modifies,
        targets,
        helpers,
        after,
    )?;
    add_values(told, targets, after)?;
    add_none(told, ensured(&called.specs))?;
    add_none(told, 1)?;
    Ok(())
}

//! The lists of rows of calls: of what they demand, of their arguments, and of those without body.

use crate::callers::{Caller, all_fit, ensures_fit, fits};
use crate::graphs::show_mark;
use crate::lists::{show_conjunction, show_fault, show_nothing};
use crate::printing::{end_line, show_line, show_numbers, show_text};
use crate::stand_ins::enlarged;
use boogie_tree::Column;
use cond_jumps::free_products::MarkedConj;
use cond_jumps::{JumpFault, place};
use icfg_lower::call_jumps::{Import, demanded, imported, parameters};
use icfg_lower::program_layout::Layout;
use letter_acts::Frame;
use std::alloc::{AllocError, Global};
use typed_tree::typing_rules::Typed;
use typed_tree::{TExpr, TProc, TSpec};

fn condition(specification: &TSpec) -> &TExpr {
    match specification {
        TSpec::Requires(claim) | TSpec::Ensures(claim) => &claim.cond,
    }
}

/// A letter, and whether it is coarse.
fn show_letter(rt: &HostRuntime, name: &str, letter: &MarkedConj) {
    show_mark(rt, letter.coarse);
    show_conjunction(rt, name, &letter.conj)
}

/// Each letter on a line.
fn show_letters(rt: &HostRuntime, name: &str, letters: &[MarkedConj]) {
    if letters.is_empty() {
        show_text(rt, name);
        return show_line(rt, ": nothing");
    }
    for letter in letters {
        show_letter(rt, name, letter);
    }
}

/// The letters, or why there are none.
fn show_answer(rt: &HostRuntime, name: &str, answer: &Result<Vec<MarkedConj>, JumpFault>) {
    match answer {
        Ok(letters) => show_letters(rt, name, letters),
        Err(fault) => show_fault(rt, name, fault),
    }
}

/// What is asked only of values and a condition whose forms fit.
fn show_demand(
    rt: &HostRuntime,
    caller: Caller<'_>,
    values: &[TExpr],
    condition: &TExpr,
    want: bool,
) {
    let alloc = rt.alloc();
    let Caller {
        globals,
        frame,
        locals,
    } = caller;
    if !all_fit(alloc, globals, values) || !fits(alloc, globals, condition) {
        return show_nothing(rt);
    }
    let answer = demanded(alloc, globals, frame, locals, values, condition, want);
    show_answer(rt, if want { "true" } else { "false" }, &answer)
}

/// What each specification of the called procedure demands of the values.
pub(crate) fn show_demands(
    rt: &HostRuntime,
    program: &Typed,
    caller: Caller<'_>,
    callee: u32,
    values: &[TExpr],
) {
    let Some(called) = program.procs().get(callee as usize) else {
        return show_nothing(rt);
    };
    for specification in &called.specs {
        show_demand(rt, caller, values, condition(specification), true);
        show_demand(rt, caller, values, condition(specification), false);
    }
}

/// How many columns a frame has.
fn size(frame: &Frame) -> u32 {
    u32::try_from(frame.columns.len()).unwrap_or(u32::MAX)
}

/// How many columns of the callee's frame stand before its parameters, and how many there are.
fn columns_of(layout: &Layout<'_>, callee: u32) -> Option<(u32, u32)> {
    let called = layout.frame(callee)?;
    Some((layout.before_locals(), size(called)))
}

/// The letter by which the parameters of the called procedure have the values. It is asked only of values whose forms fit.
pub(crate) fn show_arguments(
    rt: &HostRuntime,
    layout: &Layout<'_>,
    caller: Caller<'_>,
    callee: u32,
    values: &[TExpr],
) {
    let alloc = rt.alloc();
    let Some((before, width)) = columns_of(layout, callee) else {
        return show_nothing(rt);
    };
    let Caller {
        globals,
        frame,
        locals,
    } = caller;
    if before > width
        || values.len() > (width - before) as usize
        || !all_fit(alloc, globals, values)
    {
        return show_nothing(rt);
    }
    match &parameters(alloc, globals, frame, locals, values, before, width) {
        Ok(letter) => show_letter(rt, "gives", letter),
        Err(fault) => show_fault(rt, "gives", fault),
    }
}

fn push_numbers(
    numbers: &mut Vec<u32>,
    frame: &Frame,
    columns: &[Column],
) -> Result<(), AllocError> {
    for column in columns {
        if let Some(spot) = place(frame, *column)? {
            numbers.push(spot.number)?;
        }
    }
    Ok(())
}

/// The numbers of the columns in the frame.
fn numbers_of(alloc: Global, frame: &Frame, columns: &[Column]) -> Result<Vec<u32>, AllocError> {
    let mut numbers = Vec::new(alloc);
    push_numbers(&mut numbers, frame, columns)?;
    Ok(numbers)
}

/// What a call may do: the columns that it writes, and its list.
fn show_imported(rt: &HostRuntime, import: &Import) {
    show_text(rt, "writes");
    show_numbers(rt, &import.written);
    end_line(rt);
    show_letters(rt, "gives", &import.conjs)
}

/// What a call of this procedure may do. It is asked only of values and ensures whose forms fit.
fn show_import_to(
    rt: &HostRuntime,
    caller: Caller<'_>,
    called: &TProc,
    values: &[TExpr],
    targets: &[u32],
) {
    let alloc = rt.alloc();
    let Caller {
        globals,
        frame,
        locals,
    } = caller;
    if !all_fit(alloc, globals, values) || !ensures_fit(alloc, globals, &called.specs) {
        return show_nothing(rt);
    }
    match &imported(alloc, globals, frame, locals, called, values, targets) {
        Ok(import) => show_imported(rt, import),
        Err(fault) => show_fault(rt, "gives", fault),
    }
}

/// What a call without body may do.
pub(crate) fn show_import(
    rt: &HostRuntime,
    program: &Typed,
    caller: Caller<'_>,
    callee: u32,
    targets: &[Column],
    values: &[TExpr],
) {
    match numbers_of(rt.alloc(), caller.frame, targets) {
        Ok(targets) => show_import_at(rt, program, caller, callee, &targets, values),
        Err(_) => show_nothing(rt),
    }
}

fn show_import_at(
    rt: &HostRuntime,
    program: &Typed,
    caller: Caller<'_>,
    callee: u32,
    targets: &[u32],
    values: &[TExpr],
) {
    match &enlarged(program, callee) {
        Ok(Some(called)) => show_import_to(rt, caller, called, values, targets),
        _ => show_nothing(rt),
    }
}

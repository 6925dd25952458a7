//! The lists of rows of conditions, assignments and calls: of the first statement of the procedure at which a program begins.

use crate::callers::{Caller, caller_of};
use crate::calls::{show_arguments, show_demands, show_import};
use crate::graphs::show_rows;
use crate::printing::{end_line, show_count, show_line, show_number, show_text};
use crate::stand_ins::enlarged;
use boogie_tree::Column;
use cond_jumps::{Conj, JumpFault, assign, paths};
use icfg_lower::program_layout::{Layout, lay_out};
use letter_acts::Frame;
use typed_tree::typing_rules::Typed;
use typed_tree::{TExpr, TProc, TStmt};

/// What is asked of a statement.
#[derive(Clone, Copy)]
pub(crate) enum Asked {
    /// The lists of a condition.
    Condition,
    /// How many members those have.
    Members,
    /// The list of an assignment.
    Assignment,
    /// The rows of the arguments of a call, or of values in their place.
    Arguments,
    /// The lists of what a call demands.
    Demands,
    /// The list of a call without body.
    Import,
}

pub(crate) fn show_fault(rt: &HostRuntime, name: &str, fault: &JumpFault) {
    let _ = println!(rt; "{name}: {fault}");
}

/// How many helpers a conjunction has, and its rows.
pub(crate) fn show_conjunction(rt: &HostRuntime, name: &str, conjunction: &Conj) {
    show_text(rt, name);
    show_number(rt, " +", conjunction.helpers);
    show_rows(rt, &conjunction.rows)
}

/// Each conjunction on a line.
pub(crate) fn show_list(rt: &HostRuntime, name: &str, list: &[Conj]) {
    if list.is_empty() {
        show_text(rt, name);
        return show_line(rt, ": nothing");
    }
    for conjunction in list {
        show_conjunction(rt, name, conjunction);
    }
}

/// The list, or why there is none.
pub(crate) fn show_made(rt: &HostRuntime, name: &str, made: &Result<Vec<Conj>, JumpFault>) {
    match made {
        Ok(list) => show_list(rt, name, list),
        Err(fault) => show_fault(rt, name, fault),
    }
}

fn show_size(rt: &HostRuntime, name: &str, size: usize) {
    show_text(rt, name);
    show_count(rt, ": ", size);
    end_line(rt);
}

/// How many members the list has, or why there is none.
fn show_length(rt: &HostRuntime, name: &str, made: &Result<Vec<Conj>, JumpFault>) {
    match made {
        Ok(list) => show_size(rt, name, list.len()),
        Err(fault) => show_fault(rt, name, fault),
    }
}

fn show_condition(rt: &HostRuntime, frame: &Frame, condition: &TExpr) {
    show_made(rt, "true", &paths(rt.alloc(), frame, condition, true));
    show_made(rt, "false", &paths(rt.alloc(), frame, condition, false))
}

fn show_members(rt: &HostRuntime, frame: &Frame, condition: &TExpr) {
    show_length(rt, "true", &paths(rt.alloc(), frame, condition, true));
    show_length(rt, "false", &paths(rt.alloc(), frame, condition, false))
}

/// What is printed where the statement is another.
pub(crate) fn show_nothing(rt: &HostRuntime) {
    show_line(rt, "nothing to ask")
}

fn show_assignment(rt: &HostRuntime, frame: &Frame, targets: &[Column], values: &[TExpr]) {
    if targets.len() != values.len() {
        return show_nothing(rt);
    }
    show_made(rt, "gives", &assign(rt.alloc(), frame, targets, values))
}

fn show_assumed(rt: &HostRuntime, frame: &Frame, condition: &TExpr, asked: Asked) {
    match asked {
        Asked::Condition => show_condition(rt, frame, condition),
        Asked::Members => show_members(rt, frame, condition),
        _ => show_nothing(rt),
    }
}

/// The procedure of the program whose parameters get values that no call gives.
const CALLED: u32 = 1;

fn show_assigned(
    rt: &HostRuntime,
    layout: &Layout<'_>,
    caller: Caller<'_>,
    targets: &[Column],
    values: &[TExpr],
    asked: Asked,
) {
    match asked {
        Asked::Assignment => show_assignment(rt, caller.frame, targets, values),
        Asked::Arguments => show_arguments(rt, layout, caller, CALLED, values),
        _ => show_nothing(rt),
    }
}

/// A call: its targets, the number of its procedure, and its arguments.
struct Call<'a> {
    targets: &'a [Column],
    callee: u32,
    values: &'a [TExpr],
}

fn show_call(
    rt: &HostRuntime,
    layout: &Layout<'_>,
    caller: Caller<'_>,
    call: Call<'_>,
    asked: Asked,
) {
    let Call {
        targets,
        callee,
        values,
    } = call;
    match asked {
        Asked::Arguments => show_arguments(rt, layout, caller, callee, values),
        Asked::Demands => show_demands(rt, layout.program(), caller, callee, values),
        Asked::Import => show_import(rt, layout.program(), caller, callee, targets, values),
        _ => show_nothing(rt),
    }
}

/// What is asked of a statement. No statement is the assignment to no variables.
fn show_statement(
    rt: &HostRuntime,
    layout: &Layout<'_>,
    caller: Caller<'_>,
    statement: Option<&TStmt>,
    asked: Asked,
) {
    match statement {
        None => show_assigned(rt, layout, caller, &[], &[], asked),
        Some(TStmt::Assume(_, condition)) => show_assumed(rt, caller.frame, condition, asked),
        Some(TStmt::Assign(_, targets, values)) => {
            show_assigned(rt, layout, caller, targets, values, asked)
        }
        Some(TStmt::Call(_, targets, callee, values)) => {
            let call = Call {
                targets,
                callee: *callee,
                values,
            };
            show_call(rt, layout, caller, call, asked)
        }
        Some(_) => show_nothing(rt),
    }
}

/// The first statement of a procedure.
fn first(procedure: &TProc) -> Option<&TStmt> {
    match &procedure.body {
        Some(statements) => statements.first(),
        None => None,
    }
}

fn show_entry(rt: &HostRuntime, layout: &Layout<'_>, asked: Asked) {
    let entry = layout.program().entry();
    let Some(caller) = caller_of(layout, entry) else {
        return show_nothing(rt);
    };
    match &enlarged(layout.program(), entry) {
        Ok(Some(procedure)) => show_statement(rt, layout, caller, first(procedure), asked),
        _ => show_nothing(rt),
    }
}

/// What is asked of the first statement of the procedure at which the program begins.
pub(crate) fn show_asked(rt: &HostRuntime, program: &Typed, asked: Asked) {
    match lay_out(rt.alloc(), program) {
        Ok(layout) => show_entry(rt, &layout, asked),
        Err(_) => show_nothing(rt),
    }
}

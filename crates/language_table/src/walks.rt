//! Walks through the points of procedures.

ghost use Rattle.std.specs.Prelude.{◌≡◌};
ghost use Rattle.typed_tree.specs.TypingRules.TypedParts.{typed_program};
ghost use Rattle.boogie_run.specs.BoogiePoints.Numbered.{numbers_of};
ghost use Rattle.boogie_run.specs.BoogiePoints.Room.{PointHasRoom};
ghost use Rattle.boogie_run.specs.BoogiePoints.View.{point_of};

use crate::resolving::resolved;
use crate::texts::{put, put_no_memory, put_number};
use boogie_run::boogie_points::*;
use boogie_tree::Column;
use table_reading::{first_word, number};
use typed_tree::typing_rules::Typed;

/// A column behind what happens with it.
fn show_column(rt: &HostRuntime, before: &str, column: Column) {
    let _ = println!(rt; "{before} {column:?}");
}

/// What happens at a point.
fn show_action(rt: &HostRuntime, action: &Action<'_>) {
    match action {
        Action::Check { number, .. } => put_number(rt, "check ", u64::from(*number), "\n"),
        Action::Demand { number, .. } => put_number(rt, "demand ", u64::from(*number), "\n"),
        Action::Guess { column } => show_column(rt, "guess", *column),
        Action::Pick { ways } => put_number(rt, "pick ", *ways as u64, "\n"),
        Action::Enter { callee, .. } => put_number(rt, "enter ", u64::from(*callee), "\n"),
        Action::Keep { column, .. } => show_column(rt, "keep", *column),
        Action::Finish { targets, .. } => put_number(rt, "finish ", targets.len() as u64, "\n"),
        other => put(rt, name(other)),
    }
}

/// The line of an action of which no more is shown.
fn name(action: &Action<'_>) -> &'static str {
    match action {
        Action::Suppose { .. } => "suppose\n",
        Action::Write { .. } => "write\n",
        Action::Test { .. } => "test\n",
        Action::Jump => "jump\n",
        Action::Grant { .. } => "grant\n",
        _ => "leave\n",
    }
}

/// Passes a call, and says how many targets it has.
fn pass(rt: &HostRuntime, program: &Typed, point: &mut Point<'_>)
    requires { PointHasRoom (typed_program program.now).procs (point_of point.old) }
    ensures { PointHasRoom (typed_program program.now).procs (point_of point.new) }
{
    put_number(rt, "targets ", targets(point).len() as u64, "\n");
    pass_call(program, point);
}

/// Says what happens at a point, and goes on by a way, or past a call that enters.
fn advance<'a>(
    rt: &HostRuntime,
    program: &'a Typed,
    numbers: &Numbers,
    proc: u32,
    point: &mut Point<'a>,
    way: u32,
)
    requires numbers { numbers.now ≡ numbers_of (typed_program program.now) }
    requires room { PointHasRoom (typed_program program.now).procs (point_of point.old) }
    ensures { PointHasRoom (typed_program program.now).procs (point_of point.new) }
{
    let action = action_at(program, numbers, proc, point);
    show_action(rt, &action);
    if (way as usize) < action.ways() {
        if go_on(program, numbers, proc, point, way as usize).is_err() {
            put_no_memory(rt);
        }
    } else if let Action::Enter { .. } = action {
        pass(rt, program, point);
    }
}

/// A walk from a point by these ways.
fn show_steps<'a>(
    rt: &HostRuntime,
    program: &'a Typed,
    numbers: &Numbers,
    proc: u32,
    start: Point<'a>,
    ways: &str,
)
    requires numbers { numbers.now ≡ numbers_of (typed_program program.now) }
    requires room { PointHasRoom (typed_program program.now).procs (point_of start) }
{
    let mut point = start;
    for way in ways.split_whitespace() {
        advance(rt, program, numbers, proc, &mut point, number(way));
    }
}

/// A walk from the start of a run.
fn show_from_start(rt: &HostRuntime, program: &Typed, numbers: &Numbers, ways: &str)
    requires { numbers.now ≡ numbers_of (typed_program program.now) }
{
    match start_point(rt.alloc(), program, numbers) {
        Ok(start) => show_steps(rt, program, numbers, program.entry(), start, ways),
        Err(_) => put_no_memory(rt),
    }
}

/// A walk from the entry of a procedure.
fn show_from_entry(rt: &HostRuntime, program: &Typed, numbers: &Numbers, proc: u32, ways: &str)
    requires { numbers.now ≡ numbers_of (typed_program program.now) }
{
    match entry_point(rt.alloc(), program, numbers, proc) {
        Ok(entry) => show_steps(rt, program, numbers, proc, entry, ways),
        Err(_) => put_no_memory(rt),
    }
}

fn show_from(rt: &HostRuntime, program: &Typed, numbers: &Numbers, from: &str, ways: &str)
    requires { numbers.now ≡ numbers_of (typed_program program.now) }
{
    if from == "start" {
        show_from_start(rt, program, numbers, ways);
    } else {
        show_from_entry(rt, program, numbers, number(from), ways);
    }
}

fn show_walk_of(rt: &HostRuntime, program: &Typed, steps: &str) {
    let (from, ways) = first_word(steps);
    match Numbers::of(rt.alloc(), program) {
        Ok(numbers) => show_from(rt, program, &numbers, from, ways),
        Err(_) => put_no_memory(rt),
    }
}

/// What happens on a walk through the program of a text, from the start of a run or the entry of a procedure of that number, with a way
/// for each step.
pub(crate) fn show_walk(rt: &HostRuntime, steps: &str, text: &str) {
    if let Some(program) = &resolved(rt, "main", text) {
        show_walk_of(rt, program, steps);
    }
}

//! What happens at a point.

ghost use Rattle.std.specs.Prelude.{◌≡◌, ◌+◌, ◌-◌, ◌<◌, ◌^◌, ℕ, IfSome, map, take, length, slice_get};
ghost use Rattle.std.specs.Option.{option_map};
ghost use Rattle.typed_tree.specs.TypedView as view;
ghost use Rattle.typed_tree.specs.TypedTree.{TypedBlock};
ghost use Rattle.typed_tree.specs.TypingRules.Counts.{plain_invariants, checked_at_call};
ghost use Rattle.typed_tree.specs.TypingRules.Counts as count;
ghost use Rattle.typed_tree.specs.TypingRules.TypedParts.{typed_program};
ghost use Rattle.boogie_run.specs.BoogiePoints.Points as stand;
ghost use Rattle.boogie_run.specs.BoogiePoints.Points.{at_exit};
ghost use Rattle.boogie_run.specs.BoogiePoints.Actions as spec;
ghost use Rattle.boogie_run.specs.BoogiePoints.Ties.AtStatement.{at_part, supposed, guessed, told_of};
ghost use Rattle.boogie_run.specs.BoogiePoints.Numbered.{numbers_of};
ghost use Rattle.boogie_run.specs.BoogiePoints.Room.{PointHasRoom};
ghost use Rattle.boogie_run.specs.BoogiePoints.Told.{told, Guess};
ghost use Rattle.boogie_run.specs.BoogiePoints.View.{action_view, point_of};

use crate::boogie_points::actions::Action;
use crate::boogie_points::blocks::{split, top};
use crate::boogie_points::conditions::{
    chosen_column, condition_at, ensured_condition, free_condition, plain_condition, procedure_at,
    start_condition,
};
use crate::boogie_points::counts::{demanded, plain_before, plain_count};
use crate::boogie_points::numbers::{Numbers, first_at, fits};
use crate::boogie_points::points::{Point, Stage};
use boogie_tree::{Column, Span};
use typed_tree::typing_rules::Typed;
use typed_tree::{TExpr, TGuard, TInv, TProc, TSpec, TStmt};

/// A condition that is asserted, unless it is free, and then assumed.
fn checked(number: u32, condition: &TInv) -> Action<'_>
    ensures { action_view result ≡ told (spec.checked (view.invariant condition.now).free number (view.invariant condition.now).span (view.invariant condition.now).cond at_exit) }
{
    if condition.free {
        Action::Suppose {
            cond: &condition.cond,
        }
    } else {
        Action::Check {
            number,
            span: condition.span,
            cond: &condition.cond,
        }
    }
}

fn guarded(guard: &TGuard) -> Action<'_>
    ensures { action_view result ≡ told (spec.guarded (view.guard guard.now) at_exit at_exit) }
{
    match guard {
        TGuard::Any => Action::Pick { ways: 2 },
        TGuard::Cond(cond) => Action::Test { cond },
    }
}

/// The head of a loop: each invariant, and then the guard.
fn head<'a>(conditions: &'a [TInv], guard: &'a TGuard, id: u32, part: usize) -> Action<'a>
    requires { id + plain_invariants (map view.invariant conditions.now) < 2 ^ 32 }
    ensures { action_view result ≡ told (spec.head_action (slice_get (map view.invariant conditions.now) part) (id + plain_invariants (take part (map view.invariant conditions.now))) (at_part part) (spec.guarded (view.guard guard.now) at_exit at_exit)) }
{
    match condition_at(conditions, part) {
        Some(condition) => checked(id + plain_count(&conditions[..part]), condition),
        None => guarded(guard),
    }
}

fn havoc<'a>(columns: &'a [Column], part: usize) -> Action<'a>
    ensures { action_view result ≡ guessed (option_map Guess (slice_get columns.now part)) }
{
    match columns.get(part) {
        Some(column) => Action::Guess { column: *column },
        None => Action::Jump,
    }
}

fn goto<'a>(labels: &'a [u32]) -> Action<'a>
    ensures { action_view result ≡ told (spec.one_of (map (λ k. at_exit) labels.now)) }
{
    if labels.len() > 1 {
        Action::Pick { ways: labels.len() }
    } else {
        Action::Jump
    }
}

/// A call of a procedure without body, behind its requires, with so many further parts done.
#[tactic(auto, using(crate::proofs::BoogiePoints::ChoiceLaws::chosen_counted))]
fn unseen<'a>(
    called: &'a TProc,
    callee: u32,
    targets: &'a [Column],
    args: &'a [TExpr],
    done: usize,
) -> Action<'a>
    requires { (view.procedure called.now).params + (view.procedure called.now).results < 2 ^ 32 }
    ensures { action_view result ≡ told (spec.unseen_action (slice_get (spec.chosen_columns (view.procedure called.now)) done) (slice_get (spec.ensured_conditions (view.procedure called.now).specs) (done - length (spec.chosen_columns (view.procedure called.now)))) callee targets.now (map view.expression args.now) at_exit at_exit) }
{
    if let Some(column) = chosen_column(called, done) {
        return Action::Keep {
            callee,
            args,
            column,
        };
    }
    let chosen = called.modifies.len() + called.results as usize;
    match ensured_condition(&called.specs, done - chosen) {
        Some(condition) => Action::Grant {
            callee,
            args,
            cond: &condition.cond,
        },
        None => Action::Finish {
            callee,
            args,
            targets,
        },
    }
}

/// A call: each plain requires, and then the call itself.
#[tactic(auto, using(crate::proofs::BoogiePoints::ConditionLaws::plain_requires_counted))]
fn call<'a>(
    procs: &'a [TProc],
    callee: u32,
    id: u32,
    span: Span,
    targets: &'a [Column],
    args: &'a [TExpr],
    part: usize,
) -> Action<'a>
    requires locals { IfSome (slice_get (map view.procedure procs.now) callee) (λ q. q.params + q.results < 2 ^ 32) }
    requires room { id + checked_at_call (slice_get (map view.procedure procs.now) callee) < 2 ^ 32 }
    ensures { action_view result ≡ told (spec.call_if_any (slice_get (map view.procedure procs.now) callee) id callee span targets.now (map view.expression args.now) (at_part part) at_exit) }
{
    let Some(called) = procedure_at(procs, callee) else {
        return Action::Jump;
    };
    if let Some(condition) = plain_condition(&called.specs, part) {
        return Action::Demand {
            number: id + part as u32,
            span,
            cond: &condition.cond,
            args,
        };
    }
    if called.body.is_some() {
        return Action::Enter { callee, args };
    }
    unseen(
        called,
        callee,
        targets,
        args,
        part - demanded(&called.specs),
    )
}

/// What a statement does, of which the assertions have numbers from this one on, and so many parts are done.
pub(crate) fn statement_action<'a>(
    procs: &'a [TProc],
    statement: &'a TStmt,
    id: u32,
    part: usize,
) -> Action<'a>
    requires locals { (f : ℕ) → IfSome (slice_get (map view.procedure procs.now) f) (λ q. q.params + q.results < 2 ^ 32) }
    requires room { id + count.assertions (map view.procedure procs.now) (view.statement statement.now) < 2 ^ 32 }
    ensures { action_view result ≡ told_of (map view.procedure procs.now) (view.statement statement.now) id part }
{
    match statement {
        TStmt::Assert(span, cond) => Action::Check {
            number: id,
            span: *span,
            cond,
        },
        TStmt::Assume(_, cond) => Action::Suppose { cond },
        TStmt::Havoc(_, columns) => havoc(columns, part),
        TStmt::Assign(_, columns, values) => Action::Write {
            targets: columns,
            values,
        },
        TStmt::Call(span, columns, callee, args) => call(
            procs, *callee, id, *span, columns, args, part,
        ),
        TStmt::If(_, guard, _, _) => guarded(guard),
        TStmt::While(_, guard, conditions, _) => head(conditions, guard, id, part),
        TStmt::Goto(_, labels) => goto(labels),
        TStmt::Break(_, _) | TStmt::Return(_) | TStmt::Label(_) => Action::Jump,
    }
}

/// The first statement that is still to do.
fn body_action<'a>(procs: &'a [TProc], point: &Point<'a>) -> Action<'a>
    requires locals { (f : ℕ) → IfSome (slice_get (map view.procedure procs.now) f) (λ q. q.params + q.results < 2 ^ 32) }
    requires room { PointHasRoom (map view.procedure procs.now) (point_of point.now) }
    ensures { (body : TypedBlock) (first start : ℕ) → action_view result ≡ told (spec.body_action (map view.procedure procs.now) body first start (point_of point.now).todo (point_of point.now)) }
{
    let Some(here) = top(&point.todo) else {
        return Action::Jump;
    };
    match split(here.rest) {
        Some((statement, _)) => statement_action(procs, statement, here.id, point.part),
        None => Action::Jump,
    }
}

/// A condition that is assumed, where there is one.
fn suppose(condition: Option<&TExpr>) -> Action<'_>
    ensures { action_view result ≡ supposed (option_map (λ e. view.expression e.now) condition.entry) }
{
    match condition {
        Some(cond) => Action::Suppose { cond },
        None => Action::Jump,
    }
}

/// The next ensures, or the return.
#[tactic(auto, using(crate::proofs::BoogiePoints::ToldLaws::leaving))]
fn exit_action<'a>(specs: &'a [TSpec], first: u32, part: usize) -> Action<'a>
    requires { first + count.plain_ensures (map view.specification specs.now) < 2 ^ 32 }
    ensures { (here : stand.Point) → action_view result ≡ told (spec.exit_action (slice_get (spec.ensured_conditions (map view.specification specs.now)) part) (first + plain_invariants (take part (spec.ensured_conditions (map view.specification specs.now)))) here) }
{
    match ensured_condition(specs, part) {
        Some(condition) => checked(first + plain_before(specs, part), condition),
        None => Action::Leave,
    }
}

/// What happens at a point of a procedure.
pub fn action_at<'a>(
    program: &'a Typed,
    numbers: &Numbers,
    proc: u32,
    point: &Point<'a>,
) -> Action<'a>
    requires numbers { numbers.now ≡ numbers_of (typed_program program.now) }
    requires room { PointHasRoom (typed_program program.now).procs (point_of point.now) }
    ensures { action_view result ≡ told (spec.action_at (typed_program program.now) proc (point_of point.now)) }
{
    fits(program);
    let Some(found) = procedure_at(program.procs(), proc) else {
        return Action::Leave;
    };
    let Some(first) = first_at(program, numbers, proc) else {
        return Action::Leave;
    };
    match point.stage {
        Stage::Start => suppose(start_condition(program, &found.specs, point.part)),
        Stage::Entry => match free_condition(&found.specs, point.part) {
            Some(condition) => Action::Suppose {
                cond: &condition.cond,
            },
            None => Action::Jump,
        },
        Stage::Body => body_action(program.procs(), point),
        Stage::Exit => exit_action(&found.specs, first.at_exit, point.part),
    }
}

//! Where in the text the item stands at which a step is made.

ghost use Rattle.std.specs.Prelude.{◌≡◌, ◌++◌, ℕ, map, slice_get};
ghost use Rattle.std.specs.Option.{option_map};
ghost use Rattle.typed_tree.specs.TypedView as view;
ghost use Rattle.typed_tree.specs.TypingRules.TypedParts.{typed_program};
ghost use Rattle.typed_tree.specs.BrokenRules.{expression_span};
ghost use Rattle.boogie_run.specs.BoogiePoints.Actions.{plain_conditions};
ghost use Rattle.boogie_run.specs.BoogiePoints.Sites as spec;
ghost use Rattle.boogie_run.specs.BoogiePoints.View.{point_of};

use crate::boogie_points::blocks::{split, top};
use crate::boogie_points::conditions::{
    condition_at, ensured_condition, free_condition, plain_condition, procedure_at, start_condition,
};
use crate::boogie_points::counts::demanded;
use crate::boogie_points::points::{Point, Stage};
use boogie_tree::Span;
use typed_tree::typing_rules::Typed;
use typed_tree::{TExpr, TInv, TProc, TSpec, TStmt};

/// Where a condition stands, where there is one.
fn condition_span(condition: Option<&TInv>) -> Option<Span>
    ensures { result ≡ option_map spec.invariant_span (option_map (λ i. view.invariant i.now) condition.entry) }
{
    match condition {
        Some(condition) => Some(condition.span),
        None => None,
    }
}

/// Where a statement stands, of which so many parts are done.
fn statement_span(statement: &TStmt, part: usize) -> Option<Span>
    ensures { result ≡ spec.statement_span (view.statement statement.now) part }
{
    match statement {
        TStmt::Assert(span, _) | TStmt::Assume(span, _) => Some(*span),
        TStmt::Havoc(span, _) | TStmt::Assign(span, _, _) => Some(*span),
        TStmt::Call(span, _, _, _) | TStmt::If(span, _, _, _) => Some(*span),
        TStmt::While(span, _, conditions, _) => match condition_at(conditions, part) {
            Some(condition) => Some(condition.span),
            None => Some(*span),
        },
        TStmt::Break(span, _) | TStmt::Goto(span, _) | TStmt::Return(span) => Some(*span),
        TStmt::Label(_) => None,
    }
}

/// Where the first statement stands that is still to do.
fn body_span(point: &Point<'_>) -> Option<Span>
    ensures { result ≡ spec.todo_span (point_of point.now).todo (point_of point.now).part }
{
    let here = top(&point.todo)?;
    let (statement, _) = split(here.rest)?;
    statement_span(statement, point.part)
}

/// Where the condition of that number stands that is assumed at the start of a run.
fn start_span(program: &Typed, specs: &[TSpec], number: usize) -> Option<Span>
    ensures { result ≡ slice_get (map expression_span (map view.expression program.now.axioms) ++ map spec.invariant_span (plain_conditions (map view.specification specs.now))) number }
{
    let axioms = program.axioms();
    if let Some(axiom) = axioms.get(number) {
        return Some(axiom.span);
    }
    condition_span(plain_condition(specs, number - axioms.len()))
}

/// Where the item stands at a point of a procedure; none where the procedure returns.
pub fn span_at(program: &Typed, proc: u32, point: &Point<'_>) -> Option<Span>
    ensures { result ≡ spec.span_at (typed_program program.now) proc (point_of point.now) }
{
    let found = procedure_at(program.procs(), proc)?;
    match point.stage {
        Stage::Start => start_span(program, &found.specs, point.part),
        Stage::Entry => condition_span(free_condition(&found.specs, point.part)),
        Stage::Body => body_span(point),
        Stage::Exit => condition_span(ensured_condition(&found.specs, point.part)),
    }
}

/// Of a call with so many parts done: where the requires that is asserted stands, or the ensures of a procedure without body that is assumed.
fn called_span(called: &TProc, part: usize) -> Option<Span>
    ensures { result ≡ option_map spec.invariant_span (spec.clause_of (view.procedure called.now) part) }
{
    if let Some(condition) = plain_condition(&called.specs, part) {
        return Some(condition.span);
    }
    let chosen = called.modifies.len() + called.results as usize;
    let done = part.saturating_sub(demanded(&called.specs));
    condition_span(ensured_condition(&called.specs, done.saturating_sub(chosen)))
}

/// Where the clause of the called procedure stands of which a step at a call speaks.
pub fn clause_at(program: &Typed, point: &Point<'_>) -> Option<Span>
    ensures { result ≡ spec.clause_at (typed_program program.now) (point_of point.now) }
{
    let here = top(&point.todo)?;
    match split(here.rest)? {
        (TStmt::Call(_, _, callee, _), _) => {
            called_span(procedure_at(program.procs(), *callee)?, point.part)
        }
        _ => None,
    }
}

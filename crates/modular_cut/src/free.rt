//! The first specification or invariant of a program that is assumed and never checked.

ghost use Rattle.std.specs.Prelude.{◌≡◌, map, flat_map, None};
ghost use Rattle.typed_tree.specs.TypedView as view;
ghost use Rattle.typed_tree.specs.TypingRules.TypedParts.{typed_program};
ghost use Rattle.modular_cut.specs.Ties.Earliest as spec;
ghost use Rattle.modular_cut.specs.FreeConditions as told;

use boogie_tree::Span;
use typed_tree::typing_rules::Typed;
use typed_tree::{TInv, TProc, TSpec, TStmt};

/// The one that was found so far, unless the other stands before it.
fn earlier(found: Option<Span>, other: Span) -> Option<Span>
    ensures { result ≡ spec.earlier found other }
{
    match found {
        Some(so_far) if !other.stands_before(so_far) => Some(so_far),
        Some(_) | None => Some(other),
    }
}

/// With this condition.
fn condition(found: Option<Span>, said: &TInv) -> Option<Span>
    ensures { result ≡ spec.earliest found (told.free_condition (view.invariant said.now)) }
{
    if said.free {
        earlier(found, said.span)
    } else {
        found
    }
}

/// With these conditions.
fn conditions(found: Option<Span>, all: &[TInv]) -> Option<Span>
    ensures { result ≡ spec.earliest found (flat_map told.free_condition (map view.invariant all.now)) }
{
    let mut first = found;
    for said in all {
        first = condition(first, said);
    }
    first
}

/// With this specification.
fn specification(found: Option<Span>, said: &TSpec) -> Option<Span>
    ensures { result ≡ spec.earliest found (told.free_specification (view.specification said.now)) }
{
    match said {
        TSpec::Requires(required) => condition(found, required),
        TSpec::Ensures(ensured) => condition(found, ensured),
    }
}

/// With these specifications.
fn specifications(found: Option<Span>, all: &[TSpec]) -> Option<Span>
    ensures { result ≡ spec.earliest found (flat_map told.free_specification (map view.specification all.now)) }
{
    let mut first = found;
    for said in all {
        first = specification(first, said);
    }
    first
}

/// With the loops of a statement. It recurses as deep as statements are nested.
#[cycle(free)]
fn statement(found: Option<Span>, said: &TStmt) -> Option<Span>
    ensures { result ≡ spec.earliest found (told.free_statement (view.statement said.now)) }
{
    match said {
        TStmt::If(_, _, then, otherwise) => statements(statements(found, then), otherwise),
        TStmt::While(_, _, claims, body) => statements(conditions(found, claims), body),
        TStmt::Assert(..) => found,
        TStmt::Assume(..) => found,
        TStmt::Havoc(..) => found,
        TStmt::Assign(..) => found,
        TStmt::Call(..) => found,
        TStmt::Break(..) => found,
        TStmt::Goto(..) => found,
        TStmt::Return(_) => found,
        TStmt::Label(_) => found,
    }
}

/// With the loops of these statements.
#[cycle(free)]
fn statements(found: Option<Span>, all: &Vec<TStmt>) -> Option<Span>
    ensures { result ≡ spec.earliest found (told.free_block (view.statements all.now.items)) }
{
    let mut first = found;
    for said in all {
        first = statement(first, said);
    }
    first
}

/// With this procedure.
#[tactic(auto, using(crate::proofs::First::earliest_append))]
fn procedure(found: Option<Span>, said: &TProc) -> Option<Span>
    ensures { result ≡ spec.earliest found (told.free_procedure (view.procedure said.now)) }
{
    let first = specifications(found, &said.specs);
    match &said.body {
        Some(body) => statements(first, body),
        None => first,
    }
}

/// The first of these procedures; none where all are checked.
fn procedures(all: &[TProc]) -> Option<Span>
    ensures { result ≡ spec.earliest None (flat_map told.free_procedure (map view.procedure all.now)) }
{
    let mut first = None;
    for said in all {
        first = procedure(first, said);
    }
    first
}

/// The first in the text; none where all are checked.
pub(crate) fn first_free(program: &Typed) -> Option<Span>
    ensures { result ≡ spec.earliest None (told.free_spans (typed_program program.now)) }
{
    procedures(program.procs())
}

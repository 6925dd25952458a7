//! Statements with their names replaced.

ghost use Rattle.std.specs.Prelude.{◌≡◌, ◌+◌, ◌++◌, ℕ, List, Option, Some, None, [], ◌∷◌, map, drop, OnOk, IfOk, IfErr};
ghost use Rattle.std.specs.Borrow.{Bor};
ghost use Rattle.std.specs.Option.{option_map};
ghost use Rattle.boogie_tree.specs.Tree as tree;
ghost use Rattle.boogie_tree.specs.View as view;
ghost use Rattle.typed_tree.specs.TypedTree as out_tree;
ghost use Rattle.typed_tree.specs.TypedView as typed;
ghost use Rattle.boogie_types.specs.Naming.{named_statement, named_block, named_call, alone, hidden_in, hidden_in_block, label_of, levels_in};
ghost use Rattle.boogie_types.specs.Ties.Places.{label_by, loops_by};
ghost use Rattle.boogie_types.specs.Ties.PlaceViews.{place_at, place_outside};
ghost use Rattle.boogie_types.specs.Ties.Making.{made};
ghost use Rattle.boogie_types.specs.Ties.NamingFaults.{IsStatementFault, IsBlockFault, IsLeavingFault, IsCallFault};
ghost use Rattle.boogie_types.specs.Ties.Numbers.{IsMemoryFault};

use crate::calls::call;
use crate::expressions::named;
use crate::lists::{all_named, guard, invariants, targets};
use crate::places::{Placed, label_numbers, levels};
use boogie_tree::{Expr, Guard, Inv, Name, Span, Stmt};
use std::alloc::Global;
use typed_tree::{TStmt, TypeFault};

/// What changes along the statements of a body.
#[derive(Drop)]
pub(crate) struct Walk<'a> {
    /// The label directly before each loop around the statement, innermost first.
    pub(crate) loops: Vec<Option<&'a [u8]>>,
    /// How many hidden locals were used.
    pub(crate) hidden: u32,
}

/// A break with its label replaced by how many loops it leaves beyond the innermost.
fn leaving(loops: &[Option<&[u8]>], span: Span, label: &Option<Name>) -> Result<TStmt, TypeFault>
    ensures ok { IfOk result (λ s. option_map (out_tree.Break span) (levels_in (loops_by loops.now) label.now) ≡ Some (typed.statement s)) }
    ensures fault { IfErr result (λ f. IsLeavingFault (loops_by loops.now) label.now f) }
{
    match label {
        None => Ok(TStmt::Break(span, 0)),
        Some(name) => match levels(loops, name.text.bytes())? {
            Some(level) => Ok(TStmt::Break(span, level)),
            None => Err(TypeFault::BadGoto(name.span)),
        },
    }
}

/// The label that a statement is.
fn label_before(statement: &Stmt) -> Option<&[u8]>
    ensures { label_by result ≡ label_of (view.statement statement.now) }
{
    match statement {
        Stmt::Label(name) => Some(name.text.bytes()),
        _ => None,
    }
}

/// Puts a statement behind the others.
pub(crate) fn put(out: &mut Vec<TStmt>, statement: TStmt) -> Result<(), TypeFault>
    ensures ok { OnOk result (map typed.statement out.new.items ≡ map typed.statement out.old.items ++ typed.statement statement ∷ []) }
    ensures fault { IfErr result IsMemoryFault }
{
    out.push(statement)?;
    Ok(())
}

/// Enters a loop with that label directly before it.
fn enter<'a>(loops: &mut Vec<Option<&'a [u8]>>, before: Option<&'a [u8]>) -> Result<(), TypeFault>
    ensures ok { OnOk result (loops.new.items ≡ before.entry ∷ loops.old.items) }
    ensures fault { IfErr result IsMemoryFault }
{
    loops.insert(0, before)?;
    Ok(())
}

/// Leaves the innermost loop.
fn leave(loops: &mut Vec<Option<&[u8]>>)
    ensures { loops.new.items ≡ drop 1 loops.old.items }
{
    if !loops.is_empty() {
        loops.remove(0);
    }
}

/// A call with its names replaced, behind the assignments to hidden locals that it needs.
fn call_inside<'a>(
    alloc: Global,
    place: &Placed<'a, '_>,
    walk: &mut Walk<'a>,
    out: &mut Vec<TStmt>,
    span: Span,
    names: &[Name],
    callee: &Name,
    arguments: &[Expr],
) -> Result<(), TypeFault>
    ensures ok { OnOk result (made (map typed.statement out.old.items) (named_call (place_at place.now walk.old.loops.items) walk.old.hidden span names.now callee.now (map view.expression arguments.now)) ≡ Some (map typed.statement out.new.items)) }
    ensures hidden { OnOk result (walk.new.hidden ≡ walk.old.hidden + hidden_in (place_at place.now walk.old.loops.items) (tree.Call span names.now callee.now (map view.expression arguments.now))) }
    ensures loops { OnOk result (walk.new.loops.items ≡ walk.old.loops.items) }
    ensures fault { IfErr result (λ f. IsCallFault (place_at place.now walk.old.loops.items) names.now callee.now (map view.expression arguments.now) f) }
{
    call(
        alloc,
        place,
        &mut walk.hidden,
        out,
        span,
        names,
        callee,
        arguments,
    )
}

/// An `assert` with its names replaced, put behind the other statements.
fn assertion(
    alloc: Global,
    place: &Placed<'_, '_>,
    out: &mut Vec<TStmt>,
    span: Span,
    claim: &Expr,
) -> Result<(), TypeFault>
    ensures ok { OnOk result (made (map typed.statement out.old.items) (named_statement (place_outside place.now) None 0 (tree.Assert span (view.expression claim.now))) ≡ Some (map typed.statement out.new.items)) }
    ensures fault { (loops : List (Option (Bor (List ℕ)))) (before : Option (List ℕ)) → IfErr result (λ f. IsStatementFault (place_at place.now loops) before (tree.Assert span (view.expression claim.now)) f) }
{
    let claim = named(alloc, &place.names, claim)?;
    put(out, TStmt::Assert(span, claim))
}

/// An `assume` with its names replaced, put behind the other statements.
fn assumption(
    alloc: Global,
    place: &Placed<'_, '_>,
    out: &mut Vec<TStmt>,
    span: Span,
    claim: &Expr,
) -> Result<(), TypeFault>
    ensures ok { OnOk result (made (map typed.statement out.old.items) (named_statement (place_outside place.now) None 0 (tree.Assume span (view.expression claim.now))) ≡ Some (map typed.statement out.new.items)) }
    ensures fault { (loops : List (Option (Bor (List ℕ)))) (before : Option (List ℕ)) → IfErr result (λ f. IsStatementFault (place_at place.now loops) before (tree.Assume span (view.expression claim.now)) f) }
{
    let claim = named(alloc, &place.names, claim)?;
    put(out, TStmt::Assume(span, claim))
}

/// A `havoc` with its names replaced, put behind the other statements.
fn havoc(
    alloc: Global,
    place: &Placed<'_, '_>,
    out: &mut Vec<TStmt>,
    span: Span,
    names: &[Name],
) -> Result<(), TypeFault>
    ensures ok { OnOk result (made (map typed.statement out.old.items) (named_statement (place_outside place.now) None 0 (tree.Havoc span names.now)) ≡ Some (map typed.statement out.new.items)) }
    ensures fault { (loops : List (Option (Bor (List ℕ)))) (before : Option (List ℕ)) → IfErr result (λ f. IsStatementFault (place_at place.now loops) before (tree.Havoc span names.now) f) }
{
    let columns = targets(alloc, &place.names, names)?;
    put(out, TStmt::Havoc(span, columns))
}

/// A `break` with its label replaced, put behind the other statements.
fn break_out(
    loops: &[Option<&[u8]>],
    out: &mut Vec<TStmt>,
    span: Span,
    label: &Option<Name>,
) -> Result<(), TypeFault>
    ensures ok { OnOk result (made (map typed.statement out.old.items) (alone (option_map (out_tree.Break span) (levels_in (loops_by loops.now) label.now))) ≡ Some (map typed.statement out.new.items)) }
    ensures fault { IfErr result (λ f. IsLeavingFault (loops_by loops.now) label.now f) }
{
    let leaving = leaving(loops, span, label)?;
    put(out, leaving)
}

/// A `goto` with its labels replaced by their numbers, put behind the other statements.
fn goto(
    alloc: Global,
    place: &Placed<'_, '_>,
    out: &mut Vec<TStmt>,
    span: Span,
    names: &[Name],
) -> Result<(), TypeFault>
    ensures ok { OnOk result (made (map typed.statement out.old.items) (named_statement (place_outside place.now) None 0 (tree.Goto span names.now)) ≡ Some (map typed.statement out.new.items)) }
    ensures fault { (loops : List (Option (Bor (List ℕ)))) (before : Option (List ℕ)) → IfErr result (λ f. IsStatementFault (place_at place.now loops) before (tree.Goto span names.now) f) }
{
    let numbers = label_numbers(alloc, place.labels, names)?;
    put(out, TStmt::Goto(span, numbers))
}

/// A label's number, put behind the other statements.
fn label(place: &Placed<'_, '_>, out: &mut Vec<TStmt>, name: &Name) -> Result<(), TypeFault>
    ensures ok { OnOk result (made (map typed.statement out.old.items) (named_statement (place_outside place.now) None 0 (tree.Label name.now)) ≡ Some (map typed.statement out.new.items)) }
    ensures fault { (loops : List (Option (Bor (List ℕ)))) (before : Option (List ℕ)) → IfErr result (λ f. IsStatementFault (place_at place.now loops) before (tree.Label name.now) f) }
{
    match place.labels.place(name.text.bytes()) {
        Some(number) => put(out, TStmt::Label(number)),
        None => Err(TypeFault::BadGoto(name.span)),
    }
}

/// An assignment with its names replaced, put behind the other statements.
fn assign(
    alloc: Global,
    place: &Placed<'_, '_>,
    out: &mut Vec<TStmt>,
    span: Span,
    names: &[Name],
    values: &[Expr],
) -> Result<(), TypeFault>
    ensures ok { OnOk result (made (map typed.statement out.old.items) (named_statement (place_outside place.now) None 0 (tree.Assign span names.now (map view.expression values.now))) ≡ Some (map typed.statement out.new.items)) }
    ensures fault { (loops : List (Option (Bor (List ℕ)))) (before : Option (List ℕ)) → IfErr result (λ f. IsStatementFault (place_at place.now loops) before (tree.Assign span names.now (map view.expression values.now)) f) }
{
    let columns = targets(alloc, &place.names, names)?;
    let values = all_named(alloc, &place.names, values)?;
    put(out, TStmt::Assign(span, columns, values))
}

/// An `if` with its names replaced, put behind the other statements.
#[cycle(statements)]
fn put_branches<'a>(
    alloc: Global,
    place: &Placed<'a, '_>,
    walk: &mut Walk<'a>,
    out: &mut Vec<TStmt>,
    span: Span,
    cond: &Guard,
    then: &'a [Stmt],
    otherwise: &'a [Stmt],
) -> Result<(), TypeFault>
    ensures ok { OnOk result (made (map typed.statement out.old.items) (named_statement (place_at place.now walk.old.loops.items) None walk.old.hidden (tree.If span (view.guard cond.now) (view.statements then.entry.now) (view.statements otherwise.entry.now))) ≡ Some (map typed.statement out.new.items)) }
    ensures hidden { OnOk result (walk.new.hidden ≡ walk.old.hidden + hidden_in (place_at place.now walk.old.loops.items) (tree.If span (view.guard cond.now) (view.statements then.entry.now) (view.statements otherwise.entry.now))) }
    ensures loops { OnOk result (walk.new.loops.items ≡ walk.old.loops.items) }
    ensures fault { (before : Option (List ℕ)) → IfErr result (λ f. IsStatementFault (place_at place.now walk.old.loops.items) before (tree.If span (view.guard cond.now) (view.statements then.entry.now) (view.statements otherwise.entry.now)) f) }
{
    let cond = guard(alloc, &place.names, cond)?;
    let first = block(alloc, place, walk, then)?;
    let second = block(alloc, place, walk, otherwise)?;
    put(out, TStmt::If(span, cond, first, second))
}

/// A loop with its names replaced, put behind the other statements.
#[cycle(statements)]
fn looped<'a>(
    alloc: Global,
    place: &Placed<'a, '_>,
    walk: &mut Walk<'a>,
    before: Option<&'a [u8]>,
    out: &mut Vec<TStmt>,
    span: Span,
    cond: &Guard,
    conditions: &[Inv],
    body: &'a [Stmt],
) -> Result<(), TypeFault>
    ensures ok { OnOk result (made (map typed.statement out.old.items) (named_statement (place_at place.now walk.old.loops.items) (label_by before.entry) walk.old.hidden (tree.While span (view.guard cond.now) (map view.invariant conditions.now) (view.statements body.entry.now))) ≡ Some (map typed.statement out.new.items)) }
    ensures hidden { OnOk result (walk.new.hidden ≡ walk.old.hidden + hidden_in (place_at place.now walk.old.loops.items) (tree.While span (view.guard cond.now) (map view.invariant conditions.now) (view.statements body.entry.now))) }
    ensures loops { OnOk result (walk.new.loops.items ≡ walk.old.loops.items) }
    ensures fault { IfErr result (λ f. IsStatementFault (place_at place.now walk.old.loops.items) (label_by before.entry) (tree.While span (view.guard cond.now) (map view.invariant conditions.now) (view.statements body.entry.now)) f) }
{
    let cond = guard(alloc, &place.names, cond)?;
    let conditions = invariants(alloc, &place.names, conditions)?;
    enter(&mut walk.loops, before)?;
    let inside = block(alloc, place, walk, body)?;
    leave(&mut walk.loops);
    put(out, TStmt::While(span, cond, conditions, inside))
}

/// A statement with its names replaced, put behind the others.
#[cycle(statements)]
fn statement<'a>(
    alloc: Global,
    place: &Placed<'a, '_>,
    walk: &mut Walk<'a>,
    before: Option<&'a [u8]>,
    out: &mut Vec<TStmt>,
    statement: &'a Stmt,
) -> Result<(), TypeFault>
    ensures ok { OnOk result (made (map typed.statement out.old.items) (named_statement (place_at place.now walk.old.loops.items) (label_by before.entry) walk.old.hidden (view.statement statement.entry.now)) ≡ Some (map typed.statement out.new.items)) }
    ensures hidden { OnOk result (walk.new.hidden ≡ walk.old.hidden + hidden_in (place_at place.now walk.old.loops.items) (view.statement statement.entry.now)) }
    ensures loops { OnOk result (walk.new.loops.items ≡ walk.old.loops.items) }
    ensures fault { IfErr result (λ f. IsStatementFault (place_at place.now walk.old.loops.items) (label_by before.entry) (view.statement statement.entry.now) f) }
{
    match statement {
        Stmt::Assert(span, claim) => assertion(alloc, place, out, *span, claim),
        Stmt::Assume(span, claim) => assumption(alloc, place, out, *span, claim),
        Stmt::Havoc(span, names) => havoc(alloc, place, out, *span, names),
        Stmt::Assign(span, names, values) => assign(alloc, place, out, *span, names, values),
        Stmt::Call(span, names, callee, arguments) => {
            call_inside(alloc, place, walk, out, *span, names, callee, arguments)
        }
        Stmt::If(span, cond, then, otherwise) => {
            put_branches(alloc, place, walk, out, *span, cond, then, otherwise)
        }
        Stmt::While(span, cond, conditions, body) => {
            looped(
                alloc, place, walk, before, out, *span, cond, conditions, body,
            )
        }
        Stmt::Break(span, label) => break_out(&walk.loops, out, *span, label),
        Stmt::Goto(span, names) => goto(alloc, place, out, *span, names),
        Stmt::Return(span) => put(out, TStmt::Return(*span)),
        Stmt::Label(name) => label(place, out, name),
    }
}

/// Statements with their names replaced.
#[cycle(statements)]
pub(crate) fn block<'a>(
    alloc: Global,
    place: &Placed<'a, '_>,
    walk: &mut Walk<'a>,
    statements: &'a [Stmt],
) -> Result<Vec<TStmt>, TypeFault>
    ensures ok { IfOk result (λ v. named_block (place_at place.now walk.old.loops.items) None walk.old.hidden (view.statements statements.entry.now) ≡ Some (typed.statements v.items)) }
    ensures hidden { OnOk result (walk.new.hidden ≡ walk.old.hidden + hidden_in_block (place_at place.now walk.old.loops.items) (view.statements statements.entry.now)) }
    ensures loops { OnOk result (walk.new.loops.items ≡ walk.old.loops.items) }
    ensures fault { IfErr result (λ f. IsBlockFault (place_at place.now walk.old.loops.items) None (view.statements statements.entry.now) f) }
{
    let mut out = Vec::new(alloc);
    let mut before = None;
    for each in statements {
        statement(alloc, place, walk, before, &mut out, each)?;
        before = label_before(each);
    }
    Ok(out)
}

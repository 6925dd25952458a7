//! Equal values in memory of their own. Each copy takes its memory where the value has its own.

ghost use Rattle.std.specs.Prelude.{◌≡◌, IfOk, map};
ghost use Rattle.std.specs.Option.{option_map};
ghost use Rattle.typed_tree.specs.TypedTree as tree;
ghost use Rattle.typed_tree.specs.TypedView as view;

use crate::types::{Affine, TExpr, TExprKind, TGuard, TInv, TProc, TSpec, TStmt};
use boogie_tree::{Column, Span, VarInfo};
use smallvec::SmallVec;
use std::alloc::AllocError;

impl TExpr {
    /// An equal one.
    #[cycle(expressions)]
    pub fn copy(&self) -> Result<Self, AllocError>
        ensures { IfOk result (λ copied. view.expression copied ≡ view.expression self.now) }
    {
        let kind = match &self.kind {
            TExprKind::Lit(n) => TExprKind::Lit(*n),
            TExprKind::Truth(value) => TExprKind::Truth(*value),
            TExprKind::Var(column) => TExprKind::Var(*column),
            TExprKind::Old(inner) => TExprKind::Old(boxed(inner)?),
            TExprKind::Not(inner) => TExprKind::Not(boxed(inner)?),
            TExprKind::Neg(inner) => TExprKind::Neg(boxed(inner)?),
            TExprKind::Bin(op, left, right) => TExprKind::Bin(*op, boxed(left)?, boxed(right)?),
        };
        Ok(TExpr {
            span: self.span,
            kind,
        })
    }
}

/// A part of an expression.
#[cycle(expressions)]
fn boxed(part: &Box<TExpr>) -> Result<Box<TExpr>, AllocError>
    ensures { IfOk result (λ copied. view.expression copied.value ≡ view.expression part.now.value) }
{
    let alloc = *Box::allocator(part);
    Ok(Box::new(alloc, part.copy()?)?)
}

impl TGuard {
    /// An equal one.
    pub fn copy(&self) -> Result<Self, AllocError>
        ensures { IfOk result (λ copied. view.guard copied ≡ view.guard self.now) }
    {
        match self {
            TGuard::Any => Ok(TGuard::Any),
            TGuard::Cond(condition) => Ok(TGuard::Cond(condition.copy()?)),
        }
    }
}

impl TInv {
    /// An equal one.
    pub fn copy(&self) -> Result<Self, AllocError>
        ensures { IfOk result (λ copied. view.invariant copied ≡ view.invariant self.now) }
    {
        Ok(TInv {
            span: self.span,
            free: self.free,
            cond: self.cond.copy()?,
        })
    }
}

impl TSpec {
    /// An equal one.
    pub fn copy(&self) -> Result<Self, AllocError>
        ensures { IfOk result (λ copied. view.specification copied ≡ view.specification self.now) }
    {
        match self {
            TSpec::Requires(required) => Ok(TSpec::Requires(required.copy()?)),
            TSpec::Ensures(ensured) => Ok(TSpec::Ensures(ensured.copy()?)),
        }
    }
}

impl Affine {
    /// An equal one.
    pub fn copy(&self) -> Result<Self, AllocError>
        ensures terms { IfOk result (λ copied. copied.terms.items ≡ self.now.terms.items) }
        ensures constant { IfOk result (λ copied. copied.constant ≡ self.now.constant) }
    {
        Ok(Affine {
            terms: SmallVec::from_slice(*self.terms.allocator(), self.terms.as_slice())?,
            constant: self.constant,
        })
    }
}

/// The same columns or numbers, in order.
pub fn plain<T: Copy>(parts: &Vec<T>) -> Result<Vec<T>, AllocError>
    ensures { IfOk result (λ copied. copied.items ≡ parts.now.items) }
{
    let mut copied = Vec::with_capacity(*parts.allocator(), parts.len())?;
    copied.extend_from_slice(parts)?;
    Ok(copied)
}

/// Equal expressions, in order.
pub fn expressions(parts: &Vec<TExpr>) -> Result<Vec<TExpr>, AllocError>
    ensures { IfOk result (λ copied. map view.expression copied.items ≡ map view.expression parts.now.items) }
{
    let mut copied = Vec::with_capacity(*parts.allocator(), parts.len())?;
    for part in parts {
        copied.push(part.copy()?)?;
    }
    Ok(copied)
}

/// Equal conditions, in order.
pub fn invariants(parts: &Vec<TInv>) -> Result<Vec<TInv>, AllocError>
    ensures { IfOk result (λ copied. map view.invariant copied.items ≡ map view.invariant parts.now.items) }
{
    let mut copied = Vec::with_capacity(*parts.allocator(), parts.len())?;
    for part in parts {
        copied.push(part.copy()?)?;
    }
    Ok(copied)
}

/// Equal specifications, in order.
pub fn specifications(parts: &Vec<TSpec>) -> Result<Vec<TSpec>, AllocError>
    ensures { IfOk result (λ copied. map view.specification copied.items ≡ map view.specification parts.now.items) }
{
    let mut copied = Vec::with_capacity(*parts.allocator(), parts.len())?;
    for part in parts {
        copied.push(part.copy()?)?;
    }
    Ok(copied)
}

/// Equal variables, in order.
pub fn variables(parts: &Vec<VarInfo>) -> Result<Vec<VarInfo>, AllocError>
    ensures { IfOk result (λ copied. copied.items ≡ parts.now.items) }
{
    let mut copied = Vec::with_capacity(*parts.allocator(), parts.len())?;
    for part in parts {
        copied.push(part.copy()?)?;
    }
    Ok(copied)
}

/// An assignment of equal values to the same targets.
fn assignment(span: Span, targets: &Vec<Column>, values: &Vec<TExpr>) -> Result<TStmt, AllocError>
    ensures { IfOk result (λ copied. view.statement copied ≡ tree.Assign span targets.now.items (map view.expression values.now.items)) }
{
    let values = expressions(values)?;
    Ok(TStmt::Assign(span, plain(targets)?, values))
}

/// A call with equal arguments and the same targets.
pub fn call(
    span: Span,
    targets: &Vec<Column>,
    callee: u32,
    arguments: &Vec<TExpr>,
) -> Result<TStmt, AllocError>
    ensures { IfOk result (λ copied. view.statement copied ≡ tree.Call span targets.now.items callee (map view.expression arguments.now.items)) }
{
    let arguments = expressions(arguments)?;
    Ok(TStmt::Call(span, plain(targets)?, callee, arguments))
}

/// A branch with an equal guard and these statements.
pub fn conditional(
    span: Span,
    guard: &TGuard,
    then: Vec<TStmt>,
    otherwise: Vec<TStmt>,
) -> Result<TStmt, AllocError>
    ensures { IfOk result (λ copied. view.statement copied ≡ tree.If span (view.guard guard.now) (view.statements then.items) (view.statements otherwise.items)) }
{
    Ok(TStmt::If(span, guard.copy()?, then, otherwise))
}

/// A loop with an equal guard, equal invariants and these statements.
pub fn looped(
    span: Span,
    guard: &TGuard,
    claims: &Vec<TInv>,
    body: Vec<TStmt>,
) -> Result<TStmt, AllocError>
    ensures { IfOk result (λ copied. view.statement copied ≡ tree.While span (view.guard guard.now) (map view.invariant claims.now.items) (view.statements body.items)) }
{
    let claims = invariants(claims)?;
    Ok(TStmt::While(span, guard.copy()?, claims, body))
}

impl TStmt {
    /// An equal one. It recurses as deep as statements are nested, as dropping one does.
    #[cycle(statements)]
    pub fn copy(&self) -> Result<Self, AllocError>
        ensures { IfOk result (λ copied. view.statement copied ≡ view.statement self.now) }
    {
        match self {
            TStmt::Assert(span, claim) => Ok(TStmt::Assert(*span, claim.copy()?)),
            TStmt::Assume(span, claim) => Ok(TStmt::Assume(*span, claim.copy()?)),
            TStmt::Havoc(span, targets) => Ok(TStmt::Havoc(*span, plain(targets)?)),
            TStmt::Assign(span, targets, values) => assignment(*span, targets, values),
            TStmt::Call(span, targets, callee, arguments) => {
                call(*span, targets, *callee, arguments)
            }
            TStmt::If(span, guard, then, otherwise) => {
                let then = statements(then)?;
                let otherwise = statements(otherwise)?;
                conditional(*span, guard, then, otherwise)
            }
            TStmt::While(span, guard, claims, body) => {
                let body = statements(body)?;
                looped(*span, guard, claims, body)
            }
            TStmt::Break(span, further) => Ok(TStmt::Break(*span, *further)),
            TStmt::Goto(span, labels) => Ok(TStmt::Goto(*span, plain(labels)?)),
            TStmt::Return(span) => Ok(TStmt::Return(*span)),
            TStmt::Label(label) => Ok(TStmt::Label(*label)),
        }
    }
}

/// Equal statements, in order.
#[cycle(statements)]
fn statements(parts: &Vec<TStmt>) -> Result<Vec<TStmt>, AllocError>
    ensures { IfOk result (λ copied. view.statements copied.items ≡ view.statements parts.now.items) }
{
    let mut copied = Vec::with_capacity(*parts.allocator(), parts.len())?;
    for part in parts {
        copied.push(part.copy()?)?;
    }
    Ok(copied)
}

impl TProc {
    /// An equal one.
    pub fn copy(&self) -> Result<Self, AllocError>
        ensures { IfOk result (λ copied. view.procedure copied ≡ view.procedure self.now) }
    {
        Ok(TProc {
            name: self.name.copy()?,
            params: self.params,
            results: self.results,
            locals: variables(&self.locals)?,
            modifies: plain(&self.modifies)?,
            specs: specifications(&self.specs)?,
            body: body(&self.body)?,
        })
    }
}

/// An equal body, where there is one.
fn body(body: &Option<Vec<TStmt>>) -> Result<Option<Vec<TStmt>>, AllocError>
    ensures { IfOk result (λ copied. option_map (λ b. view.statements b.items) copied ≡ option_map (λ b. view.statements b.items) body.now) }
{
    match body {
        None => Ok(None),
        Some(parts) => Ok(Some(statements(parts)?)),
    }
}

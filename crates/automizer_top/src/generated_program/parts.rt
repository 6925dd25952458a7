//! The parts of the generated program.

ghost use Rattle.std.specs.Prelude.{◌≡◌, ◌+◌, ◌<◌, ◌^◌, pos, [], ◌∷◌, IfOk};
ghost use Rattle.boogie_tree.specs.Tree as tree;
ghost use Rattle.boogie_tree.specs.View as view;
ghost use Rattle.boogie_tree.specs.Places.{beginning};
ghost use Rattle.automizer_top.specs.GeneratedProgram.Generated as generated;

use boogie_tree::{Body, Decl, Expr, ExprKind, Name, Op, Proc, Span, Spec, Stmt, Text, Ty, Vary};
use std::alloc::{AllocError, Global};

/// Where the parts stand: in no text.
fn here() -> Span
    ensures { result ≡ beginning }
{
    Span { line: 1, col: 1 }
}

/// The name with these bytes.
pub(crate) fn name(alloc: Global, text: &str) -> Result<Name, AllocError>
    ensures { IfOk result (λ n. n ≡ generated.name text.now) }
{
    let text = String::from_str(alloc, text)?;
    Ok(Name {
        span: here(),
        text: Text::new(text.into_bytes()),
    })
}

/// The global variable.
fn counter(alloc: Global) -> Result<Name, AllocError>
    ensures { IfOk result (λ n. n ≡ generated.counter) }
{
    name(alloc, "g")
}

/// The name of the procedure with that number.
pub(crate) fn link_name(alloc: Global, number: u32) -> Result<Name, AllocError>
    ensures { IfOk result (λ n. n ≡ generated.link_name number) }
{
    let text = format!(in alloc; "p{number}")?;
    name(alloc, &text)
}

/// The declaration of the global variable.
pub(crate) fn declared(alloc: Global) -> Result<Decl, AllocError>
    ensures { IfOk result (λ d. view.declaration d ≡ generated.declared) }
{
    Ok(Decl::Global(Vary {
        name: counter(alloc)?,
        ty: Ty::Int,
    }))
}

/// A procedure without parameters that modifies the global variable.
pub(crate) fn procedure(alloc: Global, name: Name, stmts: Vec<Stmt>) -> Result<Decl, AllocError>
    ensures { IfOk result (λ d. view.declaration d ≡ tree.Declares (generated.counting_procedure name (view.statements stmts.items))) }
{
    let modified = vec![in alloc; counter(alloc)?]?;
    Ok(Decl::Procedure(Proc {
        span: here(),
        name,
        params: Vec::new(alloc),
        results: Vec::new(alloc),
        specs: vec![in alloc; Spec::Modifies(modified)]?,
        body: Some(Body {
            locals: Vec::new(alloc),
            stmts,
        }),
    }))
}

/// A number.
fn literal(value: i128) -> Expr
    ensures { view.expression result ≡ tree.Lit beginning value }
{
    Expr {
        span: here(),
        kind: ExprKind::Lit(value),
    }
}

/// The global variable and a number with an operator between them.
fn operation(alloc: Global, op: Op, value: i128) -> Result<Expr, AllocError>
    ensures { IfOk result (λ e. view.expression e ≡ tree.Bin beginning op (tree.Var beginning generated.counter) (tree.Lit beginning value)) }
{
    let left = Expr {
        span: here(),
        kind: ExprKind::Var(counter(alloc)?),
    };
    Ok(Expr {
        span: here(),
        kind: ExprKind::Bin(op, Box::new(alloc, left)?, Box::new(alloc, literal(value))?),
    })
}

/// The global variable gets a value.
fn becomes(alloc: Global, value: Expr) -> Result<Stmt, AllocError>
    ensures { IfOk result (λ s. view.statement s ≡ generated.becomes (view.expression value)) }
{
    let targets = vec![in alloc; counter(alloc)?]?;
    Ok(Stmt::Assign(here(), targets, vec![in alloc; value]?))
}

/// `g := 0;`
pub(crate) fn reset(alloc: Global) -> Result<Stmt, AllocError>
    ensures { IfOk result (λ s. view.statement s ≡ generated.becomes (tree.Lit beginning (pos 0))) }
{
    becomes(alloc, literal(0))
}

/// `g := g + 1;`
pub(crate) fn step(alloc: Global) -> Result<Stmt, AllocError>
    ensures { IfOk result (λ s. view.statement s ≡ generated.counting_step) }
{
    becomes(alloc, operation(alloc, Op::Add, 1)?)
}

/// The call of the procedure with that number.
pub(crate) fn calls(alloc: Global, number: u32) -> Result<Stmt, AllocError>
    ensures { IfOk result (λ s. view.statement s ≡ generated.calls number) }
{
    Ok(Stmt::Call(
        here(),
        Vec::new(alloc),
        link_name(alloc, number)?,
        Vec::new(alloc),
    ))
}

/// `assert g >= K;`
pub(crate) fn bound(alloc: Global, number: u32) -> Result<Stmt, AllocError>
    ensures { IfOk result (λ s. tree.Then (view.statement s) tree.Empty ≡ generated.bound number) }
{
    Ok(Stmt::Assert(here(), operation(alloc, Op::Ge, i128::from(number))?))
}

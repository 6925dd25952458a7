//! The values of expressions, where the value of each part fits.

ghost use Rattle.std.specs.Prelude.{◌≡◌, ℤ, map, IsOk, IfOk, IfErr, Option, Some, slice_get};
ghost use Rattle.math_facts.specs.Fits.{Fits};
ghost use Rattle.typed_tree.specs.TypedView as view;
ghost use Rattle.typed_tree.specs.Values as spec;
ghost use Rattle.boogie_run.specs.Steps.{passed_state, values};
ghost use Rattle.boogie_run.specs.Fitting.{ArgumentFits, PassedColumnFits, PassedPartsFit, PassedFit, AllFit};
ghost use Rattle.boogie_run.specs.Evaluated.{IsValue, IsCause};
ghost use Rattle.boogie_run.specs.Ties.Environments.{state, read_in};

use crate::types::RunFault;
use std::alloc::Global;
use typed_tree::{Column, Op, TExpr, TExprKind};

/// The constants and globals now and at the procedure's entry, and the locals.
#[derive(Clone, Copy)]
pub(crate) struct Env<'a> {
    pub(crate) globals: &'a [i128],
    pub(crate) old: &'a [i128],
    pub(crate) locals: &'a [i128],
}

/// Where the globals are those at the entry.
fn at_entry<'a>(env: Env<'a>) -> Env<'a>
    ensures { state result ≡ spec.at_entry (state env.entry) }
{
    Env {
        globals: env.old,
        old: env.old,
        locals: env.locals,
    }
}

/// The member of that number, 0 past the end.
#[tactic(auto, using(crate::proofs::Members::members))]
pub(crate) fn member(values: &[i128], n: u32) -> i128
    ensures { result ≡ spec.member values.now n }
{
    let n = n as usize;
    if n < values.len() { values[n] } else { 0 }
}

/// What the column holds, 0 where it is not there.
pub(crate) fn column(env: Env<'_>, column: Column) -> i128
    ensures { result ≡ spec.column_value (state env.entry) column }
{
    match column {
        Column::Global(n) => member(env.globals, n),
        Column::Old(n) => member(env.old, n),
        Column::Local(n) => member(env.locals, n),
    }
}

fn truth(yes: bool) -> i128
    ensures { result ≡ spec.truth yes }
{
    if yes { 1 } else { 0 }
}

/// The number, where it fits.
fn fitting(number: i128) -> Result<i128, RunFault>
    ensures { IsValue number (Fits number) result }
{
    if number == i128::MIN {
        Err(RunFault::Number)
    } else {
        Ok(number)
    }
}

/// A sum, a difference or a product, where it fits.
fn fitting_any(number: Option<i128>) -> Result<i128, RunFault>
    ensures ok { IfOk result (λ n. (number ≡ Some n) × Fits n) }
    ensures err { IfErr result (λ e. (e ≡ RunFault.Number) × ((n : ℤ) → number ≡ Some n → Fits n → ⊥)) }
{
    match number {
        Some(number) => fitting(number),
        None => Err(RunFault::Number),
    }
}

/// `a div b`, and 0 where b is 0.
fn quotient(a: i128, b: i128) -> i128
    requires a_fits { Fits a }
    requires b_fits { Fits b }
    ensures value { result ≡ spec.div_of a b }
    ensures fits { Fits (spec.div_of a b) }
{
    if b == 0 { 0 } else { a.div_euclid(b) }
}

/// `a mod b`, and 0 where b is 0.
fn remainder(a: i128, b: i128) -> i128
    requires a_fits { Fits a }
    requires b_fits { Fits b }
    ensures value { result ≡ spec.mod_of a b }
    ensures fits { Fits (spec.mod_of a b) }
{
    if b == 0 { 0 } else { a.rem_euclid(b) }
}

/// What an operator makes of two values.
fn operation(op: Op, a: i128, b: i128) -> Result<i128, RunFault>
    requires a_fits { Fits a }
    requires b_fits { Fits b }
    ensures { IsValue (spec.operation_value op a b) (Fits (spec.operation_value op a b)) result }
{
    match op {
        Op::Iff | Op::Eq => Ok(truth(a == b)),
        Op::Implies => Ok(if a == 0 { 1 } else { b }),
        Op::And => Ok(if a == 0 { 0 } else { b }),
        Op::Or => Ok(if a == 0 { b } else { 1 }),
        Op::Ne => Ok(truth(a != b)),
        Op::Lt => Ok(truth(a < b)),
        Op::Le => Ok(truth(a <= b)),
        Op::Gt => Ok(truth(a > b)),
        Op::Ge => Ok(truth(a >= b)),
        Op::Add => fitting_any(a.checked_add(b)),
        Op::Sub => fitting_any(a.checked_sub(b)),
        Op::Mul => fitting_any(a.checked_mul(b)),
        Op::Div => Ok(quotient(a, b)),
        Op::Mod => Ok(remainder(a, b)),
    }
}

/// The value of an expression.
#[cycle(evaluation)]
pub(crate) fn value(env: Env<'_>, expr: &TExpr) -> Result<i128, RunFault>
    ensures { IsValue (spec.value (state env.entry) (view.expression expr.now)) (spec.PartsFit (state env.entry) (view.expression expr.now)) result }
{
    match &expr.kind {
        TExprKind::Lit(n) => fitting(*n),
        TExprKind::Truth(yes) => Ok(truth(*yes)),
        TExprKind::Var(read) => fitting(column(env, *read)),
        TExprKind::Old(inner) => value(at_entry(env), inner),
        TExprKind::Not(inner) => {
            let inner = value(env, inner)?;
            Ok(truth(inner == 0))
        }
        TExprKind::Neg(inner) => {
            let inner = value(env, inner)?;
            Ok(-inner)
        }
        TExprKind::Bin(op, a, b) => {
            let a = value(env, a)?;
            let b = value(env, b)?;
            operation(*op, a, b)
        }
    }
}

/// The value of a part of a requires of a called procedure, whose globals are read there. An argument stands for each parameter.
#[cycle(passing)]
fn passed_part(
    env: Env<'_>,
    args: &[TExpr],
    globals: &[i128],
    expr: &TExpr,
) -> Result<i128, RunFault>
    ensures { IsValue (spec.value (read_in env.entry args.now globals.now) (view.expression expr.now)) (PassedPartsFit (state env.entry) (map view.expression args.now) (read_in env.entry args.now globals.now) (view.expression expr.now)) result }
{
    match &expr.kind {
        TExprKind::Lit(n) => fitting(*n),
        TExprKind::Truth(yes) => Ok(truth(*yes)),
        TExprKind::Var(read) => passed_column(env, args, globals, *read),
        TExprKind::Old(inner) => passed_part(env, args, env.old, inner),
        TExprKind::Not(inner) => {
            let inner = passed_part(env, args, globals, inner)?;
            Ok(truth(inner == 0))
        }
        TExprKind::Neg(inner) => {
            let inner = passed_part(env, args, globals, inner)?;
            Ok(-inner)
        }
        TExprKind::Bin(op, a, b) => {
            let a = passed_part(env, args, globals, a)?;
            let b = passed_part(env, args, globals, b)?;
            operation(*op, a, b)
        }
    }
}

/// What stands in a column of a requires of a called procedure.
fn passed_column(
    env: Env<'_>,
    args: &[TExpr],
    globals: &[i128],
    column: Column,
) -> Result<i128, RunFault>
    ensures { IsValue (spec.column_value (read_in env.entry args.now globals.now) column) (PassedColumnFits (state env.entry) (map view.expression args.now) (read_in env.entry args.now globals.now) column) result }
{
    match column {
        Column::Global(n) => fitting(member(globals, n)),
        Column::Old(n) => fitting(member(env.old, n)),
        Column::Local(n) => argument(env, args, n),
    }
}

/// The value of that argument, and 0 where there is none.
#[tactic(auto, using(crate::proofs::Members::passed_there))]
fn argument(env: Env<'_>, args: &[TExpr], n: u32) -> Result<i128, RunFault>
    ensures { IsValue (spec.member (values (state env.entry) (map view.expression args.now)) n) (ArgumentFits (state env.entry) (slice_get (map view.expression args.now) n)) result }
{
    let n = n as usize;
    if n < args.len() {
        value(env, &args[n])
    } else {
        Ok(0)
    }
}

/// The value of a requires of a called procedure. An argument stands for each parameter.
pub(crate) fn passed_value(env: Env<'_>, args: &[TExpr], expr: &TExpr) -> Result<i128, RunFault>
    ensures { IsValue (spec.value (passed_state (state env.entry) (map view.expression args.now)) (view.expression expr.now)) (PassedFit (state env.entry) (map view.expression args.now) (view.expression expr.now)) result }
{
    passed_part(env, args, env.globals, expr)
}

/// The values of expressions.
pub(crate) fn all_values(
    alloc: Global,
    env: Env<'_>,
    exprs: &[TExpr],
) -> Result<Vec<i128>, RunFault>
    ensures ok { IfOk result (λ found. found.items ≡ values (state env.entry) (map view.expression exprs.now)) }
    ensures fit { IsOk result → AllFit (state env.entry) (map view.expression exprs.now) }
    ensures err { IfErr result (IsCause (AllFit (state env.entry) (map view.expression exprs.now))) }
{
    let mut found = Vec::with_capacity(alloc, exprs.len())?;
    for expr in exprs {
        found.push(value(env, expr)?)?;
    }
    Ok(found)
}

/// Whether the values of the parts of expressions fit.
pub(crate) fn all_fit(env: Env<'_>, exprs: &[TExpr]) -> Result<(), RunFault>
    ensures fit { IsOk result → AllFit (state env.entry) (map view.expression exprs.now) }
    ensures err { IfErr result (IsCause (AllFit (state env.entry) (map view.expression exprs.now))) }
{
    for expr in exprs {
        value(env, expr)?;
    }
    Ok(())
}

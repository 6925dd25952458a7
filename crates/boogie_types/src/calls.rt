//! Calls with their names replaced, and the assignments to hidden locals before them.

ghost use Rattle.std.specs.Prelude.{◌≡◌, ◌+◌, ◌++◌, Some, [], ◌∷◌, map, length, IfOk, OnOk, IfErr, option_copied, slice_get};
ghost use Rattle.boogie_tree.specs.Tree as tree;
ghost use Rattle.boogie_tree.specs.View as view;
ghost use Rattle.typed_tree.specs.TypedTree as out_tree;
ghost use Rattle.typed_tree.specs.TypedView as typed;
ghost use Rattle.typed_tree.specs.Scope.{seen};
ghost use Rattle.boogie_types.specs.Naming as naming;
ghost use Rattle.boogie_types.specs.Naming.{named_call, named_arguments, hidden_arguments, put_aside, hidden_in, params_if_any, procedure_number};
ghost use Rattle.boogie_types.specs.Ties.Referred.{procedures_by, parameter_by};
ghost use Rattle.boogie_types.specs.Ties.PlaceViews.{place_at, place_outside};
ghost use Rattle.boogie_types.specs.Ties.Making.{made};
ghost use Rattle.boogie_types.specs.Ties.Numbers.{IsMemoryFault};
ghost use Rattle.boogie_types.specs.Ties.NamingFaults.{IsExpressionFault, AreExpressionsFault, IsCallFault};

use crate::expressions::named;
use crate::lists::targets;
use crate::places::Placed;
use crate::statements::put;
use boogie_tree::{Expr, ExprKind, Name, Span, Ty, Vary};
use std::alloc::Global;
use typed_tree::{Column, TExpr, TExprKind, TStmt, TypeFault};

/// Whether an argument stands in a call as it is: a literal, a name, or `!` before a name.
fn is_simple(argument: &Expr) -> bool
    ensures { result ≡ naming.is_simple (view.expression argument.now) }
{
    match &argument.kind {
        ExprKind::Lit(_) | ExprKind::Truth(_) | ExprKind::Var(_) => true,
        ExprKind::Not(inner) => matches!(inner.kind, ExprKind::Var(_)),
        ExprKind::Old(_) | ExprKind::Neg(_) | ExprKind::Bin(_, _, _) => false,
    }
}

/// Whether an argument for a parameter of that type is put into a hidden local.
fn is_hidden(ty: Ty, argument: &Expr) -> bool
    ensures { result ≡ naming.is_hidden ty (view.expression argument.now) }
{
    match ty {
        Ty::Int => false,
        Ty::Bool => !is_simple(argument),
    }
}

/// The column of the hidden local with that number.
fn hidden_column(place: &Placed<'_, '_>, hidden: u32) -> Result<Column, TypeFault>
    ensures ok { IfOk result (λ c. c ≡ naming.hidden_column (place_outside place.now) hidden) }
    ensures fault { IfErr result IsMemoryFault }
{
    match place.declared.checked_add(hidden) {
        Some(number) => Ok(Column::Local(number)),
        None => Err(TypeFault::Memory),
    }
}

/// One hidden local more.
fn one_more(hidden: u32) -> Result<u32, TypeFault>
    ensures ok { IfOk result (λ n. n ≡ hidden + 1) }
    ensures fault { IfErr result IsMemoryFault }
{
    hidden.checked_add(1).ok_or(TypeFault::Memory)
}

/// An argument put into the next hidden local, by an assignment behind the others, and the variable that stands for it.
fn aside(
    alloc: Global,
    place: &Placed<'_, '_>,
    hidden: &mut u32,
    out: &mut Vec<TStmt>,
    span: Span,
    argument: &Expr,
) -> Result<TExpr, TypeFault>
    ensures ok { IfOk result (λ e. typed.expression e ≡ out_tree.Var (naming.expression_span (view.expression argument.now)) (naming.hidden_column (place_outside place.now) hidden.old)) }
    ensures aside { OnOk result (made (map typed.statement out.old.items) (put_aside (place_outside place.now) hidden.old span (view.expression argument.now ∷ [])) ≡ Some (map typed.statement out.new.items)) }
    ensures hidden { OnOk result (hidden.new ≡ hidden.old + 1) }
    ensures fault { IfErr result (λ f. IsExpressionFault (seen place.now.names.scope) (view.expression argument.now) f) }
{
    let value = named(alloc, &place.names, argument)?;
    let column = hidden_column(place, *hidden)?;
    let columns = vec![in alloc; column]?;
    let values = single(alloc, value)?;
    put(out, TStmt::Assign(span, columns, values))?;
    *hidden = one_more(*hidden)?;
    Ok(TExpr {
        span: argument.span,
        kind: TExprKind::Var(column),
    })
}

/// The list of one value.
fn single(alloc: Global, value: TExpr) -> Result<Vec<TExpr>, TypeFault>
    ensures ok { IfOk result (λ v. v.items ≡ value ∷ []) }
    ensures fault { IfErr result IsMemoryFault }
{
    let mut values = Vec::new(alloc);
    values.push(value)?;
    Ok(values)
}

/// One argument, for that parameter if there is one: as it is, or put aside.
fn argument(
    alloc: Global,
    place: &Placed<'_, '_>,
    hidden: &mut u32,
    out: &mut Vec<TStmt>,
    span: Span,
    parameter: Option<&Vary>,
    argument: &Expr,
) -> Result<TExpr, TypeFault>
    ensures ok { IfOk result (λ e. named_arguments (place_outside place.now) hidden.old (parameter_by parameter.entry) (view.expression argument.now ∷ []) ≡ Some (typed.expression e ∷ [])) }
    ensures aside { OnOk result (made (map typed.statement out.old.items) (put_aside (place_outside place.now) hidden.old span (hidden_arguments (parameter_by parameter.entry) (view.expression argument.now ∷ []))) ≡ Some (map typed.statement out.new.items)) }
    ensures hidden { OnOk result (hidden.new ≡ hidden.old + length (hidden_arguments (parameter_by parameter.entry) (view.expression argument.now ∷ []))) }
    ensures fault { IfErr result (λ f. IsExpressionFault (seen place.now.names.scope) (view.expression argument.now) f) }
{
    match parameter {
        Some(parameter) if is_hidden(parameter.ty, argument) => {
            aside(alloc, place, hidden, out, span, argument)
        }
        Some(_) | None => named(alloc, &place.names, argument),
    }
}

/// The parameter with that number, if there is one.
fn parameter_at(params: &[Vary], number: usize) -> Option<&Vary>
    ensures { option_copied result ≡ slice_get params.now number }
{
    params.get(number)
}

/// The arguments of a call, each as it is or put aside.
fn arguments(
    alloc: Global,
    place: &Placed<'_, '_>,
    hidden: &mut u32,
    out: &mut Vec<TStmt>,
    span: Span,
    params: &[Vary],
    exprs: &[Expr],
) -> Result<Vec<TExpr>, TypeFault>
    ensures ok { IfOk result (λ v. named_arguments (place_outside place.now) hidden.old params.now (map view.expression exprs.now) ≡ Some (map typed.expression v.items)) }
    ensures aside { OnOk result (made (map typed.statement out.old.items) (put_aside (place_outside place.now) hidden.old span (hidden_arguments params.now (map view.expression exprs.now))) ≡ Some (map typed.statement out.new.items)) }
    ensures hidden { OnOk result (hidden.new ≡ hidden.old + length (hidden_arguments params.now (map view.expression exprs.now))) }
    ensures fault { IfErr result (λ f. AreExpressionsFault (seen place.now.names.scope) (map view.expression exprs.now) f) }
{
    let mut values = Vec::new(alloc);
    for (number, expr) in exprs.iter().enumerate() {
        let parameter = parameter_at(params, number);
        let value = argument(alloc, place, hidden, out, span, parameter, expr)?;
        values.push(value)?;
    }
    Ok(values)
}

/// The number of a procedure.
#[tactic(auto, using(crate::proofs::CallLaws::procedure_place))]
fn callee_number(place: &Placed<'_, '_>, callee: &Name) -> Option<u32>
    ensures { result ≡ procedure_number (place_outside place.now) callee.now }
{
    place.numbers.place(callee.text.bytes())
}

/// The parameters of the procedure with that number.
fn callee_params<'b>(place: &Placed<'_, 'b>, number: u32) -> &'b [Vary]
    ensures { result.now ≡ params_if_any (slice_get (procedures_by place.now.procs.now) number) }
{
    match place.procs.get(number as usize) {
        Some(callee) => &callee.params,
        None => &[],
    }
}

/// A call with its names replaced, behind the assignments to hidden locals that it needs.
pub(crate) fn call(
    alloc: Global,
    place: &Placed<'_, '_>,
    hidden: &mut u32,
    out: &mut Vec<TStmt>,
    span: Span,
    names: &[Name],
    callee: &Name,
    exprs: &[Expr],
) -> Result<(), TypeFault>
    ensures ok { OnOk result (made (map typed.statement out.old.items) (named_call (place_outside place.now) hidden.old span names.now callee.now (map view.expression exprs.now)) ≡ Some (map typed.statement out.new.items)) }
    ensures hidden { OnOk result (hidden.new ≡ hidden.old + hidden_in (place_outside place.now) (tree.Call span names.now callee.now (map view.expression exprs.now))) }
    ensures fault { IfErr result (λ f. IsCallFault (place_outside place.now) names.now callee.now (map view.expression exprs.now) f) }
{
    let Some(number) = callee_number(place, callee) else {
        return Err(TypeFault::Unknown(callee.span));
    };
    let columns = targets(alloc, &place.names, names)?;
    let params = callee_params(place, number);
    let values = arguments(alloc, place, hidden, out, span, params, exprs)?;
    put(out, TStmt::Call(span, columns, number, values))
}

//! The affine forms of whole-number expressions.

ghost use Rattle.std.specs.Prelude.{◌≡◌, true, false, pos, negsuc, [], Err, IfOk, IsOk};
ghost use Rattle.typed_tree.specs.TypedView.{expression};
ghost use Rattle.typed_tree.specs.AffineForm.{form, is_affine, is_constant, is_linear, forms_fit, form_fits, form_number, form_times, operation};
ghost use Rattle.typed_tree.specs.Ties.FormView.{IsFormAnswer};
ghost use Rattle.typed_tree.specs.Ties.FormView.{form_of as form_view};
ghost use Rattle.typed_tree.specs.Scope.{is_constant_column};

use crate::columns::form_column;
use crate::fault::AffineFault;
use crate::form::Form;
use crate::operations::{operation, times};
use crate::types::{Affine, TExpr, TExprKind};
use boogie_tree::{Op, VarInfo};
use std::alloc::Global;

/// The affine form of a whole-number expression without `div` and `mod`, each global taken for a variable: exact, its columns
/// ascending, no coefficient 0. `TooBig` comes exactly where a coefficient or constant of the form of a part does not fit.
pub fn affine(alloc: Global, expr: &TExpr) -> Result<Affine, AffineFault>
    requires kind { is_affine (expression expr.now) ≡ true }
    requires products { is_linear (is_constant_column []) false (expression expr.now) ≡ true }
    ensures form { IfOk result (λ a. form (is_constant_column []) false (expression expr.now) ≡ record { terms = a.terms.items; quotients = []; constant = a.constant }) }
    ensures fits { IsOk result → forms_fit (is_constant_column []) false (expression expr.now) ≡ true }
    ensures too_big { result ≡ Err AffineFault.TooBig → forms_fit (is_constant_column []) false (expression expr.now) ≡ false }
{
    let Form {
        terms,
        quotients: _,
        constant,
    } = form_of(alloc, &[], false, expr)?;
    Ok(Affine { terms, constant })
}

/// Whether the form of an expression that is read at the procedure's entry or now is nothing but a constant; 0 is the form of what
/// is no whole number. `TooBig` comes exactly where a number of the form of a part does not fit.
pub fn has_constant_form(
    alloc: Global,
    globals: &[VarInfo],
    old: bool,
    expr: &TExpr,
) -> Result<bool, AffineFault>
    ensures constant { IfOk result (λ b. b ≡ is_constant (form (is_constant_column globals.now) old (expression expr.now))) }
    ensures fits { IsOk result → forms_fit (is_constant_column globals.now) old (expression expr.now) ≡ true }
    ensures too_big { result ≡ Err AffineFault.TooBig → forms_fit (is_constant_column globals.now) old (expression expr.now) ≡ false }
{
    let form = form_of(alloc, globals, old, expr)?;
    Ok(form.is_constant())
}

/// The form of an expression that is read at the procedure's entry or now; 0 of what is no whole number.
fn form_of(alloc: Global, globals: &[VarInfo], old: bool, expr: &TExpr) -> Result<Form, AffineFault>
    ensures { IsFormAnswer (is_constant_column globals.now) old (expression expr.now) result }
{
    match &expr.kind {
        TExprKind::Lit(n) => {
            if *n == i128::MIN {
                return Err(AffineFault::TooBig);
            }
            Ok(Form::number(alloc, *n))
        }
        TExprKind::Truth(_) => Ok(Form::number(alloc, 0)),
        TExprKind::Var(column) => Ok(Form::once(alloc, form_column(globals, old, *column))?),
        TExprKind::Old(inner) => form_of(alloc, globals, true, inner),
        TExprKind::Not(inner) => Ok(no_number(alloc, form_of(alloc, globals, old, inner)?)),
        TExprKind::Neg(inner) => opposite(alloc, form_of(alloc, globals, old, inner)?),
        TExprKind::Bin(op, left, right) => {
            let first = form_of(alloc, globals, old, left)?;
            combined(alloc, *op, first, form_of(alloc, globals, old, right)?)
        }
    }
}

/// The form of a `!` before an operand of that form.
fn no_number(alloc: Global, _operand: Form) -> Form
    ensures { form_view result ≡ form_number (pos 0) }
{
    Form::number(alloc, 0)
}

/// The form of a `-` before an operand of that form.
fn opposite(alloc: Global, operand: Form) -> Result<Form, AffineFault>
    ensures value { IfOk result (λ f. form_view f ≡ form_times (negsuc 0) (form_view operand)) }
    ensures too_big { result ≡ Err AffineFault.TooBig → form_fits (form_times (negsuc 0) (form_view operand)) ≡ false }
{
    times(alloc, -1, &operand)
}

/// The form of an operation on operands of these forms, which it takes.
fn combined(alloc: Global, op: Op, first: Form, second: Form) -> Result<Form, AffineFault>
    ensures value { IfOk result (λ f. form_view f ≡ operation op (form_view first) (form_view second)) }
    ensures too_big { result ≡ Err AffineFault.TooBig → form_fits (operation op (form_view first) (form_view second)) ≡ false }
{
    operation(alloc, op, &first, &second)
}

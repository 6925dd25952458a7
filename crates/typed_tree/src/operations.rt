//! What operators make of forms.

ghost use Rattle.std.specs.Prelude.{◌≡◌, ◌*ℤ◌, Bool, true, false, map, Err, IfOk, IsErr};
ghost use Rattle.std.specs.List.{list_all};
ghost use Rattle.typed_tree.specs.AffineForm.{fits, form_fits, form_plus, form_times, form_scaled, product, operation};
ghost use Rattle.typed_tree.specs.Ties.FormOrder.{terms_fit};
ghost use Rattle.typed_tree.specs.Ties.FormView.{form_of};
ghost use Rattle.typed_tree.specs.Ties.Merging.{AreTerms};

use crate::fault::AffineFault;
use crate::form::{Form, Quotients, Terms};
use crate::merging::merged;
use crate::numbers;
use boogie_tree::{Column, Op};
use std::alloc::Global;

/// The form of an operation on operands of these forms.
pub fn operation(alloc: Global, op: Op, a: &Form, b: &Form) -> Result<Form, AffineFault>
    ensures value { IfOk result (λ f. form_of f ≡ operation op (form_of a.now) (form_of b.now)) }
    ensures too_big { result ≡ Err AffineFault.TooBig → form_fits (operation op (form_of a.now) (form_of b.now)) ≡ false }
{
    match op {
        Op::Add => plus(alloc, a, b),
        Op::Sub => minus(alloc, a, b),
        Op::Mul => product(alloc, a, b),
        Op::Div | Op::Mod => Ok(Form::quotient(alloc)?),
        _ => Ok(Form::number(alloc, 0)),
    }
}

/// `a + b`.
fn plus(alloc: Global, a: &Form, b: &Form) -> Result<Form, AffineFault>
    ensures value { IfOk result (λ f. form_of f ≡ form_plus (form_of a.now) (form_of b.now)) }
    ensures too_big { result ≡ Err AffineFault.TooBig → form_fits (form_plus (form_of a.now) (form_of b.now)) ≡ false }
{
    let Some(constant) = numbers::sum(a.constant, b.constant) else {
        return Err(AffineFault::TooBig);
    };
    let terms = merged(alloc, a.terms.as_slice(), b.terms.as_slice())?;
    let mut quotients = Quotients::from_slice(alloc, a.quotients.as_slice())?;
    quotients.extend_from_slice(b.quotients.as_slice())?;
    Ok(Form {
        terms,
        quotients,
        constant,
    })
}

/// `a - b`.
fn minus(alloc: Global, a: &Form, b: &Form) -> Result<Form, AffineFault>
    ensures value { IfOk result (λ f. form_of f ≡ operation Op.Sub (form_of a.now) (form_of b.now)) }
    ensures too_big { result ≡ Err AffineFault.TooBig → form_fits (operation Op.Sub (form_of a.now) (form_of b.now)) ≡ false }
{
    let opposite = times(alloc, -1, b)?;
    plus(alloc, a, &opposite)
}

/// `a*b`: one factor times the other, where one is constant; else one atom.
fn product(alloc: Global, a: &Form, b: &Form) -> Result<Form, AffineFault>
    ensures value { IfOk result (λ f. form_of f ≡ product (form_of a.now) (form_of b.now)) }
    ensures too_big { result ≡ Err AffineFault.TooBig → form_fits (product (form_of a.now) (form_of b.now)) ≡ false }
{
    if a.is_constant() {
        times(alloc, a.constant, b)
    } else if b.is_constant() {
        times(alloc, b.constant, a)
    } else {
        Ok(Form::quotient(alloc)?)
    }
}

/// `m*b`.
pub fn times(alloc: Global, m: i128, b: &Form) -> Result<Form, AffineFault>
    ensures value { IfOk result (λ f. form_of f ≡ form_times m (form_of b.now)) }
    ensures too_big { result ≡ Err AffineFault.TooBig → form_fits (form_times m (form_of b.now)) ≡ false }
{
    if m == 0 {
        return Ok(Form::number(alloc, 0));
    }
    scaled(alloc, m, b)
}

/// Each number of a form times m.
fn scaled(alloc: Global, m: i128, b: &Form) -> Result<Form, AffineFault>
    ensures value { IfOk result (λ f. form_of f ≡ form_scaled m (form_of b.now)) }
    ensures too_big { result ≡ Err AffineFault.TooBig → form_fits (form_scaled m (form_of b.now)) ≡ false }
{
    let Some(constant) = numbers::product(m, b.constant) else {
        return Err(AffineFault::TooBig);
    };
    Ok(Form {
        terms: scaled_terms(alloc, m, b.terms.as_slice())?,
        quotients: scaled_numbers(alloc, m, b.quotients.as_slice())?,
        constant,
    })
}

/// Each coefficient times m.
fn scaled_terms(alloc: Global, m: i128, terms: &[(Column, i128)]) -> Result<Terms, AffineFault>
    requires { AreTerms terms.now }
    ensures value { IfOk result (λ ts. ts.items ≡ map (λ t. (t.0, m *ℤ t.1)) terms.now) }
    ensures valid { IfOk result (λ ts. AreTerms ts.items) }
    ensures too_big { result ≡ Err AffineFault.TooBig → terms_fit (map (λ t. (t.0, m *ℤ t.1)) terms.now) ≡ false }
{
    let mut scaled = Terms::new(alloc);
    for (column, coefficient) in terms {
        let Some(coefficient) = numbers::product(m, *coefficient) else {
            return Err(AffineFault::TooBig);
        };
        scaled.push((*column, coefficient))?;
    }
    Ok(scaled)
}

/// Each number times m.
fn scaled_numbers(alloc: Global, m: i128, parts: &[i128]) -> Result<Quotients, AffineFault>
    ensures value { IfOk result (λ ns. ns.items ≡ map (λ n. m *ℤ n) parts.now) }
    ensures fits { IfOk result (λ ns. list_all fits ns.items ≡ true) }
    ensures too_big { result ≡ Err AffineFault.TooBig → list_all fits (map (λ n. m *ℤ n) parts.now) ≡ false }
{
    let mut scaled = Quotients::new(alloc);
    for part in parts {
        let Some(part) = numbers::product(m, *part) else {
            return Err(AffineFault::TooBig);
        };
        scaled.push(part)?;
    }
    Ok(scaled)
}

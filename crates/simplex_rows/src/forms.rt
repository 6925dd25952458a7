//! Linear forms over the variables of a tableau, with whole numbers as coefficients.

use crate::numbers::{combination, common_divisor, opposite, product};
use crate::types::Stop;
use lin_rows::{Col, Row};
use std::alloc::Global;

/// A variable of the tableau. Columns come before rows, and both in the order of their numbers.
#[derive(Clone, Copy)]
pub enum Variable {
    /// The value of a column.
    Column(Col),
    /// What the terms of a row add up to.
    Sum(u32),
}

/// The place of the first row among the variables.
const FIRST_SUM: u64 = 0x1_0000_0000;

impl Variable {
    /// Its place among the variables.
    fn place(self) -> u64 {
        match self {
            Variable::Column(column) => column as u64,
            Variable::Sum(row) => FIRST_SUM + row as u64,
        }
    }
}

/// A variable and its coefficient.
pub type Term = (Variable, i128);

/// Terms that ascend by variable, none with the coefficient 0.
pub type Form = Vec<Term>;

/// What the terms of a row add up to, as a form over columns, with room for one more.
pub fn form_of(alloc: Global, row: &Row) -> Result<Form, Stop> {
    let mut form = Vec::with_capacity(alloc, row.terms().len().saturating_add(1))?;
    push_terms(&mut form, row.terms())?;
    Ok(form)
}

/// Adds the terms of a row at the end.
fn push_terms(form: &mut Form, terms: &[(Col, i128)]) -> Result<(), Stop> {
    for (column, coefficient) in terms {
        form.push((Variable::Column(*column), *coefficient))?;
    }
    Ok(())
}

/// The number of the first term whose variable is at that place or behind it.
fn first_from(form: &[Term], place: u64) -> usize {
    form.partition_point(|term| term.0.place() < place)
}

/// So few terms are looked at one after another, which most forms do not have more than.
const FEW: usize = 8;

/// The coefficient of a variable.
pub fn coefficient_of(form: &[Term], variable: Variable) -> i128 {
    let place = variable.place();
    if form.len() <= FEW {
        return coefficient_among_few(form, place);
    }
    match form.get(first_from(form, place)) {
        Some(term) if term.0.place() == place => term.1,
        _ => 0,
    }
}

/// The coefficient of the variable at a place, where there are few terms.
fn coefficient_among_few(form: &[Term], place: u64) -> i128 {
    for (variable, coefficient) in form {
        let at = variable.place();
        if at >= place {
            return if at == place { *coefficient } else { 0 };
        }
    }
    0
}

/// Puts `n*a + m*b` in place of a form.
pub fn combine(sum: &mut Form, n: i128, a: &[Term], m: i128, b: &[Term]) -> Result<(), Stop> {
    sum.clear();
    let mut at = 0;
    for (variable, coefficient) in b {
        at = push_products(sum, n, a, at, variable.place())?;
        let mut other = 0;
        if at < a.len() && a[at].0.place() == variable.place() {
            other = a[at].1;
            at += 1;
        }
        let coefficient = combination(n, other, m, *coefficient)?;
        if coefficient != 0 {
            sum.push((*variable, coefficient))?;
        }
    }
    push_products(sum, n, a, at, u64::MAX)?;
    Ok(())
}

/// Adds the terms from a number on, each taken n times, at the end, up to the first that is at that place or behind it. Its number.
fn push_products(
    sum: &mut Form,
    n: i128,
    terms: &[Term],
    from: usize,
    place: u64,
) -> Result<usize, Stop> {
    let mut at = from;
    while at < terms.len() && terms[at].0.place() < place {
        let (variable, coefficient) = terms[at];
        let taken = if n == 1 {
            coefficient
        } else {
            product(n, coefficient)?
        };
        sum.push((variable, taken))?;
        at += 1;
    }
    Ok(at)
}

/// Puts a term of a variable that the form has not in its place.
pub fn put_term(form: &mut Form, term: Term) -> Result<(), Stop> {
    let place = first_from(form, term.0.place());
    if place <= form.len() {
        form.insert(place, term)?;
    }
    Ok(())
}

/// Takes the term of a variable out.
pub fn drop_term(form: &mut Form, variable: Variable) {
    let place = variable.place();
    let at = first_from(form, place);
    if at < form.len() && form[at].0.place() == place {
        let _term = form.remove(at);
    }
}

/// Turns the sign of each coefficient.
pub fn negate(form: &mut Form) -> Result<(), Stop> {
    for term in form.as_mut_slice() {
        term.1 = opposite(term.1)?;
    }
    Ok(())
}

/// Divides the form and its positive denominator by what they have in common.
pub fn reduce(form: &mut Form, denominator: &mut i128) {
    let mut divisor = *denominator;
    for (_, coefficient) in form.as_slice() {
        if divisor <= 1 {
            return;
        }
        divisor = common_divisor(divisor, *coefficient);
    }
    if divisor > 1 {
        for term in form.as_mut_slice() {
            term.1 /= divisor;
        }
        *denominator /= divisor;
    }
}

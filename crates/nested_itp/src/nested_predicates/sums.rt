//! Sums read over the columns of a frame.

ghost use Rattle.std.specs.Prelude.{◌≡◌, ◌≤◌, ◌<◌, ◌^◌, ℤ, ◌-ℤ◌, [], ◌∷◌, ◌++◌, Err, IfOk, OnOk, MatchOption, length};
ghost use Rattle.std.specs.List.{AllByRecursion};
ghost use Rattle.math_facts.specs.Fits.{Fits};
ghost use Rattle.lin_rows.specs.Sums.{led_by};
ghost use Rattle.triple_rows.specs.Predicates.{prefix_of};
ghost use Rattle.nested_itp.specs.NestedPredicates.Wides.{value_of, HasRoom};
ghost use Rattle.nested_itp.specs.NestedPredicates.Sums.{terms_from, inequality};
ghost use Rattle.nested_itp.specs.NestedPredicates.Runnings.{value_at, AreCounted, differences, AreSumTerms};

use crate::nested_predicates::faults::ItpFault;
use crate::nested_predicates::running::Running;
use crate::nested_predicates::wide::Wide;
use lin_rows::{Col, RowFault, RowKind, row};
use std::alloc::{AllocError, Global};
use triple_rows::PredNode;

/// The inequality of these terms. Without terms it is true or false.
fn inequality(alloc: Global, terms: &[(Col, i128)], bound: i128) -> Result<PredNode, AllocError>
    requires terms { AreSumTerms terms.now }
    requires bound { Fits bound }
    ensures { IfOk result (λ n. n ∷ [] ≡ prefix_of (inequality terms.now bound)) }
{
    if terms.is_empty() {
        return Ok(PredNode::Truth(bound >= 0));
    }
    match row(alloc, terms, RowKind::Le, bound) {
        Ok(atom) => Ok(PredNode::Atom(atom)),
        Err(RowFault::Past) => unreachable!(),
        Err(RowFault::Memory) => Err(AllocError),
    }
}

/// The number at a place, 0 past the end.
fn wide_at(known: &[Wide], place: usize) -> Wide
    requires { AllByRecursion HasRoom known.now }
    ensures value { value_of result ≡ value_at known.now place }
    ensures room { HasRoom result }
{
    if place < known.len() {
        known[place]
    } else {
        Wide::zero()
    }
}

/// A version's number, less a known number, `None` where it does not fit.
fn difference(running: &Running, version: Col, known: Wide) -> Option<i128>
    requires counted { AreCounted running.now }
    requires version { version < length running.now.columns.items }
    requires known { HasRoom known }
    ensures { MatchOption result (Fits (value_at running.now.columns.items version -ℤ value_of known) → ⊥) (λ z. (z ≡ value_at running.now.columns.items version -ℤ value_of known) × Fits z) }
{
    running.columns[version as usize].less(known)
}

/// Adds the term of a column, unless its coefficient is 0.
fn add_term(terms: &mut Vec<(Col, i128)>, column: Col, coefficient: i128) -> Result<(), AllocError>
    ensures { OnOk result (terms.new.items ≡ terms.old.items ++ led_by column coefficient []) }
{
    if coefficient != 0 {
        terms.push((column, coefficient))?;
    }
    Ok(())
}

/// The terms of a sum over the columns of a frame with these versions, less the known numbers.
fn terms(
    alloc: Global,
    running: &Running,
    here: &[Col],
    known: &[Wide],
) -> Result<Vec<(Col, i128)>, ItpFault>
    requires counted { AreCounted running.now }
    requires known { AllByRecursion HasRoom known.now }
    requires versions { AllByRecursion (λ v. v < length running.now.columns.items) here.now }
    requires width { length here.now ≤ 2 ^ 32 }
    ensures value { IfOk result (λ ts. ts.items ≡ terms_from 0 (differences running.now.columns.items known.now here.now)) }
    ensures fits { OnOk result (AllByRecursion Fits (differences running.now.columns.items known.now here.now)) }
    ensures past { result ≡ Err ItpFault.Past → AllByRecursion Fits (differences running.now.columns.items known.now here.now) → ⊥ }
{
    let mut terms = Vec::new(alloc);
    for j in 0..here.len() {
        let Some(coefficient) = difference(running, here[j], wide_at(known, j)) else {
            return Err(ItpFault::Past);
        };
        add_term(&mut terms, j as u32, coefficient)?;
    }
    Ok(terms)
}

/// The sum over the columns of a frame with these versions, less what is known. `Past` exactly where a coefficient or the
/// bound does not fit.
pub(crate) fn sum(
    alloc: Global,
    running: &Running,
    here: &[Col],
    known: &[Wide],
    known_bound: Wide,
) -> Result<PredNode, ItpFault>
    requires counted { AreCounted running.now }
    requires known { AllByRecursion HasRoom known.now }
    requires known_bound { HasRoom known_bound }
    requires versions { AllByRecursion (λ v. v < length running.now.columns.items) here.now }
    requires width { length here.now ≤ 2 ^ 32 }
    ensures value { IfOk result (λ n. n ∷ [] ≡ prefix_of (inequality (terms_from 0 (differences running.now.columns.items known.now here.now)) (value_of running.now.bound -ℤ value_of known_bound))) }
    ensures fits { OnOk result (AllByRecursion Fits (differences running.now.columns.items known.now here.now) × Fits (value_of running.now.bound -ℤ value_of known_bound)) }
    ensures past { result ≡ Err ItpFault.Past → AllByRecursion Fits (differences running.now.columns.items known.now here.now) → Fits (value_of running.now.bound -ℤ value_of known_bound) → ⊥ }
{
    let coefficients = terms(alloc, running, here, known)?;
    let Some(bound) = running.bound.less(known_bound) else {
        return Err(ItpFault::Past);
    };
    Ok(inequality(alloc, &coefficients, bound)?)
}

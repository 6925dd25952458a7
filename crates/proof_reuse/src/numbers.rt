//! What the numbers of an annotation stand for, by the numbers of predicates that are found.

ghost use Rattle.std.specs.Prelude.{◌≡◌, if◌then◌else◌};
ghost use Rattle.proof_form.specs.Lines as form;
ghost use Rattle.proof_names.specs.Options.{both};
ghost use Rattle.proof_reuse.specs.Ties.Numbers as spec;

use proof_form::{Numeral, TripleLine};
use proof_names::index_in;

/// The number of what this number of the annotation stands for: true, false, or what is found of a line.
fn renumbered(numbers: &[Option<usize>], number: usize) -> Option<usize>
    ensures { result ≡ spec.renumbered numbers.now number }
{
    if number < 2 {
        return Some(number);
    }
    match numbers.get(number - 2) {
        Some(number) => *number,
        None => None,
    }
}

fn number_of(numbers: &[Option<usize>], numeral: &Numeral) -> Option<usize>
    ensures { result ≡ spec.number_of numbers.now numeral.now }
{
    renumbered(numbers, index_in(numeral)?)
}

/// The source and the target, if both stand for something.
fn ends(numbers: &[Option<usize>], from: &Numeral, to: &Numeral) -> Option<(usize, usize)>
    ensures { result ≡ both (spec.number_of numbers.now from.now) (spec.number_of numbers.now to.now) }
{
    Some((number_of(numbers, from)?, number_of(numbers, to)?))
}

/// The source and the target of a call triple, or of an inside triple.
pub(crate) fn pair_of(
    is_call: bool,
    numbers: &[Option<usize>],
    line: &TripleLine,
) -> Option<(usize, usize)>
    ensures { result ≡ (if is_call then spec.call_pair else spec.inside_pair) numbers.now (form.triple line.now) }
{
    match line {
        TripleLine::Call { from, to, .. } if is_call => ends(numbers, from, to),
        TripleLine::Inside { from, to, .. } if !is_call => ends(numbers, from, to),
        _ => None,
    }
}

/// The sources, at the exit and before the call, and the target of a return triple.
pub(crate) fn back_three(
    numbers: &[Option<usize>],
    line: &TripleLine,
) -> Option<(usize, usize, usize)>
    ensures { result ≡ spec.back_three numbers.now (form.triple line.now) }
{
    match line {
        TripleLine::Back {
            exit,
            before,
            to,
            ..
        } => Some((
            number_of(numbers, exit)?,
            number_of(numbers, before)?,
            number_of(numbers, to)?,
        )),
        TripleLine::Inside { .. } | TripleLine::Call { .. } => None,
    }
}

//! The places at which the statements of a body stand.

ghost use Rattle.std.specs.Prelude.{◌≡◌, Some, IfOk, IfErr};
ghost use Rattle.std.specs.List.{position_from};
ghost use Rattle.boogie_types.specs.Ties.Referred.{procedures_by};
ghost use Rattle.boogie_types.specs.Naming.{each, is_before_loop};
ghost use Rattle.boogie_types.specs.Ties.Numbers.{number_of_name, IsLabelsFault, IsMemoryFault};
ghost use Rattle.boogie_types.specs.Ties.Places.{label_by, loops_by, procedure_texts};

use crate::names::Names;
use crate::numbered::{Numbered, number_of};
use boogie_tree::{Name, Proc};
use std::alloc::Global;
use typed_tree::TypeFault;

/// What the names of a body's statements may mean.
#[derive(Clone, Copy)]
pub(crate) struct Placed<'a, 'b> {
    pub(crate) names: Names<'a, 'b>,
    /// The procedures, and their numbers.
    pub(crate) procs: &'b [&'a Proc],
    pub(crate) numbers: &'b Numbered<'a>,
    /// The labels of the body.
    pub(crate) labels: &'b Numbered<'a>,
    /// How many locals are not hidden.
    pub(crate) declared: u32,
    ghost numbers_are: { numbers.now ≡ procedure_texts (procedures_by procs.now) },
}

/// The numbers of the labels that a goto names.
pub(crate) fn label_numbers(
    alloc: Global,
    labels: &Numbered<'_>,
    targets: &[Name],
) -> Result<Vec<u32>, TypeFault>
    ensures ok { IfOk result (λ v. each (λ x. number_of_name labels.now x.text) targets.now ≡ Some v.items) }
    ensures fault { IfErr result (λ f. IsLabelsFault labels.now targets.now f) }
{
    let mut numbers = Vec::new(alloc);
    for target in targets {
        match labels.place(target.text.bytes()) {
            Some(number) => numbers.push(number)?,
            None => return Err(TypeFault::BadGoto(target.span)),
        }
    }
    Ok(numbers)
}

/// Whether that label stands directly before a loop.
fn is_before(label: &[u8], before: &Option<&[u8]>) -> bool
    ensures { result ≡ is_before_loop label.now (label_by before.now) }
{
    match before {
        Some(other) => label == *other,
        None => false,
    }
}

/// How many loops a break to that label leaves beyond the innermost; the loops stand innermost first.
pub(crate) fn levels(loops: &[Option<&[u8]>], label: &[u8]) -> Result<Option<u32>, TypeFault>
    ensures ok { IfOk result (λ o. o ≡ position_from (is_before_loop label.now) 0 (loops_by loops.now)) }
    ensures fault { IfErr result IsMemoryFault }
{
    for (level, before) in loops.iter().enumerate() {
        if is_before(label, before) {
            let level = number_of(level)?;
            return Ok(Some(level));
        }
    }
    Ok(None)
}

//! The triples of an annotation by the numbers of their predicates, each once whatever its letter.

ghost use Rattle.std.specs.Prelude.{IfOk, if◌then◌else◌, map};
ghost use Rattle.std.specs.List.{filter_map};
ghost use Rattle.nwa_base.specs.Members.{SameMembers};
ghost use Rattle.proof_form.specs.Lines as form;
ghost use Rattle.proof_reuse.specs.Ties.Numbers as spec;

use crate::numbers::{back_three, pair_of};
use crate::sets::{add_pair, add_three};
use indexmap::IndexSet;
use proof_form::TripleLine;
use std::alloc::{AllocError, Global};

/// Sources and targets of call triples, or of inside triples.
pub(crate) fn pairs_of(
    alloc: Global,
    is_call: bool,
    numbers: &[Option<usize>],
    lines: &[TripleLine],
) -> Result<IndexSet<(usize, usize)>, AllocError>
    ensures { IfOk result (λ s. SameMembers s.keys (filter_map ((if is_call then spec.call_pair else spec.inside_pair) numbers.now) (map form.triple lines.now))) }
{
    let mut pairs = IndexSet::new(alloc);
    for line in lines {
        if let Some(pair) = pair_of(is_call, numbers, line) {
            add_pair(&mut pairs, pair)?;
        }
    }
    Ok(pairs)
}

/// Sources, at exits and before calls, and targets of return triples.
pub(crate) fn back_threes(
    alloc: Global,
    numbers: &[Option<usize>],
    lines: &[TripleLine],
) -> Result<IndexSet<(usize, usize, usize)>, AllocError>
    ensures { IfOk result (λ s. SameMembers s.keys (filter_map (spec.back_three numbers.now) (map form.triple lines.now))) }
{
    let mut threes = IndexSet::new(alloc);
    for line in lines {
        if let Some(three) = back_three(numbers, line) {
            add_three(&mut threes, three)?;
        }
    }
    Ok(threes)
}

//! What is taken from an earlier annotation.

ghost use Rattle.std.specs.Prelude.{◌≡◌, map, IfOk, OnOk};
ghost use Rattle.std.specs.List.{filter_map};
ghost use Rattle.nwa_base.specs.Members.{SameMembers};
ghost use Rattle.proof_form.specs.Lines as form;
ghost use Rattle.proof_reuse.specs.Ties.Choices.{IsTakenFrom};
ghost use Rattle.proof_reuse.specs.Ties.Numbers as spec;
ghost use Rattle.proof_reuse.specs.Ties.Views.{taken};

use crate::founds::{Founds, founds_of};
use crate::lines::{back_threes, pairs_of};
use indexmap::IndexSet;
use letter_acts::Icfg;
use proof_form::{Annotation, TripleLine};
use std::alloc::{AllocError, Global};
use triple_rows::Scoped;

/// The predicates of an annotation that are found, and its triples by their numbers: 0 for true, 1 for false, k + 2 for
/// predicate k. Letters and refutations of the annotation are left out.
#[derive(Drop)]
pub(crate) struct Earlier {
    /// The predicates, each once.
    pub(crate) preds: Vec<Scoped>,
    /// Source and target of inside triples.
    pub(crate) insides: IndexSet<(usize, usize)>,
    /// Source and target of call triples.
    pub(crate) calls: IndexSet<(usize, usize)>,
    /// Source at the exit, source before the call, and target of return triples.
    pub(crate) backs: IndexSet<(usize, usize, usize)>,
}

/// Takes the triples of lines, by the numbers of what their numbers stand for.
fn take_triples(
    alloc: Global,
    numbers: &[Option<usize>],
    lines: &[TripleLine],
    earlier: &mut Earlier,
) -> Result<(), AllocError>
    ensures preds { OnOk result (earlier.new.preds ≡ earlier.old.preds) }
    ensures insides { OnOk result (SameMembers earlier.new.insides.keys (filter_map (spec.inside_pair numbers.now) (map form.triple lines.now))) }
    ensures calls { OnOk result (SameMembers earlier.new.calls.keys (filter_map (spec.call_pair numbers.now) (map form.triple lines.now))) }
    ensures backs { OnOk result (SameMembers earlier.new.backs.keys (filter_map (spec.back_three numbers.now) (map form.triple lines.now))) }
{
    earlier.insides = pairs_of(alloc, false, numbers, lines)?;
    earlier.calls = pairs_of(alloc, true, numbers, lines)?;
    earlier.backs = back_threes(alloc, numbers, lines)?;
    Ok(())
}

/// What is taken from an annotation.
pub(crate) fn taken_from(
    alloc: Global,
    icfg: &Icfg,
    old: &Annotation,
) -> Result<Earlier, AllocError>
    ensures { IfOk result (λ e. IsTakenFrom icfg.now old.now (taken e)) }
{
    let Founds { preds, numbers } = founds_of(alloc, icfg, old.preds())?;
    let mut earlier = Earlier {
        preds,
        insides: IndexSet::new(alloc),
        calls: IndexSet::new(alloc),
        backs: IndexSet::new(alloc),
    };
    let Ok(()) = take_triples(alloc, &numbers, old.triples(), &mut earlier) else {
        drop(earlier);
        return Err(AllocError);
    };
    Ok(earlier)
}

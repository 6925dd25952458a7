//! The reduction.

ghost use Rattle.std.specs.Prelude.{◌↔◌, ◌<◌, ◌≤◌, List, IfOk, OnOk, MatchOption};
ghost use Rattle.nwa_base.specs.declared.letters.Letter.{Letter};
ghost use Rattle.nwa_base.specs.Acceptance.{Accepts};
ghost use Rattle.nwa_reduce.specs.Lean.{IsTrim, IsLean, IsReduced};

use crate::folding::is_folding;
use crate::guessing::guessed_classes;
use crate::imaging::image;
use crate::joining::joins;
use crate::merging::class_names;
use crate::numbering::class_numbers;
use crate::trimming::useful_names;
use nwa_base::{Letter, Nwa};
use std::alloc::{AllocError, Global};

/// From how many states on those of different calls become one. A search of an automaton finds a word through a call that it has gone
/// through before early, however long that is, so where there are few states each call keeps its own.
const MANY: u32 = 1000;

/// An automaton of the same language with at most as many states. Each of its states but the start lies on a way from the start
/// to a final state, and no two are twins: both final or neither, and with the same edges.
pub fn reduce(alloc: Global, nwa: &Nwa) -> Result<Nwa, AllocError>
    ensures words { IfOk result (λ n. (w : List Letter) → Accepts n w ↔ Accepts nwa.now w) }
    ensures lean { IfOk result (λ n. IsLean n) }
    ensures states { IfOk result (λ n. n.states ≤ nwa.now.states) }
{
    let kept = merged(alloc, folded(alloc, trimmed(alloc, nwa)?)?)?;
    Ok(kept)
}

/// The states that lie on ways from the start to final states. Where a state is taken away, return edges that name it go with it,
/// and other states may then lie on no way.
fn trimmed(alloc: Global, nwa: &Nwa) -> Result<Nwa, AllocError>
    ensures { IfOk result (λ n. IsReduced nwa.now n × IsTrim n) }
{
    let mut kept = useful_image(alloc, nwa)?;
    trim(alloc, &mut kept)?;
    Ok(kept)
}

/// Takes away useless states until there are none.
fn trim(alloc: Global, kept: &mut Nwa) -> Result<(), AllocError>
    ensures { OnOk result (IsReduced kept.old kept.new × IsTrim kept.new) }
{
    while let Some(smaller) = useful_part(alloc, kept)? {
        *kept = smaller;
    }
    Ok(())
}

/// The automaton of the start and the useful states.
fn useful_image(alloc: Global, nwa: &Nwa) -> Result<Nwa, AllocError>
    ensures { IfOk result (IsReduced nwa.now) }
{
    let names = useful_names(alloc, nwa)?;
    image(alloc, nwa, &names)
}

/// The automaton of the start and the useful states, if there are others.
fn useful_part(alloc: Global, nwa: &Nwa) -> Result<Option<Nwa>, AllocError>
    ensures { IfOk result (λ part. MatchOption part (IsTrim nwa.now) (λ n. IsReduced nwa.now n × (n.states < nwa.now.states))) }
{
    let names = useful_names(alloc, nwa)?;
    if names.count == nwa.states() {
        return Ok(None);
    }
    Ok(Some(image(alloc, nwa, &names)?))
}

/// States that are left alike become one, also in different calls, where that is found to be right.
fn folded(alloc: Global, nwa: Nwa) -> Result<Nwa, AllocError>
    requires { IsTrim nwa }
    ensures { IfOk result (λ n. IsReduced nwa n × IsTrim n) }
{
    match folding_of(alloc, &nwa)? {
        Some(folding) => Ok(folding),
        None => Ok(nwa),
    }
}

/// The automaton in which states of one guessed class are one, if there are many and it accepts the same words.
fn folding_of(alloc: Global, nwa: &Nwa) -> Result<Option<Nwa>, AllocError>
    requires { IsTrim nwa.now }
    ensures { IfOk result (λ part. MatchOption part (Unit {0}) (λ n. IsReduced nwa.now n × IsTrim n)) }
{
    if nwa.states() < MANY {
        return Ok(None);
    }
    let joins = joins(alloc, nwa)?;
    let classes = guessed_classes(alloc, nwa, joins.as_slice())?;
    let names = class_numbers(alloc, nwa, classes.as_slice())?;
    if names.count == nwa.states() {
        return Ok(None);
    }
    let folding = image(alloc, nwa, &names)?;
    if !is_folding(nwa, &names, &folding, joins.as_slice()) {
        return Ok(None);
    }
    Ok(Some(folding))
}

/// Twins become one state, until there are none. Where states become one, others may become twins.
fn merged(alloc: Global, nwa: Nwa) -> Result<Nwa, AllocError>
    requires { IsTrim nwa }
    ensures { IfOk result (λ n. IsReduced nwa n × IsLean n) }
{
    let mut kept = nwa;
    merge(alloc, &mut kept)?;
    Ok(kept)
}

/// Makes twins one state until there are none.
fn merge(alloc: Global, kept: &mut Nwa) -> Result<(), AllocError>
    requires { IsTrim kept.old }
    ensures { OnOk result (IsReduced kept.old kept.new × IsLean kept.new) }
{
    while let Some(smaller) = class_image(alloc, kept)? {
        *kept = smaller;
    }
    Ok(())
}

/// The automaton of the classes of states, if any two states are of one class.
fn class_image(alloc: Global, nwa: &Nwa) -> Result<Option<Nwa>, AllocError>
    requires { IsTrim nwa.now }
    ensures { IfOk result (λ part. MatchOption part (IsLean nwa.now) (λ n. IsReduced nwa.now n × IsTrim n × (n.states < nwa.now.states))) }
{
    let names = class_names(alloc, nwa)?;
    if names.count == nwa.states() {
        return Ok(None);
    }
    Ok(Some(image(alloc, nwa, &names)?))
}

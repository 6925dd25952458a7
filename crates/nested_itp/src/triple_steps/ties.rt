//! The rows of a system that tie two frames.

ghost use Rattle.std.specs.Prelude.{◌≡◌, ℕ, ◌++◌, not, IfOk, OnOk, map, filter};
ghost use Rattle.std.specs.HashSet.{contains};
ghost use Rattle.letter_acts.specs.Frames.{globals_of, constants_of, variables_of, result_columns, olds_of};
ghost use Rattle.letter_acts.specs.Invariant.{Take, written_by, is_global_at};
ghost use Rattle.letter_acts.specs.Reading.{taken, is_listed};
ghost use Rattle.nested_itp.specs.NestedRefutations.Refutations.{target_tie, source_tie};
ghost use Rattle.nested_itp.specs.TripleSteps.Sections.{AddsRoles};

use crate::triple_steps::classes::{Class, add_if, is_of, places};
use crate::triple_steps::sections::{Section, Tie};
use boogie_tree::{Column, VarInfo};
use std::alloc::{AllocError, Global};
use std::collections::HashSet;

/// Adds a row for each of these columns of the target.
fn tie_targets(sections: &mut Vec<Section>, columns: &[u32]) -> Result<(), AllocError>
    ensures { OnOk result (sections.new.items ≡ sections.old.items ++ map (λ c. Section.Tie (Tie.Target c)) columns.now) }
{
    for i in 0..columns.len() {
        sections.push(Section::Tie(Tie::Target(columns[i] as usize)))?;
    }
    Ok(())
}

/// Adds a row for each of these columns of the first source.
fn tie_sources(sections: &mut Vec<Section>, columns: &[u32]) -> Result<(), AllocError>
    ensures { OnOk result (sections.new.items ≡ sections.old.items ++ map (λ c. Section.Tie (Tie.Source c)) columns.now) }
{
    for i in 0..columns.len() {
        sections.push(Section::Tie(Tie::Source(columns[i] as usize)))?;
    }
    Ok(())
}

/// Adds the rows that tie a callee's constants and globals to the caller's.
pub(crate) fn tie_globals(
    alloc: Global,
    sections: &mut Vec<Section>,
    callee: &[(Column, VarInfo)],
) -> Result<(), AllocError>
    ensures { OnOk result (AddsRoles sections.old.items sections.new.items (map target_tie (globals_of callee.now))) }
{
    let globals = places(alloc, callee, Class::Global)?;
    tie_targets(sections, &globals)
}

/// Adds the entry rows of a call that returns, by the columns of the globals.
pub(crate) fn tie_entries(
    sections: &mut Vec<Section>,
    olds: &[(u32, u32)],
) -> Result<(), AllocError>
    ensures { OnOk result (sections.new.items ≡ sections.old.items ++ map (λ o. Section.Tie (Tie.Opposite o.1)) olds.now) }
{
    for i in 0..olds.len() {
        sections.push(Section::Tie(Tie::Opposite(olds[i].1 as usize)))?;
    }
    Ok(())
}

/// Adds the rows that tie a callee's constants at the exit to those before the call.
pub(crate) fn tie_constants(
    alloc: Global,
    sections: &mut Vec<Section>,
    callee: &[(Column, VarInfo)],
) -> Result<(), AllocError>
    ensures { OnOk result (AddsRoles sections.old.items sections.new.items (map source_tie (constants_of callee.now))) }
{
    let constants = places(alloc, callee, Class::Constant)?;
    tie_sources(sections, &constants)
}

/// Adds those that tie its old columns to the globals before the call.
pub(crate) fn tie_olds(
    alloc: Global,
    sections: &mut Vec<Section>,
    callee: &[(Column, VarInfo)],
) -> Result<(), AllocError>
    ensures { OnOk result (AddsRoles sections.old.items sections.new.items (map (λ o. source_tie o.0) (olds_of callee.now))) }
{
    let olds = places(alloc, callee, Class::Old)?;
    tie_sources(sections, &olds)
}

/// Adds those that tie the globals that may change and are no targets to the callee's.
pub(crate) fn tie_kept(
    alloc: Global,
    sections: &mut Vec<Section>,
    caller: &[(Column, VarInfo)],
    targets: &[u32],
) -> Result<(), AllocError>
    ensures { OnOk result (AddsRoles sections.old.items sections.new.items (map target_tie (filter (λ c. not (is_listed targets.now c)) (variables_of caller.now)))) }
{
    let variables = places(alloc, caller, Class::Variable)?;
    let kept = without(alloc, &variables, targets)?;
    tie_targets(sections, &kept)
}

/// Adds those that tie the targets to the callee's results, of which each takes one.
pub(crate) fn tie_results(
    sections: &mut Vec<Section>,
    caller: &[(Column, VarInfo)],
    callee: &[(Column, VarInfo)],
    targets: &[u32],
) -> Result<(), AllocError>
    requires { Take caller.now callee.now targets.now (result_columns callee.now) }
    ensures { OnOk result (AddsRoles sections.old.items sections.new.items (map (λ p. target_tie p.0) (taken targets.now (result_columns callee.now)))) }
{
    let _ = caller;
    let _ = callee;
    tie_targets(sections, targets)
}

/// The columns that are none of the targets.
fn without(alloc: Global, columns: &[u32], targets: &[u32]) -> Result<Vec<u32>, AllocError>
    ensures { IfOk result (λ v. v.items ≡ filter (λ c. not (is_listed targets.now c)) columns.now) }
{
    let listed = listed(alloc, targets)?;
    let mut left = Vec::new(alloc);
    for i in 0..columns.len() {
        let is_listed = listed.contains(&columns[i]);
        add_if(&mut left, columns[i], !is_listed)?;
    }
    Ok(left)
}

/// The targets as a set.
fn listed(alloc: Global, targets: &[u32]) -> Result<HashSet<u32>, AllocError>
    ensures { IfOk result (λ s. (c : ℕ) → contains ⟦<u32 as PartialEq>⟧.eq s c ≡ is_listed targets.now c) }
{
    let mut listed = HashSet::new(alloc);
    for i in 0..targets.len() {
        listed.insert(targets[i])?;
    }
    Ok(listed)
}

/// The columns of the caller's frame that a return with these targets writes.
pub(crate) fn written(
    alloc: Global,
    caller: &[(Column, VarInfo)],
    targets: &[u32],
) -> Result<Vec<u32>, AllocError>
    ensures { IfOk result (λ v. v.items ≡ written_by caller.now targets.now) }
{
    let mut written = places(alloc, caller, Class::Variable)?;
    for i in 0..targets.len() {
        let is_global = is_global_at(caller, targets[i]);
        add_if(&mut written, targets[i], !is_global)?;
    }
    Ok(written)
}

/// Whether the column is a constant or a global.
fn is_global_at(frame: &[(Column, VarInfo)], column: u32) -> bool
    ensures { result ≡ is_global_at frame.now column }
{
    match frame.get(column as usize) {
        Some(found) => is_of(Class::Global, found),
        None => false,
    }
}

//! The step of a letter, by its kind.

ghost use Rattle.std.specs.Prelude.{◌≡◌, ◌++◌, ◌∷◌, [], IfOk, OnOk, List, length, map, filter, not, suc, slice_get, ◌+◌, if◌then◌else◌};
ghost use Rattle.nwa_base.specs.declared.letters.Letter.{Letter};
ghost use Rattle.letter_acts.specs.Frames.{globals_of, constants_of, variables_of, result_columns, olds_of};
ghost use Rattle.letter_acts.specs.Invariant.{Graph, Take};
ghost use Rattle.letter_acts.specs.Reading.{taken, is_listed};
ghost use Rattle.letter_acts.specs.FrameRows.Rows.{bounds, types_at};
ghost use Rattle.path_rows.specs.Versions.{local_columns, old_part};
ghost use Rattle.farkas_check.specs.Trees.{Tree};
ghost use Rattle.nested_itp.specs.NestedRefutations.Refutations.{View, target_tie, source_tie, opposite_tie};
ghost use Rattle.nested_itp.specs.NestedRefutations.Numbers.{spares, branch_rows, bounds_in, before_bounds, callee_bounds, made_by_call};
ghost use Rattle.nested_itp.specs.TripleSteps.Sections.{section_roles, roles_in, claims_in, claim_roles, ClaimsStand, call_counts, back_counts, AddsRoles};
ghost use Rattle.nested_itp.specs.TripleSteps.Steps.{FitColumns};
ghost use Rattle.nested_itp.specs.TripleSteps.Ties.Readings.{IsInsideStep, IsCallStep, IsBackStep};

use crate::nested_predicates::acts::old_count;
use crate::triple_steps::bounds::{
    add_callee_bounds, before_bounds, bounds_at, bounds_in, local_bounds,
};
use crate::triple_steps::classes::{Class, olds};
use crate::triple_steps::columns::{Columns, add_columns, add_places, sum};
use crate::triple_steps::making::Step;
use crate::triple_steps::readings::{OpenCall, Reading};
use crate::triple_steps::sections::Section;
use crate::triple_steps::ties::{
    tie_constants, tie_entries, tie_globals, tie_kept, tie_olds, tie_results, written,
};
use boogie_tree::{Column, VarInfo};
use lin_rows::Col;
use std::alloc::{AllocError, Global};

/// That of an inside letter with so many rows, in a word with so many columns.
pub(crate) fn inside_step(
    alloc: Global,
    reading: &Reading,
    total: usize,
    frame: &[(Column, VarInfo)],
    written: &[u32],
    helpers: u32,
    rows: usize,
) -> Result<Step, AllocError>
    ensures step { IfOk result (IsInsideStep reading.now frame.now written.now helpers rows) }
    ensures fit { IfOk result (λ s. FitColumns total s.columns) }
{
    let target = sum(reading.letters, 1)?;
    let mut made = Vec::new(alloc);
    add_columns(&mut made, frame.len(), written.len() + helpers as usize)?;
    let columns = Columns::of(0, reading.made, made, total)?;
    let sections = inside_sections(alloc, reading, frame, written, rows)?;
    let sources = vec![in alloc; reading.letters]?;
    Ok(Step {
        sources,
        target,
        returns: false,
        columns,
        sections,
    })
}

/// Its rows.
fn inside_sections(
    alloc: Global,
    reading: &Reading,
    frame: &[(Column, VarInfo)],
    written: &[u32],
    rows: usize,
) -> Result<Vec<Section>, AllocError>
    ensures roles { IfOk result (λ ss. (g : Graph) (w : List Letter) (t : Tree) (v : View) → roles_in g w t v ss.items ≡ claim_roles g w t v 0 (slice_get v.claims 0) ++ branch_rows reading.now.rows rows ++ claim_roles g w t v 1 (slice_get v.claims 1) ++ before_bounds (suc reading.now.letters) frame.now ++ branch_rows (reading.now.rows + rows) (length (bounds 0 (types_at frame.now written.now)))) }
    ensures stand { IfOk result (λ ss. ClaimsStand ss.items (0 ∷ 1 ∷ []) (0 ∷ rows ∷ [])) }
{
    let own = Section::Rows {
        first: reading.rows,
        count: rows,
    };
    let before = before_bounds(frame, reading.letters);
    let first = sum(reading.rows, rows)?;
    let count = bounds_at(frame, written);
    let bounds = Section::Rows { first, count };
    Ok(vec![in alloc; Section::Claim(0), own, Section::Claim(1), before, bounds]?)
}

/// That of a call with so many rows, which returns or does not.
pub(crate) fn call_step(
    alloc: Global,
    reading: &Reading,
    total: usize,
    returns: bool,
    caller: &[(Column, VarInfo)],
    callee: &[(Column, VarInfo)],
    helpers: u32,
    rows: usize,
) -> Result<Step, AllocError>
    ensures step { IfOk result (IsCallStep reading.now returns caller.now callee.now helpers rows) }
    ensures fit { IfOk result (λ s. FitColumns total s.columns) }
{
    let target = sum(reading.letters, 1)?;
    let helpers_at = caller.len() + callee.len();
    let made = made_by_call(alloc, caller.len(), helpers_at, helpers, callee)?;
    let columns = Columns::of(0, reading.made, made, total)?;
    let sections = call_sections(alloc, reading, returns, caller, callee, rows)?;
    let sources = vec![in alloc; reading.letters]?;
    Ok(Step {
        sources,
        target,
        returns,
        columns,
        sections,
    })
}

/// Where the columns stand that a call made, where the callee's frame stands from one column on and the helpers from another.
fn made_by_call(
    alloc: Global,
    at: usize,
    helpers_at: usize,
    helpers: u32,
    callee: &[(Column, VarInfo)],
) -> Result<Vec<Col>, AllocError>
    ensures { IfOk result (λ v. v.items ≡ made_by_call at helpers_at helpers callee.now) }
{
    let mut made = Vec::new(alloc);
    add_places(alloc, &mut made, at, callee, Class::Local)?;
    add_columns(&mut made, helpers_at, helpers as usize)?;
    add_places(alloc, &mut made, at, callee, Class::Old)?;
    Ok(made)
}

/// The rows of a call.
fn call_sections(
    alloc: Global,
    reading: &Reading,
    returns: bool,
    caller: &[(Column, VarInfo)],
    callee: &[(Column, VarInfo)],
    rows: usize,
) -> Result<Vec<Section>, AllocError>
    ensures roles { IfOk result (λ ss. (g : Graph) (w : List Letter) (t : Tree) (v : View) → roles_in g w t v ss.items ≡ claim_roles g w t v 0 (slice_get v.claims 0) ++ map target_tie (globals_of callee.now) ++ (if returns then map (λ o. opposite_tie o.1) (olds_of callee.now) else branch_rows (reading.now.rows + rows) (length (olds_of callee.now))) ++ (if returns then spares rows else branch_rows reading.now.rows rows) ++ claim_roles g w t v 1 (slice_get v.claims 1) ++ (if returns then spares (bounds_in caller.now) else before_bounds (suc reading.now.letters) caller.now) ++ callee_bounds (reading.now.rows + rows + length (old_part callee.now)) (reading.now.rows + rows + length (old_part callee.now) + bounds_in (local_columns callee.now)) callee.now) }
    ensures stand { IfOk result (λ ss. ClaimsStand ss.items (0 ∷ 1 ∷ []) (call_counts callee.now rows)) }
{
    let mut sections = Vec::new(alloc);
    sections.push(Section::Claim(0))?;
    tie_call(alloc, &mut sections, reading, returns, callee, rows)?;
    sections.push(Section::Claim(1))?;
    add_call_bounds(&mut sections, reading, returns, caller, callee, rows)?;
    Ok(sections)
}

/// Adds the rows of a call that tie its frames, and its own behind them.
fn tie_call(
    alloc: Global,
    sections: &mut Vec<Section>,
    reading: &Reading,
    returns: bool,
    callee: &[(Column, VarInfo)],
    rows: usize,
) -> Result<(), AllocError>
    ensures { OnOk result (AddsRoles sections.old.items sections.new.items (map target_tie (globals_of callee.now) ++ (if returns then map (λ o. opposite_tie o.1) (olds_of callee.now) else branch_rows (reading.now.rows + rows) (length (olds_of callee.now))) ++ (if returns then spares rows else branch_rows reading.now.rows rows))) }
{
    let entries = sum(reading.rows, rows)?;
    tie_globals(alloc, sections, callee)?;
    add_entries(alloc, sections, returns, entries, callee)?;
    sections.push(call_rows(returns, reading.rows, rows))?;
    Ok(())
}

/// Adds the bounds of a call's frames.
fn add_call_bounds(
    sections: &mut Vec<Section>,
    reading: &Reading,
    returns: bool,
    caller: &[(Column, VarInfo)],
    callee: &[(Column, VarInfo)],
    rows: usize,
) -> Result<(), AllocError>
    ensures { OnOk result (AddsRoles sections.old.items sections.new.items ((if returns then spares (bounds_in caller.now) else before_bounds (suc reading.now.letters) caller.now) ++ callee_bounds (reading.now.rows + rows + length (old_part callee.now)) (reading.now.rows + rows + length (old_part callee.now) + bounds_in (local_columns callee.now)) callee.now)) }
{
    let local = sum(sum(reading.rows, rows)?, old_count(callee))?;
    let old = sum(local, local_bounds(callee))?;
    sections.push(caller_bounds(returns, caller, reading.letters))?;
    add_callee_bounds(sections, callee, local, old)
}

/// Adds the entry rows of a callee, the first of which is this row of the word. Where the call returns the sources are not added,
/// and an entry row makes up for what its global has in the target.
fn add_entries(
    alloc: Global,
    sections: &mut Vec<Section>,
    returns: bool,
    first: usize,
    callee: &[(Column, VarInfo)],
) -> Result<(), AllocError>
    ensures { OnOk result (AddsRoles sections.old.items sections.new.items (if returns then map (λ o. opposite_tie o.1) (olds_of callee.now) else branch_rows first (length (olds_of callee.now)))) }
{
    let olds = olds(alloc, callee)?;
    if returns {
        return tie_entries(sections, &olds);
    }
    sections.push(Section::Rows {
        first,
        count: olds.len(),
    })?;
    Ok(())
}

/// The own rows of a call. Where it returns no leaf uses them.
fn call_rows(returns: bool, first: usize, count: usize) -> Section
    ensures roles { (g : Graph) (w : List Letter) (t : Tree) (v : View) → section_roles g w t v result ≡ (if returns then spares count else branch_rows first count) }
    ensures plain { claims_in (result ∷ []) ≡ [] }
{
    if returns {
        Section::Spare(count)
    } else {
        Section::Rows { first, count }
    }
}

/// The bounds of the frame before a call, before which so many letters stand. Where it returns no leaf uses them.
fn caller_bounds(returns: bool, caller: &[(Column, VarInfo)], letters: usize) -> Section
    ensures roles { (g : Graph) (w : List Letter) (t : Tree) (v : View) → section_roles g w t v result ≡ (if returns then spares (bounds_in caller.now) else before_bounds (suc letters) caller.now) }
    ensures plain { claims_in (result ∷ []) ≡ [] }
{
    if returns {
        Section::Spare(bounds_in(caller))
    } else {
        before_bounds(caller, letters)
    }
}

/// That of a return from an open call with so many rows.
pub(crate) fn back_step(
    alloc: Global,
    reading: &Reading,
    total: usize,
    call: OpenCall,
    caller: &[(Column, VarInfo)],
    callee: &[(Column, VarInfo)],
    helpers: u32,
    rows: usize,
    targets: &[u32],
) -> Result<Step, AllocError>
    requires { Take caller.now callee.now targets.now (result_columns callee.now) }
    ensures step { IfOk result (IsBackStep reading.now call caller.now callee.now helpers rows targets.now) }
    ensures fit { IfOk result (λ s. FitColumns total s.columns) }
{
    let target = sum(reading.letters, 1)?;
    let written = written(alloc, caller, targets)?;
    let columns = back_columns(alloc, call, caller, callee, helpers, &written, total)?;
    let sections = back_sections(alloc, call, caller, callee, rows, targets, &written)?;
    let sources = vec![in alloc; reading.letters, call.at]?;
    Ok(Step {
        sources,
        target,
        returns: false,
        columns,
        sections,
    })
}

/// Where the columns of a word stand that has so many, where these are written.
fn back_columns(
    alloc: Global,
    call: OpenCall,
    caller: &[(Column, VarInfo)],
    callee: &[(Column, VarInfo)],
    helpers: u32,
    written: &[u32],
    total: usize,
) -> Result<Columns, AllocError>
    ensures at { IfOk result (λ c. c.at ≡ length callee.now) }
    ensures first { IfOk result (λ c. c.first ≡ call.made) }
    ensures made { IfOk result (λ c. c.made.items ≡ made_by_call 0 (length callee.now + length caller.now + length written.now) helpers callee.now) }
    ensures fit { IfOk result (FitColumns total) }
{
    let helpers_at = callee.len() + caller.len() + written.len();
    let made = made_by_call(alloc, 0, helpers_at, helpers, callee)?;
    Columns::of(callee.len(), call.made, made, total)
}

/// Its rows, where it writes these columns.
fn back_sections(
    alloc: Global,
    call: OpenCall,
    caller: &[(Column, VarInfo)],
    callee: &[(Column, VarInfo)],
    rows: usize,
    targets: &[u32],
    written: &[u32],
) -> Result<Vec<Section>, AllocError>
    requires { Take caller.now callee.now targets.now (result_columns callee.now) }
    ensures roles { IfOk result (λ ss. (g : Graph) (w : List Letter) (t : Tree) (v : View) → roles_in g w t v ss.items ≡ claim_roles g w t v 0 (slice_get v.claims 0) ++ claim_roles g w t v 1 (slice_get v.claims 1) ++ map source_tie (constants_of callee.now) ++ map (λ o. source_tie o.0) (olds_of callee.now) ++ branch_rows call.rows rows ++ map target_tie (filter (λ c. not (is_listed targets.now c)) (variables_of caller.now)) ++ map (λ p. target_tie p.0) (taken targets.now (result_columns callee.now)) ++ claim_roles g w t v 2 (slice_get v.claims 2) ++ spares (bounds_in callee.now) ++ before_bounds (suc call.at) caller.now ++ spares (length (bounds 0 (types_at caller.now written.now)))) }
    ensures stand { IfOk result (λ ss. ClaimsStand ss.items (0 ∷ 1 ∷ 2 ∷ []) (back_counts caller.now callee.now targets.now rows)) }
{
    let mut sections = Vec::new(alloc);
    sections.push(Section::Claim(0))?;
    sections.push(Section::Claim(1))?;
    tie_back(alloc, &mut sections, call, caller, callee, rows, targets)?;
    sections.push(Section::Claim(2))?;
    add_back_bounds(&mut sections, call, caller, callee, written)?;
    Ok(sections)
}

/// Adds the rows of a return that tie its frames, with those of its call among them.
fn tie_back(
    alloc: Global,
    sections: &mut Vec<Section>,
    call: OpenCall,
    caller: &[(Column, VarInfo)],
    callee: &[(Column, VarInfo)],
    rows: usize,
    targets: &[u32],
) -> Result<(), AllocError>
    requires { Take caller.now callee.now targets.now (result_columns callee.now) }
    ensures { OnOk result (AddsRoles sections.old.items sections.new.items (map source_tie (constants_of callee.now) ++ map (λ o. source_tie o.0) (olds_of callee.now) ++ branch_rows call.rows rows ++ map target_tie (filter (λ c. not (is_listed targets.now c)) (variables_of caller.now)) ++ map (λ p. target_tie p.0) (taken targets.now (result_columns callee.now)))) }
{
    tie_constants(alloc, sections, callee)?;
    tie_olds(alloc, sections, callee)?;
    sections.push(Section::Rows {
        first: call.rows,
        count: rows,
    })?;
    tie_kept(alloc, sections, caller, targets)?;
    tie_results(sections, caller, callee, targets)
}

/// Adds the bounds of a return's frames, where it writes these columns.
fn add_back_bounds(
    sections: &mut Vec<Section>,
    call: OpenCall,
    caller: &[(Column, VarInfo)],
    callee: &[(Column, VarInfo)],
    written: &[u32],
) -> Result<(), AllocError>
    ensures { OnOk result (AddsRoles sections.old.items sections.new.items (spares (bounds_in callee.now) ++ before_bounds (suc call.at) caller.now ++ spares (length (bounds 0 (types_at caller.now written.now))))) }
{
    sections.push(Section::Spare(bounds_in(callee)))?;
    sections.push(before_bounds(caller, call.at))?;
    sections.push(Section::Spare(bounds_at(caller, written)))?;
    Ok(())
}

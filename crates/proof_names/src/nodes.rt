//! The nodes that lines name.

ghost use Rattle.std.specs.Prelude.{◌≡◌, ◌↔◌, map, IsTrue, IfOk, MatchOption, slice_get};
ghost use Rattle.std.specs.List.{AllByRecursion};
ghost use Rattle.std.specs.Option.{option_map};
ghost use Rattle.proof_form.specs.Lines as form;
ghost use Rattle.proof_names.specs.Numbers as numbers;
ghost use Rattle.proof_names.specs.Options.{all_some};
ghost use Rattle.proof_names.specs.Outlines.{OutlineNode, node};
ghost use Rattle.proof_names.specs.Naming.{IsPredOf, IsLineIn, IsEntryIn, MayBegin, NamesNode};

use crate::numbers::{index_in, short_in};
use crate::outlines::NamedNode;
use letter_acts::Icfg;
use proof_form::{NodeLine, Numeral};
use std::alloc::{AllocError, Global};
use triple_rows::Scoped;

/// Whether the number is that of a predicate of the procedure.
fn is_pred_of(preds: &[Scoped], proc: u32, number: usize) -> bool
    ensures { IsTrue result ↔ IsPredOf (slice_get preds.now) proc number }
{
    number < 2
        || match preds.get(number - 2) {
            Some(scoped) => scoped.proc == proc,
            None => false,
        }
}

/// The numbers of predicates, if all are numbers.
fn numbers_of(alloc: Global, numerals: &[Numeral]) -> Result<Option<Vec<usize>>, AllocError>
    ensures { IfOk result (λ o. option_map (λ v. v.items) o ≡ all_some (map numbers.index_in numerals.now)) }
{
    let mut numbers = Vec::with_capacity(alloc, numerals.len())?;
    for numeral in numerals {
        match index_in(numeral) {
            Some(number) => numbers.push(number)?,
            None => return Ok(None),
        }
    }
    Ok(Some(numbers))
}

/// Whether the line's place exists and belongs to the procedure.
fn is_line_in(icfg: &Icfg, proc: u32, line: &NodeLine) -> bool
    ensures { IsTrue result ↔ IsLineIn icfg.now proc (form.node line.now) }
{
    match short_in(&line.place) {
        Some(place) => match icfg.place_procs().get(place as usize) {
            Some(other) => *other == proc,
            None => false,
        },
        None => false,
    }
}

/// Whether the line with this number names itself as entry node, at a place of the procedure.
fn is_entry_in(icfg: &Icfg, proc: u32, lines: &[NodeLine], number: usize) -> bool
    ensures { IsTrue result ↔ IsEntryIn icfg.now proc (map form.node lines.now) number }
{
    match lines.get(number) {
        Some(line) => index_in(&line.entry) == Some(number) && is_line_in(icfg, proc, line),
        None => false,
    }
}

/// Whether it is place 0 or the entry place of the procedure.
fn may_begin(icfg: &Icfg, proc: u32, place: u32) -> bool
    ensures { IsTrue result ↔ MayBegin icfg.now proc place }
{
    place == 0
        || match icfg.entries().get(proc as usize) {
            Some(Some(entry)) => *entry == place,
            _ => false,
        }
}

/// Whether the numbers are those of predicates of the procedure.
fn are_preds_of(preds: &[Scoped], proc: u32, numbers: &[usize]) -> bool
    ensures { IsTrue result ↔ AllByRecursion (IsPredOf (slice_get preds.now) proc) numbers.now }
{
    numbers
        .iter()
        .all(|number| is_pred_of(preds, proc, *number))
}

/// Whether the entry node may be one, and the node, if it is its own entry node, may be one at its place.
fn is_entered(
    icfg: &Icfg,
    proc: u32,
    lines: &[NodeLine],
    number: usize,
    place: u32,
    entry: usize,
) -> bool
    ensures { IsTrue result ↔ (IsEntryIn icfg.now proc (map form.node lines.now) entry × (entry ≡ number → MayBegin icfg.now proc place)) }
{
    is_entry_in(icfg, proc, lines, entry) && (entry != number || may_begin(icfg, proc, place))
}

/// The node that a line names, which has this number among all lines.
pub(crate) fn node_named(
    alloc: Global,
    icfg: &Icfg,
    preds: &[Scoped],
    lines: &[NodeLine],
    number: usize,
    line: &NodeLine,
) -> Result<Option<NamedNode>, AllocError>
    ensures { IfOk result (λ o. MatchOption o
        ((x : OutlineNode) → NamesNode icfg.now (slice_get preds.now) (map form.node lines.now) number (form.node line.now) x → ⊥)
        (λ x. NamesNode icfg.now (slice_get preds.now) (map form.node lines.now) number (form.node line.now) (node x))) }
{
    let (Some(place), Some(entry)) = (short_in(&line.place), index_in(&line.entry)) else {
        return Ok(None);
    };
    let Some(&proc) = icfg.place_procs().get(place as usize) else {
        return Ok(None);
    };
    let Some(numbers) = numbers_of(alloc, &line.preds)? else {
        return Ok(None);
    };
    if are_preds_of(preds, proc, &numbers) && is_entered(icfg, proc, lines, number, place, entry) {
        Ok(Some(NamedNode {
            place,
            entry,
            preds: numbers,
        }))
    } else {
        Ok(None)
    }
}

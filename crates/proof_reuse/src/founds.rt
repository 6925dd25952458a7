//! The predicates that are found, each once, and their numbers.

ghost use Rattle.std.specs.Prelude.{◌≡◌, map, suc, IfOk, OnOk, IsTrue};
ghost use Rattle.std.specs.List.{list_all};
ghost use Rattle.proof_form.specs.Lines as form;
ghost use Rattle.proof_reuse.specs.Ties.Numbers.{AddsFound, AreFound, IsPut};

use crate::finding::pred_found;
use crate::limits::MOST_PREDICATES;
use itp_automaton::state_of;
use letter_acts::Icfg;
use proof_form::PredLine;
use std::alloc::{AllocError, Global};
use triple_rows::Scoped;

/// Predicates that are found, and for each line the number of what is found of it.
#[derive(Drop)]
pub(crate) struct Founds {
    /// The predicates, each once.
    pub(crate) preds: Vec<Scoped>,
    /// For each line k + 2 where what is found of it stands at place k, and `None` where nothing is found.
    pub(crate) numbers: Vec<Option<usize>>,
}

/// The place of the predicate, at the end where it was not among the others.
fn put(preds: &mut Vec<Scoped>, found: Scoped) -> Result<usize, AllocError>
    ensures { IfOk result (λ q. IsPut preds.old.items found q preds.new.items) }
{
    if let Some(place) = state_of(preds, &found) {
        return Ok(place);
    }
    let place = preds.len();
    if place >= MOST_PREDICATES {
        return Err(AllocError);
    }
    preds.push(found)?;
    Ok(place)
}

/// The number of the predicate at a place.
fn number_at(place: usize) -> Result<usize, AllocError>
    ensures { IfOk result (λ n. n ≡ suc (suc place)) }
{
    match place.checked_add(2) {
        Some(number) => Ok(number),
        None => Err(AllocError),
    }
}

/// Adds what is found of one more line.
fn add_line(founds: &mut Founds, found: Option<Scoped>) -> Result<(), AllocError>
    ensures { OnOk result (AddsFound founds.old.preds.items founds.old.numbers.items found founds.new.preds.items founds.new.numbers.items) }
{
    let Some(found) = found else {
        founds.numbers.push(None)?;
        return Ok(());
    };
    let place = put(&mut founds.preds, found)?;
    let number = number_at(place)?;
    founds.numbers.push(Some(number))?;
    Ok(())
}

/// The predicates that are found of these lines.
pub(crate) fn founds_of(
    alloc: Global,
    icfg: &Icfg,
    lines: &[PredLine],
) -> Result<Founds, AllocError>
    requires { IsTrue (list_all form.is_pred (map form.pred lines.now)) }
    ensures { IfOk result (λ f. AreFound icfg.now (map form.pred lines.now) f.preds.items f.numbers.items) }
{
    let mut founds = Founds {
        preds: Vec::new(alloc),
        numbers: Vec::new(alloc),
    };
    for line in lines {
        let found = pred_found(alloc, icfg, line)?;
        add_line(&mut founds, found)?;
    }
    Ok(founds)
}

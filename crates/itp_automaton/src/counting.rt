//! How many triples over the states there are: by that they are split into pieces of work.

use letter_acts::{Act, Icfg};
use std::alloc::{AllocError, Global};
use triple_rows::Scoped;

/// How many states each procedure has.
fn states_by_procedure(
    alloc: Global,
    icfg: &Icfg,
    states: &[Scoped],
) -> Result<Vec<usize>, AllocError> {
    let mut counts = Vec::with_capacity(alloc, icfg.frames().len())?;
    for _frame in icfg.frames() {
        counts.push(0usize)?;
    }
    for state in states {
        if let Some(count) = counts.get_mut(state.proc as usize) {
            *count = count.saturating_add(1);
        }
    }
    Ok(counts)
}

/// That number of a procedure.
fn count_in(counts: &[usize], proc: u32) -> usize {
    match counts.get(proc as usize) {
        Some(count) => *count,
        None => 0,
    }
}

/// How many triples there are by a letter with this act, at most.
fn triples_by(icfg: &Icfg, act: &Act, counts: &[usize]) -> usize {
    match act {
        Act::Inside { proc, .. } => {
            let count = count_in(counts, *proc);
            count.saturating_mul(count)
        }
        Act::Call { caller, callee, .. } => {
            count_in(counts, *caller).saturating_mul(count_in(counts, *callee))
        }
        Act::Back { call, .. } => match icfg.act(*call) {
            Some(Act::Call { caller, callee, .. }) => {
                let callers = count_in(counts, *caller);
                let exits = count_in(counts, *callee);
                exits.saturating_mul(callers).saturating_mul(callers)
            }
            _ => 0,
        },
    }
}

/// How many triples there are by all letters, at most; as many as can be counted where there are more.
pub(crate) fn count_triples(
    alloc: Global,
    icfg: &Icfg,
    states: &[Scoped],
) -> Result<usize, AllocError> {
    let counts = states_by_procedure(alloc, icfg, states)?;
    let mut all = 0usize;
    for act in icfg.acts() {
        all = all.saturating_add(triples_by(icfg, act, &counts));
    }
    Ok(all)
}

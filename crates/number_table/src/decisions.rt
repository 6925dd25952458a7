//! The calls of `fm_elim`, `simplex_rows`, `int_decide` and `late_refutations`.

ghost use Rattle.std.specs.Prelude.{◌+◌, ◌<◌, ◌^◌, IsTrue};
ghost use Rattle.lin_rows.specs.Rows.{RowsBelow};
ghost use Rattle.int_decide.specs.Sizes.{SystemBelow, extent};

use crate::calls::Call;
use crate::reading::small_number;
use crate::rows::are_below;
use crate::showing::{
    show_fractions, show_leaf, show_nodes, show_past, show_place, show_point, show_text,
};
use farkas_check::Refutation;
use fm_elim::{Elim, ElimFault, eliminate};
use int_decide::{Answer, DecideFault, decide, measure, plain};
use lin_rows::{Row, System};
use path_decide::late_refutations::late;
use simplex_rows::{Found, try_solve};

/// Shows the answer about the rows of a system.
pub(crate) fn show_of_rows(rt: &HostRuntime, rows: &[Row], call: &Call<'_>) {
    let columns = small_number(call.second);
    match call.function {
        "eliminate" => show_elimination(rt, rows, columns),
        _ => show_proposal(rt, rows, columns, small_number(call.third)),
    }
}

/// Whether all columns of the rows are below the number given.
fn all_below(rows: &[Row], columns: u32) -> bool
    ensures { IsTrue result → RowsBelow columns rows.now }
{
    for row in rows {
        if !are_below(row.terms(), columns as usize) {
            return false;
        }
    }
    true
}

fn show_elimination(rt: &HostRuntime, rows: &[Row], columns: u32) {
    if rows.len() > 1000 || !all_below(rows, columns) {
        return show_text(rt, "no call");
    }
    match &eliminate(rt.alloc(), rows, columns) {
        Ok(Elim::Refuted(parts)) => show_leaf(rt, parts),
        Ok(Elim::Point(values)) => show_fractions(rt, values),
        Err(ElimFault::Past) => show_past(rt),
        Err(ElimFault::Memory) => show_text(rt, "no memory"),
    }
}

fn show_proposal(rt: &HostRuntime, rows: &[Row], columns: u32, pivots: u32) {
    match &try_solve(rt.alloc(), rows, columns, pivots) {
        Ok(Some(Found::Refuted(parts))) => show_leaf(rt, parts),
        Ok(Some(Found::Point(values))) => show_fractions(rt, values),
        Ok(None) => show_text(rt, "none"),
        Err(_) => show_text(rt, "no memory"),
    }
}

/// Shows the answer about a system.
pub(crate) fn show_of(rt: &HostRuntime, system: &System, call: &Call<'_>) {
    let columns = small_number(call.second);
    match call.function {
        "measure" => show_measure(rt, system, columns),
        "plain_and_decide" => show_depths(rt, system, columns),
        _ => show_at(rt, system, columns, call),
    }
}

fn show_measure(rt: &HostRuntime, system: &System, columns: u32) {
    match measure(system, columns) {
        Some(size) => show_place(rt, "", size, ""),
        None => show_text(rt, "none"),
    }
}

/// Shows the answer at a depth.
fn show_at(rt: &HostRuntime, system: &System, columns: u32, call: &Call<'_>) {
    let depth = small_number(call.third);
    if !is_countable(system, columns, depth) {
        return show_text(rt, "no call");
    }
    match call.function {
        "plain" => show_decided(rt, &plain(rt.alloc(), system, columns, depth)),
        "decide" => show_decided(rt, &decide(rt.alloc(), system, columns, depth)),
        _ => show_late(rt, system, columns, depth),
    }
}

/// Whether the columns of a system are below the number given, and its rows and members, and the depth, can be counted.
fn is_countable(system: &System, columns: u32, depth: u32) -> bool
    ensures below { IsTrue result → SystemBelow columns system.now }
    ensures numbered { IsTrue result → extent system.now + depth < 2 ^ 32 }
{
    match measure(system, columns) {
        Some(size) => size.checked_add(depth).is_some(),
        None => false,
    }
}

/// The late refutation of a system that is refuted.
fn show_late(rt: &HostRuntime, system: &System, columns: u32, depth: u32)
    requires below { SystemBelow columns system.now }
    requires numbered { extent system.now + depth < 2 ^ 32 }
{
    match &decide(rt.alloc(), system, columns, depth) {
        Ok(Answer::Refuted(refutation)) => match late(
            rt.alloc(),
            system,
            columns,
            refutation,
            depth,
        ) {
            Ok(found) => show_nodes(rt, found.nodes()),
            Err(_) => show_text(rt, "no memory"),
        },
        other => show_decided(rt, other),
    }
}

/// Shows what `plain` answers at the depths 0, 1 and 2, and whether `decide` may answer as it does.
fn show_depths(rt: &HostRuntime, system: &System, columns: u32) {
    let mut agrees = true;
    for depth in 0..3 {
        agrees = show_both(rt, system, columns, depth) && agrees;
        show_text(rt, " | ");
    }
    show_text(rt, if agrees { "agrees" } else { "differs" });
}

/// Shows what `plain` answers, and says whether `decide` may answer as it does.
fn show_both(rt: &HostRuntime, system: &System, columns: u32, depth: u32) -> bool {
    if !is_countable(system, columns, depth) {
        return false;
    }
    let own = plain(rt.alloc(), system, columns, depth);
    show_decided(rt, &own);
    may_answer(&own, &decide(rt.alloc(), system, columns, depth))
}

fn show_decided(rt: &HostRuntime, decided: &Result<Answer, DecideFault>) {
    match decided {
        Ok(Answer::Whole(values)) => show_point(rt, values),
        Ok(Answer::Refuted(refutation)) => show_nodes(rt, refutation.nodes()),
        Err(DecideFault::Gap) => show_text(rt, "gap"),
        Err(DecideFault::Past) => show_past(rt),
        Err(DecideFault::Memory) => show_text(rt, "no memory"),
    }
}

/// Whether `decide` may answer so where this is the answer of `plain`: it may refute by another tree, refute by other cuts where `plain` has a gap, and answer
/// without the numbers that do not fit.
fn may_answer(own: &Result<Answer, DecideFault>, other: &Result<Answer, DecideFault>) -> bool {
    match (own, other) {
        (Ok(Answer::Whole(values)), Ok(Answer::Whole(others))) => values == others,
        (Ok(Answer::Refuted(_)), Ok(Answer::Refuted(_))) => true,
        (Err(DecideFault::Gap), Ok(Answer::Refuted(_)) | Err(DecideFault::Gap)) => true,
        (Err(DecideFault::Past), _) => true,
        _ => false,
    }
}

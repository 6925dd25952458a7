//! The entry with which a race begins.

ghost use Rattle.std.specs.Prelude.{◌≡◌, ◌≤◌, IfSome, OnOk};
ghost use Rattle.nwa_base.specs.Acceptance.{Accepts};
ghost use Rattle.race_rounds.specs.Rounds.{automaton_in};
ghost use Rattle.version_cell.specs.Passes.{IsPassOf, newcomer};
ghost use Rattle.race_workers.specs.Ties.Parts.{opened_with};

use crate::offering::kept_behind;
use itp_automaton::Certified;
use letter_acts::Icfg;
use race_core::Entry;
use std::alloc::{AllocError, Global};
use std::sync::Wait;
use version_cell::{Pass, VersionCell};

/// Publishes the entry that is given, where one is, by the first pass of a cell, so that the history begins with it.
pub(crate) fn begin<R: Wait>(
    rt: &R,
    alloc: Global,
    icfg: &Icfg,
    cell: &VersionCell<Certified>,
    pass: &mut Pass<Certified>,
    first: Option<Entry<Certified>>,
) -> Result<(), AllocError>
    requires cell { (cell.now.program ≡ icfg.now.automaton) × (1 ≤ cell.now.limit) }
    requires pass { (pass.old ≡ newcomer cell.now) × IsPassOf cell.now pass.old }
    requires given { IfSome first (λ e. Accepts icfg.now.automaton e.word × Accepts (automaton_in e.evidence) e.word) }
    ensures pass { OnOk result (pass.new ≡ opened_with first pass.old) }
    ensures of_cell { OnOk result (IsPassOf cell.now pass.new) }
{
    let Some(entry) = first else {
        return Ok(());
    };
    let Ok(kept) = kept_behind(alloc, icfg.nwa(), &entry) else {
        drop(entry);
        return Err(AllocError);
    };
    match cell.publish(rt, pass, 0, entry, kept) {
        Ok(_) => Ok(()),
        // The pass has all shares, so no other has set an end or added an entry.
        Err(_) => unreachable!(),
    }
}

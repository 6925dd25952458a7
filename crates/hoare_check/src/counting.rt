//! How many columns the system of a triple has.

ghost use Rattle.std.specs.Prelude.{◌+◌, Some, length};
ghost use Rattle.letter_acts.specs.Acts.{plain_act};
ghost use Rattle.letter_acts.specs.Invariant.{alphabet_of, written_by};
ghost use Rattle.hoare_check.specs.Ties.Counts.{IsCount};
ghost use Rattle.triple_rows.specs.Cuts.{inside_columns, call_columns, back_columns, columns_of};
ghost use Rattle.letter_acts.specs.Widths.{back_width};

use boogie_tree::{Column, VarInfo};
use letter_acts::{Act, Icfg, count_local_targets, count_variables};
use triple_rows::Triple;

/// The sum, where it has 32 bits.
pub(crate) fn plus(count: u32, more: usize) -> Option<u32>
    ensures { IsCount (count + more) result }
{
    count.checked_add(u32::try_from(more).ok()?)
}

fn inside_columns(icfg: &Icfg, act: &Act) -> Option<u32>
    ensures { IsCount (inside_columns (alphabet_of icfg.now) (Some (plain_act act.now))) result }
{
    match act {
        Act::Inside {
            proc,
            written,
            helpers,
            ..
        } => {
            let frame = plus(0, icfg.columns(*proc).len())?;
            plus(frame, written.len())?.checked_add(*helpers)
        }
        Act::Call { .. } | Act::Back { .. } => Some(0),
    }
}

fn call_columns(icfg: &Icfg, act: &Act) -> Option<u32>
    ensures { IsCount (call_columns (alphabet_of icfg.now) (Some (plain_act act.now))) result }
{
    match act {
        Act::Call {
            caller,
            callee,
            helpers,
            ..
        } => {
            let frame = plus(0, icfg.columns(*caller).len())?;
            plus(frame, icfg.columns(*callee).len())?.checked_add(*helpers)
        }
        Act::Inside { .. } | Act::Back { .. } => Some(0),
    }
}

/// The columns that a return with these targets writes.
#[tactic(auto, using(crate::proofs::CountLaws::written_counted))]
fn written(frame: &[(Column, VarInfo)], targets: &[u32]) -> Option<u32>
    ensures { IsCount (length (written_by frame.now targets.now)) result }
{
    let globals = plus(0, count_variables(frame))?;
    plus(globals, count_local_targets(frame, targets))
}

/// Of a return with these targets from a call with this act.
fn back_width(icfg: &Icfg, targets: &[u32], act: &Act) -> Option<u32>
    ensures { IsCount (back_width (alphabet_of icfg.now) targets.now (Some (plain_act act.now))) result }
{
    match act {
        Act::Call {
            caller,
            callee,
            helpers,
            ..
        } => {
            let before = icfg.columns(*caller);
            let frame = plus(0, icfg.columns(*callee).len())?;
            let frames = plus(frame, before.len())?;
            let columns = frames.checked_add(written(before, targets)?)?;
            columns.checked_add(*helpers)
        }
        Act::Inside { .. } | Act::Back { .. } => Some(0),
    }
}

fn back_columns(icfg: &Icfg, act: &Act) -> Option<u32>
    ensures { IsCount (back_columns (alphabet_of icfg.now) (Some (plain_act act.now))) result }
{
    match act {
        Act::Back { call, targets } => match icfg.act(*call) {
            Some(called) => back_width(icfg, targets, called),
            None => Some(0),
        },
        Act::Inside { .. } | Act::Call { .. } => Some(0),
    }
}

/// The columns of the system of a triple, where their number has 32 bits.
pub(crate) fn columns_of(icfg: &Icfg, triple: &Triple) -> Option<u32>
    ensures { IsCount (columns_of (alphabet_of icfg.now) triple.now) result }
{
    let letter = match triple {
        Triple::Inside { letter, .. } | Triple::Call { letter, .. } | Triple::Back { letter, .. } =>
            *letter,
    };
    let Some(act) = icfg.act(letter) else {
        return Some(0);
    };
    match triple {
        Triple::Inside { .. } => inside_columns(icfg, act),
        Triple::Call { .. } => call_columns(icfg, act),
        Triple::Back { .. } => back_columns(icfg, act),
    }
}

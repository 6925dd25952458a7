//! The caller's sum at a call, by the columns of the callee's frame.

ghost use Rattle.std.specs.Prelude.{◌≡◌, ◌<◌, ◌-ℤ◌, [], Err, IsSome, IfOk, OnOk, length, reverse};
ghost use Rattle.letter_acts.specs.Acts.{act_of, frame_of};
ghost use Rattle.letter_acts.specs.Invariant.{alphabet_of};
ghost use Rattle.std.specs.List.{AllByRecursion};
ghost use Rattle.math_facts.specs.Fits.{Fits};
ghost use Rattle.nested_itp.specs.NestedPredicates.Wides.{value_of, HasRoom};
ghost use Rattle.nested_itp.specs.NestedPredicates.Positions.{known_at, known_columns, callee_of};
ghost use Rattle.nested_itp.specs.NestedPredicates.Sums.{terms_from, inequality};
ghost use Rattle.nested_itp.specs.NestedPredicates.Runnings.{AreCounted, differences};
ghost use Rattle.nested_itp.specs.NestedPredicates.Bases.{known_value, AreMade, CanRead, IsTaken, IsNothing, IsEntered, Enters, first_columns, first_bound, node_of};

use crate::nested_predicates::faults::ItpFault;
use crate::nested_predicates::running::Running;
use crate::nested_predicates::spots::callee_of;
use crate::nested_predicates::sums::sum;
use crate::nested_predicates::wide::Wide;
use boogie_tree::{Column, VarInfo};
use letter_acts::Icfg;
use lin_rows::Col;
use nwa_base::{Kind, Letter};
use std::alloc::{AllocError, Global};
use triple_rows::PredNode;

/// What the caller's sum at a call has at each column of the callee, and its bound; nothing where the call does not return.
#[derive(Drop)]
pub(crate) struct Base {
    pub(crate) columns: Vec<Wide>,
    pub(crate) bound: Wide,
}

impl Base {
    /// Of a frame whose call does not return.
    pub(crate) fn nothing(alloc: Global) -> Base
        ensures { IsNothing result }
    {
        Base {
            columns: Vec::new(alloc),
            bound: Wide::zero(),
        }
    }

    /// Of a callee that is entered with these versions from a caller with those before, by a call that returns or does not.
    fn entered(
        alloc: Global,
        running: &Running,
        callee: &[(Column, VarInfo)],
        returns: bool,
        entry: &[Col],
        before: &[Col],
    ) -> Result<Base, AllocError>
        requires counted { AreCounted running.now }
        requires entry { AreMade running.now.columns.items entry.now }
        requires before { AreMade running.now.columns.items before.now }
        ensures { IfOk result (IsEntered returns (known_columns callee.now entry.now before.now) running.now) }
    {
        if returns {
            Base::taken(alloc, running, callee, entry, before)
        } else {
            Ok(Base::nothing(alloc))
        }
    }

    /// Of a callee that is entered with these versions from a caller with those before.
    pub(crate) fn taken(
        alloc: Global,
        running: &Running,
        callee: &[(Column, VarInfo)],
        entry: &[Col],
        before: &[Col],
    ) -> Result<Base, AllocError>
        requires counted { AreCounted running.now }
        requires entry { AreMade running.now.columns.items entry.now }
        requires before { AreMade running.now.columns.items before.now }
        ensures { IfOk result (IsTaken (known_columns callee.now entry.now before.now) running.now) }
    {
        let mut columns = Vec::with_capacity(alloc, callee.len())?;
        for j in 0..callee.len() {
            if j >= entry.len() {
                break;
            }
            columns.push(known_number(running, &callee[j], entry[j], before))?;
        }
        Ok(Base {
            columns,
            bound: running.bound,
        })
    }
}

/// The number of the version by which the caller's sum speaks of a column that is entered with this version, 0 where it does
/// not.
fn known_number(running: &Running, column: &(Column, VarInfo), version: Col, before: &[Col]) -> Wide
    requires counted { AreCounted running.now }
    requires version { version < length running.now.columns.items }
    requires before { AreMade running.now.columns.items before.now }
    ensures value { value_of result ≡ known_value running.now.columns.items (known_at column.now.0 column.now.1.constant version before.now) }
    ensures room { HasRoom result }
{
    match known_version(column, version, before) {
        Some(known) => running.columns[known as usize],
        None => Wide::zero(),
    }
}

/// That version.
fn known_version(column: &(Column, VarInfo), version: Col, before: &[Col]) -> Option<Col>
    ensures { result ≡ known_at column.now.0 column.now.1.constant version before.now }
{
    match column.0 {
        Column::Old(global) => before.get(global as usize).copied(),
        Column::Global(_) | Column::Local(_) => if column.1.constant {
            Some(version)
        } else {
            None
        },
    }
}

/// Goes on by a letter, with these versions before and after it.
pub(crate) fn enter(
    alloc: Global,
    icfg: &Icfg,
    frames: &mut Vec<Base>,
    running: &Running,
    letter: Letter,
    returns: bool,
    before: &[Col],
    entry: &[Col],
) -> Result<(), AllocError>
    requires letter { IsSome (act_of (alphabet_of icfg.now) letter) }
    requires counted { AreCounted running.now }
    requires entry { AreMade running.now.columns.items entry.now }
    requires before { AreMade running.now.columns.items before.now }
    requires frames { AllByRecursion CanRead frames.old.items }
    ensures value { OnOk result (Enters letter.kind returns (known_columns (frame_of (alphabet_of icfg.now) (callee_of (act_of (alphabet_of icfg.now) letter))) entry.now before.now) running.now (reverse frames.old.items) (reverse frames.new.items)) }
    ensures frames { OnOk result (AllByRecursion CanRead frames.new.items) }
{
    match letter.kind {
        Kind::Inside => {}
        Kind::Call => {
            let callee = icfg.columns(callee_of(icfg, letter));
            let base = Base::entered(alloc, running, callee, returns, entry, before)?;
            frames.push(base)?;
        }
        Kind::Back => {
            let _ = frames.pop();
        }
    }
    Ok(())
}

/// The sum over the columns of a frame with these versions, less what the innermost open frame's caller had.
pub(crate) fn sum_in(
    alloc: Global,
    running: &Running,
    here: &[Col],
    frames: &[Base],
) -> Result<PredNode, ItpFault>
    requires counted { AreCounted running.now }
    requires frames { AllByRecursion CanRead frames.now }
    requires here { AreMade running.now.columns.items here.now }
    ensures value { IfOk result (λ n. n ≡ node_of (inequality (terms_from 0 (differences running.now.columns.items (first_columns (reverse frames.now)) here.now)) (value_of running.now.bound -ℤ first_bound (reverse frames.now)))) }
    ensures past { result ≡ Err ItpFault.Past → AllByRecursion Fits (differences running.now.columns.items (first_columns (reverse frames.now)) here.now) → Fits (value_of running.now.bound -ℤ first_bound (reverse frames.now)) → ⊥ }
{
    if here.len() > u32::MAX as usize {
        return Err(ItpFault::Memory);
    }
    match frames.last() {
        Some(base) => sum(alloc, running, here, &base.columns, base.bound),
        None => sum(alloc, running, here, &[], Wide::zero()),
    }
}

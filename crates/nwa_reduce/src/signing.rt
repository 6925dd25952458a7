//! Signatures of states: the numbers of their marks, in order and each once.

ghost use Rattle.std.specs.Prelude.{◌≡◌, IfOk};
ghost use Rattle.nwa_base.specs.Members.{SameMembers};
ghost use Rattle.nwa_reduce.specs.Ties.Marks.{IsNumbered, Ascends, leader_in, backs_before};
ghost use Rattle.nwa_reduce.specs.Ties.Signatures.{Signs};

use crate::marking::{Mark, marks_of};
use indexmap::IndexSet;
use nwa_base::{Letter, Nwa};
use std::alloc::{AllocError, Global};

/// The signature of a state. `returns` are the return edges that name it as the state before the call.
pub fn sign(
    alloc: Global,
    nwa: &Nwa,
    returns: &[(u32, u32, Letter, u32)],
    table: &mut IndexSet<Mark>,
    leaders: &[u32],
    state: u32,
) -> Result<Vec<usize>, AllocError>
    requires { returns.now ≡ backs_before state nwa.now.backs }
    ensures { IfOk result (λ v. Signs nwa.now (leader_in leaders.now) state table.old.keys table.new.keys v.items) }
{
    let marks = marks_of(alloc, nwa, returns, leaders, state)?;
    let numbers = numbered(alloc, table, marks.as_slice())?;
    Ok(in_order(numbers))
}

/// The numbers of the marks. New marks get the next numbers of the table.
fn numbered(
    alloc: Global,
    table: &mut IndexSet<Mark>,
    marks: &[Mark],
) -> Result<Vec<usize>, AllocError>
    ensures { IfOk result (λ v. IsNumbered table.old.keys table.new.keys marks.now v.items) }
{
    let mut numbers = Vec::new(alloc);
    for &mark in marks {
        let (number, _) = table.insert_full(mark)?;
        numbers.push(number)?;
    }
    Ok(numbers)
}

/// The numbers in order, each once.
fn in_order(mut numbers: Vec<usize>) -> Vec<usize>
    ensures same { SameMembers numbers.items result.items }
    ensures ascends { Ascends result.items }
{
    numbers.sort_unstable();
    numbers.dedup();
    numbers
}

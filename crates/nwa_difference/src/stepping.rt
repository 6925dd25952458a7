//! Where a search over the product goes on from a pair. The edges of the product are made as the search needs them.

ghost use Rattle.std.specs.Prelude.{◌<◌, ◌≡◌, Some, OnOk, length};
ghost use Rattle.nwa_base.specs.Members.{Member};
ghost use Rattle.nwa_difference.specs.Ties.Stages.{IsStage, Goes, InsidesFollowed, CallsFollowed, BacksFollowed, ExitsFollowed, CallersFollowed, CallDone, CallsDone, ReturnsDone, ExitDone, Expanded};
ghost use Rattle.nwa_difference.specs.Ties.Seen.{seen, found, stage};

use crate::opening::{make_backs, make_forward};
use crate::pairs::Pairs;
use crate::product::Product;
use std::alloc::{AllocError, Global};

/// Goes on from a pair, along inside letters, calls and returns.
pub fn expand(
    alloc: Global,
    product: &mut Product,
    pairs: &mut Pairs,
    entry: Option<u32>,
    state: u32,
) -> Result<(), AllocError>
    requires stage { IsStage (stage product.old pairs.old) }
    requires pair { Member (found pairs.old).pairs (entry, state) }
    ensures { OnOk result (Expanded (stage product.old pairs.old) (stage product.new pairs.new) entry state) }
{
    open_state(product, pairs, state)?;
    pairs.note_caller(entry, state)?;
    step_inside(product, pairs, entry, state)?;
    step_calls(alloc, product, pairs, entry, state)?;
    match entry {
        Some(inner) => {
            leave_call(alloc, product, pairs, inner, state)?;
            Ok(())
        }
        None => Ok(()),
    }
}

/// Makes the inside letters and calls of a state, unless they are made.
fn open_state(product: &mut Product, pairs: &mut Pairs, state: u32) -> Result<(), AllocError>
    requires stage { IsStage (stage product.old pairs.old) }
    requires within { state < length (seen product.old).states }
    ensures { OnOk result (Goes (stage product.old pairs.old) (stage product.new pairs.new) × Member (found pairs.new).opened state) }
{
    if pairs.note_opened(state)? {
        make_forward(product, state)?;
    }
    Ok(())
}

/// Goes on along the inside letters from a pair.
fn step_inside(
    product: &Product,
    pairs: &mut Pairs,
    entry: Option<u32>,
    state: u32,
) -> Result<(), AllocError>
    requires stage { IsStage (stage product.now pairs.old) }
    requires opened { Member (found pairs.old).opened state }
    ensures { OnOk result (Goes (stage product.now pairs.old) (stage product.now pairs.new) × InsidesFollowed (stage product.now pairs.new) entry state) }
{
    for &(_, _, end) in product.nwa().insides_leaving(state) {
        pairs.add(entry, end)?;
    }
    Ok(())
}

/// Goes on along the calls from a pair, and from the exits inside these calls.
fn step_calls(
    alloc: Global,
    product: &mut Product,
    pairs: &mut Pairs,
    entry: Option<u32>,
    state: u32,
) -> Result<(), AllocError>
    requires stage { IsStage (stage product.old pairs.old) }
    requires opened { Member (found pairs.old).opened state }
    ensures { OnOk result (CallsDone (stage product.old pairs.old) (stage product.new pairs.new) entry state) }
{
    let calls = Vec::from_slice(alloc, product.nwa().calls_leaving(state))?;
    for &(_, _, inner) in calls.as_slice() {
        step_call(product, pairs, entry, state, inner)?;
    }
    Ok(())
}

/// Goes on along a call from a pair, and from the exits inside this call.
fn step_call(
    product: &mut Product,
    pairs: &mut Pairs,
    entry: Option<u32>,
    state: u32,
    inner: u32,
) -> Result<(), AllocError>
    requires stage { IsStage (stage product.old pairs.old) }
    requires within { state < length (seen product.old).states }
    requires inner { inner < length (seen product.old).states }
    ensures { OnOk result (CallDone (stage product.old pairs.old) (stage product.new pairs.new) entry state inner) }
{
    pairs.add(Some(inner), inner)?;
    join_exits(product, pairs, entry, state, inner)?;
    Ok(())
}

/// Goes on along the returns from the exits inside a call, to the pair from which the call is made.
fn join_exits(
    product: &mut Product,
    pairs: &mut Pairs,
    entry: Option<u32>,
    state: u32,
    inner: u32,
) -> Result<(), AllocError>
    requires stage { IsStage (stage product.old pairs.old) }
    requires within { state < length (seen product.old).states }
    ensures { OnOk result (Goes (stage product.old pairs.old) (stage product.new pairs.new) × ExitsFollowed (stage product.old pairs.old) (stage product.new pairs.new) entry state inner) }
{
    let exits = pairs.exits(inner)?;
    for &exit in exits.as_slice() {
        join(product, pairs, entry, state, exit)?;
    }
    Ok(())
}

/// Goes on along the returns from a pair inside a call, where there are any, and notes it as an exit.
fn leave_call(
    alloc: Global,
    product: &mut Product,
    pairs: &mut Pairs,
    inner: u32,
    state: u32,
) -> Result<(), AllocError>
    requires stage { IsStage (stage product.old pairs.old) }
    requires within { state < length (seen product.old).states }
    ensures { OnOk result (ExitDone (stage product.old pairs.old) (stage product.new pairs.new) inner state) }
{
    if product.returns(state) {
        pairs.note_exit(inner, state)?;
        step_returns(alloc, product, pairs, inner, state)?;
    }
    Ok(())
}

/// Goes on along the returns from a pair inside a call, to each pair from which the call is made.
fn step_returns(
    alloc: Global,
    product: &mut Product,
    pairs: &mut Pairs,
    inner: u32,
    state: u32,
) -> Result<(), AllocError>
    requires stage { IsStage (stage product.old pairs.old) }
    requires within { state < length (seen product.old).states }
    ensures { OnOk result (ReturnsDone (stage product.old pairs.old) (stage product.new pairs.new) inner state) }
{
    let calls = Vec::from_slice(alloc, product.nwa().calls_entering(inner))?;
    for &(before, _, _) in calls.as_slice() {
        join_callers(product, pairs, before, state)?;
    }
    Ok(())
}

/// Goes on along the returns from a pair inside a call, to each pair of the state from which the call is made.
fn join_callers(
    product: &mut Product,
    pairs: &mut Pairs,
    before: u32,
    state: u32,
) -> Result<(), AllocError>
    requires stage { IsStage (stage product.old pairs.old) }
    requires within { state < length (seen product.old).states }
    ensures { OnOk result (Goes (stage product.old pairs.old) (stage product.new pairs.new) × CallersFollowed (stage product.old pairs.old) (stage product.new pairs.new) before state) }
{
    let entries = pairs.callers(before)?;
    for &entry in entries.as_slice() {
        join(product, pairs, entry, before, state)?;
    }
    Ok(())
}

/// Goes on along the returns from a state inside a call, to the pair from which the call is made.
fn join(
    product: &mut Product,
    pairs: &mut Pairs,
    entry: Option<u32>,
    before: u32,
    exit: u32,
) -> Result<(), AllocError>
    requires stage { IsStage (stage product.old pairs.old) }
    requires before { before < length (seen product.old).states }
    requires exit { exit < length (seen product.old).states }
    ensures { OnOk result (Goes (stage product.old pairs.old) (stage product.new pairs.new) × BacksFollowed (stage product.new pairs.new) entry before exit) }
{
    open_return(product, pairs, before, exit)?;
    step_back(product, pairs, entry, before, exit)?;
    Ok(())
}

/// Makes the returns of a state to a state before its call, unless they are made.
fn open_return(
    product: &mut Product,
    pairs: &mut Pairs,
    before: u32,
    exit: u32,
) -> Result<(), AllocError>
    requires stage { IsStage (stage product.old pairs.old) }
    requires before { before < length (seen product.old).states }
    requires exit { exit < length (seen product.old).states }
    ensures { OnOk result (Goes (stage product.old pairs.old) (stage product.new pairs.new) × Member (found pairs.new).joined (exit, before)) }
{
    if pairs.note_joined(exit, before)? {
        make_backs(product, exit, before)?;
    }
    Ok(())
}

/// Goes on along the returns that are made.
fn step_back(
    product: &Product,
    pairs: &mut Pairs,
    entry: Option<u32>,
    before: u32,
    exit: u32,
) -> Result<(), AllocError>
    requires stage { IsStage (stage product.now pairs.old) }
    requires joined { Member (found pairs.old).joined (exit, before) }
    ensures { OnOk result (Goes (stage product.now pairs.old) (stage product.now pairs.new) × BacksFollowed (stage product.now pairs.new) entry before exit) }
{
    for &(_, _, _, end) in product.nwa().backs_between(exit, before) {
        pairs.add(entry, end)?;
    }
    Ok(())
}

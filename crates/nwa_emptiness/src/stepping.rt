//! Where a search goes on from a pair. A call is searched once for each state that it enters, wherever it is made.

ghost use Rattle.std.specs.Prelude.{◌≡◌, Some, slice_get, OnOk};
ghost use Rattle.nwa_base.specs.Members.{Member};
ghost use Rattle.nwa_emptiness.specs.Ties.Search.{IsSearch, IsPoint, Keeps};
ghost use Rattle.nwa_emptiness.specs.Ties.Seen.{seen};
ghost use Rattle.nwa_emptiness.specs.Ties.Steps.{IsCalled, IsInside, IsCalledFrom, IsJoint, Joined, InsideDone, CallsDone, ExitsJoined, CallersJoined, ReturnsDone, Expanded};

use crate::search::{Link, Point, Search, Way};
use nwa_base::Letter;
use std::alloc::AllocError;

/// Goes on from a pair, along calls first or along inside letters first.
pub fn expand(search: &mut Search, point: Point, calls_first: bool) -> Result<(), AllocError>
    requires search { IsSearch (seen search.old) }
    requires point { IsPoint (seen search.old) point }
    ensures { OnOk result (Expanded (seen search.old) (seen search.new) point) }
{
    step_forward(search, point, calls_first)?;
    match point.entry {
        Some(entry) => step_returns(search, point.place, entry),
        None => Ok(()),
    }
}

/// Goes on along inside letters and calls.
fn step_forward(search: &mut Search, point: Point, calls_first: bool) -> Result<(), AllocError>
    requires search { IsSearch (seen search.old) }
    requires point { IsPoint (seen search.old) point }
    ensures { OnOk result (Keeps (seen search.old) (seen search.new) × InsideDone (seen search.old) (seen search.new) point × CallsDone (seen search.old) (seen search.new) point) }
{
    if calls_first {
        step_calls(search, point)?;
        step_inside(search, point)
    } else {
        step_inside(search, point)?;
        step_calls(search, point)
    }
}

/// Goes on along the inside letters from a pair.
fn step_inside(search: &mut Search, point: Point) -> Result<(), AllocError>
    requires search { IsSearch (seen search.old) }
    requires point { IsPoint (seen search.old) point }
    ensures { OnOk result (Keeps (seen search.old) (seen search.new) × InsideDone (seen search.old) (seen search.new) point) }
{
    for &(_, letter, end) in search.nwa().insides_leaving(point.state) {
        let way = Way {
            link: Link::Inside(point.place, letter),
            caller: point.caller,
        };
        search.add(point.entry, end, way)?;
    }
    Ok(())
}

/// Goes on along the calls from a pair, and from the pairs that were found inside these calls.
fn step_calls(search: &mut Search, point: Point) -> Result<(), AllocError>
    requires search { IsSearch (seen search.old) }
    requires point { IsPoint (seen search.old) point }
    ensures { OnOk result (Keeps (seen search.old) (seen search.new) × CallsDone (seen search.old) (seen search.new) point) }
{
    for &(_, call, entry) in search.nwa().calls_leaving(point.state) {
        step_call(search, point.place, call, entry)?;
    }
    Ok(())
}

/// Goes on along a call from a pair, and from the pairs that were found inside this call.
fn step_call(search: &mut Search, outer: usize, call: Letter, entry: u32) -> Result<(), AllocError>
    requires search { IsSearch (seen search.old) }
    requires caller { IsCalled (seen search.old) outer call entry }
    ensures { OnOk result (Keeps (seen search.old) (seen search.new) × Member (seen search.new).pairs (Some entry, entry) × ExitsJoined (seen search.old) (seen search.new) outer entry) }
{
    let way = Way {
        link: Link::Call,
        caller: Some((outer, call)),
    };
    search.add(Some(entry), entry, way)?;
    join_exits(search, outer, call, entry)
}

/// Goes on along the returns from the pairs inside a call, to the pair from which the call is made.
fn join_exits(search: &mut Search, outer: usize, call: Letter, entry: u32) -> Result<(), AllocError>
    requires search { IsSearch (seen search.old) }
    requires caller { IsCalled (seen search.old) outer call entry }
    ensures { OnOk result (Keeps (seen search.old) (seen search.new) × ExitsJoined (seen search.old) (seen search.new) outer entry) }
{
    let exits = search.places_inside(entry)?;
    for &exit in exits.as_slice() {
        join(search, outer, call, exit)?;
    }
    Ok(())
}

/// Goes on along the returns from a pair inside a call, to each pair from which the call was made.
fn step_returns(search: &mut Search, exit: usize, entry: u32) -> Result<(), AllocError>
    requires search { IsSearch (seen search.old) }
    requires exit { IsInside (seen search.old) exit entry }
    ensures { OnOk result (Keeps (seen search.old) (seen search.new) × ReturnsDone (seen search.old) (seen search.new) exit entry) }
{
    for &(before, call, _) in search.nwa().calls_entering(entry) {
        join_callers(search, before, call, exit)?;
    }
    Ok(())
}

/// Goes on along the returns from a pair inside a call, to each pair of the state from which the call is made.
fn join_callers(
    search: &mut Search,
    before: u32,
    call: Letter,
    exit: usize,
) -> Result<(), AllocError>
    requires search { IsSearch (seen search.old) }
    requires exit { IsCalledFrom (seen search.old) before call exit }
    ensures { OnOk result (Keeps (seen search.old) (seen search.new) × CallersJoined (seen search.old) (seen search.new) before exit) }
{
    let callers = search.places_at(before)?;
    for &outer in callers.as_slice() {
        join(search, outer, call, exit)?;
    }
    Ok(())
}

/// Goes on along the returns from the pair at a place inside a call, to the pair from which the call is made.
fn join(search: &mut Search, outer: usize, call: Letter, exit: usize) -> Result<(), AllocError>
    requires search { IsSearch (seen search.old) }
    requires call { IsJoint (seen search.old) outer call exit }
    ensures { OnOk result (Keeps (seen search.old) (seen search.new) × Joined (seen search.old) (seen search.new) outer exit) }
{
    let (Some(outer), Some(exit)) = (search.point(outer), search.point(exit)) else {
        return Ok(());
    };
    follow_returns(search, outer, call, exit)
}

/// Goes on along the returns from a pair inside a call, to the pair from which the call is made.
fn follow_returns(
    search: &mut Search,
    outer: Point,
    call: Letter,
    exit: Point,
) -> Result<(), AllocError>
    requires search { IsSearch (seen search.old) }
    requires outer { IsPoint (seen search.old) outer }
    requires exit { IsPoint (seen search.old) exit }
    requires call { IsJoint (seen search.old) outer.place call exit.place }
    ensures { OnOk result (Keeps (seen search.old) (seen search.new) × Joined (seen search.old) (seen search.new) outer.place exit.place) }
{
    for &(_, _, letter, end) in search.nwa().backs_between(exit.state, outer.state) {
        let way = Way {
            link: Link::Back(outer.place, call, exit.place, letter),
            caller: outer.caller,
        };
        search.add(outer.entry, end, way)?;
    }
    Ok(())
}

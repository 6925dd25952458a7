//! The parameters and results of procedures, which are their first locals.

ghost use Rattle.std.specs.Prelude.{◌≡◌, ◌+◌, take, drop};

use crate::types::TProc;
use boogie_tree::VarInfo;

/// The parameters of a procedure.
pub fn params(called: &TProc) -> &[VarInfo]
    ensures { result.now ≡ take called.now.params called.now.locals.items }
{
    front(&called.locals, called.params as usize)
}

/// The results of a procedure.
pub fn results(called: &TProc) -> &[VarInfo]
    ensures { result.now ≡ take called.now.results (drop called.now.params called.now.locals.items) }
{
    front(behind_params(called), called.results as usize)
}

/// The locals of a procedure behind its parameters.
pub fn behind_params(called: &TProc) -> &[VarInfo]
    ensures { result.now ≡ drop called.now.params called.now.locals.items }
{
    let count = called.params as usize;
    if count < called.locals.len() {
        &called.locals[count..]
    } else {
        &[]
    }
}

/// The parameters of a procedure, and its results behind them.
pub fn signature(called: &TProc) -> &[VarInfo]
    ensures { result.now ≡ take (called.now.params + called.now.results) called.now.locals.items }
{
    front(
        &called.locals,
        called.params as usize + called.results as usize,
    )
}

/// The first ones, so many at most.
fn front(all: &[VarInfo], count: usize) -> &[VarInfo]
    ensures { result.now ≡ take count all.now }
{
    if count < all.len() {
        &all[..count]
    } else {
        all
    }
}

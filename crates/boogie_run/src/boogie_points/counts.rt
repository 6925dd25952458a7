//! How many assertions and points statements have.

ghost use Rattle.std.specs.Prelude.{◌≡◌, ◌<◌, ◌^◌, ◌∷◌, [], map, take, length, slice_get};
ghost use Rattle.typed_tree.specs.TypedView as view;
ghost use Rattle.typed_tree.specs.TypingRules.Counts as spec;
ghost use Rattle.boogie_run.specs.BoogiePoints.Actions.{plain_conditions, free_conditions, ensured_conditions};

use crate::boogie_points::conditions::{free_requires, plain_requires, procedure_at};
use typed_tree::{TInv, TProc, TSpec, TStmt};

/// The requires that a call asserts.
#[tactic(auto, using(crate::proofs::BoogiePoints::ConditionLaws::plain_step))]
pub fn demanded(specs: &[TSpec]) -> usize
    ensures { result ≡ length (plain_conditions (map view.specification specs.now)) }
{
    let mut count = 0;
    for said in specs {
        if let Some(_) = plain_requires(said) {
            count += 1;
        }
    }
    count
}

/// The requires that are assumed at the entry.
#[tactic(auto, using(crate::proofs::BoogiePoints::ConditionLaws::free_step))]
pub fn granted(specs: &[TSpec]) -> usize
    ensures { result ≡ length (free_conditions (map view.specification specs.now)) }
{
    let mut count = 0;
    for said in specs {
        if let Some(_) = free_requires(said) {
            count += 1;
        }
    }
    count
}

/// The conditions that are checked: those that are not free.
pub fn plain_count(conditions: &[TInv]) -> u32
    requires { spec.plain_invariants (map view.invariant conditions.now) < 2 ^ 32 }
    ensures { result ≡ spec.plain_invariants (map view.invariant conditions.now) }
{
    let mut count = 0;
    for condition in conditions {
        if !condition.free {
            count += 1;
        }
    }
    count
}

/// The requires that a call of that procedure asserts.
#[tactic(auto, using(crate::proofs::BoogiePoints::ConditionLaws::plain_requires_counted))]
pub fn at_call(procs: &[TProc], callee: u32) -> u32
    requires { spec.checked_at_call (slice_get (map view.procedure procs.now) callee) < 2 ^ 32 }
    ensures { result ≡ spec.checked_at_call (slice_get (map view.procedure procs.now) callee) }
{
    match procedure_at(procs, callee) {
        Some(called) => demanded(&called.specs) as u32,
        None => 0,
    }
}

/// The assertions of a statement. It recurses as deep as statements are nested, as dropping one does.
#[cycle(assertions)]
pub fn assertions(procs: &[TProc], counted: &TStmt) -> u32
    requires { spec.assertions (map view.procedure procs.now) (view.statement counted.now) < 2 ^ 32 }
    ensures { result ≡ spec.assertions (map view.procedure procs.now) (view.statement counted.now) }
{
    match counted {
        TStmt::Assert(_, _) => 1,
        TStmt::Call(_, _, callee, _) => at_call(procs, *callee),
        TStmt::If(_, _, then, otherwise) => {
            let inner = block_assertions(procs, then);
            inner + block_assertions(procs, otherwise)
        }
        TStmt::While(_, _, conditions, body) => {
            let head = plain_count(conditions);
            head + block_assertions(procs, body)
        }
        _ => 0,
    }
}

/// The assertions of the statements of a list.
#[cycle(assertions)]
pub fn block_assertions(procs: &[TProc], listed: &[TStmt]) -> u32
    requires { spec.block_assertions (map view.procedure procs.now) (view.statements listed.now) < 2 ^ 32 }
    ensures { result ≡ spec.block_assertions (map view.procedure procs.now) (view.statements listed.now) }
{
    let mut count = 0;
    for counted in listed {
        count += assertions(procs, counted);
    }
    count
}

/// The points of a statement.
#[cycle(places)]
pub fn points(procs: &[TProc], counted: &TStmt) -> u32
    requires { spec.points (map view.procedure procs.now) (view.statement counted.now) < 2 ^ 32 }
    ensures { result ≡ spec.points (map view.procedure procs.now) (view.statement counted.now) }
{
    match counted {
        TStmt::Havoc(_, columns) => columns.len() as u32,
        TStmt::Call(_, _, callee, _) => at_call(procs, *callee) + 1,
        TStmt::If(_, _, then, otherwise) => {
            let inner = block_points(procs, then);
            1 + (inner + block_points(procs, otherwise))
        }
        TStmt::While(_, _, conditions, body) => {
            let head = conditions.len() as u32;
            head + (1 + block_points(procs, body))
        }
        TStmt::Label(_) => 0,
        _ => 1,
    }
}

/// The points of the statements of a list.
#[cycle(places)]
pub fn block_points(procs: &[TProc], listed: &[TStmt]) -> u32
    requires { spec.block_points (map view.procedure procs.now) (view.statements listed.now) < 2 ^ 32 }
    ensures { result ≡ spec.block_points (map view.procedure procs.now) (view.statements listed.now) }
{
    let mut count = 0;
    for counted in listed {
        count += points(procs, counted);
    }
    count
}

/// The ensures of a procedure.
pub fn all_ensures(specs: &[TSpec]) -> u32
    requires { spec.all_ensures (map view.specification specs.now) < 2 ^ 32 }
    ensures { result ≡ spec.all_ensures (map view.specification specs.now) }
{
    let mut count = 0;
    for said in specs {
        if let TSpec::Ensures(_) = said {
            count += 1;
        }
    }
    count
}

/// The ensures that are asserted, among the first so many.
#[tactic(auto, using(crate::proofs::BoogiePoints::ConditionLaws::taken))]
pub fn plain_before(specs: &[TSpec], part: usize) -> u32
    requires { spec.plain_ensures (map view.specification specs.now) < 2 ^ 32 }
    ensures { result ≡ spec.plain_invariants (take part (ensured_conditions (map view.specification specs.now))) }
{
    let mut left = part;
    let mut count = 0;
    for said in specs {
        if left == 0 {
            return count;
        }
        left -= is_ensures(said);
        count += is_asserted(said);
    }
    count
}

/// Whether it is an ensures, as a number.
fn is_ensures(said: &TSpec) -> usize
    ensures { result ≡ spec.all_ensures (view.specification said.now ∷ []) }
{
    match said {
        TSpec::Requires(_) => 0,
        TSpec::Ensures(_) => 1,
    }
}

/// Whether it is an ensures that is asserted, as a number.
fn is_asserted(said: &TSpec) -> u32
    ensures { result ≡ spec.plain_ensures (view.specification said.now ∷ []) }
{
    match said {
        TSpec::Requires(_) => 0,
        TSpec::Ensures(ensured) => { if ensured.free { 0 } else { 1 } }
    }
}

/// The ensures that are asserted.
pub fn plain_ensures(specs: &[TSpec]) -> u32
    requires { spec.plain_ensures (map view.specification specs.now) < 2 ^ 32 }
    ensures { result ≡ spec.plain_ensures (map view.specification specs.now) }
{
    let mut count = 0;
    for said in specs {
        if let TSpec::Ensures(ensured) = said {
            if !ensured.free {
                count += 1;
            }
        }
    }
    count
}

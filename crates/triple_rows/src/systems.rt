ghost use Rattle.std.specs.Prelude.{◌≡◌, ◌↔◌, ℕ, ℤ, Err, Some, IfOk, OnOk, slice_get};
ghost use Rattle.lin_rows.specs.Systems.{Meets};
ghost use Rattle.letter_acts.specs.Acts.{back_act};
ghost use Rattle.letter_acts.specs.Invariant.{alphabet_of};
ghost use Rattle.letter_acts.specs.Kept.{Keeps};
ghost use Rattle.triple_rows.specs.Predicates.{SpellsPredicate, formula_of};
ghost use Rattle.triple_rows.specs.Systems.{PlainFits, IsSystem};
ghost use Rattle.triple_rows.specs.Triples.{InsideAgrees, CallAgrees, BackAgrees, ReturnAgrees, Agrees, IsValid, inside_system_of, call_system_of, back_system_of, return_system_of, system_of};

use crate::building::{call_triple, inside_triple, return_triple};
use crate::triples::{Scoped, Triple};
use letter_acts::{Act, Icfg};
use lin_rows::{RowFault, System};
use std::alloc::Global;

/// The system of a triple whose kind and scopes agree with its letter, with its rows in order. No whole point meets it
/// exactly where the triple is valid. `Past` comes exactly where a number of the system does not fit.
pub fn systems_of(alloc: Global, icfg: &Icfg, triple: &Triple) -> Result<System, RowFault>
    requires { Agrees (alphabet_of icfg.now) triple.now }
    ensures value { IfOk result (IsSystem (system_of (alphabet_of icfg.now) triple.now)) }
    ensures exact { IfOk result (λ s. ((point : ℕ → ℤ) → Meets point s → ⊥) ↔ IsValid (alphabet_of icfg.now) triple.now) }
    ensures fits { OnOk result (PlainFits (system_of (alphabet_of icfg.now) triple.now)) }
    ensures past { result ≡ Err RowFault.Past → PlainFits (system_of (alphabet_of icfg.now) triple.now) → ⊥ }
{
    match triple {
        Triple::Inside { from, letter, to } => inside_system(alloc, icfg, *letter, from, to),
        Triple::Call { from, letter, to } => call_system(alloc, icfg, *letter, from, to),
        Triple::Back {
            exit,
            before,
            letter,
            to,
        } => back_system(alloc, icfg, *letter, exit, before, to),
    }
}

/// The system of an inside triple.
pub(crate) fn inside_system(
    alloc: Global,
    icfg: &Icfg,
    letter: u32,
    from: &Scoped,
    to: &Scoped,
) -> Result<System, RowFault>
    requires { InsideAgrees (alphabet_of icfg.now) (slice_get icfg.now.acts letter) from.now to.now }
    ensures known { OnOk result (Keeps icfg.now × SpellsPredicate to.now.pred) }
    ensures value { IfOk result (IsSystem (inside_system_of (alphabet_of icfg.now) (slice_get icfg.now.acts letter) (formula_of from.now.pred) (formula_of to.now.pred))) }
    ensures fits { OnOk result (PlainFits (inside_system_of (alphabet_of icfg.now) (slice_get icfg.now.acts letter) (formula_of from.now.pred) (formula_of to.now.pred))) }
    ensures past { result ≡ Err RowFault.Past → PlainFits (inside_system_of (alphabet_of icfg.now) (slice_get icfg.now.acts letter) (formula_of from.now.pred) (formula_of to.now.pred)) → ⊥ }
{
    match icfg.act_at(letter) {
        Act::Inside {
            proc,
            written,
            rows,
            ..
        } => inside_triple(
            alloc,
            icfg.columns(*proc),
            written,
            rows,
            &from.pred,
            &to.pred,
        ),
        Act::Call { .. } | Act::Back { .. } => unreachable!(),
    }
}

/// The system of a call triple.
pub(crate) fn call_system(
    alloc: Global,
    icfg: &Icfg,
    letter: u32,
    from: &Scoped,
    to: &Scoped,
) -> Result<System, RowFault>
    requires { CallAgrees (alphabet_of icfg.now) (slice_get icfg.now.acts letter) from.now to.now }
    ensures known { OnOk result (Keeps icfg.now × SpellsPredicate to.now.pred) }
    ensures value { IfOk result (IsSystem (call_system_of (alphabet_of icfg.now) (slice_get icfg.now.acts letter) (formula_of from.now.pred) (formula_of to.now.pred))) }
    ensures fits { OnOk result (PlainFits (call_system_of (alphabet_of icfg.now) (slice_get icfg.now.acts letter) (formula_of from.now.pred) (formula_of to.now.pred))) }
    ensures past { result ≡ Err RowFault.Past → PlainFits (call_system_of (alphabet_of icfg.now) (slice_get icfg.now.acts letter) (formula_of from.now.pred) (formula_of to.now.pred)) → ⊥ }
{
    match icfg.act_at(letter) {
        Act::Call {
            caller,
            callee,
            rows,
            ..
        } => call_triple(
            alloc,
            icfg.columns(*caller),
            icfg.columns(*callee),
            rows,
            &from.pred,
            &to.pred,
        ),
        Act::Inside { .. } | Act::Back { .. } => unreachable!(),
    }
}

/// The system of a return triple.
pub(crate) fn back_system(
    alloc: Global,
    icfg: &Icfg,
    letter: u32,
    exit: &Scoped,
    before: &Scoped,
    to: &Scoped,
) -> Result<System, RowFault>
    requires { BackAgrees (alphabet_of icfg.now) (slice_get icfg.now.acts letter) exit.now before.now to.now }
    ensures known { OnOk result (Keeps icfg.now × SpellsPredicate to.now.pred) }
    ensures value { IfOk result (IsSystem (back_system_of (alphabet_of icfg.now) (slice_get icfg.now.acts letter) (formula_of exit.now.pred) (formula_of before.now.pred) (formula_of to.now.pred))) }
    ensures fits { OnOk result (PlainFits (back_system_of (alphabet_of icfg.now) (slice_get icfg.now.acts letter) (formula_of exit.now.pred) (formula_of before.now.pred) (formula_of to.now.pred))) }
    ensures past { result ≡ Err RowFault.Past → PlainFits (back_system_of (alphabet_of icfg.now) (slice_get icfg.now.acts letter) (formula_of exit.now.pred) (formula_of before.now.pred) (formula_of to.now.pred)) → ⊥ }
{
    match icfg.act_at(letter) {
        Act::Back { call, targets } => {
            return_system(alloc, icfg, letter, *call, targets, exit, before, to)
        }
        Act::Inside { .. } | Act::Call { .. } => unreachable!(),
    }
}

/// The system of a triple of a return with these targets, from a call letter.
fn return_system(
    alloc: Global,
    icfg: &Icfg,
    letter: u32,
    call: u32,
    targets: &[u32],
    exit: &Scoped,
    before: &Scoped,
    to: &Scoped,
) -> Result<System, RowFault>
    requires is_return { slice_get icfg.now.acts letter ≡ Some (back_act call targets.now) }
    requires agrees { ReturnAgrees (alphabet_of icfg.now) (slice_get icfg.now.acts call) exit.now before.now to.now }
    ensures known { OnOk result (Keeps icfg.now × SpellsPredicate to.now.pred) }
    ensures value { IfOk result (IsSystem (return_system_of (alphabet_of icfg.now) targets.now (slice_get icfg.now.acts call) (formula_of exit.now.pred) (formula_of before.now.pred) (formula_of to.now.pred))) }
    ensures fits { OnOk result (PlainFits (return_system_of (alphabet_of icfg.now) targets.now (slice_get icfg.now.acts call) (formula_of exit.now.pred) (formula_of before.now.pred) (formula_of to.now.pred))) }
    ensures past { result ≡ Err RowFault.Past → PlainFits (return_system_of (alphabet_of icfg.now) targets.now (slice_get icfg.now.acts call) (formula_of exit.now.pred) (formula_of before.now.pred) (formula_of to.now.pred)) → ⊥ }
{
    match icfg.act_at(call) {
        Act::Call {
            caller,
            callee,
            helpers,
            rows,
            ..
        } => return_triple(
            alloc,
            icfg.columns(*caller),
            icfg.columns(*callee),
            *helpers,
            rows,
            targets,
            &exit.pred,
            &before.pred,
            &to.pred,
        ),
        Act::Inside { .. } | Act::Back { .. } => unreachable!(),
    }
}

//! The conditions around the statements of a body: its free requires before them, and its ensures behind them.

ghost use Rattle.std.specs.Prelude.{◌≡◌, ◌+◌, ◌<◌, ◌^◌, [], ◌∷◌, map, length, IsSome, IfOk, OnOk, slice_get};
ghost use Rattle.std.specs.Option.{option_map, option_to_list};
ghost use Rattle.typed_tree.specs.TypedView as view;
ghost use Rattle.typed_tree.specs.TypingRules.Counts.{plain_invariants};
ghost use Rattle.typed_tree.specs.TypingRules.TypedParts.{typed_program};
ghost use Rattle.boogie_run.specs.BoogiePoints.Actions as spec;
ghost use Rattle.icfg_lower.specs.PlaceEdges.Forms.{SpecificationFits, SpecificationsFit};
ghost use Rattle.icfg_lower.specs.PlaceEdges.WalkedParts.{walked};
ghost use Rattle.icfg_lower.specs.ProgramWalk.Ties.Bounds.{HasNumbers};
ghost use Rattle.icfg_lower.specs.ProgramWalk.Ties.Conditions.{Assumed, Checked, EntryAdds, ExitAdds};

use crate::place_edges::{Here, Lowering};
use crate::program_walk::items::{assume, check};
use crate::program_walk::statements::{Next, after_check};
use std::alloc::AllocError;
use typed_tree::{TInv, TSpec};

/// A requires that is free.
fn free_requires(said: &TSpec) -> Option<&TInv>
    ensures { spec.free_conditions (view.specification said.now ∷ []) ≡ option_to_list (option_map (λ i. view.invariant i.now) result) }
{
    match said {
        TSpec::Requires(condition) => {
            if condition.free {
                Some(condition)
            } else {
                None
            }
        }
        TSpec::Ensures(_) => None,
    }
}

/// An ensures, free or not.
fn ensured(said: &TSpec) -> Option<&TInv>
    ensures { spec.ensured_conditions (view.specification said.now ∷ []) ≡ option_to_list (option_map (λ i. view.invariant i.now) result) }
{
    match said {
        TSpec::Requires(_) => None,
        TSpec::Ensures(condition) => Some(condition),
    }
}

/// A requires is assumed, if it is free. It answers the next place.
fn assume_said(lowering: &mut Lowering<'_>, here: Here, said: &TSpec) -> Result<u32, AllocError>
    requires procedure { IsSome (slice_get (typed_program lowering.old.parts).procs here.proc) }
    requires place { here.place + length (spec.free_conditions (view.specification said.now ∷ [])) < 2 ^ 32 }
    requires fit { SpecificationFits (typed_program lowering.old.parts) (view.specification said.now) }
    ensures program { OnOk result (typed_program lowering.new.parts ≡ typed_program lowering.old.parts) }
    ensures place { IfOk result (λ next. next ≡ here.place + length (spec.free_conditions (view.specification said.now ∷ []))) }
    ensures assumed { OnOk result (Assumed (typed_program lowering.old.parts) here.proc here.place (spec.free_conditions (view.specification said.now ∷ [])) (walked lowering.old) (walked lowering.new)) }
{
    let Some(condition) = free_requires(said) else {
        return Ok(here.place);
    };
    let next = here.place + 1;
    assume(lowering, here, condition.span, &condition.cond, next)?;
    Ok(next)
}

/// The free requires among the specifications of a procedure, one after another: it begins there.
pub(crate) fn entry_conditions(
    lowering: &mut Lowering<'_>,
    here: Here,
    specs: &[TSpec],
) -> Result<(), AllocError>
    requires procedure { IsSome (slice_get (typed_program lowering.old.parts).procs here.proc) }
    requires places { here.place + length (spec.free_conditions (map view.specification specs.now)) < 2 ^ 32 }
    requires fit { SpecificationsFit (typed_program lowering.old.parts) (map view.specification specs.now) }
    ensures program { OnOk result (typed_program lowering.new.parts ≡ typed_program lowering.old.parts) }
    ensures added { OnOk result (EntryAdds (typed_program lowering.old.parts) here.proc (map view.specification specs.now) here.place (walked lowering.old) (walked lowering.new)) }
{
    let mut place = here.place;
    for said in specs {
        let at = Here {
            proc: here.proc,
            place,
        };
        place = assume_said(lowering, at, said)?;
    }
    Ok(())
}

/// An ensures is asserted under that number or, where it is free, assumed. It answers the next place and assertion.
fn check_said(
    lowering: &mut Lowering<'_>,
    proc: u32,
    said: &TSpec,
    first: Next,
) -> Result<Next, AllocError>
    requires procedure { IsSome (slice_get (typed_program lowering.old.parts).procs proc) }
    requires numbers { HasNumbers (typed_program lowering.old.parts) first.assertion first.place (plain_invariants (spec.ensured_conditions (view.specification said.now ∷ [])))
        (length (spec.ensured_conditions (view.specification said.now ∷ []))) }
    requires fit { SpecificationFits (typed_program lowering.old.parts) (view.specification said.now) }
    ensures program { OnOk result (typed_program lowering.new.parts ≡ typed_program lowering.old.parts) }
    ensures place { IfOk result (λ next. next.place ≡ first.place + length (spec.ensured_conditions (view.specification said.now ∷ []))) }
    ensures assertion { IfOk result (λ next. next.assertion ≡ first.assertion + plain_invariants (spec.ensured_conditions (view.specification said.now ∷ []))) }
    ensures checked { OnOk result (Checked (typed_program lowering.old.parts) proc first.assertion first.place (spec.ensured_conditions (view.specification said.now ∷ [])) (walked lowering.old) (walked lowering.new)) }
{
    let Some(condition) = ensured(said) else {
        return Ok(first);
    };
    let here = Here {
        proc,
        place: first.place,
    };
    let place = first.place + 1;
    check(lowering, here, condition, first.assertion, place)?;
    let assertion = after_check(condition, first.assertion);
    Ok(Next { place, assertion })
}

/// The ensures among the specifications of a procedure, one after another, from that assertion and place on.
pub(crate) fn exit_conditions(
    lowering: &mut Lowering<'_>,
    proc: u32,
    specs: &[TSpec],
    first: Next,
) -> Result<(), AllocError>
    requires procedure { IsSome (slice_get (typed_program lowering.old.parts).procs proc) }
    requires numbers { HasNumbers (typed_program lowering.old.parts) first.assertion first.place (plain_invariants (spec.ensured_conditions (map view.specification specs.now)))
        (length (spec.ensured_conditions (map view.specification specs.now))) }
    requires fit { SpecificationsFit (typed_program lowering.old.parts) (map view.specification specs.now) }
    ensures program { OnOk result (typed_program lowering.new.parts ≡ typed_program lowering.old.parts) }
    ensures added { OnOk result (ExitAdds (typed_program lowering.old.parts) proc (map view.specification specs.now) first.assertion first.place (walked lowering.old) (walked lowering.new)) }
{
    let mut next = first;
    for said in specs {
        next = check_said(lowering, proc, said, next)?;
    }
    Ok(())
}

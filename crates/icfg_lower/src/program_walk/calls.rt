//! Calls.

ghost use Rattle.std.specs.Prelude.{◌≡◌, ◌+◌, ◌<◌, ◌≤◌, ◌^◌, ℕ, List, Some, false, [], ◌∷◌, ◌++◌, map, length, IsTrue, IsSome, IfOk, OnOk, slice_get};
ghost use Rattle.std.specs.List.{AllByRecursion};
ghost use Rattle.std.specs.Option.{option_map, option_to_list};
ghost use Rattle.typed_tree.specs.TypedTree as tree;
ghost use Rattle.typed_tree.specs.TypedView as view;
ghost use Rattle.typed_tree.specs.TypingRules.Counts.{checked_at_call};
ghost use Rattle.typed_tree.specs.TypingRules.TypedParts.{typed_program};
ghost use Rattle.typed_tree.specs.TypingRules.ValidProgram.{is_valid};
ghost use Rattle.boogie_run.specs.BoogiePoints.Actions.{plain_conditions};
ghost use Rattle.boogie_run.specs.Needs.{locals_at};
ghost use Rattle.lowered_graph.specs.LoweredSteps.ProgramFrames.{frame_at};
ghost use Rattle.lowered_graph.specs.LoweredSteps.Edges.{local_count};
ghost use Rattle.lowered_graph.specs.Arcs.{error_place};
ghost use Rattle.lowered_graph.specs.LoweredParts.Lists.{demand_arcs, demand_needed};
ghost use Rattle.lowered_graph.specs.LoweredParts.Parts.{Walked};
ghost use Rattle.lowered_graph.specs.LoweredParts.Making.{Makes};
ghost use Rattle.lowered_graph.specs.LoweredParts.Items.{site_of};
ghost use Rattle.icfg_lower.specs.ProgramLayout.Layouts.{StandsIn};
ghost use Rattle.icfg_lower.specs.PlaceEdges.Forms.{FormsFit, AllFormsFit, SpecificationFits, SpecificationsFit};
ghost use Rattle.icfg_lower.specs.PlaceEdges.WalkedParts.{walked};
ghost use Rattle.icfg_lower.specs.ProgramWalk.Ties.Bounds.{IsAssertion, HasNumbers};
ghost use Rattle.icfg_lower.specs.ProgramWalk.Ties.Calls.{AreLeft, PartsMade, CallMade};
ghost use Rattle.icfg_lower.specs.ProgramWalk.Ties.Walks.{PlainlyAdds};

use crate::place_edges::{
    Called, Here, Lowering, NO_TROUBLE, Trouble, demand, either, enter, import,
};
use crate::program_layout::Layout;
use boogie_run::boogie_points;
use std::alloc::AllocError;
use typed_tree::{TExpr, TInv, TProc, TSpec};

/// The procedure of that number.
pub(crate) fn procedure_at<'a>(layout: &Layout<'a>, number: u32) -> &'a TProc
    requires { IsSome (slice_get (typed_program layout.now).procs number) }
    ensures valid { IsTrue (is_valid (typed_program layout.now)) }
    ensures listed { slice_get (typed_program layout.now).procs number ≡ Some (view.procedure result.now) }
{
    boogie_points::procedure_at(layout.program().procs(), number).unwrap()
}

/// A requires that is not free.
pub(crate) fn plain_requires(said: &TSpec) -> Option<&TInv>
    ensures { plain_conditions (view.specification said.now ∷ []) ≡ option_to_list (option_map (λ i. view.invariant i.now) result) }
{
    match said {
        TSpec::Requires(condition) => {
            if condition.free {
                None
            } else {
                Some(condition)
            }
        }
        TSpec::Ensures(_) => None,
    }
}

/// A requires of the callee is asserted under that number.
fn demand_one(
    lowering: &mut Lowering<'_>,
    here: Here,
    called: Called<'_>,
    cond: &TExpr,
    number: u32,
) -> Result<Trouble, AllocError>
    requires procedure { IsSome (slice_get (typed_program lowering.old.parts).procs here.proc) }
    requires number { IsAssertion (typed_program lowering.old.parts) false number }
    requires place { here.place + 1 < 2 ^ 32 }
    requires fit_args { AllFormsFit (typed_program lowering.old.parts) (map view.expression called.args.now) }
    requires fit { FormsFit (typed_program lowering.old.parts) (view.expression cond.now) }
    ensures program { OnOk result (typed_program lowering.new.parts ≡ typed_program lowering.old.parts) }
    ensures made { IfOk result (λ x. Makes (site_of (typed_program lowering.old.parts) number called.entry.span ∷ [])
        (demand_arcs (frame_at (typed_program lowering.old.parts) here.proc) (local_count (typed_program lowering.old.parts) here.proc) here.proc here.place (map view.expression called.entry.args.now) (view.expression cond.now)
        (here.place + 1) (error_place (typed_program lowering.old.parts) number))
        (demand_needed (frame_at (typed_program lowering.old.parts) here.proc) (local_count (typed_program lowering.old.parts) here.proc) (map view.expression called.entry.args.now) (view.expression cond.now))
        x.wide x.big (walked lowering.old) (walked lowering.new)) }
{
    lowering.assertion(number, called.span)?;
    let wrong = lowering.layout().error_place(number);
    demand(lowering, here, called.args, cond, here.place + 1, wrong)
}

/// How many requires of a call are done, and what is wrong with their lists.
#[derive(Clone, Copy)]
struct Demanded {
    pub(crate) count: u32,
    pub(crate) trouble: Trouble,
}

/// One more requires, if it is one that a call asserts; the assertions and places of the call count from these numbers.
fn demand_said(
    lowering: &mut Lowering<'_>,
    here: Here,
    called: Called<'_>,
    said: &TSpec,
    first: u32,
    done: Demanded,
) -> Result<Demanded, AllocError>
    requires procedure { IsSome (slice_get (typed_program lowering.old.parts).procs here.proc) }
    requires numbers { HasNumbers (typed_program lowering.old.parts) (first + done.count) (here.place + done.count) (length (plain_conditions (view.specification said.now ∷ []))) 1 }
    requires fit_args { AllFormsFit (typed_program lowering.old.parts) (map view.expression called.args.now) }
    requires fit { SpecificationFits (typed_program lowering.old.parts) (view.specification said.now) }
    ensures program { OnOk result (typed_program lowering.new.parts ≡ typed_program lowering.old.parts) }
    ensures left { IfOk result (λ d. (all rest : List tree.TypedInvariant) → AreLeft all done.count (plain_conditions (view.specification said.now ∷ []) ++ rest) → AreLeft all d.count rest) }
    ensures made { IfOk result (λ d. (all rest : List tree.TypedInvariant) (w : Walked) → AreLeft all done.count (plain_conditions (view.specification said.now ∷ []) ++ rest) →
        PartsMade (typed_program lowering.old.parts) here.proc called.entry.span called.entry.targets.now called.entry.callee (map view.expression called.entry.args.now) all first here.place
        done.count done.trouble.wide done.trouble.big w (walked lowering.old) →
        PartsMade (typed_program lowering.old.parts) here.proc called.entry.span called.entry.targets.now called.entry.callee (map view.expression called.entry.args.now) all first here.place
        d.count d.trouble.wide d.trouble.big w (walked lowering.new)) }
{
    let Some(condition) = plain_requires(said) else {
        return Ok(done);
    };
    let at = Here {
        proc: here.proc,
        place: here.place + done.count,
    };
    let found = demand_one(lowering, at, called, &condition.cond, first + done.count)?;
    Ok(Demanded {
        count: done.count + 1,
        trouble: either(done.trouble, found),
    })
}

/// The requires that a call asserts, one after another, from this assertion on.
fn demands(
    lowering: &mut Lowering<'_>,
    here: Here,
    called: Called<'_>,
    specs: &[TSpec],
    first: u32,
) -> Result<Demanded, AllocError>
    requires procedure { IsSome (slice_get (typed_program lowering.old.parts).procs here.proc) }
    requires numbers { HasNumbers (typed_program lowering.old.parts) first here.place (length (plain_conditions (map view.specification specs.now))) (length (plain_conditions (map view.specification specs.now)) + 1) }
    requires fit_args { AllFormsFit (typed_program lowering.old.parts) (map view.expression called.args.now) }
    requires fit { SpecificationsFit (typed_program lowering.old.parts) (map view.specification specs.now) }
    ensures program { OnOk result (typed_program lowering.new.parts ≡ typed_program lowering.old.parts) }
    ensures count { IfOk result (λ d. d.count ≡ length (plain_conditions (map view.specification specs.now))) }
    ensures made { IfOk result (λ d.
        PartsMade (typed_program lowering.old.parts) here.proc called.entry.span called.entry.targets.now called.entry.callee (map view.expression called.entry.args.now)
        (plain_conditions (map view.specification specs.now)) first here.place d.count d.trouble.wide d.trouble.big (walked lowering.old) (walked lowering.new)) }
{
    let mut done = Demanded {
        count: 0,
        trouble: NO_TROUBLE,
    };
    for said in specs {
        done = demand_said(lowering, here, called, said, first, done)?;
    }
    Ok(done)
}

/// The call itself: into a callee with a body, or what one without body may do.
fn perform(
    lowering: &mut Lowering<'_>,
    here: Here,
    called: Called<'_>,
    callee: &TProc,
    after: u32,
) -> Result<Trouble, AllocError>
    requires procedure { IsSome (slice_get (typed_program lowering.old.parts).procs here.proc) }
    requires callee { slice_get (typed_program lowering.old.parts).procs called.callee ≡ Some (view.procedure callee.now) }
    requires targets { AllByRecursion (StandsIn (frame_at (typed_program lowering.old.parts) here.proc)) called.targets.now }
    requires arguments { length called.args.now ≤ length (locals_at (typed_program lowering.old.parts) called.callee) }
    requires fit_args { AllFormsFit (typed_program lowering.old.parts) (map view.expression called.args.now) }
    requires fit { SpecificationsFit (typed_program lowering.old.parts) (view.procedure callee.now).specs }
    ensures program { OnOk result (typed_program lowering.new.parts ≡ typed_program lowering.old.parts) }
    ensures made { IfOk result (λ x. CallMade (typed_program lowering.old.parts) here.proc called.entry.span called.entry.targets.now called.entry.callee (map view.expression called.entry.args.now)
        (view.procedure callee.now) here.place after x.wide x.big (walked lowering.old) (walked lowering.new)) }
{
    match &callee.body {
        Some(_) => enter(lowering, here, called, after),
        None => import(lowering, here, called, callee, after),
    }
}

/// A call: each requires that it asserts, from this assertion on, and then the call itself. All of it is one item.
pub(crate) fn call(
    lowering: &mut Lowering<'_>,
    here: Here,
    called: Called<'_>,
    first: u32,
    after: u32,
) -> Result<(), AllocError>
    requires procedure { IsSome (slice_get (typed_program lowering.old.parts).procs here.proc) }
    requires callee { IsSome (slice_get (typed_program lowering.old.parts).procs called.callee) }
    requires targets { AllByRecursion (StandsIn (frame_at (typed_program lowering.old.parts) here.proc)) called.targets.now }
    requires arguments { length called.args.now ≤ length (locals_at (typed_program lowering.old.parts) called.callee) }
    requires fit { AllFormsFit (typed_program lowering.old.parts) (map view.expression called.args.now) }
    requires numbers { HasNumbers (typed_program lowering.old.parts) first here.place (checked_at_call (slice_get (typed_program lowering.old.parts).procs called.callee))
        (checked_at_call (slice_get (typed_program lowering.old.parts).procs called.callee) + 1) }
    ensures program { OnOk result (typed_program lowering.new.parts ≡ typed_program lowering.old.parts) }
    ensures added { OnOk result (PlainlyAdds (typed_program lowering.old.parts) here.proc after
        (tree.Call called.entry.span called.entry.targets.now called.entry.callee (map view.expression called.entry.args.now)) first here.place (walked lowering.old) (walked lowering.new)) }
{
    let callee = procedure_at(lowering.layout(), called.callee);
    let done = demands(lowering, here, called, &callee.specs, first)?;
    let at = Here {
        proc: here.proc,
        place: here.place + done.count,
    };
    let found = perform(lowering, at, called, callee, after)?;
    lowering.note(called.span, either(done.trouble, found));
    Ok(())
}

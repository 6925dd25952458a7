//! The check of the steps and the backs that there are.

ghost use Rattle.std.specs.Prelude.{◌↔◌, ◌<◌, length, IsTrue};
ghost use Rattle.nwa_base.specs.declared.letters.Kind.TheVariants as kinds;
ghost use Rattle.nwa_base.specs.Members.{Member};
ghost use Rattle.proof_check.specs.Steps.{IsSound};
ghost use Rattle.proof_check.specs.Ties.Sound.{InsideGives, CallGives, BackGives, InsideIsShown, CallIsShown, BackIsShown, StepExists, InsideIsSoundAt, CallIsSoundAt, BackIsSoundAt, StepIsSoundAt, ReturnIsSoundAt};
ghost use Rattle.proof_check.specs.Ties.Covering.{AllExist};
ghost use Rattle.proof_check.specs.Ties.Plans.{IsOfNode};
ghost use Rattle.proof_check.specs.Ties.Firsts.{IsFirstOf};

use crate::plan::Plan;
use letter_acts::{Act, Icfg};
use nwa_base::{Kind, Letter};
use proof_names::NamedStep;

/// Whether the predicate is the target of a listed triple of an inside letter whose source is true or in the node.
fn inside_gives(plan: &Plan<'_>, letter: u32, from: usize, to: usize) -> bool
    ensures { IsTrue result ↔ InsideGives plan.now letter from to }
{
    for source in plan.insides(letter, to) {
        if plan.is_of(*source, from) {
            return true;
        }
    }
    false
}

/// The same of a call letter.
fn call_gives(plan: &Plan<'_>, letter: u32, from: usize, to: usize) -> bool
    ensures { IsTrue result ↔ CallGives plan.now letter from to }
{
    for source in plan.calls(letter, to) {
        if plan.is_of(*source, from) {
            return true;
        }
    }
    false
}

/// Whether a source at the exit and one before the call are each true or in the node.
fn are_of(plan: &Plan<'_>, source: &(usize, usize), exit: usize, before: usize) -> bool
    ensures { IsTrue result ↔ (IsOfNode plan.now.nodes source.now.0 exit × IsOfNode plan.now.nodes source.now.1 before) }
{
    plan.is_of(source.0, exit) && plan.is_of(source.1, before)
}

/// The same of a return letter, whose triples have a source at the exit and one before the call.
fn back_gives(plan: &Plan<'_>, letter: u32, exit: usize, before: usize, to: usize) -> bool
    ensures { IsTrue result ↔ BackGives plan.now letter exit before to }
{
    for source in plan.backs(letter, to) {
        if are_of(plan, source, exit, before) {
            return true;
        }
    }
    false
}

/// Whether each of the predicates is the target of such a triple of an inside letter.
fn inside_is_shown(plan: &Plan<'_>, letter: u32, from: usize, preds: &[usize]) -> bool
    ensures { IsTrue result ↔ InsideIsShown plan.now letter from preds.now }
{
    for pred in preds {
        if !inside_gives(plan, letter, from, *pred) {
            return false;
        }
    }
    true
}

/// The same of a call letter.
fn call_is_shown(plan: &Plan<'_>, letter: u32, from: usize, preds: &[usize]) -> bool
    ensures { IsTrue result ↔ CallIsShown plan.now letter from preds.now }
{
    for pred in preds {
        if !call_gives(plan, letter, from, *pred) {
            return false;
        }
    }
    true
}

/// The same of a return letter.
fn back_is_shown(plan: &Plan<'_>, letter: u32, exit: usize, before: usize, preds: &[usize]) -> bool
    ensures { IsTrue result ↔ BackIsShown plan.now letter exit before preds.now }
{
    for pred in preds {
        if !back_gives(plan, letter, exit, before, *pred) {
            return false;
        }
    }
    true
}

/// Whether a step by an inside letter is sound.
fn inside_is_sound(icfg: &Icfg, plan: &Plan<'_>, from: usize, id: u32, to: usize) -> bool
    requires before { from < length plan.now.nodes }
    requires end { to < length plan.now.nodes }
    ensures { IsTrue result ↔ InsideIsSoundAt icfg.now plan.now from (record { id = id; kind = kinds.Inside; call = 0 }) to }
{
    let (before, end) = (plan.node(from), plan.node(to));
    let letter = Letter {
        id,
        kind: Kind::Inside,
        call: 0,
    };
    if !icfg.nwa().has_inside(before.place, letter, end.place) {
        return false;
    }
    if end.entry != before.entry {
        return false;
    }
    inside_is_shown(plan, id, from, &end.preds)
}

/// Whether a step by a call letter is sound.
fn call_is_sound(icfg: &Icfg, plan: &Plan<'_>, from: usize, id: u32, to: usize) -> bool
    requires before { from < length plan.now.nodes }
    requires end { to < length plan.now.nodes }
    ensures { IsTrue result ↔ CallIsSoundAt icfg.now plan.now from (record { id = id; kind = kinds.Call; call = 0 }) to }
{
    let (before, end) = (plan.node(from), plan.node(to));
    let letter = Letter {
        id,
        kind: Kind::Call,
        call: 0,
    };
    if !icfg.nwa().has_call(before.place, letter, end.place) {
        return false;
    }
    if end.entry != to {
        return false;
    }
    call_is_shown(plan, id, from, &end.preds)
}

/// Whether a back by a return from the call letter is sound.
fn back_is_sound(
    icfg: &Icfg,
    plan: &Plan<'_>,
    exit: usize,
    before: usize,
    id: u32,
    call: u32,
    to: usize,
) -> bool
    requires exit { exit < length plan.now.nodes }
    requires before { before < length plan.now.nodes }
    requires end { to < length plan.now.nodes }
    ensures { IsTrue result ↔ BackIsSoundAt icfg.now plan.now exit before (record { id = id; kind = kinds.Back; call = call }) to }
{
    let (left, caller, end) = (plan.node(exit), plan.node(before), plan.node(to));
    let letter = Letter {
        id,
        kind: Kind::Back,
        call,
    };
    if !icfg
        .nwa()
        .has_back(left.place, caller.place, letter, end.place)
    {
        return false;
    }
    if !plan.has_step(before, call, left.entry) {
        return false;
    }
    if end.entry != caller.entry {
        return false;
    }
    back_is_shown(plan, id, exit, before, &end.preds)
}

/// Whether a step is sound.
fn step_is_sound(icfg: &Icfg, plan: &Plan<'_>, from: usize, letter: u32, to: usize) -> bool
    requires before { from < length plan.now.nodes }
    requires end { to < length plan.now.nodes }
    ensures { IsTrue result ↔ StepIsSoundAt icfg.now plan.now from letter to }
{
    match icfg.act(letter) {
        Some(Act::Inside { .. }) => inside_is_sound(icfg, plan, from, letter, to),
        Some(Act::Call { .. }) => call_is_sound(icfg, plan, from, letter, to),
        Some(Act::Back { .. }) => false,
        None => false,
    }
}

/// Whether a back is sound.
fn return_is_sound(
    icfg: &Icfg,
    plan: &Plan<'_>,
    exit: usize,
    before: usize,
    letter: u32,
    to: usize,
) -> bool
    requires exit { exit < length plan.now.nodes }
    requires before { before < length plan.now.nodes }
    requires end { to < length plan.now.nodes }
    ensures { IsTrue result ↔ ReturnIsSoundAt icfg.now plan.now exit before letter to }
{
    match icfg.act(letter) {
        Some(Act::Back { call, .. }) => {
            back_is_sound(icfg, plan, exit, before, letter, *call, to)
        }
        Some(Act::Inside { .. }) => false,
        Some(Act::Call { .. }) => false,
        None => false,
    }
}

/// Whether the step or back is sound.
fn is_sound(icfg: &Icfg, plan: &Plan<'_>, step: NamedStep) -> bool
    requires { StepExists plan.now step }
    ensures { IsTrue result ↔ IsSound icfg.now plan.now step }
{
    match step {
        NamedStep::Step { from, letter, to } => step_is_sound(icfg, plan, from, letter, to),
        NamedStep::Back {
            exit,
            call,
            letter,
            to,
        } => return_is_sound(icfg, plan, exit, call, letter, to),
    }
}

/// The first step or back that is not sound.
pub(crate) fn first_bad_step(icfg: &Icfg, plan: &Plan<'_>) -> Option<usize>
    requires { AllExist plan.now }
    ensures { IsFirstOf (λ k t. IsSound icfg.now plan.now t) plan.now.steps result }
{
    for k in 0..plan.step_count() {
        if !is_sound(icfg, plan, plan.step(k)) {
            return Some(k);
        }
    }
    None
}

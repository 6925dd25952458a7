//! The check that nodes have the steps and backs that they have to have.

ghost use Rattle.std.specs.Prelude.{◌≡◌, ◌↔◌, ◌<◌, ℕ, length, IsTrue};
ghost use Rattle.nwa_base.specs.Members.{Member};
ghost use Rattle.nwa_base.specs.Edges.{backs_between};
ghost use Rattle.proof_names.specs.Outlines.{OutlineNode};
ghost use Rattle.proof_check.specs.Steps.{IsNode, HasSteps, HasBacks};
ghost use Rattle.proof_check.specs.Ties.Covering.{HasStepsAlong, HasBacksAlong, HasBacksFrom, AllExist};
ghost use Rattle.proof_check.specs.Checks.{IsCovered};
ghost use Rattle.proof_check.specs.Ties.Firsts.{IsFirstOf};

use crate::plan::Plan;
use letter_acts::Icfg;
use nwa_base::Letter;

/// Whether a step leads from the node to the end of each of the edges, by its letter.
fn has_steps_along(plan: &Plan<'_>, number: usize, edges: &[(u32, Letter, u32)]) -> bool
    ensures { IsTrue result ↔ HasStepsAlong plan.now number edges.now }
{
    for edge in edges {
        if !plan.leads_to(number, edge.1.id, edge.2) {
            return false;
        }
    }
    true
}

/// Whether the node has a step for each inside and call edge from its place.
fn has_steps(icfg: &Icfg, plan: &Plan<'_>, number: usize, place: u32) -> bool
    ensures { (x : OutlineNode) → x.place ≡ place → IsTrue result ↔ HasSteps icfg.now plan.now number x }
{
    has_steps_along(plan, number, icfg.nwa().insides_leaving(place))
        && has_steps_along(plan, number, icfg.nwa().calls_leaving(place))
}

/// Whether a back leads from the exit, with this node before the call, to the end of each of the edges whose return names the
/// call letter.
fn has_backs_along(
    plan: &Plan<'_>,
    exit: usize,
    before: usize,
    call: u32,
    edges: &[(u32, u32, Letter, u32)],
) -> bool
    ensures { IsTrue result ↔ HasBacksAlong plan.now exit before call edges.now }
{
    for edge in edges {
        if edge.2.call == call && !plan.leads_back(exit, before, edge.2.id, edge.3) {
            return false;
        }
    }
    true
}

/// Whether a back leads from the exit to the end of each return edge that names the call letter, with this node before the call,
/// unless the node has false.
fn has_backs_from(
    icfg: &Icfg,
    plan: &Plan<'_>,
    exit: usize,
    place: u32,
    before: usize,
    call: u32,
) -> bool
    requires exist { AllExist plan.now }
    requires before { before < length plan.now.nodes }
    ensures { IsTrue result ↔ HasBacksFrom icfg.now plan.now exit place before call }
{
    plan.has(before, 1)
        || has_backs_along(
            plan,
            exit,
            before,
            call,
            icfg.nwa().backs_between(place, plan.node(before).place),
        )
}

/// Whether the node has a back for each return edge from its place and each node without false from which a step leads by the
/// call letter to its entry node.
fn has_backs(icfg: &Icfg, plan: &Plan<'_>, number: usize, place: u32, entry: usize) -> bool
    requires { AllExist plan.now }
    ensures { (x : OutlineNode) → x.place ≡ place → x.entry ≡ entry → IsTrue result ↔ HasBacks icfg.now plan.now number x }
{
    if icfg.nwa().backs_leaving(place).is_empty() {
        return true;
    }
    for step in plan.entering(entry) {
        if !has_backs_from(icfg, plan, number, place, step.0, step.1) {
            return false;
        }
    }
    true
}

/// Whether the node has each step and each back that it has to have.
fn is_covered(icfg: &Icfg, plan: &Plan<'_>, number: usize) -> bool
    requires exist { AllExist plan.now }
    requires node { number < length plan.now.nodes }
    ensures { (x : OutlineNode) → IsNode plan.now number x → IsTrue result ↔ IsCovered icfg.now plan.now number x }
{
    let node = plan.node(number);
    plan.has(number, 1)
        || has_steps(icfg, plan, number, node.place)
            && has_backs(icfg, plan, number, node.place, node.entry)
}

/// The first node that lacks a step or a back.
pub(crate) fn first_uncovered(icfg: &Icfg, plan: &Plan<'_>) -> Option<usize>
    requires { AllExist plan.now }
    ensures { IsFirstOf (IsCovered icfg.now plan.now) plan.now.nodes result }
{
    for n in 0..plan.node_count() {
        if !is_covered(icfg, plan, n) {
            return Some(n);
        }
    }
    None
}

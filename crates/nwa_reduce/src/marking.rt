//! What tells states apart.

ghost use Rattle.std.specs.Prelude.{◌≡◌, ◌↔◌, ◌⊎◌, ◌++◌, ℕ, nat_eq, IfOk, OnOk};
ghost use Rattle.nwa_reduce.specs.Ties.Rows.{row_of};
ghost use Rattle.nwa_base.specs.Members.{Member};
ghost use Rattle.nwa_reduce.specs.declared.marking.Mark.{Mark};
ghost use Rattle.nwa_reduce.specs.Ties.Marks.{leader_in, HasMark, backs_before, inside_marks, call_marks, back_marks, before_marks};

use crate::rows::Rows;
use nwa_base::{Letter, Nwa};
use std::alloc::{AllocError, Global};

/// What a state has. The ends of edges stand by their leaders.
#[derive(Clone, Copy, PartialEq, Eq, Hash)]
pub enum Mark {
    /// It is final.
    Final,
    /// An edge by an inside letter.
    Inside(Letter, u32),
    /// An edge by a call letter.
    Call(Letter, u32),
    /// An edge by a return, and the state before the call.
    Back(u32, Letter, u32),
    /// It is the state before the call, where an edge by a return leaves this exit.
    Before(u32, Letter, u32),
}

/// The return edges, grouped by the state before the call.
pub fn returns_to(alloc: Global, nwa: &Nwa) -> Result<Rows<(u32, u32, Letter, u32)>, AllocError>
    ensures { IfOk result (λ g. (p : ℕ) → row_of g.rows.items p ≡ backs_before p nwa.now.backs) }
{
    let mut groups = Rows::new(alloc);
    for &edge in nwa.backs() {
        groups.add(edge.1, edge)?;
    }
    Ok(groups)
}

/// The marks of a state. `returns` are the return edges that name it as the state before the call.
pub fn marks_of(
    alloc: Global,
    nwa: &Nwa,
    returns: &[(u32, u32, Letter, u32)],
    leaders: &[u32],
    state: u32,
) -> Result<Vec<Mark>, AllocError>
    requires { returns.now ≡ backs_before state nwa.now.backs }
    ensures { IfOk result (λ v. (x : Mark) → Member v.items x ↔ HasMark nwa.now (leader_in leaders.now) state x) }
{
    let mut marks = Vec::new(alloc);
    add_final(&mut marks, nwa, state)?;
    add_insides(&mut marks, nwa.insides_leaving(state), leaders)?;
    add_calls(&mut marks, nwa.calls_leaving(state), leaders)?;
    add_backs(&mut marks, nwa.backs_leaving(state), leaders)?;
    add_befores(&mut marks, returns, leaders)?;
    Ok(marks)
}

/// The leader of a state.
pub fn leader(leaders: &[u32], state: u32) -> u32
    ensures { result ≡ leader_in leaders.now state }
{
    match leaders.get(state as usize) {
        Some(leader) => *leader,
        None => state,
    }
}

fn add_final(marks: &mut Vec<Mark>, nwa: &Nwa, state: u32) -> Result<(), AllocError>
    ensures { OnOk result ((x : Mark) → Member marks.new.items x ↔ (Member marks.old.items x ⊎ ((x ≡ Mark.Final) × Member nwa.now.finals state))) }
{
    if nwa.is_final(state) {
        marks.push(Mark::Final)?;
    }
    Ok(())
}

fn add_insides(
    marks: &mut Vec<Mark>,
    edges: &[(u32, Letter, u32)],
    leaders: &[u32],
) -> Result<(), AllocError>
    ensures { OnOk result (marks.new.items ≡ marks.old.items ++ inside_marks (leader_in leaders.now) edges.now) }
{
    for &(_, letter, end) in edges {
        marks.push(Mark::Inside(letter, leader(leaders, end)))?;
    }
    Ok(())
}

fn add_calls(
    marks: &mut Vec<Mark>,
    edges: &[(u32, Letter, u32)],
    leaders: &[u32],
) -> Result<(), AllocError>
    ensures { OnOk result (marks.new.items ≡ marks.old.items ++ call_marks (leader_in leaders.now) edges.now) }
{
    for &(_, letter, end) in edges {
        marks.push(Mark::Call(letter, leader(leaders, end)))?;
    }
    Ok(())
}

fn add_backs(
    marks: &mut Vec<Mark>,
    edges: &[(u32, u32, Letter, u32)],
    leaders: &[u32],
) -> Result<(), AllocError>
    ensures { OnOk result (marks.new.items ≡ marks.old.items ++ back_marks (leader_in leaders.now) edges.now) }
{
    for &(_, before, letter, end) in edges {
        marks.push(Mark::Back(before, letter, leader(leaders, end)))?;
    }
    Ok(())
}

fn add_befores(
    marks: &mut Vec<Mark>,
    edges: &[(u32, u32, Letter, u32)],
    leaders: &[u32],
) -> Result<(), AllocError>
    ensures { OnOk result (marks.new.items ≡ marks.old.items ++ before_marks (leader_in leaders.now) edges.now) }
{
    for &(exit, _, letter, end) in edges {
        marks.push(Mark::Before(exit, letter, leader(leaders, end)))?;
    }
    Ok(())
}

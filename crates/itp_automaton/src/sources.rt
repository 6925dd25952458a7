//! Which triples over the states may hold: those whose kinds and scopes agree with a letter.

ghost use Rattle.std.specs.Prelude.{◌≡◌, ◌<◌, ◌↔◌, ◌++◌, [], Some, IsTrue, IfOk, OnOk, length, map};
ghost use Rattle.std.specs.List.{flat_map};
ghost use Rattle.letter_acts.specs.Invariant.{alphabet_of};
ghost use Rattle.triple_rows.specs.Triples.{IsScoped};
ghost use Rattle.letter_acts.specs.Acts.{plain_act};
ghost use Rattle.itp_automaton.specs.Settling.{AreStatesIn, AreReturnSources, AreActSources, AreSources};

use letter_acts::{Act, Icfg};
use std::alloc::{AllocError, Global};
use triple_rows::{Scoped, is_over};

/// What a triple says before its letter, by the numbers of states.
#[derive(Clone, Copy)]
pub(crate) enum Source {
    /// Of an inside letter.
    Inside(usize),
    /// Of a call letter.
    Call(usize),
    /// Of a return: at the exit, and before the call.
    Back(usize, usize),
}

/// The sources of a letter's triples, and the procedure of their targets.
#[derive(Drop)]
pub(crate) struct Sources {
    /// The procedure of the targets.
    pub(crate) proc: u32,
    /// The sources.
    pub(crate) list: Vec<Source>,
}

/// Whether the predicate is of this procedure, which exists, and names columns of its frame alone.
fn is_scoped(icfg: &Icfg, proc: u32, scoped: &Scoped) -> bool
    ensures { IsTrue result ↔ IsScoped (alphabet_of icfg.now) proc scoped.now }
{
    match icfg.frames().get(proc as usize) {
        Some(frame) => scoped.proc == proc && is_over(&scoped.pred, frame.columns.len()),
        None => false,
    }
}

/// The states in the scope of a procedure.
pub(crate) fn states_in(
    alloc: Global,
    icfg: &Icfg,
    states: &[Scoped],
    proc: u32,
) -> Result<Vec<usize>, AllocError>
    ensures { IfOk result (λ found. AreStatesIn (alphabet_of icfg.now) states.now proc found.items) }
{
    let mut found = Vec::new(alloc);
    for (q, state) in states.iter().enumerate() {
        if is_scoped(icfg, proc, state) {
            found.push(q)?;
        }
    }
    Ok(found)
}

/// As sources of inside triples.
fn inside_sources(alloc: Global, states: &[usize]) -> Result<Vec<Source>, AllocError>
    ensures { IfOk result (λ sources. sources.items ≡ map Source.Inside states.now) }
{
    let mut sources = Vec::with_capacity(alloc, states.len())?;
    for state in states {
        sources.push(Source::Inside(*state))?;
    }
    Ok(sources)
}

/// As sources of call triples.
fn call_sources(alloc: Global, states: &[usize]) -> Result<Vec<Source>, AllocError>
    ensures { IfOk result (λ sources. sources.items ≡ map Source.Call states.now) }
{
    let mut sources = Vec::with_capacity(alloc, states.len())?;
    for state in states {
        sources.push(Source::Call(*state))?;
    }
    Ok(sources)
}

/// Adds the sources of return triples with this state at the exit.
fn add_exit(sources: &mut Vec<Source>, exit: usize, callers: &[usize]) -> Result<(), AllocError>
    ensures { OnOk result (sources.new.items ≡ sources.old.items ++ map (Source.Back exit) callers.now) }
{
    for before in callers {
        sources.push(Source::Back(exit, *before))?;
    }
    Ok(())
}

/// As sources of return triples.
fn back_sources(
    alloc: Global,
    exits: &[usize],
    callers: &[usize],
) -> Result<Vec<Source>, AllocError>
    ensures { IfOk result (λ sources. sources.items ≡ flat_map (λ exit. map (Source.Back exit) callers.now) exits.now) }
{
    let mut sources = Vec::new(alloc);
    for exit in exits {
        add_exit(&mut sources, *exit, callers)?;
    }
    Ok(sources)
}

/// No sources.
fn no_sources(alloc: Global) -> Sources
    ensures { result.list.items ≡ [] }
{
    Sources {
        proc: 0,
        list: Vec::new(alloc),
    }
}

/// The sources of the triples by a return from a call with this act.
fn return_sources(
    alloc: Global,
    icfg: &Icfg,
    states: &[Scoped],
    act: &Act,
) -> Result<Sources, AllocError>
    ensures { IfOk result (λ s. AreReturnSources (alphabet_of icfg.now) states.now (Some (plain_act act.now)) s.proc s.list.items) }
{
    let Act::Call { caller, callee, .. } = act else {
        return Ok(no_sources(alloc));
    };
    let exits = states_in(alloc, icfg, states, *callee)?;
    let callers = states_in(alloc, icfg, states, *caller)?;
    Ok(Sources {
        proc: *caller,
        list: back_sources(alloc, &exits, &callers)?,
    })
}

/// The sources of the triples by a letter with this act.
fn act_sources(
    alloc: Global,
    icfg: &Icfg,
    states: &[Scoped],
    act: &Act,
) -> Result<Sources, AllocError>
    ensures { IfOk result (λ s. AreActSources (alphabet_of icfg.now) states.now (Some (plain_act act.now)) s.proc s.list.items) }
{
    match act {
        Act::Inside { proc, .. } => {
            let found = states_in(alloc, icfg, states, *proc)?;
            let list = inside_sources(alloc, &found)?;
            Ok(Sources { proc: *proc, list })
        }
        Act::Call { caller, callee, .. } => {
            let found = states_in(alloc, icfg, states, *caller)?;
            let list = call_sources(alloc, &found)?;
            Ok(Sources {
                proc: *callee,
                list,
            })
        }
        Act::Back { call, .. } => match icfg.acts().get(*call as usize) {
            Some(called) => return_sources(alloc, icfg, states, called),
            None => Ok(no_sources(alloc)),
        },
    }
}

/// The sources of the triples over the states by a letter whose kinds and scopes agree.
pub(crate) fn sources_of(
    alloc: Global,
    icfg: &Icfg,
    states: &[Scoped],
    letter: u32,
) -> Result<Sources, AllocError>
    requires { letter < length icfg.now.acts }
    ensures { IfOk result (λ s. AreSources (alphabet_of icfg.now) states.now letter s.proc s.list.items) }
{
    act_sources(alloc, icfg, states, icfg.act_at(letter))
}

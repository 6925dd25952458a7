//! Saturated automata.

ghost use Rattle.std.specs.Prelude.{IfOk};
ghost use Rattle.std.specs.List.{AllByRecursion};
ghost use Rattle.letter_acts.specs.Invariant.{alphabet_of};
ghost use Rattle.hoare_check.specs.Decided.{IsProofFor};
ghost use Rattle.itp_automaton.specs.Certified.{IsCertified};
ghost use Rattle.itp_automaton.specs.Saturated.{IsSaturated};
ghost use Rattle.itp_automaton.specs.Making.{NameStatesFor, HasStates, HasEdges};

use crate::assembling::assembled;
use crate::automata::Certified;
use crate::settling::settle_all;
use crate::states::states_with;
use letter_acts::Icfg;
use std::alloc::{AllocError, Global};
use std::thread::Threads;
use triple_rows::{Proof, Scoped};

/// The saturated automaton over true and false of each procedure and the predicates, each once: its edges are the triples of
/// the proofs, which are for the graph and over these predicates, and all triples over them that Decide refutes without cuts.
pub fn saturate<R: Threads + Sync>(
    rt: &R,
    alloc: Global,
    icfg: &Icfg,
    preds: Vec<Scoped>,
    proofs: Vec<Proof>,
) -> Result<Certified, AllocError>
    requires proofs { AllByRecursion (IsProofFor (alphabet_of icfg.now)) proofs.items }
    requires named { NameStatesFor preds.items proofs.items }
    ensures certified { IfOk result (IsCertified (alphabet_of icfg.now)) }
    ensures saturated { IfOk result (IsSaturated (alphabet_of icfg.now)) }
    ensures states { IfOk result (HasStates icfg.now preds.items) }
    ensures edges { IfOk result (HasEdges (alphabet_of icfg.now) proofs.items) }
{
    let states = states_with(alloc, icfg.frames().len(), preds)?;
    let all = settle_all(rt, alloc, icfg, states.as_slice(), proofs)?;
    match assembled(alloc, icfg, states, all)? {
        Some(certified) => Ok(certified),
        None => unreachable!(),
    }
}

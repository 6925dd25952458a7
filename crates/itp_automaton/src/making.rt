//! Certified automata of given predicates and proofs.

ghost use Rattle.std.specs.Prelude.{◌≡◌, ◌↔◌, IsSome, IfOk, IfSome};
ghost use Rattle.std.specs.List.{AllByRecursion};
ghost use Rattle.letter_acts.specs.Invariant.{alphabet_of};
ghost use Rattle.hoare_check.specs.Decided.{IsProofFor};
ghost use Rattle.itp_automaton.specs.Certified.{IsCertified};
ghost use Rattle.itp_automaton.specs.Making.{NameStatesFor, HasStates, HasEdges};

use crate::assembling::assembled;
use crate::automata::Certified;
use crate::states::states_with;
use letter_acts::Icfg;
use std::alloc::{AllocError, Global};
use triple_rows::{Proof, Scoped};

/// The automaton whose states are true and false of each procedure and the predicates, each once, and whose edges are exactly
/// the triples of the proofs, which are for the graph. `None` exactly where one of these names a predicate that is neither
/// true, false nor in the list.
pub fn certified(
    alloc: Global,
    icfg: &Icfg,
    preds: Vec<Scoped>,
    proofs: Vec<Proof>,
) -> Result<Option<Certified>, AllocError>
    requires { AllByRecursion (IsProofFor (alphabet_of icfg.now)) proofs.items }
    ensures found { IfOk result (λ o. IsSome o ↔ NameStatesFor preds.items proofs.items) }
    ensures certified { IfOk result (λ o. IfSome o (IsCertified (alphabet_of icfg.now))) }
    ensures states { IfOk result (λ o. IfSome o (HasStates icfg.now preds.items)) }
    ensures proofs { IfOk result (λ o. IfSome o (λ c. c.proofs ≡ proofs.items)) }
    ensures edges { IfOk result (λ o. IfSome o (HasEdges (alphabet_of icfg.now) proofs.items)) }
{
    let states = states_with(alloc, icfg.frames().len(), preds)?;
    assembled(alloc, icfg, states, proofs)
}

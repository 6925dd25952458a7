//! The predicates that are listed: those of the triples that the automata prove, each once.

ghost use Rattle.std.specs.Prelude.{◌≡◌, ◌↔◌, [], IsTrue, IfOk, OnOk, length, map};
ghost use Rattle.std.specs.List.{AllByRecursion};
ghost use Rattle.letter_acts.specs.Acts.{frame_of};
ghost use Rattle.letter_acts.specs.Invariant.{alphabet_of};
ghost use Rattle.triple_rows.specs.Predicates.{IsOver, formula_of};
ghost use Rattle.triple_rows.specs.Triples.{Agrees};
ghost use Rattle.hoare_check.specs.Decided.{IsProofFor};
ghost use Rattle.itp_automaton.specs.Certified.{IsCertified};
ghost use Rattle.itp_automaton.specs.Making.{named_in};
ghost use Rattle.proof_build.specs.Numbering.{HasBody, AreListed, IsNumbered, AreNumbered, AreAllNumbered, ListsMore};

use crate::numbers::number_of;
use itp_automaton::{Certified, Predicates};
use letter_acts::Icfg;
use std::alloc::{AllocError, Global};
use triple_rows::{Proof, Scoped, Triple};

/// Whether the procedure has a body.
fn has_body(icfg: &Icfg, proc: u32) -> bool
    ensures { IsTrue result ↔ HasBody icfg.now proc }
{
    matches!(icfg.entries().get(proc as usize), Some(Some(_)))
}

/// Lists a predicate of a procedure with a body, unless it has a number.
fn list_pred(icfg: &Icfg, preds: &mut Predicates, scoped: &Scoped) -> Result<(), AllocError>
    requires listed { AreListed icfg.now preds.old }
    requires over { IsOver (length (frame_of (alphabet_of icfg.now) scoped.now.proc)) (formula_of scoped.now.pred) }
    ensures more { OnOk result (ListsMore icfg.now preds.old preds.new) }
    ensures numbered { OnOk result (IsNumbered icfg.now preds.new scoped.now) }
{
    if number_of(preds, scoped)?.is_none() && has_body(icfg, scoped.proc) {
        preds.push(scoped.copy()?)?;
    }
    Ok(())
}

/// Lists the predicates of a triple that agrees with its letter.
fn list_triple(icfg: &Icfg, preds: &mut Predicates, triple: &Triple) -> Result<(), AllocError>
    requires listed { AreListed icfg.now preds.old }
    requires agrees { Agrees (alphabet_of icfg.now) triple.now }
    ensures more { OnOk result (ListsMore icfg.now preds.old preds.new) }
    ensures numbered { OnOk result (AllByRecursion (IsNumbered icfg.now preds.new) (named_in triple.now)) }
{
    match triple {
        Triple::Inside { from, to, .. } => {
            list_pred(icfg, preds, from)?;
            list_pred(icfg, preds, to)
        }
        Triple::Call { from, to, .. } => {
            list_pred(icfg, preds, from)?;
            list_pred(icfg, preds, to)
        }
        Triple::Back {
            exit,
            before,
            to,
            ..
        } => {
            list_pred(icfg, preds, exit)?;
            list_pred(icfg, preds, before)?;
            list_pred(icfg, preds, to)
        }
    }
}

/// Lists the predicates of proofs.
fn list_proofs(icfg: &Icfg, preds: &mut Predicates, proofs: &[Proof]) -> Result<(), AllocError>
    requires listed { AreListed icfg.now preds.old }
    requires proofs { AllByRecursion (IsProofFor (alphabet_of icfg.now)) proofs.now }
    ensures more { OnOk result (ListsMore icfg.now preds.old preds.new) }
    ensures numbered { OnOk result (AreNumbered icfg.now preds.new proofs.now) }
{
    for proof in proofs {
        list_triple(icfg, preds, proof.triple())?;
    }
    Ok(())
}

/// The predicates of all proofs whose procedures have bodies, but true and false.
pub(crate) fn listed_preds(
    alloc: Global,
    icfg: &Icfg,
    automata: &[&Certified],
) -> Result<Predicates, AllocError>
    requires { AllByRecursion (IsCertified (alphabet_of icfg.now)) (map (λ c. c.now) automata.now) }
    ensures listed { IfOk result (AreListed icfg.now) }
    ensures numbered { IfOk result (λ v. AreAllNumbered icfg.now v (map (λ c. c.now) automata.now)) }
    ensures none { IfOk result (λ v. automata.now ≡ [] → v ≡ []) }
{
    let mut preds = Predicates::new(alloc);
    for automaton in automata {
        list_proofs(icfg, &mut preds, automaton.proofs())?;
    }
    Ok(preds)
}

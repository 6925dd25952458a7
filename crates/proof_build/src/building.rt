//! The annotation of a safe verdict.

ghost use Rattle.std.specs.Prelude.{◌≡◌, [], IfOk, map};
ghost use Rattle.std.specs.List.{AllByRecursion};
ghost use Rattle.letter_acts.specs.Invariant.{alphabet_of};
ghost use Rattle.itp_automaton.specs.Certified.{IsCertified};
ghost use Rattle.proof_names.specs.Items.{Names};
ghost use Rattle.proof_names.specs.Outlines.{Sketch};
ghost use Rattle.proof_names.specs.ProofSpell.Drafts.{MayBeSpelled};
ghost use Rattle.proof_names.specs.ProofSpell.Spelled.{Outlines, Spells};
ghost use Rattle.proof_check.specs.Proves.{Proves};
ghost use Rattle.proof_build.specs.ProofUnwind.Exploring.{IsOverPreds};
ghost use Rattle.proof_build.specs.Numbering.{StartHasBody, AreListed, AreAllNumbered};
ghost use Rattle.proof_build.specs.Unwindings.{draft_of};
ghost use Rattle.proof_build.specs.Unwound.{AreCovering};
ghost use Rattle.proof_build.specs.Ties.Built.{unwinding_of, IsUnwoundBy};
ghost use Rattle.proof_build.specs.Sketches.{Says, AreReachable, AreInOrder, AreUsed, AreOnce};
ghost use Rattle.proof_build.specs.Ties.Unions.{IsUnionOf};

use crate::listing::listed_preds;
use crate::needs::needed_by;
use crate::proof_unwind::{Unwound, by_place, unwind};
use crate::spots::{named_nodes, named_steps};
use crate::triples::triples_of;
use crate::unions::union_of;
use itp_automaton::{Certified, Predicates};
use letter_acts::Icfg;
use nwa_base::Nwa;
use proof_form::Annotation;
use proof_names::proof_spell::{Shown, spell};
use std::alloc::{AllocError, Global};

/// The graph unwound by the union of the automata, its nodes in the order of their places.
fn unwound_by(alloc: Global, icfg: &Icfg, union: &Nwa) -> Result<Unwound, AllocError>
    requires { IsOverPreds union.now }
    ensures { IfOk result (IsUnwoundBy icfg.now union.now) }
{
    prove!(icfg.nwa().start() < icfg.nwa().states());
    let found = unwind(alloc, icfg.nwa(), union)?;
    by_place(alloc, &found)
}

/// The annotation of predicates, triples, nodes and steps.
fn spelled(
    alloc: Global,
    icfg: &Icfg,
    preds: &Predicates,
    triples: &[Shown<'_>],
    unwound: &Unwound,
) -> Result<Annotation, AllocError>
    requires { MayBeSpelled icfg.now (draft_of (unwinding_of preds.now triples.now unwound.now)) }
    ensures spells { IfOk result (λ a. Spells icfg.now a (draft_of (unwinding_of preds.now triples.now unwound.now))) }
    ensures names { IfOk result (λ a. (s : Sketch) × Names icfg.now a s × Outlines icfg.now s (draft_of (unwinding_of preds.now triples.now unwound.now))) }
{
    let nodes = named_nodes(alloc, &unwound.nodes)?;
    let steps = named_steps(alloc, &unwound.steps)?;
    spell(alloc, icfg, preds.as_slice(), triples, &nodes, &steps)
}

/// The annotation that the automata make, which `check` accepts. Its nodes are reached from the first one, and their places ascend; each triple
/// is used by a step, and listed once.
pub fn build(alloc: Global, icfg: &Icfg, automata: &[&Certified]) -> Result<Annotation, AllocError>
    requires certified { AllByRecursion (IsCertified (alphabet_of icfg.now)) (map (λ c. c.now) automata.now) }
    requires covering { AreCovering icfg.now.automaton (map (λ c. c.now.automaton) automata.now) }
    requires body { StartHasBody icfg.now }
    ensures proves { IfOk result (Proves icfg.now) }
    ensures none { IfOk result (λ a. automata.now ≡ [] → (a.preds ≡ []) × (a.triples ≡ [])) }
    ensures reachable { IfOk result (Says icfg.now AreReachable) }
    ensures ascend { IfOk result (Says icfg.now AreInOrder) }
    ensures used { IfOk result (Says icfg.now AreUsed) }
    ensures once { IfOk result (Says icfg.now AreOnce) }
{
    let preds = listed_preds(alloc, icfg, automata)?;
    over_preds(alloc, icfg, automata, &preds)
}

/// The annotation over the predicates that are listed.
fn over_preds(
    alloc: Global,
    icfg: &Icfg,
    automata: &[&Certified],
    preds: &Predicates,
) -> Result<Annotation, AllocError>
    requires certified { AllByRecursion (IsCertified (alphabet_of icfg.now)) (map (λ c. c.now) automata.now) }
    requires covering { AreCovering icfg.now.automaton (map (λ c. c.now.automaton) automata.now) }
    requires body { StartHasBody icfg.now }
    requires listed { AreListed icfg.now preds.now }
    requires numbered { AreAllNumbered icfg.now preds.now (map (λ c. c.now) automata.now) }
    requires none { automata.now ≡ [] → preds.now ≡ [] }
    ensures proves { IfOk result (Proves icfg.now) }
    ensures none { IfOk result (λ a. automata.now ≡ [] → (a.preds ≡ []) × (a.triples ≡ [])) }
    ensures reachable { IfOk result (Says icfg.now AreReachable) }
    ensures ascend { IfOk result (Says icfg.now AreInOrder) }
    ensures used { IfOk result (Says icfg.now AreUsed) }
    ensures once { IfOk result (Says icfg.now AreOnce) }
{
    let union = union_of(alloc, preds, automata)?;
    let Ok(unwound) = unwound_by(alloc, icfg, &union) else {
        drop(union);
        return Err(AllocError);
    };
    let built = over_nodes(alloc, icfg, automata, preds, &union, &unwound);
    drop(union);
    built
}

/// The annotation of the graph that is unwound.
fn over_nodes(
    alloc: Global,
    icfg: &Icfg,
    automata: &[&Certified],
    preds: &Predicates,
    union: &Nwa,
    unwound: &Unwound,
) -> Result<Annotation, AllocError>
    requires certified { AllByRecursion (IsCertified (alphabet_of icfg.now)) (map (λ c. c.now) automata.now) }
    requires covering { AreCovering icfg.now.automaton (map (λ c. c.now.automaton) automata.now) }
    requires body { StartHasBody icfg.now }
    requires listed { AreListed icfg.now preds.now }
    requires numbered { AreAllNumbered icfg.now preds.now (map (λ c. c.now) automata.now) }
    requires none { automata.now ≡ [] → preds.now ≡ [] }
    requires union { IsUnionOf preds.now (map (λ c. c.now) automata.now) union.now }
    requires unwound { IsUnwoundBy icfg.now union.now unwound.now }
    ensures proves { IfOk result (Proves icfg.now) }
    ensures none { IfOk result (λ a. automata.now ≡ [] → (a.preds ≡ []) × (a.triples ≡ [])) }
    ensures reachable { IfOk result (Says icfg.now AreReachable) }
    ensures ascend { IfOk result (Says icfg.now AreInOrder) }
    ensures used { IfOk result (Says icfg.now AreUsed) }
    ensures once { IfOk result (Says icfg.now AreOnce) }
{
    let needed = needed_by(alloc, union, unwound)?;
    let triples = triples_of(alloc, preds, &needed, automata)?;
    spelled(alloc, icfg, preds, &triples, unwound)
}

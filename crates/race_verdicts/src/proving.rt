//! The annotation of a race that ended without a word.

ghost use Rattle.std.specs.Prelude.{◌≡◌, IfOk, IsTrue, Option, Some, map};
ghost use Rattle.typed_tree.specs.TypingRules.TypedParts.{typed_program};
ghost use Rattle.lowered_graph.specs.Lowered.{lowered};
ghost use Rattle.proof_form.specs.Annotations.{is_annotation};
ghost use Rattle.proof_check.specs.Proves.{Proves};
ghost use Rattle.race_core.specs.declared.ends.End.TheVariants.{Safe};
ghost use Rattle.race_core.specs.declared.events.Entry.{Entry};
ghost use Rattle.itp_automaton.specs.Certified.{Certificate};
ghost use Rattle.race_rounds.specs.declared.limits.Limits.{Limits};
ghost use Rattle.race_rounds.specs.Rounds.{IsRaceOf};

use itp_automaton::Certified;
use letter_acts::Icfg;
use proof_build::build;
use proof_build::proof_lean::lean;
use proof_form::Annotation;
use race_core::{Entry, Shared};
use std::alloc::{AllocError, Global};
use typed_tree::typing_rules::Typed;

/// The automata of entries.
fn automata_in<'a>(
    alloc: Global,
    history: &'a [Entry<Certified>],
) -> Result<Vec<&'a Certified>, AllocError>
    ensures { IfOk result (λ v. map (λ c. c.now) v.items ≡ map (λ e. e.evidence) history.now) }
{
    let mut automata = Vec::with_capacity(alloc, history.len())?;
    for entry in history {
        automata.push(&entry.evidence)?;
    }
    Ok(automata)
}

/// The annotation that the automata of a race make, which ended since no word is left.
pub(crate) fn annotation_of(
    alloc: Global,
    program: &Typed,
    icfg: &Icfg,
    race: &Shared<Certified>,
) -> Result<Annotation, AllocError>
    requires lowered { icfg.now ≡ lowered (typed_program program.now) }
    requires race { (given : Option (Entry Certificate)) × (l : Limits) × IsRaceOf (typed_program program.now) given l race.now }
    requires safe { race.now.end ≡ Some Safe }
    ensures proves { IfOk result (Proves icfg.now) }
    ensures lines { IfOk result (λ a. IsTrue (is_annotation a)) }
{
    // Contracts alone speak of these.
    let _globals = program.globals();
    let automata = automata_in(alloc, race.history())?;
    let annotation = build(alloc, icfg, &automata)?;
    lean(alloc, icfg, annotation)
}

//! Whole programs.

ghost use Rattle.std.specs.Prelude.{◌≡◌, map, None, Some, Err, IsOk, IfOk};
ghost use Rattle.boogie_tree.specs.declared.span.Span.{Span};
ghost use Rattle.typed_tree.specs.TypingRules.TypedParts.{typed_program};
ghost use Rattle.nwa_base.specs.Automata.{IsAutomaton};
ghost use Rattle.letter_acts.specs.Invariant.{IsGraph, alphabet_of};
ghost use Rattle.letter_acts.specs.Widths.{ActsFit};
ghost use Rattle.letter_acts.specs.LetterTable.Letters as letters;
ghost use Rattle.lowered_graph.specs.Arcs.{program_arcs};
ghost use Rattle.lowered_graph.specs.Items as items;
ghost use Rattle.lowered_graph.specs.Laws.{IsFaithful};
ghost use Rattle.lowered_graph.specs.Lowered.{program_sites, lowered};
ghost use Rattle.icfg_lower.specs.PlaceEdges.Faults.{plain_faults};

use crate::building::graph;
use crate::faults::LowerFault;
use crate::place_edges::{ItemFault, Lowered};
use crate::program_layout::{Layout, lay_out};
use crate::program_walk::walk;
use letter_acts::Icfg;
use lowered_graph::laws::{
    lowered_programs_are_graphs, lowered_programs_have_automata, lowering_is_faithful,
};
use std::alloc::{AllocError, Global};
use typed_tree::typing_rules::Typed;

/// What the graph of a typed program is worth, and what it keeps.
fn laws(program: &Typed)
    ensures faithful { IsFaithful (typed_program program.now) (lowered (typed_program program.now)) }
    ensures automaton { IsAutomaton (lowered (typed_program program.now)).automaton }
    ensures kept { ActsFit (alphabet_of (lowered (typed_program program.now))) → IsGraph (lowered (typed_program program.now)) }
{
    lowering_is_faithful();
    lowered_programs_have_automata();
    lowered_programs_are_graphs();
    let _globals = program.globals();
}

/// The edges and assertions of a program, and the fault of its first item that has one; the edges are all there where none has.
fn walked(alloc: Global, layout: &Layout<'_>) -> Result<Lowered, AllocError>
    ensures sites { IfOk result (λ l. l.sites.items ≡ map (λ s. s.1) (program_sites (typed_program layout.now))) }
    ensures fault { IfOk result (λ l. plain_faults l.fault ≡ items.first_fault (typed_program layout.now)) }
    ensures edges { IfOk result (λ l. l.fault ≡ None → l.table ≡ letters.lettered (program_arcs (typed_program layout.now))) }
{
    Ok(walk(alloc, layout)?.finish())
}

/// The automaton of a program: where some run fails an assertion, some feasible word leads to the place where it fails; and where such a
/// word has no coarse letter, some run fails it. It is refused, want of memory aside, exactly where an item needs a list of more than 4,096
/// members or, else, a number that does not fit, and then the first such item in the text is told. An item is an axiom, a statement, an
/// invariant, a plain requires of the entry procedure, or a free requires or an ensures of a procedure with a body.
pub fn lower(alloc: Global, program: &Typed) -> Result<Icfg, LowerFault>
    ensures value { IfOk result (λ i. i ≡ lowered (typed_program program.now)) }
    ensures fits { IsOk result → items.first_fault (typed_program program.now) ≡ None }
    ensures too_wide { (at : Span) → result ≡ Err (LowerFault.TooWide at) → items.first_fault (typed_program program.now) ≡ Some (items.TooWide at) }
    ensures too_big { (at : Span) → result ≡ Err (LowerFault.TooBig at) → items.first_fault (typed_program program.now) ≡ Some (items.TooBig at) }
    ensures faithful { IfOk result (λ i. IsFaithful (typed_program program.now) i) }
{
    laws(program);
    let layout = lay_out(alloc, program)?;
    let Lowered {
        table,
        sites,
        fault,
    } = walked(alloc, &layout)?;
    match fault {
        Some(ItemFault::TooWide(span)) => Err(LowerFault::TooWide(span)),
        Some(ItemFault::TooBig(span)) => Err(LowerFault::TooBig(span)),
        None => Ok(graph(alloc, layout, sites, table.finish())?),
    }
}

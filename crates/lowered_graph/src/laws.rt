//! Laws of the graph of a typed program.

ghost use Rattle.lowered_graph.specs.LetterLaws as letters;
ghost use Rattle.lowered_graph.specs.Laws as law;

use crate::lowered_imports::laws::points_of_typed_programs;
use crate::lowered_runs::laws::machines_of_typed_programs;
use boogie_run::boogie_places::laws::places_of_typed_programs;
use boogie_run::run_rules::laws::machine_follows_rules;

/// Equal acts are one letter: the list of acts has no act twice and only grows, and the edges by letters are exactly those of the
/// arcs, each by the letter of its act.
pub fn letters_of_arcs()
    ensures same { letters.SameActDecides }
    ensures appended { letters.ActsAreAppended }
    ensures differ { letters.ActsDiffer }
    ensures insides { letters.InsidesAreArcs }
    ensures calls { letters.CallsAreArcs }
    ensures backs { letters.BacksAreArcs }
{}

/// Where the stack machine of a typed program over its points fails an assertion, some feasible word leads, in the automaton of its graph, to
/// the place where that assertion fails; and where such a word has no coarse letter, the machine fails it by exact steps.
pub fn machine_runs_are_words()
    ensures { law.MachineIsJoined }
{
    places_of_typed_programs();
}

/// Faithful: where some run of a typed program fails an assertion, some feasible word leads, in the automaton of its graph, to the place
/// where that assertion fails; and where such a word has no coarse letter, some run fails it.
pub fn lowering_is_faithful()
    ensures { law.LoweringIsFaithful }
{
    machine_follows_rules();
    machine_runs_are_words();
    machines_of_typed_programs();
}

/// The graph of a typed program keeps the invariant of graphs, wherever the numbers of the columns of its acts fit.
pub fn lowered_programs_are_graphs()
    ensures { law.LoweredIsGraph }
{
    places_of_typed_programs();
    points_of_typed_programs();
}

/// The edges of the graph of a typed program lead between its states, by letters of their kind, whatever the numbers of its columns.
pub fn lowered_programs_have_automata()
    ensures { law.LoweredIsAutomaton }
{
    places_of_typed_programs();
    points_of_typed_programs();
}

/// Where no point of a typed program reads a product of two expressions, no letter of its graph is coarse, and so no word has a coarse letter.
pub fn letters_are_exact()
    ensures letters { law.LettersAreExact }
    ensures words { law.WordsAreExact }
{}

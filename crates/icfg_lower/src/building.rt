//! The graph of what has been lowered.

ghost use Rattle.std.specs.Prelude.{◌≡◌, ◌≢◌, ◌+◌, ◌<◌, ◌++◌, [], Ok, Err, map, length, replicate, IsErr, IfOk, OnOk};
ghost use Rattle.std.specs.List.{AllByRecursion};
ghost use Rattle.std.specs.Option.{option_map};
ghost use Rattle.typed_tree.specs.TypedView as view;
ghost use Rattle.typed_tree.specs.TypingRules.TypedParts.{typed_program};
ghost use Rattle.nwa_base.specs.declared.letters.Kind.TheVariants.{Inside, Call};
ghost use Rattle.nwa_base.specs.Automata.{IsAutomaton, IsEdge, IsBackEdge};
ghost use Rattle.letter_acts.specs.Invariant.{IsGraph, alphabet_of, site_places};
ghost use Rattle.letter_acts.specs.Parts as parts;
ghost use Rattle.letter_acts.specs.Widths.{ActsFit};
ghost use Rattle.letter_acts.specs.LetterTable.Letters as letters;
ghost use Rattle.lowered_graph.specs.Arcs.{program_arcs};
ghost use Rattle.lowered_graph.specs.Lowered.{counted_procs, entry_of, exit_of, place_owners, program_sites, lowered};
ghost use Rattle.icfg_lower.specs.Ties.Bodies.{body_marks};
ghost use Rattle.icfg_lower.specs.Ties.Owners.{owners_from, site_owners_from};
ghost use Rattle.icfg_lower.specs.Ties.Built.{plain_lettered};

use crate::program_layout::{Layout, Marks};
use boogie_run::boogie_points::procedure_at;
use boogie_tree::Text;
use letter_acts::letter_table::Lettered;
use letter_acts::{Act, Frame, Icfg, Site, icfg};
use nwa_base::{Letter, Nwa, NwaFault, empty};
use std::alloc::{AllocError, Global};
use typed_tree::TProc;

/// What an automaton answers where its states are there and each letter has its kind.
fn added<T: Drop>(answer: Result<T, NwaFault>) -> Result<T, AllocError>
    requires state { answer ≢ Err NwaFault.BadState }
    requires letter { answer ≢ Err NwaFault.BadLetter }
    ensures { IfOk result (λ value. answer ≡ Ok value) }
{
    match answer {
        Ok(value) => Ok(value),
        Err(NwaFault::Memory) => Err(AllocError),
        Err(NwaFault::BadState | NwaFault::BadLetter) => unreachable!(),
    }
}

/// Makes the places where assertions fail final.
fn set_finals(nwa: &mut Nwa, sites: &[Site]) -> Result<(), AllocError>
    requires { AllByRecursion (λ s. s.place < nwa.old.states) sites.now }
    ensures { OnOk result (nwa.new ≡ record nwa.old { finals = nwa.old.finals ++ site_places sites.now }) }
{
    for site in sites {
        added(nwa.set_final(site.place))?;
    }
    Ok(())
}

/// Adds edges by inside letters.
fn add_insides(nwa: &mut Nwa, edges: &[(u32, Letter, u32)]) -> Result<(), AllocError>
    requires { AllByRecursion (IsEdge nwa.old.states Inside) edges.now }
    ensures { OnOk result (nwa.new ≡ record nwa.old { insides = nwa.old.insides ++ edges.now }) }
{
    for (from, letter, to) in edges {
        added(nwa.add_inside(*from, *letter, *to))?;
    }
    Ok(())
}

/// Adds edges by call letters.
fn add_calls(nwa: &mut Nwa, edges: &[(u32, Letter, u32)]) -> Result<(), AllocError>
    requires { AllByRecursion (IsEdge nwa.old.states Call) edges.now }
    ensures { OnOk result (nwa.new ≡ record nwa.old { calls = nwa.old.calls ++ edges.now }) }
{
    for (from, letter, to) in edges {
        added(nwa.add_call(*from, *letter, *to))?;
    }
    Ok(())
}

/// Adds edges by returns.
fn add_backs(nwa: &mut Nwa, edges: &[(u32, u32, Letter, u32)]) -> Result<(), AllocError>
    requires { AllByRecursion (IsBackEdge nwa.old.states) edges.now }
    ensures { OnOk result (nwa.new ≡ record nwa.old { backs = nwa.old.backs ++ edges.now }) }
{
    for (from, before, letter, to) in edges {
        added(nwa.add_back(*from, *before, *letter, *to))?;
    }
    Ok(())
}

/// Adds these edges, and makes the places where assertions fail final.
fn fill(nwa: &mut Nwa, sites: &[Site], lettered: &Lettered) -> Result<(), AllocError>
    requires { IsAutomaton (record nwa.old { finals = site_places sites.now; insides = lettered.now.insides.items; calls = lettered.now.calls.items; backs = lettered.now.backs.items }) }
    ensures { OnOk result (nwa.new ≡ record nwa.old { finals = nwa.old.finals ++ site_places sites.now; insides = nwa.old.insides ++ lettered.now.insides.items; calls = nwa.old.calls ++ lettered.now.calls.items; backs = nwa.old.backs ++ lettered.now.backs.items }) }
{
    set_finals(nwa, sites)?;
    add_insides(nwa, &lettered.insides)?;
    add_calls(nwa, &lettered.calls)?;
    add_backs(nwa, &lettered.backs)
}

/// The automaton with these edges, which starts at place 0 and whose final states are the places where assertions fail.
fn automaton(
    alloc: Global,
    states: u32,
    sites: &[Site],
    lettered: &Lettered,
) -> Result<Nwa, AllocError>
    requires { IsAutomaton (record { states = states; start = 0; finals = site_places sites.now; insides = lettered.now.insides.items; calls = lettered.now.calls.items; backs = lettered.now.backs.items }) }
    ensures { IfOk result (λ m. m ≡ record { states = states; start = 0; finals = site_places sites.now; insides = lettered.now.insides.items; calls = lettered.now.calls.items; backs = lettered.now.backs.items }) }
{
    let mut nwa = added(empty(alloc, states, 0))?;
    fill(&mut nwa, sites, lettered)?;
    Ok(nwa)
}

/// How many procedures there are.
fn procedures(layout: &Layout<'_>) -> u32
    ensures { result ≡ length (typed_program layout.now).procs }
{
    layout.program().procs().len() as u32
}

/// Adds a procedure so many times.
fn add_owner(owners: &mut Vec<u32>, proc: u32, count: u32) -> Result<(), AllocError>
    ensures { OnOk result (owners.new.items ≡ owners.old.items ++ replicate count proc) }
{
    for _place in 0..count {
        owners.push(proc)?;
    }
    Ok(())
}

/// Adds a procedure once for each of its places.
fn add_places(layout: &Layout<'_>, proc: u32, owners: &mut Vec<u32>) -> Result<(), AllocError>
    requires { proc < length (typed_program layout.now).procs }
    ensures { OnOk result (owners.new.items ++ owners_from (typed_program layout.now) (proc + 1) ≡ owners.old.items ++ owners_from (typed_program layout.now) proc) }
{
    let Some(marks) = layout.marks(proc) else {
        return Ok(());
    };
    add_owner(owners, proc, marks.end - marks.entry)
}

/// Adds a procedure once for each of its assertions.
fn add_sites(layout: &Layout<'_>, proc: u32, owners: &mut Vec<u32>) -> Result<(), AllocError>
    requires { proc < length (typed_program layout.now).procs }
    ensures { OnOk result (owners.new.items ++ site_owners_from (typed_program layout.now) (proc + 1) ≡ owners.old.items ++ site_owners_from (typed_program layout.now) proc) }
{
    let Some(marks) = layout.marks(proc) else {
        return Ok(());
    };
    add_owner(owners, proc, marks.last - marks.first)
}

/// Adds the procedures in order, each once for each of its places.
fn add_all_places(layout: &Layout<'_>, owners: &mut Vec<u32>) -> Result<(), AllocError>
    ensures { OnOk result (owners.new.items ≡ owners.old.items ++ owners_from (typed_program layout.now) 0) }
{
    for proc in 0..procedures(layout) {
        add_places(layout, proc, owners)?;
    }
    Ok(())
}

/// Adds the procedures in order, each once for each of its assertions.
fn add_all_sites(layout: &Layout<'_>, owners: &mut Vec<u32>) -> Result<(), AllocError>
    ensures { OnOk result (owners.new.items ≡ owners.old.items ++ site_owners_from (typed_program layout.now) 0) }
{
    for proc in 0..procedures(layout) {
        add_sites(layout, proc, owners)?;
    }
    Ok(())
}

/// Adds the procedure of each place: of the start and its conditions the entry procedure, then of the places of each procedure, then of
/// the places where its assertions fail.
fn add_owners(layout: &Layout<'_>, owners: &mut Vec<u32>) -> Result<(), AllocError>
    requires { owners.old.items ≡ [] }
    ensures { OnOk result (owners.new.items ≡ place_owners (typed_program layout.now)) }
{
    let entry = layout.program().entry();
    add_owner(owners, entry, 1 + layout.start_conditions())?;
    add_all_places(layout, owners)?;
    add_all_sites(layout, owners)
}

/// The numbers of a procedure, where it has a body.
fn body_marks(layout: &Layout<'_>, proc: u32) -> Option<Marks>
    ensures { result ≡ body_marks (typed_program layout.now) proc }
{
    let listed = procedure_at(layout.program().procs(), proc)?;
    match &listed.body {
        Some(_) => layout.marks(proc),
        None => None,
    }
}

/// Where the body of a procedure begins, if it has one.
fn entry_of(layout: &Layout<'_>, proc: u32) -> Option<u32>
    ensures { result ≡ option_map (λ m. m.entry) (body_marks (typed_program layout.now) proc) }
{
    let marks = body_marks(layout, proc)?;
    Some(marks.entry)
}

/// Where the body of a procedure returns, if it has one.
fn exit_of(layout: &Layout<'_>, proc: u32) -> Option<u32>
    ensures { result ≡ option_map (λ m. m.returns) (body_marks (typed_program layout.now) proc) }
{
    let marks = body_marks(layout, proc)?;
    Some(marks.returns)
}

/// Adds where the body of each procedure begins, and where it returns.
fn add_ends(
    layout: &Layout<'_>,
    entries: &mut Vec<Option<u32>>,
    exits: &mut Vec<Option<u32>>,
) -> Result<(), AllocError>
    requires entries { entries.old.items ≡ [] }
    requires exits { exits.old.items ≡ [] }
    ensures entries { OnOk result (entries.new.items ≡ map (entry_of (typed_program layout.now)) (counted_procs 0 (typed_program layout.now).procs)) }
    ensures exits { OnOk result (exits.new.items ≡ map (exit_of (typed_program layout.now)) (counted_procs 0 (typed_program layout.now).procs)) }
{
    for proc in 0..procedures(layout) {
        entries.push(entry_of(layout, proc))?;
        exits.push(exit_of(layout, proc))?;
    }
    Ok(())
}

/// Adds the names of the procedures.
fn add_names(procs: &[TProc], names: &mut Vec<Text>) -> Result<(), AllocError>
    requires { names.old.items ≡ [] }
    ensures { OnOk result (names.new.items ≡ map (λ q. q.name) (map view.procedure procs.now)) }
{
    for listed in procs {
        names.push(listed.name.copy()?)?;
    }
    Ok(())
}

/// What a graph lists of its procedures and places.
#[derive(Drop)]
struct ProcedureLists {
    names: Vec<Text>,
    owners: Vec<u32>,
    entries: Vec<Option<u32>>,
    exits: Vec<Option<u32>>,
}

/// Fills the lists of a program.
fn fill_lists(layout: &Layout<'_>, lists: &mut ProcedureLists) -> Result<(), AllocError>
    requires names { lists.old.names.items ≡ [] }
    requires owners { lists.old.owners.items ≡ [] }
    requires entries { lists.old.entries.items ≡ [] }
    requires exits { lists.old.exits.items ≡ [] }
    ensures names { OnOk result (lists.new.names.items ≡ map (λ q. q.name) (typed_program layout.now).procs) }
    ensures owners { OnOk result (lists.new.owners.items ≡ place_owners (typed_program layout.now)) }
    ensures entries { OnOk result (lists.new.entries.items ≡ map (entry_of (typed_program layout.now)) (counted_procs 0 (typed_program layout.now).procs)) }
    ensures exits { OnOk result (lists.new.exits.items ≡ map (exit_of (typed_program layout.now)) (counted_procs 0 (typed_program layout.now).procs)) }
{
    add_ends(layout, &mut lists.entries, &mut lists.exits)?;
    add_owners(layout, &mut lists.owners)?;
    add_names(layout.program().procs(), &mut lists.names)
}

/// The lists of a program.
fn procedure_lists(alloc: Global, layout: &Layout<'_>) -> Result<ProcedureLists, AllocError>
    ensures names { IfOk result (λ l. l.names.items ≡ map (λ q. q.name) (typed_program layout.now).procs) }
    ensures owners { IfOk result (λ l. l.owners.items ≡ place_owners (typed_program layout.now)) }
    ensures entries { IfOk result (λ l. l.entries.items ≡ map (entry_of (typed_program layout.now)) (counted_procs 0 (typed_program layout.now).procs)) }
    ensures exits { IfOk result (λ l. l.exits.items ≡ map (exit_of (typed_program layout.now)) (counted_procs 0 (typed_program layout.now).procs)) }
{
    let mut lists = ProcedureLists {
        names: Vec::new(alloc),
        owners: Vec::new(alloc),
        entries: Vec::new(alloc),
        exits: Vec::new(alloc),
    };
    fill_lists(layout, &mut lists)?;
    Ok(lists)
}

/// The graph of parts that keep the invariant of graphs wherever the numbers of the columns of its acts have 32 bits. It is refused only
/// where such a number passes 32 bits, and this is answered as want of memory.
fn joined(
    nwa: Nwa,
    acts: Vec<Act>,
    frames: Vec<Frame>,
    lists: ProcedureLists,
    sites: Vec<Site>,
) -> Result<Icfg, AllocError>
    requires { ActsFit (alphabet_of (parts.graph nwa acts.items frames.items lists.names.items lists.owners.items lists.entries.items lists.exits.items sites.items)) → IsGraph (parts.graph nwa acts.items frames.items lists.names.items lists.owners.items lists.entries.items lists.exits.items sites.items) }
    ensures value { IfOk result (λ i. i ≡ parts.graph nwa acts.items frames.items lists.names.items lists.owners.items lists.entries.items lists.exits.items sites.items) }
    ensures wide { IsErr result → ActsFit (alphabet_of (parts.graph nwa acts.items frames.items lists.names.items lists.owners.items lists.entries.items lists.exits.items sites.items)) → ⊥ }
{
    let ProcedureLists {
        names,
        owners,
        entries,
        exits,
    } = lists;
    match icfg(nwa, acts, frames, names, owners, entries, exits, sites) {
        Some(found) => Ok(found),
        None => Err(AllocError),
    }
}

/// The graph of a program whose edges and assertions these are. That of a typed program has an automaton, and it keeps the invariant of
/// graphs wherever the numbers of the columns of its acts have 32 bits.
pub(crate) fn graph(
    alloc: Global,
    layout: Layout<'_>,
    sites: Vec<Site>,
    lettered: Lettered,
) -> Result<Icfg, AllocError>
    requires sites { sites.items ≡ map (λ s. s.1) (program_sites (typed_program layout)) }
    requires lettered { plain_lettered lettered ≡ letters.lettered (program_arcs (typed_program layout)) }
    requires automaton { IsAutomaton (lowered (typed_program layout)).automaton }
    requires kept { ActsFit (alphabet_of (lowered (typed_program layout))) → IsGraph (lowered (typed_program layout)) }
    ensures { IfOk result (λ i. i ≡ lowered (typed_program layout.entry)) }
{
    let lists = procedure_lists(alloc, &layout)?;
    let nwa = automaton(alloc, layout.places(), &sites, &lettered)?;
    joined(nwa, lettered.acts, layout.into_frames(), lists, sites)
}

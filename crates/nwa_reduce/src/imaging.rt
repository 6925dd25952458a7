//! Automata under names: states with one name become one, and states without a name are left out.

ghost use Rattle.std.specs.Prelude.{◌≡◌, ◌≢◌, ◌<◌, ◌++◌, ◌↔◌, ℕ, List, [], Some, Ok, Err, IfOk, OnOk};
ghost use Rattle.std.specs.List.{AllByRecursion};
ghost use Rattle.nwa_base.specs.declared.letters.Kind.TheVariants.{Inside, Call};
ghost use Rattle.nwa_base.specs.declared.letters.Letter.{Letter};
ghost use Rattle.nwa_base.specs.Automata.{IsAutomaton, IsEdge, IsBackEdge};
ghost use Rattle.nwa_base.specs.Members.{Member};
ghost use Rattle.nwa_reduce.specs.Ties.Naming.{named};
ghost use Rattle.nwa_reduce.specs.Images.{Among, IsNamedEdge, IsNamedBack, IsImage};

use crate::naming::Names;
use indexmap::IndexSet;
use nwa_base::{Letter, Nwa, NwaFault, empty};
use std::alloc::{AllocError, Global};

/// The automaton under the names. Each of its edges stands there once.
pub fn image(alloc: Global, nwa: &Nwa, names: &Names) -> Result<Nwa, AllocError>
    requires within { (q x : ℕ) → named names.now.of.items q ≡ Some x → x < names.now.count }
    requires start { (x : ℕ) × (named names.now.of.items nwa.now.start ≡ Some x) }
    ensures { IfOk result (λ n. IsImage nwa.now (named names.now.of.items) n × (n.states ≡ names.now.count)) }
{
    let Some(start) = names.name(nwa.start()) else {
        unreachable!();
    };
    let mut image = in_memory(empty(alloc, names.count, start))?;
    fill(alloc, nwa, names, &mut image)?;
    Ok(image)
}

/// Gives an image that has no edges yet its final states and its edges.
fn fill(alloc: Global, nwa: &Nwa, names: &Names, image: &mut Nwa) -> Result<(), AllocError>
    requires start { named names.now.of.items nwa.now.start ≡ Some image.old.start }
    requires bare { image.old ≡ record { states = image.old.states; start = image.old.start; finals = []; insides = []; calls = []; backs = [] } }
    requires within { (q x : ℕ) → named names.now.of.items q ≡ Some x → x < image.old.states }
    ensures { OnOk result (IsImage nwa.now (named names.now.of.items) image.new × (image.new.states ≡ image.old.states)) }
{
    let _states = nwa.states();
    name_finals(alloc, nwa, names, image)?;
    name_insides(alloc, nwa, names, image)?;
    name_calls(alloc, nwa, names, image)?;
    name_backs(alloc, nwa, names, image)
}

/// Adds the names of the final states.
fn name_finals(alloc: Global, nwa: &Nwa, names: &Names, image: &mut Nwa) -> Result<(), AllocError>
    requires { (q x : ℕ) → named names.now.of.items q ≡ Some x → x < image.old.states }
    ensures { OnOk result ((s : List ℕ) × (image.new ≡ record image.old { finals = image.old.finals ++ s }) × ((x : ℕ) → Member s x ↔ Among (λ q y. named names.now.of.items q ≡ Some y) nwa.now.finals x)) }
{
    let states = named_states(alloc, nwa.finals(), names)?;
    add_finals(image, states.as_slice())
}

/// Adds the inside edges between names.
fn name_insides(alloc: Global, nwa: &Nwa, names: &Names, image: &mut Nwa) -> Result<(), AllocError>
    requires automaton { IsAutomaton nwa.now }
    requires within { (q x : ℕ) → named names.now.of.items q ≡ Some x → x < image.old.states }
    ensures { OnOk result ((s : List (ℕ × Letter × ℕ)) × (image.new ≡ record image.old { insides = image.old.insides ++ s }) × ((x : ℕ × Letter × ℕ) → Member s x ↔ Among (IsNamedEdge (named names.now.of.items)) nwa.now.insides x)) }
{
    let edges = named_edges(alloc, nwa.insides(), names)?;
    add_insides(image, edges.as_slice())
}

/// Adds the edges by calls between names.
fn name_calls(alloc: Global, nwa: &Nwa, names: &Names, image: &mut Nwa) -> Result<(), AllocError>
    requires automaton { IsAutomaton nwa.now }
    requires within { (q x : ℕ) → named names.now.of.items q ≡ Some x → x < image.old.states }
    ensures { OnOk result ((s : List (ℕ × Letter × ℕ)) × (image.new ≡ record image.old { calls = image.old.calls ++ s }) × ((x : ℕ × Letter × ℕ) → Member s x ↔ Among (IsNamedEdge (named names.now.of.items)) nwa.now.calls x)) }
{
    let edges = named_edges(alloc, nwa.calls(), names)?;
    add_calls(image, edges.as_slice())
}

/// Adds the edges by returns between names.
fn name_backs(alloc: Global, nwa: &Nwa, names: &Names, image: &mut Nwa) -> Result<(), AllocError>
    requires automaton { IsAutomaton nwa.now }
    requires within { (q x : ℕ) → named names.now.of.items q ≡ Some x → x < image.old.states }
    ensures { OnOk result ((s : List (ℕ × ℕ × Letter × ℕ)) × (image.new ≡ record image.old { backs = image.old.backs ++ s }) × ((x : ℕ × ℕ × Letter × ℕ) → Member s x ↔ Among (IsNamedBack (named names.now.of.items)) nwa.now.backs x)) }
{
    let edges = named_backs(alloc, nwa.backs(), names)?;
    add_backs(image, edges.as_slice())
}

/// The names of the states.
fn named_states(alloc: Global, states: &[u32], names: &Names) -> Result<IndexSet<u32>, AllocError>
    ensures { IfOk result (λ s. (x : ℕ) → Member s.keys x ↔ Among (λ q y. named names.now.of.items q ≡ Some y) states.now x) }
{
    let mut set = IndexSet::new(alloc);
    for &state in states {
        if let Some(name) = names.name(state) {
            set.insert_full(name)?;
        }
    }
    Ok(set)
}

/// The edges between the names of the edges' states.
fn named_edges(
    alloc: Global,
    edges: &[(u32, Letter, u32)],
    names: &Names,
) -> Result<IndexSet<(u32, Letter, u32)>, AllocError>
    ensures { IfOk result (λ s. (x : ℕ × Letter × ℕ) → Member s.keys x ↔ Among (IsNamedEdge (named names.now.of.items)) edges.now x) }
{
    let mut set = IndexSet::new(alloc);
    for &edge in edges {
        if let Some(named) = names.edge(edge) {
            set.insert_full(named)?;
        }
    }
    Ok(set)
}

/// The same of edges by returns.
fn named_backs(
    alloc: Global,
    edges: &[(u32, u32, Letter, u32)],
    names: &Names,
) -> Result<IndexSet<(u32, u32, Letter, u32)>, AllocError>
    ensures { IfOk result (λ s. (x : ℕ × ℕ × Letter × ℕ) → Member s.keys x ↔ Among (IsNamedBack (named names.now.of.items)) edges.now x) }
{
    let mut set = IndexSet::new(alloc);
    for &edge in edges {
        if let Some(named) = names.back(edge) {
            set.insert_full(named)?;
        }
    }
    Ok(set)
}

/// Makes states of the image final.
fn add_finals(image: &mut Nwa, states: &[u32]) -> Result<(), AllocError>
    requires { AllByRecursion (λ q. q < image.old.states) states.now }
    ensures { OnOk result (image.new ≡ record image.old { finals = image.old.finals ++ states.now }) }
{
    for &state in states {
        in_memory(image.set_final(state))?;
    }
    Ok(())
}

/// Adds edges between states of the image by inside letters.
fn add_insides(image: &mut Nwa, edges: &[(u32, Letter, u32)]) -> Result<(), AllocError>
    requires { AllByRecursion (IsEdge image.old.states Inside) edges.now }
    ensures { OnOk result (image.new ≡ record image.old { insides = image.old.insides ++ edges.now }) }
{
    for &(state, letter, end) in edges {
        in_memory(image.add_inside(state, letter, end))?;
    }
    Ok(())
}

/// The same by call letters.
fn add_calls(image: &mut Nwa, edges: &[(u32, Letter, u32)]) -> Result<(), AllocError>
    requires { AllByRecursion (IsEdge image.old.states Call) edges.now }
    ensures { OnOk result (image.new ≡ record image.old { calls = image.old.calls ++ edges.now }) }
{
    for &(state, letter, end) in edges {
        in_memory(image.add_call(state, letter, end))?;
    }
    Ok(())
}

/// The same by returns.
fn add_backs(image: &mut Nwa, edges: &[(u32, u32, Letter, u32)]) -> Result<(), AllocError>
    requires { AllByRecursion (IsBackEdge image.old.states) edges.now }
    ensures { OnOk result (image.new ≡ record image.old { backs = image.old.backs ++ edges.now }) }
{
    for &(state, before, letter, end) in edges {
        in_memory(image.add_back(state, before, letter, end))?;
    }
    Ok(())
}

/// What was made of states and letters that fit, or want of memory.
fn in_memory<T: Drop>(outcome: Result<T, NwaFault>) -> Result<T, AllocError>
    requires state { outcome ≢ Err NwaFault.BadState }
    requires letter { outcome ≢ Err NwaFault.BadLetter }
    ensures { IfOk result (λ value. outcome ≡ Ok value) }
{
    match outcome {
        Ok(value) => Ok(value),
        Err(NwaFault::Memory) => Err(AllocError),
        Err(NwaFault::BadState | NwaFault::BadLetter) => unreachable!(),
    }
}

ghost use Rattle.std.specs.Prelude.{◌≡◌, ◌+◌, ◌^◌, [], ◌∷◌, ◌++◌, ◌<◌, ◌↔◌, IsTrue, IsErr, IfOk, OnOk, OnErr};

use crate::back_edges::BackEdges;
use crate::calls::Calls;
use crate::edges::Edges;
use crate::finals::Finals;
use crate::letters::Letter;
use std::alloc::{AllocError, Global};
use std::marker::Model;

/// A nested word automaton. Its states are the numbers below their count. Edges `(q, a, e)` lead by an inside or a call
/// letter from `q` to `e`; edges `(q, p, a, e)` do so by a return where `p` was the state before the matching call.
#[derive(Drop)]
pub struct Nwa {
    alloc: Global,
    states: u32,
    start: u32,
    finals: Finals,
    insides: Edges,
    calls: Calls,
    backs: BackEdges,
}

impl Model for Nwa {
    ghost use Rattle.nwa_base.specs.Automata.{Automaton, IsAutomaton};

    ghost Value = { Automaton };

    ghost view = { λ m. record { states = m.states; start = m.start; finals = m.finals; insides = m.insides; calls = m.calls; backs = m.backs } };

    ghost invariant = { λ m. IsAutomaton (record { states = m.states; start = m.start; finals = m.finals; insides = m.insides; calls = m.calls; backs = m.backs }) };
}

impl Nwa {
    ghost use Rattle.nwa_base.specs.declared.letters.Kind.TheVariants.{Inside, Call};
    ghost use Rattle.nwa_base.specs.Members.{Member};
    ghost use Rattle.nwa_base.specs.Edges.{leaving, entering, ends, backs_leaving, backs_between, back_ends};
    ghost use Rattle.nwa_base.specs.Automata.{IsAutomaton, IsEdge, IsBackEdge};

    /// The automaton of so many states without final states or edges.
    pub(crate) fn new(alloc: Global, states: u32, start: u32) -> Self
        requires { start < states }
        ensures { result ≡ record { states = states; start = start; finals = []; insides = []; calls = []; backs = [] } }
    {
        Nwa {
            alloc,
            states,
            start,
            finals: Finals::new(alloc),
            insides: Edges::new(alloc),
            calls: Calls::new(alloc),
            backs: BackEdges::new(alloc),
        }
    }

    /// An equal automaton.
    pub fn copy(&self) -> Result<Nwa, AllocError>
        ensures { IfOk result (λ m. m ≡ self.now) }
    {
        let mut finals = Finals::new(self.alloc);
        let mut insides = Edges::new(self.alloc);
        let mut calls = Calls::new(self.alloc);
        let mut backs = BackEdges::new(self.alloc);
        self.add_to(&mut finals, &mut insides, &mut calls, &mut backs)?;
        Ok(Nwa {
            alloc: self.alloc,
            states: self.states,
            start: self.start,
            finals,
            insides,
            calls,
            backs,
        })
    }

    /// Adds the final states and the edges to others, at their ends.
    fn add_to(
        &self,
        finals: &mut Finals,
        insides: &mut Edges,
        calls: &mut Calls,
        backs: &mut BackEdges,
    ) -> Result<(), AllocError>
        ensures finals { OnOk result (finals.new ≡ finals.old ++ self.now.finals) }
        ensures insides { OnOk result (insides.new ≡ insides.old ++ self.now.insides) }
        ensures calls { OnOk result (calls.new ≡ calls.old ++ self.now.calls) }
        ensures backs { OnOk result (backs.new ≡ backs.old ++ self.now.backs) }
    {
        finals.add_all(self.finals.as_slice())?;
        insides.add_all(self.insides.as_slice())?;
        calls.add_all(self.calls.as_slice())?;
        backs.add_all(self.backs.as_slice())
    }

    /// How many states there are.
    pub fn states(&self) -> u32
        ensures value { result ≡ self.now.states }
        ensures valid { IsAutomaton self.now }
    {
        self.states
    }

    /// The start state.
    pub fn start(&self) -> u32
        ensures { result ≡ self.now.start }
    {
        self.start
    }

    /// The final states, in the order in which they were set.
    pub fn finals(&self) -> &[u32]
        ensures { result.now ≡ self.now.finals }
    {
        self.finals.as_slice()
    }

    /// The edges by inside letters, in the order in which they were added.
    pub fn insides(&self) -> &[(u32, Letter, u32)]
        ensures { result.now ≡ self.now.insides }
    {
        self.insides.as_slice()
    }

    /// The edges by call letters, in the order in which they were added.
    pub fn calls(&self) -> &[(u32, Letter, u32)]
        ensures { result.now ≡ self.now.calls }
    {
        self.calls.as_slice()
    }

    /// The edges by returns, in the order in which they were added.
    pub fn backs(&self) -> &[(u32, u32, Letter, u32)]
        ensures { result.now ≡ self.now.backs }
    {
        self.backs.as_slice()
    }

    /// Whether `q` is final.
    pub fn is_final(&self, q: u32) -> bool
        ensures { IsTrue result ↔ Member self.now.finals q }
    {
        self.finals.contains(q)
    }

    /// The edges by inside letters that leave `q`. This and the readers below take no more time than their answers are long.
    pub fn insides_leaving(&self, q: u32) -> &[(u32, Letter, u32)]
        ensures { result.now ≡ leaving q self.now.insides }
    {
        self.insides.leaving(q)
    }

    /// The edges by call letters that leave `q`.
    pub fn calls_leaving(&self, q: u32) -> &[(u32, Letter, u32)]
        ensures { result.now ≡ leaving q self.now.calls }
    {
        self.calls.leaving(q)
    }

    /// The edges by call letters that lead to `q`.
    pub fn calls_entering(&self, q: u32) -> &[(u32, Letter, u32)]
        ensures { result.now ≡ entering q self.now.calls }
    {
        self.calls.entering(q)
    }

    /// The edges by returns that leave `q`.
    pub fn backs_leaving(&self, q: u32) -> &[(u32, u32, Letter, u32)]
        ensures { result.now ≡ backs_leaving q self.now.backs }
    {
        self.backs.leaving(q)
    }

    /// The edges by returns that leave `q`, where `p` was the state before the matching call.
    pub fn backs_between(&self, q: u32, p: u32) -> &[(u32, u32, Letter, u32)]
        ensures { result.now ≡ backs_between q p self.now.backs }
    {
        self.backs.between(q, p)
    }

    /// Where the edges lead that leave `q` by the inside letter `a`.
    pub fn inside_ends(&self, q: u32, a: Letter) -> &[u32]
        ensures { result.now ≡ ends q a self.now.insides }
    {
        self.insides.ends(q, a)
    }

    /// Where the edges lead that leave `q` by the call letter `a`.
    pub fn call_ends(&self, q: u32, a: Letter) -> &[u32]
        ensures { result.now ≡ ends q a self.now.calls }
    {
        self.calls.ends(q, a)
    }

    /// Where the edges lead that leave `q` by the return `a`, where `p` was the state before the matching call.
    pub fn back_ends(&self, q: u32, p: u32, a: Letter) -> &[u32]
        ensures { result.now ≡ back_ends q p a self.now.backs }
    {
        self.backs.ends(q, p, a)
    }

    /// Whether an edge leads from `q` by the inside letter `a` to `to`.
    pub fn has_inside(&self, q: u32, a: Letter, to: u32) -> bool
        ensures { IsTrue result ↔ Member self.now.insides (q, a, to) }
    {
        self.inside_ends(q, a).contains(&to)
    }

    /// Whether an edge leads from `q` by the call letter `a` to `to`.
    pub fn has_call(&self, q: u32, a: Letter, to: u32) -> bool
        ensures { IsTrue result ↔ Member self.now.calls (q, a, to) }
    {
        self.call_ends(q, a).contains(&to)
    }

    /// Whether an edge leads from `q` by the return `a` to `to`, where `p` was the state before the matching call.
    pub fn has_back(&self, q: u32, p: u32, a: Letter, to: u32) -> bool
        ensures { IsTrue result ↔ Member self.now.backs (q, p, a, to) }
    {
        self.back_ends(q, p, a).contains(&to)
    }

    /// Adds a state, which gets the number that follows the others. No memory is left for it exactly where there are as many
    /// states as a number counts.
    pub fn add_state(&mut self) -> Result<u32, AllocError>
        ensures number { IfOk result (λ q. q ≡ self.old.states) }
        ensures ok { OnOk result (self.new ≡ record self.old { states = self.old.states + 1 }) }
        ensures err { OnErr result (self.new ≡ self.old) }
        ensures full { IsErr result ↔ (self.old.states + 1 ≡ 2 ^ 32) }
    {
        if self.states == u32::MAX {
            return Err(AllocError);
        }
        let state = self.states;
        self.states += 1;
        Ok(state)
    }

    /// Adds a final state at the end.
    pub(crate) fn push_final(&mut self, q: u32) -> Result<(), AllocError>
        requires { q < self.old.states }
        ensures ok { OnOk result (self.new ≡ record self.old { finals = self.old.finals ++ q ∷ [] }) }
        ensures err { OnErr result (self.new ≡ self.old) }
    {
        self.finals.push(q)
    }

    /// Adds an edge by an inside letter at the end.
    pub(crate) fn push_inside(&mut self, edge: (u32, Letter, u32)) -> Result<(), AllocError>
        requires { IsEdge self.old.states Inside edge }
        ensures ok { OnOk result (self.new ≡ record self.old { insides = self.old.insides ++ edge ∷ [] }) }
        ensures err { OnErr result (self.new ≡ self.old) }
    {
        self.insides.push(edge)
    }

    /// Adds an edge by a call letter at the end.
    pub(crate) fn push_call(&mut self, edge: (u32, Letter, u32)) -> Result<(), AllocError>
        requires { IsEdge self.old.states Call edge }
        ensures ok { OnOk result (self.new ≡ record self.old { calls = self.old.calls ++ edge ∷ [] }) }
        ensures err { OnErr result (self.new ≡ self.old) }
    {
        self.calls.push(edge)
    }

    /// Adds an edge by a return at the end.
    pub(crate) fn push_back(&mut self, edge: (u32, u32, Letter, u32)) -> Result<(), AllocError>
        requires { IsBackEdge self.old.states edge }
        ensures ok { OnOk result (self.new ≡ record self.old { backs = self.old.backs ++ edge ∷ [] }) }
        ensures err { OnErr result (self.new ≡ self.old) }
    {
        self.backs.push(edge)
    }
}

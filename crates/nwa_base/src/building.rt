//! Automata that are built edge by edge.

ghost use Rattle.std.specs.Prelude.{◌≡◌, ◌≢◌, ◌≤◌, ◌<◌, ◌↔◌, ◌⊎◌, [], ◌∷◌, ◌++◌, Err, IfOk, OnOk, OnErr};

use crate::automata::Nwa;
use crate::faults::NwaFault;
use crate::letters::{Kind, Letter};
use std::alloc::Global;

/// The automaton of so many states without final states or edges. `BadState` comes exactly where the start is out of range.
pub fn empty(alloc: Global, states: u32, start: u32) -> Result<Nwa, NwaFault>
    ensures value { IfOk result (λ m. m ≡ record { states = states; start = start; finals = []; insides = []; calls = []; backs = [] }) }
    ensures bad_state { (result ≡ Err NwaFault.BadState) ↔ (states ≤ start) }
    ensures bad_letter { result ≢ Err NwaFault.BadLetter }
{
    if states <= start {
        return Err(NwaFault::BadState);
    }
    Ok(Nwa::new(alloc, states, start))
}

impl Nwa {
    ghost use Rattle.nwa_base.specs.Automata.{IsOutside, IsOutsideBack};
    ghost use Rattle.nwa_base.specs.declared.letters.Kind.TheVariants.{Inside, Call, Back};

    /// Makes a state final. `BadState` comes exactly where it is out of range.
    pub fn set_final(&mut self, q: u32) -> Result<(), NwaFault>
        ensures ok { OnOk result (self.new ≡ record self.old { finals = self.old.finals ++ q ∷ [] }) }
        ensures err { OnErr result (self.new ≡ self.old) }
        ensures bad_state { (result ≡ Err NwaFault.BadState) ↔ (self.old.states ≤ q) }
        ensures bad_letter { result ≢ Err NwaFault.BadLetter }
    {
        if self.states() <= q {
            return Err(NwaFault::BadState);
        }
        self.push_final(q)?;
        Ok(())
    }

    /// Adds an edge by an inside letter. `BadState` comes exactly where a state is out of range, and else `BadLetter`
    /// exactly where the letter is no inside letter.
    pub fn add_inside(&mut self, q: u32, a: Letter, to: u32) -> Result<(), NwaFault>
        ensures ok { OnOk result (self.new ≡ record self.old { insides = self.old.insides ++ (q, a, to) ∷ [] }) }
        ensures err { OnErr result (self.new ≡ self.old) }
        ensures bad_state { (result ≡ Err NwaFault.BadState) ↔ IsOutside self.old.states q to }
        ensures bad_letter { (result ≡ Err NwaFault.BadLetter) ↔ ((q < self.old.states) × (to < self.old.states) × (a.kind ≢ Inside)) }
    {
        if self.states() <= q || self.states() <= to {
            return Err(NwaFault::BadState);
        }
        if a.kind != Kind::Inside {
            return Err(NwaFault::BadLetter);
        }
        self.push_inside((q, a, to))?;
        Ok(())
    }

    /// Adds an edge by a call letter. `BadState` comes exactly where a state is out of range, and else `BadLetter`
    /// exactly where the letter is no call letter.
    pub fn add_call(&mut self, q: u32, c: Letter, to: u32) -> Result<(), NwaFault>
        ensures ok { OnOk result (self.new ≡ record self.old { calls = self.old.calls ++ (q, c, to) ∷ [] }) }
        ensures err { OnErr result (self.new ≡ self.old) }
        ensures bad_state { (result ≡ Err NwaFault.BadState) ↔ IsOutside self.old.states q to }
        ensures bad_letter { (result ≡ Err NwaFault.BadLetter) ↔ ((q < self.old.states) × (to < self.old.states) × (c.kind ≢ Call)) }
    {
        if self.states() <= q || self.states() <= to {
            return Err(NwaFault::BadState);
        }
        if c.kind != Kind::Call {
            return Err(NwaFault::BadLetter);
        }
        self.push_call((q, c, to))?;
        Ok(())
    }

    /// Adds an edge by a return from `q`, where `p` was the state before the matching call. `BadState` comes exactly where
    /// a state is out of range, and else `BadLetter` exactly where the letter is no return.
    pub fn add_back(&mut self, q: u32, p: u32, r: Letter, to: u32) -> Result<(), NwaFault>
        ensures ok { OnOk result (self.new ≡ record self.old { backs = self.old.backs ++ (q, p, r, to) ∷ [] }) }
        ensures err { OnErr result (self.new ≡ self.old) }
        ensures bad_state { (result ≡ Err NwaFault.BadState) ↔ IsOutsideBack self.old.states q p to }
        ensures bad_letter { (result ≡ Err NwaFault.BadLetter) ↔ ((q < self.old.states) × (p < self.old.states) × (to < self.old.states) × (r.kind ≢ Back)) }
    {
        if self.states() <= q || self.states() <= p || self.states() <= to {
            return Err(NwaFault::BadState);
        }
        if r.kind != Kind::Back {
            return Err(NwaFault::BadLetter);
        }
        self.push_back((q, p, r, to))?;
        Ok(())
    }
}

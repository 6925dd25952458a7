//! Sets of pairs, kept under numbers.

ghost use Rattle.std.specs.Prelude.{◌≡◌, ◌<◌, ◌↔◌, ◌∷◌, [], List, IsTrue, IfOk, OnErr, length};

use crate::notes::note;
use indexmap::IndexSet;
use nwa_base::{Letter, Nwa, Pair, has_final};
use std::alloc::{AllocError, Global};
use std::collections::HashMap;
use std::marker::Model;

/// Sets of pairs of states, each a state before the innermost open call and a present state, to which words lead in an
/// automaton. Each set is kept once, and named by a number. Where a letter leads from a set is computed once, as long as there is
/// memory to note it.
#[derive(Drop)]
pub struct Det<'a> {
    alloc: Global,
    nwa: &'a Nwa,
    sets: IndexSet<Vec<Pair>>,
    /// Where inside letters lead from sets.
    insides: HashMap<(u32, Letter), u32>,
    /// Where calls lead from sets.
    calls: HashMap<(u32, Letter), u32>,
    /// Where returns lead from sets, each with the set before the call.
    backs: HashMap<(u32, u32, Letter), u32>,
}

impl<'a> Model for Det<'a> {
    ghost use Rattle.std.specs.HashMap.{get};
    ghost use Rattle.nwa_determinise.specs.Kept.{Kept, lists_of};
    ghost use Rattle.nwa_determinise.specs.Ties.Noted.{AreNoted};

    ghost Value = { Kept };

    ghost view = { λ d. record { nwa = d.nwa.now; sets = lists_of d.sets.keys } };

    ghost invariant = { λ d. AreNoted (record { nwa = d.nwa.now; sets = lists_of d.sets.keys })
        (get ⟦<(u32, Letter) as PartialEq>⟧.eq d.insides)
        (get ⟦<(u32, Letter) as PartialEq>⟧.eq d.calls)
        (get ⟦<(u32, u32, Letter) as PartialEq>⟧.eq d.backs) };
}

impl<'a> Det<'a> {
    ghost use Rattle.nwa_base.specs.declared.letters.Letter.{Letter};
    ghost use Rattle.nwa_base.specs.Acceptance.{Accepts};
    ghost use Rattle.nwa_base.specs.Pairs.{HasFinal, IsInsideOf, IsCallOf, IsBackOf};
    ghost use Rattle.nwa_determinise.specs.Kept.{set_at, Grows, HasOneNumber};
    ghost use Rattle.nwa_determinise.specs.Reads.{ReadsFromStart};

    /// No set is kept yet.
    pub(crate) fn new(alloc: Global, nwa: &'a Nwa) -> Self
        ensures { result ≡ record { nwa = nwa.now; sets = [] } }
    {
        Det {
            alloc,
            nwa,
            sets: IndexSet::new(alloc),
            insides: HashMap::new(alloc),
            calls: HashMap::new(alloc),
            backs: HashMap::new(alloc),
        }
    }

    /// The set before any letter: the start state paired with itself.
    pub fn start(&mut self) -> Result<u32, AllocError>
        ensures grows { Grows self.old self.new }
        ensures unchanged { OnErr result (self.new ≡ self.old) }
        ensures number { IfOk result (λ s. s < length self.new.sets) }
        ensures once { IfOk result (HasOneNumber self.old self.new) }
        ensures set { IfOk result (λ s. set_at self.new s ≡ (self.old.nwa.start, self.old.nwa.start) ∷ []) }
    {
        let start = self.nwa.start();
        let set = vec![in self.alloc; (start, start)]?;
        self.intern(set)
    }

    /// The set to which the inside letter `a` leads from `s`.
    pub fn on_inside(&mut self, s: u32, a: Letter) -> Result<u32, AllocError>
        requires { s < length self.old.sets }
        ensures grows { Grows self.old self.new }
        ensures unchanged { OnErr result (self.new ≡ self.old) }
        ensures number { IfOk result (λ t. t < length self.new.sets) }
        ensures once { IfOk result (HasOneNumber self.old self.new) }
        ensures set { IfOk result (λ t. IsInsideOf self.old.nwa a (set_at self.old s) (set_at self.new t)) }
    {
        if let Some(&known) = self.insides.get(&(s, a)) {
            return Ok(known);
        }
        let set = nwa_base::on_inside(self.alloc, self.nwa, self.pairs(s), a)?;
        let next = self.intern(set)?;
        note(&mut self.insides, (s, a), next);
        Ok(next)
    }

    /// The set to which the call letter `c` leads from `s`.
    pub fn on_call(&mut self, s: u32, c: Letter) -> Result<u32, AllocError>
        requires { s < length self.old.sets }
        ensures grows { Grows self.old self.new }
        ensures unchanged { OnErr result (self.new ≡ self.old) }
        ensures number { IfOk result (λ t. t < length self.new.sets) }
        ensures once { IfOk result (HasOneNumber self.old self.new) }
        ensures set { IfOk result (λ t. IsCallOf self.old.nwa c (set_at self.old s) (set_at self.new t)) }
    {
        if let Some(&known) = self.calls.get(&(s, c)) {
            return Ok(known);
        }
        let set = nwa_base::on_call(self.alloc, self.nwa, self.pairs(s), c)?;
        let next = self.intern(set)?;
        note(&mut self.calls, (s, c), next);
        Ok(next)
    }

    /// The set to which the return `r` leads from `s`, where `before` was the set before the matching call.
    pub fn on_back(&mut self, s: u32, before: u32, r: Letter) -> Result<u32, AllocError>
        requires set { s < length self.old.sets }
        requires before { before < length self.old.sets }
        ensures grows { Grows self.old self.new }
        ensures unchanged { OnErr result (self.new ≡ self.old) }
        ensures number { IfOk result (λ t. t < length self.new.sets) }
        ensures once { IfOk result (HasOneNumber self.old self.new) }
        ensures set { IfOk result (λ t. IsBackOf self.old.nwa r (set_at self.old before) (set_at self.old s) (set_at self.new t)) }
    {
        if let Some(&known) = self.backs.get(&(s, before, r)) {
            return Ok(known);
        }
        let set = nwa_base::on_back(self.alloc, self.nwa, self.pairs(before), self.pairs(s), r)?;
        let next = self.intern(set)?;
        note(&mut self.backs, (s, before, r), next);
        Ok(next)
    }

    /// Whether a pair of the set ends in a final state. After any word that was read from the start by the calls above, this
    /// is whether the automaton accepts the word.
    pub fn accepting(&self, s: u32) -> bool
        requires { s < length self.now.sets }
        ensures ends { IsTrue result ↔ HasFinal self.now.nwa (set_at self.now s) }
        ensures accepts { (w : List Letter) → ReadsFromStart self.now w s → IsTrue result ↔ Accepts self.now.nwa w }
    {
        has_final(self.nwa, self.pairs(s))
    }

    /// The set of a number.
    pub fn pairs(&self, s: u32) -> &[Pair]
        requires { s < length self.now.sets }
        ensures { result.now ≡ set_at self.now s }
    {
        match self.sets.get_index(s as usize) {
            Some(set) => set.as_slice(),
            None => &[],
        }
    }

    /// The number of a set, which is kept from now on.
    fn intern(&mut self, set: Vec<Pair>) -> Result<u32, AllocError>
        ensures grows { Grows self.old self.new }
        ensures unchanged { OnErr result (self.new ≡ self.old) }
        ensures number { IfOk result (λ s. s < length self.new.sets) }
        ensures once { IfOk result (HasOneNumber self.old self.new) }
        ensures set { IfOk result (λ s. set_at self.new s ≡ set.items) }
    {
        // numbers have 32 bits, so there is room for one set more below that
        if self.sets.len() > u32::MAX as usize {
            return Err(AllocError);
        }
        let (place, _) = self.sets.insert_full(set)?;
        Ok(place as u32)
    }
}

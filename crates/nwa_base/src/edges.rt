//! Edges of one kind, found by their state and by their state and letter.

ghost use Rattle.std.specs.Prelude.{◌≡◌, [], ◌∷◌, ◌++◌, OnOk, OnErr};

use crate::groups::Groups;
use crate::letters::Letter;
use std::alloc::{AllocError, Global};
use std::marker::Model;

/// Edges `(q, a, e)` that lead from `q` by the letter `a` to `e`, in the order in which they were added.
#[derive(Drop)]
pub struct Edges {
    list: Vec<(u32, Letter, u32)>,
    by_state: Groups<u32, (u32, Letter, u32)>,
    by_letter: Groups<(u32, Letter), u32>,
}

impl Model for Edges {
    ghost use Rattle.std.specs.Prelude.{ℕ, List};
    ghost use Rattle.std.specs.HashMap.{get};
    ghost use Rattle.nwa_base.specs.declared.letters.Letter.{Letter};
    ghost use Rattle.nwa_base.specs.Groups.{grouped};
    ghost use Rattle.nwa_base.specs.Edges.{IsIndexed};

    ghost Value = { List (ℕ × Letter × ℕ) };

    ghost view = { λ e. e.list.items };

    ghost invariant = { λ e. IsIndexed e.list.items
        (λ q. grouped (get ⟦<u32 as PartialEq>⟧.eq e.by_state.by_key q))
        (λ q a. grouped (get ⟦<(u32, Letter) as PartialEq>⟧.eq e.by_letter.by_key (q, a))) };
}

impl Edges {
    ghost use Rattle.nwa_base.specs.Edges.{leaving, ends};

    /// No edges.
    pub fn new(alloc: Global) -> Self
        ensures { result ≡ [] }
    {
        Edges {
            list: Vec::new(alloc),
            by_state: Groups::new(alloc),
            by_letter: Groups::new(alloc),
        }
    }

    /// The edges.
    pub fn as_slice(&self) -> &[(u32, Letter, u32)]
        ensures { result.now ≡ self.now }
    {
        self.list.as_slice()
    }

    /// The edges that leave `q`.
    pub fn leaving(&self, q: u32) -> &[(u32, Letter, u32)]
        ensures { result.now ≡ leaving q self.now }
    {
        self.by_state.of(&q)
    }

    /// Where the edges lead that leave `q` by `a`.
    pub fn ends(&self, q: u32, a: Letter) -> &[u32]
        ensures { result.now ≡ ends q a self.now }
    {
        self.by_letter.of(&(q, a))
    }

    /// Adds an edge at the end.
    pub fn push(&mut self, edge: (u32, Letter, u32)) -> Result<(), AllocError>
        ensures ok { OnOk result (self.new ≡ self.old ++ edge ∷ []) }
        ensures err { OnErr result (self.new ≡ self.old) }
    {
        self.list.reserve(1)?;
        self.by_state.add(edge.0, edge)?;
        if let Err(fault) = self.by_letter.add((edge.0, edge.1), edge.2) {
            self.by_state.drop_last(&edge.0);
            return Err(fault);
        }
        self.list.push_reserved(edge);
        Ok(())
    }

    /// Adds edges at the end.
    pub fn add_all(&mut self, edges: &[(u32, Letter, u32)]) -> Result<(), AllocError>
        ensures { OnOk result (self.new ≡ self.old ++ edges.now) }
    {
        for &edge in edges {
            self.push(edge)?;
        }
        Ok(())
    }
}

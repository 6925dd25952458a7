//! Call edges, which are found also by the state that they lead to.

ghost use Rattle.std.specs.Prelude.{◌≡◌, [], ◌∷◌, ◌++◌, OnOk, OnErr};

use crate::edges::Edges;
use crate::groups::Groups;
use crate::letters::Letter;
use std::alloc::{AllocError, Global};
use std::marker::Model;

/// Edges `(q, c, e)` that lead from `q` by the call letter `c` to `e`, in the order in which they were added.
#[derive(Drop)]
pub struct Calls {
    edges: Edges,
    by_end: Groups<u32, (u32, Letter, u32)>,
}

impl Model for Calls {
    ghost use Rattle.std.specs.Prelude.{◌≡◌, ℕ, List};
    ghost use Rattle.std.specs.HashMap.{get};
    ghost use Rattle.nwa_base.specs.declared.letters.Letter.{Letter};
    ghost use Rattle.nwa_base.specs.Groups.{grouped};
    ghost use Rattle.nwa_base.specs.Edges.{entering};

    ghost Value = { List (ℕ × Letter × ℕ) };

    ghost view = { λ c. c.edges };

    ghost invariant = { λ c. (e : ℕ) → grouped (get ⟦<u32 as PartialEq>⟧.eq c.by_end.by_key e) ≡ entering e c.edges };
}

impl Calls {
    ghost use Rattle.nwa_base.specs.Edges.{leaving, entering, ends};

    /// No edges.
    pub fn new(alloc: Global) -> Self
        ensures { result ≡ [] }
    {
        Calls {
            edges: Edges::new(alloc),
            by_end: Groups::new(alloc),
        }
    }

    /// The edges.
    pub fn as_slice(&self) -> &[(u32, Letter, u32)]
        ensures { result.now ≡ self.now }
    {
        self.edges.as_slice()
    }

    /// The edges that leave `q`.
    pub fn leaving(&self, q: u32) -> &[(u32, Letter, u32)]
        ensures { result.now ≡ leaving q self.now }
    {
        self.edges.leaving(q)
    }

    /// The edges that lead to `q`.
    pub fn entering(&self, q: u32) -> &[(u32, Letter, u32)]
        ensures { result.now ≡ entering q self.now }
    {
        self.by_end.of(&q)
    }

    /// Where the edges lead that leave `q` by `c`.
    pub fn ends(&self, q: u32, c: Letter) -> &[u32]
        ensures { result.now ≡ ends q c self.now }
    {
        self.edges.ends(q, c)
    }

    /// Adds an edge at the end.
    pub fn push(&mut self, edge: (u32, Letter, u32)) -> Result<(), AllocError>
        ensures ok { OnOk result (self.new ≡ self.old ++ edge ∷ []) }
        ensures err { OnErr result (self.new ≡ self.old) }
    {
        self.by_end.add(edge.2, edge)?;
        if let Err(fault) = self.edges.push(edge) {
            self.by_end.drop_last(&edge.2);
            return Err(fault);
        }
        Ok(())
    }

    /// Adds edges at the end.
    pub fn add_all(&mut self, edges: &[(u32, Letter, u32)]) -> Result<(), AllocError>
        ensures { OnOk result (self.new ≡ self.old ++ edges.now) }
    {
        for &edge in edges {
            self.push(edge)?;
        }
        Ok(())
    }
}

//! Return edges, found by their state and by their states and letter.

ghost use Rattle.std.specs.Prelude.{◌≡◌, [], ◌∷◌, ◌++◌, OnOk, OnErr};

use crate::groups::Groups;
use crate::letters::Letter;
use std::alloc::{AllocError, Global};
use std::marker::Model;

/// Edges `(q, p, a, e)` that lead from `q` by the return `a` to `e` where `p` was the state before the call that the return
/// matches, in the order in which they were added.
#[derive(Drop)]
pub struct BackEdges {
    list: Vec<(u32, u32, Letter, u32)>,
    by_state: Groups<u32, (u32, u32, Letter, u32)>,
    by_pair: Groups<(u32, u32), (u32, u32, Letter, u32)>,
    by_letter: Groups<(u32, u32, Letter), u32>,
}

impl Model for BackEdges {
    ghost use Rattle.std.specs.Prelude.{ℕ, List};
    ghost use Rattle.std.specs.HashMap.{get};
    ghost use Rattle.nwa_base.specs.declared.letters.Letter.{Letter};
    ghost use Rattle.nwa_base.specs.Groups.{grouped};
    ghost use Rattle.nwa_base.specs.Edges.{IsBackIndexed};

    ghost Value = { List (ℕ × ℕ × Letter × ℕ) };

    ghost view = { λ e. e.list.items };

    ghost invariant = { λ e. IsBackIndexed e.list.items
        (λ q. grouped (get ⟦<u32 as PartialEq>⟧.eq e.by_state.by_key q))
        (λ q p. grouped (get ⟦<(u32, u32) as PartialEq>⟧.eq e.by_pair.by_key (q, p)))
        (λ q p a. grouped (get ⟦<(u32, u32, Letter) as PartialEq>⟧.eq e.by_letter.by_key (q, p, a))) };
}

impl BackEdges {
    ghost use Rattle.nwa_base.specs.Edges.{backs_leaving, backs_between, back_ends};

    /// No edges.
    pub fn new(alloc: Global) -> Self
        ensures { result ≡ [] }
    {
        BackEdges {
            list: Vec::new(alloc),
            by_state: Groups::new(alloc),
            by_pair: Groups::new(alloc),
            by_letter: Groups::new(alloc),
        }
    }

    /// The edges.
    pub fn as_slice(&self) -> &[(u32, u32, Letter, u32)]
        ensures { result.now ≡ self.now }
    {
        self.list.as_slice()
    }

    /// The edges that leave `q`.
    pub fn leaving(&self, q: u32) -> &[(u32, u32, Letter, u32)]
        ensures { result.now ≡ backs_leaving q self.now }
    {
        self.by_state.of(&q)
    }

    /// The edges that leave `q` where `p` was the state before the call.
    pub fn between(&self, q: u32, p: u32) -> &[(u32, u32, Letter, u32)]
        ensures { result.now ≡ backs_between q p self.now }
    {
        self.by_pair.of(&(q, p))
    }

    /// Where the edges lead that leave `q` by `a`, where `p` was the state before the call.
    pub fn ends(&self, q: u32, p: u32, a: Letter) -> &[u32]
        ensures { result.now ≡ back_ends q p a self.now }
    {
        self.by_letter.of(&(q, p, a))
    }

    /// Adds an edge at the end.
    pub fn push(&mut self, edge: (u32, u32, Letter, u32)) -> Result<(), AllocError>
        ensures ok { OnOk result (self.new ≡ self.old ++ edge ∷ []) }
        ensures err { OnErr result (self.new ≡ self.old) }
    {
        self.list.reserve(1)?;
        self.by_state.add(edge.0, edge)?;
        if let Err(fault) = self.by_pair.add((edge.0, edge.1), edge) {
            self.by_state.drop_last(&edge.0);
            return Err(fault);
        }
        if let Err(fault) = self.by_letter.add((edge.0, edge.1, edge.2), edge.3) {
            self.by_state.drop_last(&edge.0);
            self.by_pair.drop_last(&(edge.0, edge.1));
            return Err(fault);
        }
        self.list.push_reserved(edge);
        Ok(())
    }

    /// Adds edges at the end.
    pub fn add_all(&mut self, edges: &[(u32, u32, Letter, u32)]) -> Result<(), AllocError>
        ensures { OnOk result (self.new ≡ self.old ++ edges.now) }
    {
        for &edge in edges {
            self.push(edge)?;
        }
        Ok(())
    }
}

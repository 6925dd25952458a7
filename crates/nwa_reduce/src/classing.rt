//! Classes of states with one signature. The ends of edges stand by their leaders, so that states whose edges lead to states of
//! one class come into one class, too, where their ends came before them.
#![tactic(auto, unfolding(crate::specs::Ties::Seen::seen))]

ghost use Rattle.std.specs.Prelude.{◌≡◌, ◌<◌, ◌+◌, ◌^◌, length, IfOk, OnOk, [], Some};

use crate::marking::{Mark, returns_to};
use crate::naming::Names;
use crate::rows::Rows;
use crate::signing::sign;
use indexmap::IndexSet;
use nwa_base::{Letter, Nwa};
use std::alloc::{AllocError, Global};

/// The classes of the first states of an automaton.
#[derive(Drop)]
pub struct Classes<'a> {
    alloc: Global,
    nwa: &'a Nwa,
    returns: Rows<(u32, u32, Letter, u32)>,
    table: IndexSet<Mark>,
    signatures: IndexSet<Vec<usize>>,
    /// The first state of each class.
    heads: Vec<u32>,
    /// The first state of the class of each state.
    leaders: Vec<u32>,
    /// The class of each state.
    names: Vec<Option<u32>>,
}

impl<'a> Classes<'a> {
    ghost use Rattle.nwa_reduce.specs.Ties.Classes.{IsClassed};
    ghost use Rattle.nwa_reduce.specs.Ties.Seen.{seen};

    /// No state has a class.
    pub fn new(alloc: Global, nwa: &'a Nwa) -> Result<Self, AllocError>
        ensures { IfOk result (λ c. IsClassed (seen c) × ((seen c).nwa ≡ nwa.now) × ((seen c).leaders ≡ [])) }
    {
        let returns = returns_to(alloc, nwa)?;
        Ok(Classes {
            alloc,
            nwa,
            returns,
            table: IndexSet::new(alloc),
            signatures: IndexSet::new(alloc),
            heads: Vec::new(alloc),
            leaders: Vec::new(alloc),
            names: Vec::new(alloc),
        })
    }

    /// Puts the next state into its class.
    pub fn add(&mut self, state: u32) -> Result<(), AllocError>
        requires classed { IsClassed (seen self.old) }
        requires next { length (seen self.old).leaders ≡ state }
        ensures { OnOk result (IsClassed (seen self.new) × ((seen self.new).nwa ≡ (seen self.old).nwa) × (length (seen self.new).leaders ≡ state + 1)) }
    {
        let signature = sign(
            self.alloc,
            self.nwa,
            self.returns.of(state),
            &mut self.table,
            self.leaders.as_slice(),
            state,
        )?;
        let (class, is_new) = self.signatures.insert_full(signature)?;
        if is_new {
            self.heads.push(state)?;
            self.leaders.push(state)?;
            self.names.push(Some(class as u32))?;
            return Ok(());
        }
        let leader = self.heads[class];
        self.leaders.push(leader)?;
        self.names.push(Some(class as u32))?;
        Ok(())
    }

    /// The class of each state, as its name.
    pub fn into_names(self) -> Names
        requires { length (seen self).heads < 2 ^ 32 }
        ensures names { result.of.items ≡ (seen self.entry).names }
        ensures count { result.count ≡ length (seen self.entry).heads }
    {
        let count = self.heads.len() as u32;
        let Classes {
            alloc: _,
            nwa: _,
            returns: _,
            table: _,
            signatures: _,
            heads: _,
            leaders: _,
            names,
        } = self;
        Names { of: names, count }
    }
}

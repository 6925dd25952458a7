//! Whether covers go on by returns.

ghost use Rattle.std.specs.Prelude.{◌≡◌, ℕ, IsTrue, IfOk};
ghost use Rattle.nwa_base.specs.declared.letters.Letter.{Letter};
ghost use Rattle.nwa_base.specs.Members.{Member};
ghost use Rattle.nwa_base.specs.Automata.{IsAutomaton};
ghost use Rattle.nwa_difference.specs.Covering.{BackGoesOn, ReturnsFromAll};

use crate::covering::{Sides, cover_of, end_by, has_cover};
use nwa_base::{Letter, Nwa};
use std::alloc::{AllocError, Global};
use std::collections::HashSet;
use std::marker::Model;

/// The second automaton, and what is known of its returns.
#[derive(Drop)]
pub struct Returning<'a> {
    second: &'a Nwa,
    /// A call letter, a state, a return and its end, where the return leads from the state to the end whatever the state before the
    /// call was, of those that call by the letter.
    known: HashSet<(Letter, u32, Letter, u32)>,
}

impl<'a> Model for Returning<'a> {
    ghost use Rattle.std.specs.Prelude.{◌≡◌, ℕ, true};
    ghost use Rattle.std.specs.HashSet.{contains};
    ghost use Rattle.nwa_base.specs.declared.letters.Letter.{Letter};
    ghost use Rattle.nwa_base.specs.Automata.{Automaton};
    ghost use Rattle.nwa_difference.specs.Covering.{ReturnsFromAll};

    ghost Value = { Automaton };

    ghost view = { λ r. r.second.now };

    ghost invariant = { λ r. (c : Letter) (u : ℕ) (l : Letter) (v : ℕ) →
        contains ⟦<(Letter, u32, Letter, u32) as PartialEq>⟧.eq r.known (c, u, l, v) ≡ true → ReturnsFromAll r.second.now c u l v };
}

impl<'a> Returning<'a> {
    /// Nothing is known.
    pub fn new(alloc: Global, second: &'a Nwa) -> Self
        ensures { result ≡ second.now }
    {
        Returning {
            second,
            known: HashSet::new(alloc),
        }
    }

    /// Whether the cover of the edge's state, if it has one, goes on by its return.
    pub fn goes_on(
        &mut self,
        first: &Nwa,
        sides: &Sides,
        covers: &[Option<u32>],
        edge: (u32, u32, Letter, u32),
    ) -> Result<bool, AllocError>
        requires { IsAutomaton self.old }
        ensures same { self.new ≡ self.old }
        ensures goes_on { IfOk result (λ yes. IsTrue yes → BackGoesOn first.now self.old covers.now edge) }
    {
        let Some(cover) = cover_of(covers, edge.0) else {
            return Ok(true);
        };
        let Some(end) = end_by(sides, edge.2) else {
            return Ok(false);
        };
        if !has_cover(first, self.second, covers, edge.3, end) {
            return Ok(false);
        }
        self.returns_from_callers(first, edge.1, cover, edge.2, end)
    }

    /// Whether the return leads from the state to the end whatever the state before the call was, of those that call as `before` of the
    /// first automaton does.
    fn returns_from_callers(
        &mut self,
        first: &Nwa,
        before: u32,
        state: u32,
        letter: Letter,
        end: u32,
    ) -> Result<bool, AllocError>
        requires { IsAutomaton self.old }
        ensures same { self.new ≡ self.old }
        ensures all { IfOk result (λ yes. IsTrue yes → (c : Letter) (n : ℕ) → Member first.now.calls (before, c, n) → ReturnsFromAll self.old c state letter end) }
    {
        for &(_, call, _) in first.calls_leaving(before) {
            if !self.returns_from_all(call, state, letter, end)? {
                return Ok(false);
            }
        }
        Ok(true)
    }

    /// Whether the return leads from the state to the end whatever the state before the call was, of those that call by the letter.
    fn returns_from_all(
        &mut self,
        call: Letter,
        state: u32,
        letter: Letter,
        end: u32,
    ) -> Result<bool, AllocError>
        requires { IsAutomaton self.old }
        ensures same { self.new ≡ self.old }
        ensures all { IfOk result (λ yes. IsTrue yes → ReturnsFromAll self.old call state letter end) }
    {
        if self.known.contains(&(call, state, letter, end)) {
            return Ok(true);
        }
        if !returns_from_each(self.second, call, state, letter, end) {
            return Ok(false);
        }
        self.known.insert((call, state, letter, end))?;
        Ok(true)
    }
}

/// The same, tried for each state.
fn returns_from_each(second: &Nwa, call: Letter, state: u32, letter: Letter, end: u32) -> bool
    requires { IsAutomaton second.now }
    ensures { IsTrue result → ReturnsFromAll second.now call state letter end }
{
    for before in 0..second.states() {
        if !returns_from(second, call, state, before, letter, end) {
            return false;
        }
    }
    true
}

/// The same for one state before the call.
fn returns_from(
    second: &Nwa,
    call: Letter,
    state: u32,
    before: u32,
    letter: Letter,
    end: u32,
) -> bool
    ensures { IsTrue result → (j : ℕ) → Member second.now.calls (before, call, j) → Member second.now.backs (state, before, letter, end) }
{
    second.call_ends(before, call).is_empty() || second.has_back(state, before, letter, end)
}

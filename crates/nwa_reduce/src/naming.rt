//! Names of states, and the edges that have them.

ghost use Rattle.std.specs.Prelude.{◌≡◌, ℕ, Some, MatchOption};

use nwa_base::Letter;

/// Names of the states of an automaton: the number of each state in a smaller one, or none where it is left out.
#[derive(Drop)]
pub struct Names {
    pub of: Vec<Option<u32>>,
    /// How many states the smaller automaton has.
    pub count: u32,
}

impl Names {
    ghost use Rattle.nwa_reduce.specs.Ties.Naming.{named};
    ghost use Rattle.nwa_reduce.specs.Images.{IsNamedEdge, IsNamedBack};

    /// The name of a state.
    pub fn name(&self, state: u32) -> Option<u32>
        ensures { result ≡ named self.now.of.items state }
    {
        match self.of.get(state as usize) {
            Some(name) => *name,
            None => None,
        }
    }

    /// The edge between the names of an edge's states, if both have names.
    pub fn edge(&self, edge: (u32, Letter, u32)) -> Option<(u32, Letter, u32)>
        ensures { MatchOption result
            ((x y : ℕ) → named self.now.of.items edge.0 ≡ Some x → named self.now.of.items edge.2 ≡ Some y → ⊥)
            (λ x. IsNamedEdge (named self.now.of.items) edge x) }
    {
        let state = self.name(edge.0)?;
        let end = self.name(edge.2)?;
        Some((state, edge.1, end))
    }

    /// The edge between the names of the states of an edge by a return, if all have names.
    pub fn back(&self, edge: (u32, u32, Letter, u32)) -> Option<(u32, u32, Letter, u32)>
        ensures { MatchOption result
            ((x z y : ℕ) → named self.now.of.items edge.0 ≡ Some x → named self.now.of.items edge.1 ≡ Some z → named self.now.of.items edge.3 ≡ Some y → ⊥)
            (λ x. IsNamedBack (named self.now.of.items) edge x) }
    {
        let state = self.name(edge.0)?;
        let before = self.name(edge.1)?;
        let end = self.name(edge.3)?;
        Some((state, before, edge.2, end))
    }
}

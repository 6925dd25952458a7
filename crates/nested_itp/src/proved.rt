ghost use Rattle.std.specs.Prelude.{◌≡◌};

use std::marker::Model;
use triple_rows::{Proof, Scoped};

/// A predicate for each position of a word, and a proof of each letter's triple.
#[derive(Drop)]
pub struct Interpolants {
    preds: Vec<Scoped>,
    proofs: Vec<Proof>,
}

impl Model for Interpolants {
    ghost use Rattle.nested_itp.specs.NestedPredicates.Interpolants.{PlainInterpolants};

    ghost Value = { PlainInterpolants };

    ghost view = { λ i. record { preds = i.preds.items; proofs = i.proofs.items } };
}

impl Interpolants {
    /// These predicates and proofs.
    pub(crate) fn new(preds: Vec<Scoped>, proofs: Vec<Proof>) -> Self
        ensures { result ≡ record { preds = preds.items; proofs = proofs.items } }
    {
        Interpolants { preds, proofs }
    }

    /// The predicates, one for each position, the first true and the last false.
    pub fn preds(&self) -> &[Scoped]
        ensures { result.now ≡ self.now.preds }
    {
        self.preds.as_slice()
    }

    /// The proofs of the triples, one for each letter, of three places at returns.
    pub fn proofs(&self) -> &[Proof]
        ensures { result.now ≡ self.now.proofs }
    {
        self.proofs.as_slice()
    }
}

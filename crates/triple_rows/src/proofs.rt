ghost use Rattle.std.specs.Prelude.{◌≡◌, IfOk};

use crate::triples::Triple;
use farkas_check::Refutation;
use std::marker::Model;

/// A triple with a refutation of its system: over some graph's acts and frames, which contracts name, it is valid.
#[derive(Drop)]
pub struct Proof {
    triple: Triple,
    refutation: Refutation,
}

impl Model for Proof {
    ghost use Rattle.triple_rows.specs.Proofs.{PlainProof, IsProof};

    ghost Value = { PlainProof };

    ghost view = { λ p. record { triple = p.triple; refutation = p.refutation } };

    ghost invariant = { λ p. IsProof (record { triple = p.triple; refutation = p.refutation }) };
}

impl Proof {
    ghost use Rattle.triple_rows.specs.Proofs.{IsProof};

    /// A triple with what is known to refute its system.
    pub fn new(triple: Triple, refutation: Refutation) -> Self
        requires { IsProof (record { triple = triple; refutation = refutation }) }
        ensures { result ≡ record { triple = triple; refutation = refutation } }
    {
        Proof { triple, refutation }
    }

    /// The triple.
    pub fn triple(&self) -> &Triple
        ensures value { result.now ≡ self.now.triple }
        ensures valid { IsProof self.now }
    {
        &self.triple
    }

    /// The refutation of its system.
    pub fn refutation(&self) -> &Refutation
        ensures value { result.now ≡ self.now.refutation }
        ensures valid { IsProof self.now }
    {
        &self.refutation
    }
}

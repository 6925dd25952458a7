//! Automata of predicates.

ghost use Rattle.std.specs.Prelude.{◌≡◌};

use nwa_base::Nwa;
use race_core::Evidence;
use std::marker::Model;
use triple_rows::{Proof, Scoped};

/// An automaton whose states are predicates and whose edges are proved triples: its start is true and its final states are
/// false. It accepts no word that is feasible for the acts and frames that it was made for, which contracts name.
#[derive(Drop)]
pub struct Certified {
    preds: Vec<Scoped>,
    proofs: Vec<Proof>,
    nwa: Nwa,
}

impl Model for Certified {
    ghost use Rattle.itp_automaton.specs.Certified.{Certificate};
    ghost use Rattle.itp_automaton.specs.Making.{IsCertificate};

    ghost Value = { Certificate };

    ghost view = { λ c. record { preds = c.preds.items; proofs = c.proofs.items; automaton = c.nwa } };

    ghost invariant = { λ c. IsCertificate (record { preds = c.preds.items; proofs = c.proofs.items; automaton = c.nwa }) };
}

impl Certified {
    ghost use Rattle.itp_automaton.specs.Making.{IsCertificate};

    /// The automaton of these states, proofs and edges.
    pub(crate) fn new(preds: Vec<Scoped>, proofs: Vec<Proof>, nwa: Nwa) -> Self
        requires { IsCertificate (record { preds = preds.items; proofs = proofs.items; automaton = nwa }) }
        ensures { result ≡ record { preds = preds.items; proofs = proofs.items; automaton = nwa } }
    {
        Certified { preds, proofs, nwa }
    }

    /// The predicates: state q is the predicate at place q.
    pub fn preds(&self) -> &[Scoped]
        ensures value { result.now ≡ self.now.preds }
        ensures valid { IsCertificate self.now }
    {
        self.preds.as_slice()
    }

    /// The proofs of the triples that are edges.
    pub fn proofs(&self) -> &[Proof]
        ensures value { result.now ≡ self.now.proofs }
        ensures valid { IsCertificate self.now }
    {
        self.proofs.as_slice()
    }

    /// The automaton.
    pub fn nwa(&self) -> &Nwa
        ensures value { result.now ≡ self.now.automaton }
        ensures valid { IsCertificate self.now }
    {
        &self.nwa
    }
}

impl Evidence for Certified {
    ghost use Rattle.itp_automaton.specs.Certified.{IsFeasibleFor};

    ghost automaton = { λ c. c.automaton };

    ghost feasible = { IsFeasibleFor };

    fn nwa(&self) -> &Nwa {
        &self.nwa
    }
}

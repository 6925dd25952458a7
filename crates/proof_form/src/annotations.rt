use crate::drafts::Draft;
use crate::line_checks::{is_node, is_pred, is_step, is_triple};
use crate::lines::{NodeLine, PredLine, StepLine, TripleLine};
use std::alloc::{AllocError, Global};
use std::marker::Model;

/// An annotation: predicates, triples with their refutations, nodes, and steps. Each line of it is in the grammar.
#[derive(Drop)]
pub struct Annotation {
    preds: Vec<PredLine>,
    triples: Vec<TripleLine>,
    nodes: Vec<NodeLine>,
    steps: Vec<StepLine>,
}

impl Model for Annotation {
    ghost use Rattle.std.specs.Prelude.{IsTrue};
    ghost use Rattle.proof_form.specs.Annotations.{Content, content, is_annotation};

    ghost Value = { Content };

    ghost view = { λ a. content a.preds.items a.triples.items a.nodes.items a.steps.items };

    ghost invariant = { λ a. IsTrue (is_annotation (content a.preds.items a.triples.items a.nodes.items a.steps.items)) };
}

impl Annotation {
    ghost use Rattle.std.specs.Prelude.{◌≡◌, IsTrue, map};
    ghost use Rattle.proof_form.specs.Lines as lines;
    ghost use Rattle.proof_form.specs.Annotations.{is_annotation};
    ghost use Rattle.proof_form.specs.TextReading.{content_of};

    /// The predicates, of which the first has the number 2.
    pub fn preds(&self) -> &[PredLine]
        ensures value { map lines.pred result.now ≡ self.now.preds }
        ensures valid { IsTrue (is_annotation self.now) }
    {
        self.preds.as_slice()
    }

    /// The triples.
    pub fn triples(&self) -> &[TripleLine]
        ensures value { map lines.triple result.now ≡ self.now.triples }
        ensures valid { IsTrue (is_annotation self.now) }
    {
        self.triples.as_slice()
    }

    /// The nodes, of which the first has the number 0.
    pub fn nodes(&self) -> &[NodeLine]
        ensures value { map lines.node result.now ≡ self.now.nodes }
        ensures valid { IsTrue (is_annotation self.now) }
    {
        self.nodes.as_slice()
    }

    /// The steps and the backs, in the order in which they stand.
    pub fn steps(&self) -> &[StepLine]
        ensures value { result.now ≡ self.now.steps }
        ensures valid { IsTrue (is_annotation self.now) }
    {
        self.steps.as_slice()
    }

    /// The annotation of what was read.
    pub(crate) fn of_draft(draft: Draft) -> Self
        requires { IsTrue (is_annotation (content_of draft)) }
        ensures { result ≡ content_of draft }
    {
        let Draft {
            preds,
            triples,
            nodes,
            steps,
        } = draft;
        Annotation {
            preds,
            triples,
            nodes,
            steps,
        }
    }
}

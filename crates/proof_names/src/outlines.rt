use farkas_check::Refutation;
use triple_rows::Triple;

/// The predicates and the letter of a triple, by their numbers.
#[derive(Clone, Copy, Debug, PartialEq, Eq)]
pub enum Listed {
    /// Of a letter inside a procedure.
    Inside {
        from: usize,
        letter: u32,
        to: usize,
    },
    /// Of a call letter.
    Call {
        from: usize,
        letter: u32,
        to: usize,
    },
    /// Of a return letter: at the callee's exit, and at the caller before the call.
    Back {
        exit: usize,
        before: usize,
        letter: u32,
        to: usize,
    },
}

/// A triple of an annotation.
#[derive(Drop)]
pub struct NamedTriple {
    /// Its numbers.
    pub listed: Listed,
    /// The triple, whose scopes agree with its letter.
    pub triple: Triple,
    /// What is to refute its system; none where a row has a number that no row of a system can have.
    pub proof: Option<Refutation>,
}

/// A node of an annotation, by numbers.
#[derive(Drop)]
pub struct NamedNode {
    pub place: u32,
    pub entry: usize,
    pub preds: Vec<usize>,
}

/// A step between nodes, by numbers.
#[derive(Clone, Copy, Debug, PartialEq, Eq)]
pub enum NamedStep {
    /// By a letter inside a procedure or a call letter.
    Step {
        from: usize,
        letter: u32,
        to: usize,
    },
    /// By a return letter, from the callee's exit and the caller's node before the call.
    Back {
        exit: usize,
        call: usize,
        letter: u32,
        to: usize,
    },
}

/// What an annotation names. Its predicates stand in its triples.
#[derive(Drop)]
pub struct Outline {
    pub triples: Vec<NamedTriple>,
    pub nodes: Vec<NamedNode>,
    pub steps: Vec<NamedStep>,
}

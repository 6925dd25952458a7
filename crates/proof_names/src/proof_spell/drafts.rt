use crate::Listed;
use farkas_check::Refutation;

/// A triple of an annotation by its numbers, with what refutes its system.
#[derive(Clone, Copy)]
pub struct Shown<'a> {
    pub listed: Listed,
    pub proof: &'a Refutation,
}

ghost use Rattle.std.specs.Prelude.{◌≡◌, IfOk};

use crate::predicates::Pred;
use std::alloc::AllocError;

/// A predicate over the columns of a procedure's frame.
#[derive(Drop)]
pub struct Scoped {
    /// The procedure.
    pub proc: u32,
    /// The predicate, which names the columns of the frame by their numbers.
    pub pred: Pred,
}

impl Scoped {
    /// An equal predicate.
    pub fn copy(&self) -> Result<Self, AllocError>
        ensures { IfOk result (λ p. p ≡ self.now) }
    {
        Ok(Scoped {
            proc: self.proc,
            pred: self.pred.copy()?,
        })
    }
}

/// A triple: what holds before a letter, and what it claims to hold after it.
#[derive(Drop)]
pub enum Triple {
    /// Of an inside letter.
    Inside {
        from: Scoped,
        letter: u32,
        to: Scoped,
    },
    /// Of a call letter: from the caller to the callee.
    Call {
        from: Scoped,
        letter: u32,
        to: Scoped,
    },
    /// Of a return letter: at the callee's exit, in the caller before the call, and in the caller after the return.
    Back {
        exit: Scoped,
        before: Scoped,
        letter: u32,
        to: Scoped,
    },
}

impl Triple {
    /// An equal triple.
    pub fn copy(&self) -> Result<Self, AllocError>
        ensures { IfOk result (λ t. t ≡ self.now) }
    {
        match self {
            Triple::Inside { from, letter, to } => Ok(Triple::Inside {
                from: from.copy()?,
                letter: *letter,
                to: to.copy()?,
            }),
            Triple::Call { from, letter, to } => Ok(Triple::Call {
                from: from.copy()?,
                letter: *letter,
                to: to.copy()?,
            }),
            Triple::Back {
                exit,
                before,
                letter,
                to,
            } => Ok(Triple::Back {
                exit: exit.copy()?,
                before: before.copy()?,
                letter: *letter,
                to: to.copy()?,
            }),
        }
    }
}

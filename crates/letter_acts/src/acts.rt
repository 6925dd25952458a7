ghost use Rattle.std.specs.Prelude.{◌≡◌, IfOk};

use lin_rows::{Row, copied_rows};
use std::alloc::AllocError;

/// What a letter does. Rows number their columns from 0: those of the frames, then those written, then the helpers.
#[derive(Drop)]
pub enum Act {
    /// A step inside a procedure.
    Inside {
        proc: u32,
        /// The columns of the frame that are written.
        written: Vec<u32>,
        /// How many helper columns the rows have.
        helpers: u32,
        /// Over the frame before the step, the written columns after it, and the helpers.
        rows: Vec<Row>,
        /// Whether the rows leave a product free, so that they allow more than the statement does.
        coarse: bool,
    },
    /// A call.
    Call {
        caller: u32,
        callee: u32,
        /// How many helper columns the rows have.
        helpers: u32,
        /// Over the caller's frame, the callee's frame, and the helpers.
        rows: Vec<Row>,
        /// Whether the rows leave a product free, so that they allow more than the statement does.
        coarse: bool,
    },
    /// A return.
    Back {
        /// The number of the call letter.
        call: u32,
        /// The columns of the caller's frame that take the results, in order.
        targets: Vec<u32>,
    },
}

impl Act {
    ghost use Rattle.letter_acts.specs.Acts.{plain_act, mark_of};

    /// Whether the rows leave a product free; those of a return never do.
    pub fn is_coarse(&self) -> bool
        ensures { result ≡ mark_of self.now }
    {
        match self {
            Act::Inside { coarse, .. } | Act::Call { coarse, .. } => *coarse,
            Act::Back { .. } => false,
        }
    }

    /// An equal act.
    pub fn copy(&self) -> Result<Self, AllocError>
        ensures act { IfOk result (λ a. plain_act a ≡ plain_act self.now) }
        ensures mark { IfOk result (λ a. mark_of a ≡ mark_of self.now) }
    {
        match self {
            Act::Inside {
                proc,
                written,
                helpers,
                rows,
                coarse,
            } => Ok(Act::Inside {
                proc: *proc,
                written: written.clone()?,
                helpers: *helpers,
                rows: copied_rows(*rows.allocator(), rows)?,
                coarse: *coarse,
            }),
            Act::Call {
                caller,
                callee,
                helpers,
                rows,
                coarse,
            } => Ok(Act::Call {
                caller: *caller,
                callee: *callee,
                helpers: *helpers,
                rows: copied_rows(*rows.allocator(), rows)?,
                coarse: *coarse,
            }),
            Act::Back { call, targets } => Ok(Act::Back {
                call: *call,
                targets: targets.clone()?,
            }),
        }
    }
}

use lin_rows::RowFault;
use std::alloc::{AllocError, AllocFailed};

/// Row numbers, ascending, with multipliers.
pub(crate) type Parts = Vec<(u32, i128)>;

/// What stands beside a number in pairs that ascend by it.
pub(crate) fn number_beside(pairs: &[(u32, i128)], number: u32) -> Option<i128> {
    match pairs.get(pairs.partition_point(|pair| pair.0 < number)) {
        Some(pair) if pair.0 == number => Some(pair.1),
        _ => None,
    }
}

/// Why nothing is proposed.
#[derive(Drop)]
pub(crate) enum Stop {
    /// The rows are not refuted, or a number would not fit.
    Nothing,
    /// Memory ran out.
    Memory(AllocError),
}

impl From<AllocError> for Stop {
    fn from(e: AllocError) -> Stop {
        Stop::Memory(e)
    }
}

impl<T: Drop> From<AllocFailed<T>> for Stop {
    fn from(f: AllocFailed<T>) -> Stop {
        Stop::Memory(AllocError::from(f))
    }
}

impl From<RowFault> for Stop {
    fn from(f: RowFault) -> Stop {
        match f {
            RowFault::Past => Stop::Nothing,
            RowFault::Memory => Stop::Memory(AllocError),
        }
    }
}

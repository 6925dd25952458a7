//! How many columns frames have.

ghost use Rattle.std.specs.Prelude.{◌≡◌, length, IfOk};

use letter_acts::Frame;
use std::alloc::AllocError;

/// How many columns a frame has.
pub(crate) fn width(frame: &Frame) -> Result<u32, AllocError>
    ensures { IfOk result (λ n. n ≡ length frame.now.columns.items) }
{
    match u32::try_from(frame.columns.len()) {
        Ok(width) => Ok(width),
        Err(_) => Err(AllocError),
    }
}

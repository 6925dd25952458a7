//! Texts of a shelf, within their limits.

ghost use Rattle.std.specs.Prelude.{◌≡◌, ◌≢◌, ◌≤◌, ◌<◌, length, Some, Err, IfOk, IfSome, IsSome, MatchOption, vec_len};
ghost use Rattle.outer_io.specs.Faults.{Rose};
ghost use Rattle.outer_io.specs.Texts.{text_named};
ghost use Rattle.text_reports.specs.declared.reading.Halt.TheVariants.{Fault, Memory};

use outer_io::{ReadFault, Shelf, read_all};
use std::alloc::{AllocError, Global};

/// The most bytes of a program text.
pub const PROGRAM_LIMIT: u64 = 1_048_576;

/// The most bytes of a second text: the greatest length of a list of bytes.
pub const SECOND_LIMIT: u64 = 9_223_372_036_854_775_807;

/// Why there is no answer.
#[derive(Clone, Copy, Debug, PartialEq, Eq)]
pub enum Halt {
    /// A call on the shelf failed.
    Fault,
    /// Memory ran out.
    Memory,
}

impl From<AllocError> for Halt {
    ghost from_gives = { λ _ halt. halt ≡ Memory };

    fn from(_error: AllocError) -> Halt {
        Halt::Memory
    }
}

/// The text of that name; none where it has more bytes than the limit. `Fault` says that a call on the shelf failed, `Memory` that memory ran out.
pub fn text_within<H: Shelf>(
    alloc: Global,
    shelf: &mut H,
    name: &str,
    limit: u64,
) -> Result<Option<Vec<u8>>, Halt>
    ensures texts { H.texts shelf.new ≡ H.texts shelf.old }
    ensures found { IfOk result (λ found. IfSome (H.texts shelf.old) (λ shown. MatchOption found
        (IsSome (text_named name.now shown) × IfSome (text_named name.now shown) (λ text. limit < length text))
        (λ read. (text_named name.now shown ≡ Some read.items) × (length read.items ≤ limit)))) }
    ensures within { IfOk result (λ found. IfSome found (λ read. vec_len read ≤ limit)) }
    ensures fault { result ≡ Err Halt.Fault → Rose (H.faults shelf.old) (H.faults shelf.new) }
    ensures no_fault { result ≢ Err Halt.Fault → H.faults shelf.new ≡ H.faults shelf.old }
    ensures never_falls { H.faults shelf.old ≤ H.faults shelf.new }
{
    match read_all(alloc, shelf, name, limit) {
        Ok(text) => Ok(Some(text)),
        Err(ReadFault::TooLong { limit: _ }) => Ok(None),
        Err(ReadFault::Read) => Err(Halt::Fault),
        Err(ReadFault::Memory) => Err(Halt::Memory),
    }
}

ghost use Rattle.std.specs.Prelude.{◌≡◌, ℕ, ◌+◌, ◌<◌, ◌≤◌, ◌≢◌, ◌⊎◌, min, length, Option, Some, Err, IfOk, OnOk, OnErr, IfSome, IsSome, vec_len};
ghost use Rattle.outer_io.specs.declared.reading.ReadFault.TheVariants.{Memory, Read};
ghost use Rattle.outer_io.specs.Faults.{Rose};
ghost use Rattle.outer_io.specs.Texts.{text_named, TakesAtMost};

use crate::shelf::{Failed, Shelf};
use std::alloc::{AllocError, Global};
use thiserror::Error;

// The most bytes that one call asks for.
const PIECE: usize = 4096;

/// Why a text was not read.
#[derive(Debug, Drop, Error)]
pub enum ReadFault {
    /// A call on the shelf failed.
    #[error("the text could not be read")]
    Read,
    /// The text has more bytes than the limit.
    #[error("the text has more than {limit} bytes")]
    TooLong {
        /// The most bytes that were allowed.
        limit: u64,
    },
    /// Memory ran out.
    #[error("out of memory")]
    Memory,
}

impl From<Failed> for ReadFault {
    ghost from_gives = { λ _ e. e ≡ Read };

    fn from(_failed: Failed) -> ReadFault {
        ReadFault::Read
    }
}

impl From<AllocError> for ReadFault {
    ghost from_gives = { λ _ e. e ≡ Memory };

    fn from(_error: AllocError) -> ReadFault {
        ReadFault::Memory
    }
}

/// Reads the whole text of that name. It ends at the first call that fails, and has taken at most one byte
/// more than the limit.
pub fn read_all<H: Shelf>(
    alloc: Global,
    shelf: &mut H,
    name: &str,
    limit: u64,
) -> Result<Vec<u8>, ReadFault>
    ensures texts { H.texts shelf.new ≡ H.texts shelf.old }
    ensures whole { IfOk result (λ text. IfSome (H.texts shelf.old)
        (λ shown. text_named name.now shown ≡ Some text.items)) }
    ensures within { IfOk result (λ text. vec_len text ≤ limit) }
    ensures too_long { (l : ℕ) → result ≡ Err (ReadFault.TooLong l) → (l ≡ limit) × IfSome (H.texts shelf.old)
        (λ shown. IfSome (text_named name.now shown) (λ text. limit < length text)) }
    ensures named { result ≢ Err ReadFault.Read → IfSome (H.texts shelf.old)
        (λ shown. IsSome (text_named name.now shown)) }
    // A text that could not be begun leaves what was left before.
    ensures takes { IfSome (H.texts shelf.old) (λ shown. IfSome (text_named name.now shown) (λ text.
        TakesAtMost (limit + 1) text (H.left shelf.new)
        ⊎ (result ≡ Err ReadFault.Read) × (H.left shelf.new ≡ H.left shelf.old))) }
    // Where memory is wanting no more than the limit was taken.
    ensures out_of_memory { result ≡ Err ReadFault.Memory → IfSome (H.texts shelf.old)
        (λ shown. IfSome (text_named name.now shown) (λ text. TakesAtMost limit text (H.left shelf.new))) }
    ensures fault { result ≡ Err ReadFault.Read → Rose (H.faults shelf.old) (H.faults shelf.new) }
    ensures no_fault { result ≢ Err ReadFault.Read → H.faults shelf.new ≡ H.faults shelf.old }
    ensures never_falls { H.faults shelf.old ≤ H.faults shelf.new }
{
    shelf.begin(name)?;
    read_rest(alloc, shelf, limit)
}

// Reads what is left of the text that was begun last.
fn read_rest<H: Shelf>(alloc: Global, shelf: &mut H, limit: u64) -> Result<Vec<u8>, ReadFault>
    ensures texts { H.texts shelf.new ≡ H.texts shelf.old }
    ensures whole { IfOk result (λ text. IfSome (H.left shelf.old) (λ rest. text.items ≡ rest)) }
    ensures within { IfOk result (λ text. vec_len text ≤ limit) }
    ensures too_long { (l : ℕ) → result ≡ Err (ReadFault.TooLong l) →
        (l ≡ limit) × IfSome (H.left shelf.old) (λ rest. limit < length rest) }
    ensures takes { IfSome (H.left shelf.old) (λ rest. TakesAtMost (limit + 1) rest (H.left shelf.new)) }
    ensures out_of_memory { result ≡ Err ReadFault.Memory → IfSome (H.left shelf.old)
        (λ rest. TakesAtMost limit rest (H.left shelf.new)) }
    ensures fault { result ≡ Err ReadFault.Read → Rose (H.faults shelf.old) (H.faults shelf.new) }
    ensures no_fault { result ≢ Err ReadFault.Read → H.faults shelf.new ≡ H.faults shelf.old }
    ensures never_falls { H.faults shelf.old ≤ H.faults shelf.new }
{
    let mut buffer = vec![in alloc; 0u8; PIECE]?;
    let mut text = Vec::new(alloc);
    loop {
        let room = limit - text.len() as u64;
        let piece = &mut buffer[..piece_len(room)];
        let count = shelf.read(piece)?;
        if count == 0 {
            return Ok(text);
        }
        if count as u64 > room {
            return Err(ReadFault::TooLong { limit });
        }
        text.extend_from_slice(&piece[..count])?;
    }
}

// One byte more than the room shows that a text is too long.
fn piece_len(room: u64) -> usize
    ensures { result ≡ min (room + 1) PIECE }
{
    room.min(PIECE as u64 - 1) as usize + 1
}

ghost use Rattle.std.specs.Prelude.{◌≡◌, ℕ, ◌+◌, ◌<◌, ◌≤◌, ◌++◌, [], length, take, Option, Some, IfOk, OnOk, OnErr, IsOk, IfSome};
ghost use Rattle.outer_io.specs.declared.writing.WriteFault.TheVariants.{Write};
ghost use Rattle.outer_io.specs.Faults.{Rose};
ghost use Rattle.outer_io.specs.Texts.{GainsFront};

use crate::shelf::Failed;
use crate::sink::Sink;
use thiserror::Error;

/// Why a text was not written.
#[derive(Debug, Drop, Error)]
pub enum WriteFault {
    /// A call on the sink failed. It has taken a front of the text.
    #[error("the text could not be written")]
    Write,
}

impl From<Failed> for WriteFault {
    ghost from_gives = { λ _ e. e ≡ Write };

    fn from(_failed: Failed) -> WriteFault {
        WriteFault::Write
    }
}

/// Writes the whole text, in order. It ends at the first call that fails, and takes no memory.
pub fn write_all<K: Sink>(sink: &mut K, text: &[u8]) -> Result<(), WriteFault>
    ensures whole { OnOk result (IfSome (K.taken sink.old) (λ before. K.taken sink.new ≡ Some (before ++ text.now))) }
    ensures front { OnErr result (IfSome (K.taken sink.old) (λ before. GainsFront text.now before (K.taken sink.new))) }
    ensures nothing { text.now ≡ [] → IsOk result }
    ensures no_call { text.now ≡ [] → sink.new ≡ sink.old }
    ensures no_fault { OnOk result (K.faults sink.new ≡ K.faults sink.old) }
    ensures fault { OnErr result (Rose (K.faults sink.old) (K.faults sink.new)) }
    ensures never_falls { K.faults sink.old ≤ K.faults sink.new }
{
    let mut written = 0;
    while written < text.len() {
        written += sink.write(&text[written..])?;
    }
    Ok(())
}

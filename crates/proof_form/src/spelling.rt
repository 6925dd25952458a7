//! How columns are named, and runs of bytes at the front.

ghost use Rattle.std.specs.Prelude.{◌≡◌, ◌≤◌, length};
ghost use Rattle.std.specs.List.{prefix_len};
ghost use Rattle.proof_form.specs.Names as names;
ghost use Rattle.proof_form.specs.Reading as reading;

use boogie_tree::names::{is_digit, is_name_byte, is_spelled};

/// Whether columns of that kind exist.
fn is_column_mark(byte: u8) -> bool
    ensures { result ≡ names.is_column_mark byte }
{
    byte == b'g' || byte == b'o' || byte == b'l'
}

/// Whether the text names a column.
pub(crate) fn is_column(bytes: &[u8]) -> bool
    ensures { result ≡ names.is_column bytes.now }
{
    bytes.len() >= 2 && is_column_mark(bytes[0]) && bytes[1] == b':' && is_spelled(&bytes[2..])
}

fn is_word_byte(byte: u8) -> bool
    ensures { result ≡ reading.is_word_byte byte }
{
    byte == b':' || is_name_byte(byte)
}

fn is_number_byte(byte: u8) -> bool
    ensures { result ≡ reading.is_number_byte byte }
{
    byte == b'-' || is_digit(byte)
}

/// How many bytes of names and colons stand at the front.
pub(crate) fn word_run(bytes: &[u8]) -> usize
    ensures value { result ≡ prefix_len reading.is_word_byte bytes.now }
    ensures within { result ≤ length bytes.now }
{
    bytes.iter().take_while(|b| is_word_byte(**b)).count()
}

/// How many digits and minuses stand at the front.
pub(crate) fn number_run(bytes: &[u8]) -> usize
    ensures value { result ≡ prefix_len reading.is_number_byte bytes.now }
    ensures within { result ≤ length bytes.now }
{
    bytes.iter().take_while(|b| is_number_byte(**b)).count()
}

//! How names are spelled: a name of the language is letters, digits and marks, of which the first is no digit.

ghost use Rattle.std.specs.Prelude.{◌≡◌};
ghost use Rattle.std.specs.List.{list_all};
ghost use Rattle.boogie_tree.specs.Names as names;

/// Whether the byte is a decimal digit.
pub fn is_digit(byte: u8) -> bool
    ensures { result ≡ names.is_digit byte }
{
    matches!(byte, b'0'..=b'9')
}

/// Whether the byte is an ASCII letter.
pub fn is_letter(byte: u8) -> bool
    ensures { result ≡ names.is_letter byte }
{
    matches!(byte, b'a'..=b'z' | b'A'..=b'Z')
}

/// Whether the byte is a mark that a name may have.
pub fn is_name_mark(byte: u8) -> bool
    ensures { result ≡ names.is_name_mark byte }
{
    matches!(
        byte,
        b'_' | b'.' | b'$' | b'#' | b'\'' | b'`' | b'~' | b'^' | b'?' | b'\\'
    )
}

/// Whether a name may have the byte.
pub fn is_name_byte(byte: u8) -> bool
    ensures { result ≡ names.is_name_byte byte }
{
    is_letter(byte) || is_digit(byte) || is_name_mark(byte)
}

fn all_name_bytes(bytes: &[u8]) -> bool
    ensures { result ≡ list_all names.is_name_byte bytes.now }
{
    bytes.iter().all(|byte| is_name_byte(*byte))
}

/// Whether the bytes are digits alone; none are.
pub fn all_digits(bytes: &[u8]) -> bool
    ensures { result ≡ list_all names.is_digit bytes.now }
{
    bytes.iter().all(|byte| is_digit(*byte))
}

/// Whether the bytes are a name of the language.
pub fn is_name(bytes: &[u8]) -> bool
    ensures { result ≡ names.is_name bytes.now }
{
    !bytes.is_empty() && !is_digit(bytes[0]) && all_name_bytes(bytes)
}

/// Whether the bytes are one digit or more.
pub fn are_digits(bytes: &[u8]) -> bool
    ensures { result ≡ names.are_digits bytes.now }
{
    !bytes.is_empty() && all_digits(bytes)
}

/// Whether the bytes are digits or a name of the language.
pub fn is_name_or_number(bytes: &[u8]) -> bool
    ensures { result ≡ names.is_name_or_number bytes.now }
{
    are_digits(bytes) || is_name(bytes)
}

/// Whether the program makes names that begin with that letter.
pub fn is_made_mark(byte: u8) -> bool
    ensures { result ≡ names.is_made_mark byte }
{
    byte == b'h' || byte == b'm'
}

/// Whether the bytes are a name that the program makes.
pub fn is_made(bytes: &[u8]) -> bool
    ensures { result ≡ names.is_made bytes.now }
{
    bytes.len() >= 2 && is_made_mark(bytes[0]) && bytes[1] == b':' && is_name_or_number(&bytes[2..])
}

/// Whether the bytes are a name of the language or one that the program makes.
pub fn is_spelled(bytes: &[u8]) -> bool
    ensures { result ≡ names.is_spelled bytes.now }
{
    is_name(bytes) || is_made(bytes)
}

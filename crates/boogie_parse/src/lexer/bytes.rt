//! Bytes between tokens.

ghost use Rattle.std.specs.Prelude.{◌≡◌};
ghost use Rattle.boogie_parse.specs.Lexing.Bytes.{is_blank};

pub(super) fn is_blank(b: u8) -> bool
    ensures { result ≡ is_blank b }
{
    matches!(b, b' ' | b'\t' | b'\n' | b'\r')
}

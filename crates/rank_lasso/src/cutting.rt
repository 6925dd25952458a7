//! Lines and words at the front of bytes.

ghost use Rattle.std.specs.Prelude.{◌≡◌, ◌≤◌, length};
ghost use Rattle.std.specs.List.{prefix_len};
ghost use Rattle.proof_form.specs.Reading.{run_at};
ghost use Rattle.rank_lasso.specs.Lines.{differs, ReadsWord, ReadsLine};

/// What stands behind the word on the line that begins with it, and what stands behind that line.
pub fn line_at<'a>(text: &'a [u8], word: &[u8]) -> Option<(&'a [u8], &'a [u8])>
    ensures { ReadsLine word.now text.now result }
{
    let rest = text.strip_prefix(word)?;
    let (content, rest) = until(rest, b'\n');
    let rest = rest.strip_prefix(b"\n")?;
    Some((content, rest))
}

/// The word behind a space, up to the next space or the end, and what stands behind it.
pub(crate) fn word_at(bytes: &[u8]) -> Option<(&[u8], &[u8])>
    ensures { ReadsWord bytes.now result }
{
    let rest = bytes.strip_prefix(b" ")?;
    Some(until(rest, b' '))
}

/// What stands before the first such byte, and the rest, which begins with that byte or is empty.
fn until(bytes: &[u8], end: u8) -> (&[u8], &[u8])
    ensures { run_at (differs end) bytes.now ≡ (result.0.now, result.1.now) }
{
    bytes.split_at(length_until(bytes, end))
}

fn length_until(bytes: &[u8], end: u8) -> usize
    ensures value { result ≡ prefix_len (differs end) bytes.now }
    ensures within { result ≤ length bytes.now }
{
    bytes.iter().take_while(|b| **b != end).count()
}

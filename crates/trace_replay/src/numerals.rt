//! Numbers at the front of bytes.
ghost use Rattle.std.specs.Prelude.{◌≡◌, ◌≢◌, ◌++◌, ◌∷◌, ◌^◌, ◌<◌, ◌≤◌, [], ℕ, true, false, length, MatchOption};
ghost use Rattle.std.specs.List.{AllByRecursion, prefix_len};
ghost use Rattle.std.specs.Fmt.{decimal};
ghost use Rattle.boogie_tree.specs.Names.{is_digit};
ghost use Rattle.trace_replay.specs.Ties.Pieces.{Reads, has_one_spelling};

/// A number, and behind it the byte that ends it, which is no digit.
pub(crate) fn number_to(bytes: &[u8], end: u8) -> Option<(u128, &[u8])>
    requires { is_digit end ≡ false }
    ensures { Reads (λ n. n < 2 ^ 128) (λ n. decimal n ++ end ∷ []) bytes.now result }
{
    let (digits, rest) = bytes.split_at(digit_count(bytes));
    let n = number_of(digits)?;
    let rest = rest.strip_prefix(&[end])?;
    Some((n, rest))
}

/// The same of a number of 64 bits.
pub(crate) fn long_number_to(bytes: &[u8], end: u8) -> Option<(u64, &[u8])>
    requires { is_digit end ≡ false }
    ensures { Reads (λ n. n < 2 ^ 64) (λ n. decimal n ++ end ∷ []) bytes.now result }
{
    let (n, rest) = number_to(bytes, end)?;
    Some((u64::try_from(n).ok()?, rest))
}

/// The same of a number of 32 bits.
pub(crate) fn short_number_to(bytes: &[u8], end: u8) -> Option<(u32, &[u8])>
    requires { is_digit end ≡ false }
    ensures { Reads (λ n. n < 2 ^ 32) (λ n. decimal n ++ end ∷ []) bytes.now result }
{
    let (n, rest) = number_to(bytes, end)?;
    Some((u32::try_from(n).ok()?, rest))
}

fn digit_count(bytes: &[u8]) -> usize
    ensures value { result ≡ prefix_len is_digit bytes.now }
    ensures within { result ≤ length bytes.now }
{
    bytes.iter().take_while(|b| b.is_ascii_digit()).count()
}

/// The number that the digits are, where they are its one spelling and it has 128 bits.
pub fn number_of(digits: &[u8]) -> Option<u128>
    requires { AllByRecursion (λ d. is_digit d ≡ true) digits.now }
    ensures { MatchOption result ((n : ℕ) → n < 2 ^ 128 → digits.now ≢ decimal n) (λ n. (n < 2 ^ 128) × (digits.now ≡ decimal n)) }
{
    if !has_one_spelling(digits) {
        return None;
    }
    let text = str::from_utf8(digits).ok()?;
    text.parse().ok()
}

/// At least one digit, and no zero in front.
fn has_one_spelling(digits: &[u8]) -> bool
    ensures { result ≡ has_one_spelling digits.now }
{
    match digits {
        [] => false,
        [_] => true,
        [first, ..] => *first != b'0',
    }
}

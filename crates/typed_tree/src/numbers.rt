//! Sums and products that fit.

ghost use Rattle.std.specs.Prelude.{◌≡◌, ◌+ℤ◌, ◌*ℤ◌, true, false, MatchOption};
ghost use Rattle.typed_tree.specs.AffineForm.{fits};

/// `a + b`, or `None` where it does not fit.
pub fn sum(a: i128, b: i128) -> Option<i128>
    ensures { MatchOption result (fits (a +ℤ b) ≡ false) (λ n. (n ≡ a +ℤ b) × (fits (a +ℤ b) ≡ true)) }
{
    let sum = a.checked_add(b)?;
    if sum != i128::MIN { Some(sum) } else { None }
}

/// `a*b`, or `None` where it does not fit.
pub fn product(a: i128, b: i128) -> Option<i128>
    ensures { MatchOption result (fits (a *ℤ b) ≡ false) (λ n. (n ≡ a *ℤ b) × (fits (a *ℤ b) ≡ true)) }
{
    let product = a.checked_mul(b)?;
    if product != i128::MIN {
        Some(product)
    } else {
        None
    }
}

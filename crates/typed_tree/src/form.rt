ghost use Rattle.std.specs.Prelude.{◌≡◌, true, ◌&&◌};
ghost use Rattle.std.specs.List.{list_all};
ghost use Rattle.typed_tree.specs.AffineForm.{fits};
ghost use Rattle.typed_tree.specs.Ties.FormOrder.{ascends, terms_fit};

use boogie_tree::Column;
use smallvec::SmallVec;
use std::alloc::{AllocError, Global};

/// Columns with a coefficient each, of which up to four need no allocation.
pub type Terms = SmallVec<(Column, i128), 4>;

/// The coefficients of atoms, one for each `div`, `mod` or product of two factors that are not constant.
pub type Quotients = SmallVec<i128, 2>;

/// The form of an expression: its columns ascend, no coefficient is 0, and all numbers fit.
#[derive(Drop)]
pub struct Form {
    pub terms: Terms,
    pub quotients: Quotients,
    pub constant: i128,
    ghost in_order: { ascends terms.items ≡ true },
    ghost terms_fit: { terms_fit terms.items ≡ true },
    ghost quotients_fit: { list_all fits quotients.items ≡ true },
    ghost constant_fits: { fits constant ≡ true },
}

impl Form {
    ghost use Rattle.std.specs.Prelude.{IfOk};
    ghost use Rattle.typed_tree.specs.AffineForm.{form_number, once, form_quotient, is_constant};
    ghost use Rattle.typed_tree.specs.Ties.FormView.{form_of};

    /// A number.
    pub fn number(alloc: Global, n: i128) -> Self
        requires { fits n ≡ true }
        ensures { form_of result ≡ form_number n }
    {
        Form {
            terms: Terms::new(alloc),
            quotients: Quotients::new(alloc),
            constant: n,
        }
    }

    /// A column, taken once.
    pub fn once(alloc: Global, column: Column) -> Result<Self, AllocError>
        ensures { IfOk result (λ f. form_of f ≡ once column) }
    {
        Ok(Form {
            terms: Terms::from_slice(alloc, &[(column, 1)])?,
            quotients: Quotients::new(alloc),
            constant: 0,
        })
    }

    /// One atom.
    pub fn quotient(alloc: Global) -> Result<Self, AllocError>
        ensures { IfOk result (λ f. form_of f ≡ form_quotient) }
    {
        Ok(Form {
            terms: Terms::new(alloc),
            quotients: Quotients::from_slice(alloc, &[1])?,
            constant: 0,
        })
    }

    /// Whether it is nothing but a constant.
    pub fn is_constant(&self) -> bool
        ensures { result ≡ is_constant (form_of self.now) }
    {
        self.terms.is_empty() && self.quotients.is_empty()
    }
}

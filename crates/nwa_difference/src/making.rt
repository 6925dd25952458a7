//! The difference.

ghost use Rattle.std.specs.Prelude.{◌≡◌, ◌↔◌, List, None, IfOk, OnOk};
ghost use Rattle.nwa_base.specs.declared.letters.Letter.{Letter};
ghost use Rattle.nwa_base.specs.Members.{Member};
ghost use Rattle.nwa_base.specs.Acceptance.{Accepts};
ghost use Rattle.nwa_difference.specs.Ties.Making.{IsMade};
ghost use Rattle.nwa_difference.specs.Ties.Stages.{IsStage};
ghost use Rattle.nwa_difference.specs.Ties.Seen.{seen, found, stage};

use crate::pairs::Pairs;
use crate::product::Product;
use crate::stepping::expand;
use nwa_base::Nwa;
use std::alloc::{AllocError, Global};

/// An automaton that accepts a word exactly where `first` does and `second` does not.
///
/// It is made from its start on, state by state as words reach them, and no state is made where a cover shows that `second`
/// accepts whatever `first` does from there on.
pub fn difference(alloc: Global, first: &Nwa, second: &Nwa) -> Result<Nwa, AllocError>
    ensures { IfOk result (λ d. (w : List Letter) → Accepts d w ↔ (Accepts first.now w × (Accepts second.now w → ⊥))) }
{
    let mut product = Product::new(alloc, first, second)?;
    search(alloc, &mut product)?;
    Ok(product.into_nwa())
}

/// Makes all of the product to which words lead from its start.
fn search(alloc: Global, product: &mut Product) -> Result<(), AllocError>
    requires { IsMade (seen product.old) }
    ensures { OnOk result ((w : List Letter) → Accepts (seen product.new).product w ↔ (Accepts (seen product.old).first w × (Accepts (seen product.old).sets.nwa w → ⊥))) }
{
    let mut pairs = begin(alloc, product)?;
    expand_all(alloc, product, &mut pairs)
}

/// Follows the edges of each pair, also of those that are found on the way.
fn expand_all(alloc: Global, product: &mut Product, pairs: &mut Pairs) -> Result<(), AllocError>
    requires stage { IsStage (stage product.old pairs.old) }
    requires start { Member (found pairs.old).pairs (None, (seen product.old).product.start) }
    ensures { OnOk result ((w : List Letter) → Accepts (seen product.new).product w ↔ (Accepts (seen product.old).first w × (Accepts (seen product.old).sets.nwa w → ⊥))) }
{
    let mut place = 0;
    while let Some((entry, state)) = pairs.at(place) {
        expand(alloc, product, pairs, entry, state)?;
        place += 1;
    }
    Ok(())
}

/// The start alone is found, with no call open.
fn begin(alloc: Global, product: &Product) -> Result<Pairs, AllocError>
    requires { IsMade (seen product.now) }
    ensures { IfOk result (λ s. IsStage (stage product.now s) × Member (found s).pairs (None, (seen product.now).product.start)) }
{
    let mut pairs = Pairs::new(alloc);
    pairs.add(None, product.nwa().start())?;
    Ok(pairs)
}

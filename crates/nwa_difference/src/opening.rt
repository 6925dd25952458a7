//! The edges of a state of the product, made all at once.

ghost use Rattle.std.specs.Prelude.{◌<◌, OnOk, length};
ghost use Rattle.nwa_difference.specs.Ties.Making.{IsMade, Extends, Nowhere, NoReturn, Only, OnlyReturn, HasInsides, HasCalls, HasBacks};
ghost use Rattle.nwa_difference.specs.Ties.Seen.{seen};

use crate::product::Product;
use std::alloc::AllocError;

/// Gives a state its inside letters and calls.
pub fn make_forward(product: &mut Product, state: u32) -> Result<(), AllocError>
    requires made { IsMade (seen product.old) }
    requires within { state < length (seen product.old).states }
    ensures { OnOk result (Extends (seen product.old) (seen product.new) (Only state) NoReturn × HasInsides (seen product.new) state × HasCalls (seen product.new) state) }
{
    make_insides(product, state)?;
    make_calls(product, state)?;
    Ok(())
}

/// Gives a state its inside letters.
fn make_insides(product: &mut Product, state: u32) -> Result<(), AllocError>
    requires made { IsMade (seen product.old) }
    requires within { state < length (seen product.old).states }
    ensures { OnOk result (Extends (seen product.old) (seen product.new) (Only state) NoReturn × HasInsides (seen product.new) state) }
{
    let (first, _) = product.parts(state);
    for &(_, letter, end) in product.first().insides_leaving(first) {
        product.add_inside(state, letter, end)?;
    }
    Ok(())
}

/// Gives a state its calls.
fn make_calls(product: &mut Product, state: u32) -> Result<(), AllocError>
    requires made { IsMade (seen product.old) }
    requires within { state < length (seen product.old).states }
    ensures { OnOk result (Extends (seen product.old) (seen product.new) (Only state) NoReturn × HasCalls (seen product.new) state) }
{
    let (first, _) = product.parts(state);
    for &(_, letter, end) in product.first().calls_leaving(first) {
        product.add_call(state, letter, end)?;
    }
    Ok(())
}

/// Gives a state its returns to a state before its call.
pub fn make_backs(product: &mut Product, state: u32, before: u32) -> Result<(), AllocError>
    requires made { IsMade (seen product.old) }
    requires within { state < length (seen product.old).states }
    requires before { before < length (seen product.old).states }
    ensures { OnOk result (Extends (seen product.old) (seen product.new) Nowhere (OnlyReturn state before) × HasBacks (seen product.new) state before) }
{
    let (exit, _) = product.parts(state);
    let (outer, _) = product.parts(before);
    for &(_, _, letter, end) in product.first().backs_between(exit, outer) {
        product.add_back(state, before, letter, end)?;
    }
    Ok(())
}

ghost use Rattle.std.specs.Prelude.{◌≡◌, true, IfOk, IfErr};
ghost use Rattle.typed_tree.specs.declared.fault.TypeFault.TheVariants as TypeFault;
ghost use Rattle.boogie_types.specs.Resolved.{is_set};
ghost use Rattle.boogie_types.specs.Ties.Numbers.{named_by, texts, number_of_name, IsTwiceFault};

use boogie_tree::Name;
use std::alloc::Global;
use std::collections::BTreeMap;
use std::marker::Model;
use typed_tree::TypeFault;

/// A count as a number of 32 bits. What has more does not fit into memory, with its names.
pub(crate) fn number_of(count: usize) -> Result<u32, TypeFault>
    ensures value { IfOk result (λ n. n ≡ count) }
    ensures fault { IfErr result (λ f. f ≡ TypeFault.Memory) }
{
    if count <= u32::MAX as usize {
        Ok(count as u32)
    } else {
        Err(TypeFault::Memory)
    }
}

/// Names of one set with their numbers.
#[derive(Drop)]
pub(crate) struct Numbered<'a> {
    names: Vec<&'a Name>,
    places: BTreeMap<&'a [u8], u32>,
}

impl<'a> Model for Numbered<'a> {
    ghost use Rattle.std.specs.Prelude.{ℕ, List};
    ghost use Rattle.boogie_types.specs.Ties.Numbers.{named_by, texts, IsNumbered};

    ghost Value = { List (List ℕ) };

    ghost view = { λ l. texts (named_by l.names.items) };

    ghost invariant = { λ l. IsNumbered l.places (texts (named_by l.names.items)) };
}

impl<'a> Numbered<'a> {
    /// Numbers the names in order; the first that stands there already is the fault.
    pub(crate) fn new(alloc: Global, names: Vec<&'a Name>) -> Result<Self, TypeFault>
        ensures ok { IfOk result (λ l. l ≡ texts (named_by names.entry.items)) }
        ensures set { IfOk result (λ _. is_set (named_by names.entry.items) ≡ true) }
        ensures fault { IfErr result (λ f. IsTwiceFault (named_by names.entry.items) f) }
    {
        let mut places = BTreeMap::new(alloc);
        for (place, name) in names.iter().enumerate() {
            let number = number_of(place)?;
            if places.insert(name.text.bytes(), number)?.is_some() {
                return Err(TypeFault::Twice(name.span));
            }
        }
        Ok(Numbered { names, places })
    }

    /// The number of a name.
    pub(crate) fn place(&self, name: &[u8]) -> Option<u32>
        ensures { result ≡ number_of_name self.now name.now }
    {
        self.places.get(name).copied()
    }
}

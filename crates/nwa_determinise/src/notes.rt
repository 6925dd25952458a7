//! Values that are computed once.

ghost use Rattle.std.specs.Prelude.{◌≡◌, ◌⊎◌, ℕ, IsTrue, Some};
ghost use Rattle.std.specs.HashMap.{get};

use std::collections::HashMap;
use std::hash::Hash;

/// Notes a value under a key. Where there is no memory for it, nothing is noted.
pub(crate) fn note<K: Eq + Hash + Drop>(notes: &mut HashMap<K, u32>, key: K, value: u32)
    ensures { (k : K) (n : ℕ) → get K.eq notes.new k ≡ Some n → (get K.eq notes.old k ≡ Some n) ⊎ (IsTrue (K.eq key k) × (n ≡ value)) }
{
    let _noted = notes.insert(key, value);
}

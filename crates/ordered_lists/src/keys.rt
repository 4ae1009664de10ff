//! Keys in order: sorted, sorted without repetitions, and the place of a key.

ghost use Rattle.ordered_lists.specs.Orders.{IsInOrder, contains, distinct};
ghost use Rattle.std.specs.Prelude.{IfSome, IsPermutation, Some, is_some, slice_get, ◌≡◌};
ghost use Rattle.std.specs.declared.cmp.Ordering.TheVariants.{Equal};

/// A key that orders items. Two keys that compare as equal are the same key.
pub trait Key: Ord + Copy {
    /// Keys that compare as equal are the same key.
    ghost exact: { (x y : Self) → Self.Ord.cmp x y ≡ Equal → x ≡ y };
}

impl Key for u64 {
    ghost use Rattle.std.proofs.lemmas.Map.Lookups.{exact_unsigned};

    ghost exact = { exact_unsigned };
}

impl Key for u32 {
    ghost use Rattle.std.proofs.lemmas.Map.Lookups.{exact_unsigned};

    ghost exact = { exact_unsigned };
}

impl Key for u16 {
    ghost use Rattle.std.proofs.lemmas.Map.Lookups.{exact_unsigned};

    ghost exact = { exact_unsigned };
}

impl<const N: usize> Key for [u8; N] {
    ghost use Rattle.std.proofs.lemmas.Map.Lookups.{exact_bytes};

    ghost exact = { exact_bytes };
}

impl<A: Key, B: Key> Key for (A, B) {
    ghost use Rattle.std.proofs.lemmas.Map.Lookups.{exact_pairs};

    ghost exact = { exact_pairs A.Ord.cmp B.Ord.cmp A.exact B.exact };
}

/// Puts keys in order. It allocates no memory.
pub fn sort_keys<K: Key>(keys: &mut Vec<K>)
    ensures permutation { IsPermutation keys.old.items keys.new.items }
    ensures in_order { IsInOrder K.cmp keys.new.items }
{
    keys.sort_unstable();
}

/// Puts keys in order and removes repetitions. It allocates no memory.
pub fn sort_distinct<K: Key>(keys: &mut Vec<K>)
    ensures { keys.new.items ≡ distinct K.cmp keys.old.items }
{
    keys.sort_unstable();
    keys.dedup();
}

/// Returns the place of a key in a list of keys in order, counted from 0, or none if the list doesn't have it.
pub fn place_of<K: Key>(keys: &[K], key: K) -> Option<usize>
    requires { IsInOrder K.cmp keys.now }
    ensures found { IfSome result (λ place. slice_get keys.now place ≡ Some key) }
    ensures known { is_some result ≡ contains K.cmp key keys.now }
{
    keys.binary_search(&key).ok()
}

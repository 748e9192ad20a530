//! What names a key in the queues: the key, or its number in a trace.
ghost use Rattle.std.specs.Prelude.{◌≡◌, ℕ, List, map, refl};
ghost use Rattle.std.proofs.Common.{sym};
ghost use Rattle.std.proofs.lemmas.List.{map-id};
ghost use Rattle.queue_table.specs.Moves.{item_of};

use crate::slot::{NarrowKey, TableItem};
use engine_base::Key;

/// What stands in the queues for a key: the key, one below 2^32 in half the bytes, or a number in its place.
pub trait KeyName: TableItem {
    // the key that definitions see
    ghost key: { Self → ℕ };

    // the keys of a list of names, for which it is the list itself where a name is a number
    ghost keys: { List Self → List ℕ };

    /// The key.
    fn key(self) -> Key
        ensures { result ≡ key self };

    ghost item_is: { (k : Self) → Self.item k ≡ item_of (key k) };

    ghost keys_are: { (l : List Self) → keys l ≡ map key l };
}

impl KeyName for Key {
    ghost key = { λ k. k };

    ghost keys = { λ l. l };

    #[inline(always)]
    fn key(self) -> Key {
        self
    }

    ghost item_is = { λ k. refl };

    ghost keys_are = { λ l. sym (map-id l) };
}

impl KeyName for u32 {
    ghost key = { λ k. k };

    ghost keys = { λ l. l };

    #[inline(always)]
    fn key(self) -> Key {
        u64::from(self)
    }

    ghost item_is = { λ k. refl };

    ghost keys_are = { λ l. sym (map-id l) };
}

impl KeyName for NarrowKey {
    ghost key = { λ k. k.key };

    ghost keys = { λ l. map (λ k. k.key) l };

    #[inline(always)]
    fn key(self) -> Key {
        u64::from(self.key)
    }

    ghost item_is = { λ k. refl };

    ghost keys_are = { λ l. refl };
}

//! A recorded trace.
ghost use Rattle.std.specs.Prelude.{◌≡◌, ◌≤◌, ◌↔◌, ℕ, List, IsTrue, length};
ghost use Rattle.engine_base.specs.declared.limits.TheConstants.{MAX_ACCESSES};

use super::Key;
use std::marker::Model;

/// The accesses of a trace, in order: at most `MAX_ACCESSES` of them.
#[derive(Drop)]
pub struct Trace {
    keys: Vec<Key>,
}

impl Model for Trace {
    ghost Value = { List ℕ };

    ghost view = { λ t. t.keys.items };

    ghost invariant = { λ t. length t.keys.items ≤ MAX_ACCESSES };
}

impl Trace {
    /// The trace of these accesses.
    pub fn new(keys: Vec<Key>) -> Trace
        requires { length keys.items ≤ MAX_ACCESSES }
        ensures { result ≡ keys.items }
    {
        Trace { keys }
    }

    /// The keys that are accessed, in order.
    pub fn keys(&self) -> &[Key]
        ensures keys { result.now ≡ self.now }
        ensures few { length self.now ≤ MAX_ACCESSES }
    {
        self.keys.as_slice()
    }

    /// How many accesses there are.
    pub fn len(&self) -> usize
        ensures len { result ≡ length self.now }
        ensures few { result ≤ MAX_ACCESSES }
    {
        self.keys.len()
    }

    /// Every trace has at most `MAX_ACCESSES` accesses. This does nothing: its contract is the fact.
    pub fn bounded(&self)
        ensures { length self.now ≤ MAX_ACCESSES }
    {
        let _keys = &self.keys;
    }

    /// Whether there is no access.
    pub fn is_empty(&self) -> bool
        ensures { IsTrue result ↔ (length self.now ≡ 0) }
    {
        self.keys.is_empty()
    }
}

//! Breakpoints, and what they ask of a step.
ghost use Rattle.std.specs.Prelude.{◌≡◌};
ghost use Rattle.debug_commands.specs.Breakpoints.{first_holding, holds_after, breakpoint_word};

use crate::grammar::Name;
use engine_base::Key;

/// Where `run` stops: after a step at which the breakpoint holds.
#[derive(Clone, Copy)]
pub enum Breakpoint {
    /// A cache hit this key.
    Hit(Key),
    /// This key left a cache, or was not kept.
    Evict(Key),
    /// A sketch was halved.
    Halve,
    /// Exactly one of two policies hit.
    Part,
    /// An offer to a read buffer was dropped.
    Drop,
}

/// What breakpoints look at in a step.
#[derive(Clone, Copy)]
pub struct StepFacts {
    /// The key that a cache hit.
    pub hit: Option<Key>,
    /// The key that left the cache; of two caches, the first.
    pub evicted: Option<Key>,
    /// The key that left the second cache.
    pub evicted_too: Option<Key>,
    /// The age of a sketch fell.
    pub halved: bool,
    /// Exactly one of two policies hit.
    pub parted: bool,
    /// An offer to a read buffer was dropped.
    pub dropped: bool,
}

impl Breakpoint {
    /// The word that names it.
    pub fn word(self) -> &'static [u8]
        ensures { result.now ≡ breakpoint_word self }
    {
        let name = match self {
            Breakpoint::Hit(_) => Name::Hit,
            Breakpoint::Evict(_) => Name::Evict,
            Breakpoint::Halve => Name::Halve,
            Breakpoint::Part => Name::Part,
            Breakpoint::Drop => Name::Drop,
        };
        name.text()
    }

    /// Whether it holds after the step.
    pub fn holds(self, facts: &StepFacts) -> bool
        ensures { result ≡ holds_after facts.now self }
    {
        match self {
            Breakpoint::Hit(key) => is_key(facts.hit, key),
            Breakpoint::Evict(key) => is_key(facts.evicted, key) || is_key(facts.evicted_too, key),
            Breakpoint::Halve => facts.halved,
            Breakpoint::Part => facts.parted,
            Breakpoint::Drop => facts.dropped,
        }
    }
}

/// The first of the breakpoints that holds after the step.
pub fn first_holding(breaks: &[Breakpoint], facts: &StepFacts) -> Option<Breakpoint>
    ensures { result ≡ first_holding facts.now breaks.now }
{
    for point in breaks {
        if point.holds(facts) {
            return Some(*point);
        }
    }
    None
}

// Whether it is this key.
fn is_key(found: Option<Key>, key: Key) -> bool
    ensures { result ≡ Rattle.debug_commands.specs.Breakpoints.is_key found key }
{
    match found {
        Some(other) => other == key,
        None => false,
    }
}

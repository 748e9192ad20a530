//! What arguments hold on the heap, which contracts see as lists.
ghost use Rattle.std.specs.Prelude.{◌≡◌, string_bytes};

use std::marker::Model;
use step_record::Job;

/// What was named, in order.
#[derive(Drop)]
pub struct NamedList<T> {
    pub(crate) named: Vec<T>,
}

/// Jobs, in the order in which their policies were named.
pub type JobList = NamedList<Job>;

/// Capacities, in the order in which they were named.
pub type CapacityList = NamedList<u32>;

impl<T> Model for NamedList<T> {
    ghost use Rattle.std.specs.Prelude.{List};

    ghost Value = { List T };

    ghost view = { λ l. l.named.items };
}

impl<T> NamedList<T> {
    /// The list, as a slice.
    pub fn as_slice(&self) -> &[T]
        ensures { result.now ≡ self.now }
    {
        self.named.as_slice()
    }
}

/// The path of a file.
#[derive(Drop)]
pub struct FilePath {
    pub(crate) path: String,
}

impl Model for FilePath {
    ghost use Rattle.std.specs.Prelude.{ℕ, List, string_bytes};

    ghost Value = { List ℕ };

    ghost view = { λ p. string_bytes p.path };
}

impl FilePath {
    /// The path, as text.
    pub fn as_str(&self) -> &str
        ensures { result.now ≡ self.now }
    {
        self.path.as_str()
    }
}

//! The hits of Lru at every capacity.
ghost use Rattle.std.specs.Prelude.{◌≡◌, ◌+◌, ℕ, List, ◌≤◌, IfOk};
ghost use Rattle.queue_cache.specs.Lru.{lru};
ghost use Rattle.queue_cache.specs.declared.design.QueueSetup.{QueueSetup};
ghost use Rattle.queue_cache.specs.QueueCache.{state_after};
ghost use Rattle.queue_cache.specs.Curve.{curve_of};
ghost use Rattle.queue_cache.specs.Distances.{stats_by};

use crate::histogram::Histogram;
use engine_base::{Stats, Trace};
use std::alloc::{AllocError, Global};
use std::marker::Model;

/// How many hits Lru has over a trace at each capacity: its hit ratio curve, in counts (Mattson, Gecsei, Slutz and
/// Traiger 1970). It takes 4 bytes for each distinct key of the trace.
#[derive(Drop)]
pub struct Curve {
    accesses: u64,
    // At c - 1, the hits at the capacity c, up to the number of distinct keys.
    hits: Vec<u32>,
}

impl Model for Curve {
    ghost use Rattle.queue_cache.specs.Curve.{CurveData, IsCurve};

    ghost Value = { CurveData };

    ghost view = { λ c. record { accesses = c.accesses; hits = c.hits.items } };

    ghost invariant = { λ c. IsCurve record { accesses = c.accesses; hits = c.hits.items } };
}

impl Curve {
    ghost use Rattle.std.specs.Prelude.{length, ◌<◌};
    ghost use Rattle.queue_cache.specs.Distances.{hits_within};

    /// The curve of a trace, found in one pass over it. The only error is out of memory.
    pub fn of_trace(alloc: Global, trace: &Trace) -> Result<Curve, AllocError>
        ensures { IfOk result (λ c. c ≡ curve_of trace.now) }
    {
        let keys = trace.keys();
        let mut histogram = Histogram::new(alloc, keys)?;
        for place in 0..keys.len() {
            histogram.begin_access(keys, place);
            histogram.access(keys, place)?;
        }
        let mut hits = histogram.into_counts();
        let mut sum = 0;
        for c in 0..hits.len() {
            sum += hits[c];
            hits[c] = sum;
        }
        Ok(Curve {
            accesses: keys.len() as u64,
            hits,
        })
    }

    /// The statistics of Lru at a capacity, those of its definition over the trace that the curve was made of: what a
    /// cache of Lru of this capacity counts, with any configuration. It takes a look-up.
    pub fn stats(&self, capacity: u32) -> Stats
        requires { 1 ≤ capacity }
        ensures { (s : QueueSetup) (keys : List ℕ) → self.now ≡ curve_of keys → s.design ≡ lru
            → s.config.capacity ≡ capacity → result ≡ (state_after s keys).stats }
    {
        let held = self.hits.len().min(capacity as usize);
        let hits = self.hits_at(held);
        stats_by(self.accesses, hits, held as u64)
    }

    // The hits at a capacity of at most the number of distinct keys.
    fn hits_at(&self, capacity: usize) -> u64
        requires { capacity ≤ length self.now.hits }
        ensures { (keys : List ℕ) → self.now ≡ curve_of keys → result ≡ hits_within capacity keys }
    {
        if capacity == 0 {
            return 0;
        }
        self.hits[capacity - 1] as u64
    }
}

// What is counted of so many accesses, hits and keys that are held at the end.
pub(crate) fn stats_by(accesses: u64, hits: u64, held: u64) -> Stats
    requires { hits + held ≤ accesses }
    ensures { result ≡ stats_by accesses hits held }
{
    let misses = accesses - hits;
    Stats {
        accesses,
        hits,
        misses,
        evictions: misses - held,
        rejections: 0,
    }
}

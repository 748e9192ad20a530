//! What the stack distances of a trace say about Lru. Each of these functions does nothing: its contract is the
//! theorem.
ghost use Rattle.queue_cache.specs.DistanceTheorems.{LruHits, LruCounts, HitsGrow};

/// An access is a hit of Lru exactly where its distance is at most the capacity.
#[tactic(auto, using(crate::proofs::Counting::lru_hits))]
pub fn lru_hits()
    ensures { LruHits }
{}

/// The statistics of Lru over a trace, at every capacity, follow from the distances of the accesses.
#[tactic(auto, using(crate::proofs::Counting::lru_counts))]
pub fn lru_counts()
    ensures { LruCounts }
{}

/// A larger capacity has no fewer hits.
pub fn hits_grow()
    ensures { HitsGrow }
{}

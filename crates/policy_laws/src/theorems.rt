//! What every policy keeps. Each of these functions does nothing of its own: its contract is the theorem.
ghost use Rattle.policy_laws.specs.Renaming.{QueuesIgnoreNames};
ghost use Rattle.policy_laws.specs.Scans.{ScansSpareProtected};
ghost use Rattle.policy_laws.specs.Theorems.{NoPolicyBeatsBelady, BeladyLeads, OptimalHitsGrow, LruHitsGrow};

/// Over every trace, no policy has more hits than Belady's optimal policy at the same capacity. (Belady 1966.)
#[tactic(auto, using(crate::proofs::Beaten::no_policy_beats))]
pub fn no_policy_beats_belady()
    ensures { NoPolicyBeatsBelady }
{
    crate::optimality::belady_is_optimal();
    crate::optimality::belady_is_strategy();
}

/// So it is at each place of a trace, for two caches that made the same accesses.
#[tactic(auto, using(crate::proofs::Beaten::belady_leads))]
pub fn belady_leads()
    ensures { BeladyLeads }
{
    crate::optimality::belady_is_optimal();
}

/// At a larger capacity Belady's optimal policy has no fewer hits. (Mattson and others 1970.)
#[tactic(auto, using(crate::proofs::Beaten::optimal_grows))]
pub fn optimal_hits_grow()
    ensures { OptimalHitsGrow }
{
    crate::optimality::belady_hits_grow();
}

/// At a larger capacity Lru has no fewer hits, since it holds what it holds at a smaller one. (Mattson and others
/// 1970.)
#[tactic(auto, using(crate::proofs::Lru::lru_hits_grow))]
pub fn lru_hits_grow()
    ensures { LruHitsGrow }
{
    queue_cache::theorems::lru_step_law();
}

/// A scan, which accesses keys once each, leaves the protected queue of segmented Lru as it was, with the admission
/// filter or without: no key that was hit there is lost to keys that come once.
#[tactic(auto, using(crate::proofs::Scans::scans_spare_protected))]
pub fn scans_spare_protected()
    ensures { ScansSpareProtected }
{}

/// Each policy of queues that counts no keys, as LRU and segmented LRU, ignores what keys are called.
#[tactic(auto, using(crate::proofs::RenamedQueueCache::queues_ignore_names))]
pub fn queues_ignore_names()
    ensures { QueuesIgnoreNames }
{}

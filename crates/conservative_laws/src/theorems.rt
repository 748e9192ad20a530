//! What is known of conservative policies. Each of these functions does nothing of its own: its contract is the
//! theorem.
ghost use Rattle.conservative_laws.specs.Examples.{FifoAndClockHaveAnomaly};
ghost use Rattle.conservative_laws.specs.Examples.{SieveIsNotConservative, S3FifoIsNotConservative};
ghost use Rattle.conservative_laws.specs.ReportLaws.{ReportsObeyLaws};
ghost use Rattle.conservative_laws.specs.Theorems.{ConservativeCompetes, ConservativeCompetesWithoutBypass};
ghost use Rattle.conservative_laws.specs.Theorems.{FillingCompetes, FillingCompetesWithoutBypass};
ghost use Rattle.conservative_laws.specs.Theorems.{LruFifoClockAreConservative, LruFifoClockCompete};
ghost use Rattle.conservative_laws.specs.Theorems.{LruFifoClockCompeteWithoutBypass, LruFifoClockCompeteWithAny};
ghost use Rattle.conservative_laws.specs.Theorems.{LruFifoClockTwiceAsLarge, NoFactorIsSmaller};

/// A conservative cache of capacity c has at most (c + 1) / (c + 1 - h) times the misses of any strategy of capacity h,
/// which may bypass the cache, and c more. (After Sleator and Tarjan 1985; Young 1994 for conservative.)
#[tactic(auto, using(crate::proofs::Competition::conservative_competes))]
pub fn conservative_competes()
    ensures { ConservativeCompetes }
{}

/// Where the strategy never bypasses the cache, the factor is c / (c + 1 - h). (Sleator and Tarjan 1985.)
#[tactic(auto, using(crate::proofs::Competition::conservative_competes_without_bypass))]
pub fn conservative_competes_without_bypass()
    ensures { ConservativeCompetesWithoutBypass }
{}

/// A conservative cache that evicts nothing before it is full needs no constant.
#[tactic(auto, using(crate::proofs::Competition::filling_competes))]
pub fn filling_competes()
    ensures { FillingCompetes }
{}

/// So it is beside a strategy that never bypasses the cache.
#[tactic(auto, using(crate::proofs::Competition::filling_competes_without_bypass))]
pub fn filling_competes_without_bypass()
    ensures { FillingCompetesWithoutBypass }
{}

/// Lru, FIFO and CLOCK are conservative; CLOCK since a key joins with its bit set. (Young 1994.)
#[tactic(auto, using(crate::proofs::Jobs::are_conservative))]
pub fn lru_fifo_clock_are_conservative()
    ensures { LruFifoClockAreConservative }
{
    queue_cache::theorems::lru_step_law();
    policies::theorems::any_covers_trace();
}

/// At each place of every trace, their misses at capacity c are at most (c + 1) / (c + 1 - h) times those of any
/// strategy of capacity h, which may bypass the cache. (After Sleator and Tarjan 1985.)
#[tactic(auto, using(crate::proofs::Jobs::compete))]
pub fn lru_fifo_clock_compete()
    ensures { LruFifoClockCompete }
{
    filling_competes();
    queue_cache::theorems::lru_step_law();
    policies::theorems::any_covers_trace();
}

/// Where the strategy never bypasses the cache, the factor is c / (c + 1 - h). (Sleator and Tarjan 1985.)
#[tactic(auto, using(crate::proofs::Jobs::compete_without_bypass))]
pub fn lru_fifo_clock_compete_without_bypass()
    ensures { LruFifoClockCompeteWithoutBypass }
{
    filling_competes_without_bypass();
    queue_cache::theorems::lru_step_law();
    policies::theorems::any_covers_trace();
}

/// With twice the capacity of a strategy (one key less is enough), each has at most twice its misses.
pub fn lru_fifo_clock_twice_as_large()
    ensures { LruFifoClockTwiceAsLarge }
{
    lru_fifo_clock_compete();
}

/// The same bound beside every policy, Belady's optimal policy among them.
#[tactic(auto, using(crate::proofs::Jobs::compete_with_any))]
pub fn lru_fifo_clock_compete_with_any()
    ensures { LruFifoClockCompeteWithAny }
{
    lru_fifo_clock_compete();
    policies::theorems::any_covers_trace();
    policy_laws::optimality::belady_is_strategy();
}

/// So the reports of jobs over a trace, whichever call made them, obey laws that their reader can check: the counts add
/// up, no policy has more hits than Belady's at its capacity, and Lru, FIFO and CLOCK keep the bound.
pub fn reports_obey_laws()
    ensures { ReportsObeyLaws }
{
    policies::theorems::stats_add_up();
    policies::theorems::misses_fit();
    policy_laws::theorems::no_policy_beats_belady();
    policy_laws::theorems::lru_hits_grow();
    policy_laws::theorems::optimal_hits_grow();
    lru_fifo_clock_compete_with_any();
}

/// The factor of that bound is exact, and no policy has a smaller one but that which knows the trace: on some traces,
/// however long, a strategy does as well as it allows. (After Sleator and Tarjan 1985.)
#[tactic(auto, using(crate::proofs::Adversary::no_factor_is_smaller))]
pub fn no_factor_is_smaller()
    ensures { NoFactorIsSmaller }
{
    policies::theorems::any_covers_trace();
}

/// FIFO and CLOCK can miss more often in a larger cache. (Belady's anomaly: Belady, Nelson and Shedler 1969.)
pub fn fifo_and_clock_have_anomaly()
    ensures { FifoAndClockHaveAnomaly }
{}

/// SIEVE is not conservative.
#[tactic(auto, using(crate::proofs::Examples::sieve_is_not_conservative))]
pub fn sieve_is_not_conservative()
    ensures { SieveIsNotConservative }
{}

/// S3-FIFO is not conservative.
#[tactic(auto, using(crate::proofs::Examples::s3_fifo_is_not_conservative))]
pub fn s3_fifo_is_not_conservative()
    ensures { S3FifoIsNotConservative }
{}

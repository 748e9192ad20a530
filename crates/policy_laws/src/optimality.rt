//! What is known of Belady's policy beside any other strategy. Each of these functions does nothing: its contract is
//! the theorem.
ghost use Rattle.policy_laws.specs.Optimality.{BeladyIsOptimal, BeladyIsStrategy, BeladyHitsGrow};

/// No strategy of the same capacity has more hits than Belady's policy, at any place of any trace. The strategy may
/// know the whole trace, and may bypass the cache; it fetches on demand. (Belady 1966.)
#[tactic(auto, using(crate::proofs::Optimal::optimal))]
pub fn belady_is_optimal()
    ensures { BeladyIsOptimal }
{}

/// Belady's policy is a strategy of its capacity, so the bound is reached.
pub fn belady_is_strategy()
    ensures { BeladyIsStrategy }
{}

/// At a larger capacity Belady's policy has no fewer hits. (It is a stack algorithm: Mattson and others 1970.)
#[tactic(auto, using(crate::proofs::Optimal::hits_grow))]
pub fn belady_hits_grow()
    ensures { BeladyHitsGrow }
{}

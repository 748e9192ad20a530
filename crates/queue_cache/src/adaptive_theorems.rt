//! What is known of the adaptive window. Each of these functions does nothing: its contract is the theorem.
ghost use Rattle.queue_cache.specs.AdaptiveTheorems.{RulesFit, AdaptiveUndoes, AdaptiveKeeps, AdaptiveCounts};
ghost use Rattle.queue_cache.specs.Steps.{ChangesBySteps};
ghost use Rattle.queue_cache.specs.Residents.{CacheKeeps, CacheHitsAskNothing, CacheAsksWhereOneLeft};
ghost use Rattle.queue_cache.specs.AdaptiveExamples.{WorkedExample, JumpingExample, PeriodsExample};

/// The rules of each capacity and main part are such as the theorems ask for, and so is the window at first.
#[tactic(auto, using(crate::proofs::Climbing::rules_fit))]
pub fn rules_fit()
    ensures { RulesFit }
{}

/// An access is undone from its record and the state after it.
#[tactic(auto, using(crate::proofs::Fitting::undoes))]
pub fn adaptive_undoes()
    ensures { AdaptiveUndoes }
{}

/// The invariant holds of the empty cache and is kept: items fit, each once, and a hit is an access to an item that is
/// there.
#[tactic(auto, using(crate::proofs::Keeping::keeps))]
pub fn adaptive_keeps()
    ensures { AdaptiveKeeps }
{}

/// What follows a change of the window's size is what its steps come to, each by one item.
#[tactic(auto, using(crate::proofs::Steps::changes_by_steps))]
pub fn changes_by_steps()
    ensures { ChangesBySteps }
{}

/// The items are the misses minus the evictions.
#[tactic(auto, using(crate::proofs::Keeping::counts))]
pub fn adaptive_counts()
    ensures { AdaptiveCounts }
{}

/// The cache of each configuration keeps its residents: they fit, each once, a hit is an access to a resident key, and no
/// key comes in but the accessed one.
pub fn cache_keeps()
    ensures { CacheKeeps }
{}

/// Undoing a hit asks for no room, so it is never refused.
pub fn cache_hits_ask_nothing()
    ensures { CacheHitsAskNothing }
{}

/// Undoing an access asks for room only where a key left in it.
pub fn cache_asks_where_one_left()
    ensures { CacheAsksWhereOneLeft }
{}

/// A short trace at capacity 4.
#[tactic(auto, using(crate::proofs::Worked::worked))]
pub fn worked_example()
    ensures { WorkedExample }
{}

/// The window shrinks and grows by three items at once.
#[tactic(auto, using(crate::proofs::Worked::jumping))]
pub fn jumping_example()
    ensures { JumpingExample }
{}

/// The window follows its target at the end of a period, at capacity 16.
#[tactic(auto, using(crate::proofs::Worked::periods))]
pub fn periods_example()
    ensures { PeriodsExample }
{}

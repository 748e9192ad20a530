//! Theorems on these policies, for callers that see a cache by its steps alone. Each of these functions does nothing:
//! its contract is the theorem.
ghost use Rattle.demand_cache.specs.Theorems.{PagesAreSound, PagesCount, DemandKeeps, MissesAreAdmitted, RunsByPage};
ghost use Rattle.demand_cache.specs.Renaming.{DemandIgnoresNames};
ghost use Rattle.demand_cache.specs.Theorems.{HitsAskNothing, AsksWhereOneLeft};

/// Each policy's definition keeps every missed key, and an access by its plan is the definition's.
pub fn pages_are_sound()
    ensures sound { PagesAreSound }
    ensures counts { PagesCount }
{}

/// Each policy keeps every missed key, and its residents fit, each once.
pub fn demand_keeps()
    ensures residents { DemandKeeps }
    ensures misses { MissesAreAdmitted }
{}

/// The outcomes of a run by each policy's plans are those of its definition.
pub fn runs_by_page()
    ensures { RunsByPage }
{}

/// Undoing a hit takes no memory.
pub fn hits_ask_nothing()
    ensures { HitsAskNothing }
{}

/// Undoing an access takes memory only where a key left in it.
pub fn asks_where_one_left()
    ensures { AsksWhereOneLeft }
{}

/// Each policy that keeps every missed key, with whatever sizes and capacity, ignores what keys are called.
#[tactic(auto, using(crate::proofs::RenamedDemandCache::demand_ignores_names))]
pub fn demand_ignores_names()
    ensures { DemandIgnoresNames }
{}

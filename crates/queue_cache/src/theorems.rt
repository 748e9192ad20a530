//! Theorems on the policies of queues, for callers that see a cache by its steps alone. Each of these functions does
//! nothing: its contract is the theorem.
ghost use Rattle.queue_cache.specs.Theorems.{QueuesStepLaw, FrequencyIsOfAccesses, QueuesKeep, QueuesAccept};
ghost use Rattle.queue_cache.specs.Theorems.{HitsKeepAll, RecordsShowLeaver, LruStepLaw};

/// An accepted step of a cache of queues answers what the definition gives over the whole list of accesses, and leaves
/// that list with the key at its end.
#[tactic(auto, using(crate::proofs::Reached::act_stands))]
pub fn queues_step_law()
    ensures { QueuesStepLaw }
{}

/// The approximate frequency of a cache of queues is that of all its accesses, where its policy counts keys.
pub fn frequency_is_of_accesses()
    ensures { FrequencyIsOfAccesses }
{}

/// A cache of queues keeps its residents: they fit its capacity, each once; an access is a hit exactly where its key is
/// resident, and brings in no other key.
pub fn queues_keep()
    ensures { QueuesKeep }
{}

/// A cache of queues refuses a key only after 2^32 accesses.
pub fn queues_accept()
    ensures { QueuesAccept }
{}

/// The undo record of a hit moves nothing out of the queues, so undoing a hit is never refused.
#[tactic(auto, using(crate::proofs::Leaving::hits_keep_all))]
pub fn hits_keep_all()
    ensures { HitsKeepAll }
{}

/// The item that an undo record moves out is the one that left in the access, and no other: undoing an access by which
/// none left is never refused.
#[tactic(auto, using(crate::proofs::Leaving::records_show_leaver))]
pub fn records_show_leaver()
    ensures { RecordsShowLeaver }
{}

/// What the table of moves gives for Lru is what the last distinct keys give, over the whole list of accesses.
pub fn lru_step_law()
    ensures { LruStepLaw }
{}

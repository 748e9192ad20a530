//! Theorems on the table of moves. Each of these functions does nothing: its contract is the theorem.
ghost use Rattle.replacement.specs.Theorems.{HitsPlanned, EvictionsPlanned, AccessesPlanned};

/// The plan of a hit gives the queues of the table.
#[tactic(auto, using(crate::proofs::Planned::hits_planned))]
pub fn hits_planned()
    ensures { HitsPlanned }
{}

/// The plan of an eviction, in which a candidate goes straight to its place or out, gives what the table gives by way
/// of probation.
#[tactic(auto, using(crate::proofs::Planned::evictions_planned))]
pub fn evictions_planned()
    ensures { EvictionsPlanned }
{}

/// The plan of an access gives what the table gives.
#[tactic(auto, using(crate::proofs::Planned::accesses_planned))]
pub fn accesses_planned()
    ensures { AccessesPlanned }
{}

//! The undo record of an access.
use admission::FreqRecord;
use engine_base::Outcome;
use replacement::Moves;

/// The undo record of an access to a cache of queues: that of the recording of its key, where keys are counted, what
/// was moved, and the outcome that was counted. It holds lists only where the recording brought a halving.
#[derive(Drop)]
pub struct AccessRecord {
    pub(crate) counting: FreqRecord,
    pub(crate) moves: Moves,
    pub(crate) outcome: Outcome,
}

//! Who does the maintenance.
use engine_base::{Phase, Worker};

/// The worker that does the maintenance: which one, at which phase, and how many more tasks it may apply.
#[derive(Clone, Copy)]
pub struct Holder {
    pub worker: Worker,
    pub phase: Phase,
    pub left: u8,
}

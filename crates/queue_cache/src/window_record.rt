//! The undo record of an access with an adaptive window.
use crate::climber::Climber;
use engine_base::Outcome;
use replacement::Moves;

/// How the window's size in force changed, and how many items went from queue to queue then. It holds no list.
#[derive(Clone, Copy)]
pub enum SizeChange {
    /// It grew.
    Grew {
        /// By how much.
        by: u32,
        /// How many items went from protected to probation.
        demoted: u32,
        /// And then from probation to the window.
        lent: u32,
    },
    /// It shrank.
    Shrank {
        /// By how much.
        by: u32,
        /// How many items went from the window to probation.
        returned: u32,
    },
    /// It did not change.
    Stayed,
}

/// What an access came to, and its undo record: what it moved, how the window's size changed, and, where a period ended,
/// the climber before. It holds no list.
#[derive(Drop)]
pub struct WindowRecord {
    /// The outcome.
    pub outcome: Outcome,
    /// What the access moved.
    pub access: Moves,
    /// How the size in force changed.
    pub size: SizeChange,
    /// The climber before the access, where that ended a period.
    pub period: Option<Climber>,
}

//! Where workers sleep until their turn comes, beside the table. No contract rests on it.
use engine_base::MAX_WORKERS;
use std::array;
use std::sync::Wait;
use std::thread::{Parker, yield_now};

// A worker whose turn is next looks so often before it sleeps: a short turn is over sooner than a sleeper is awake.
const LOOKS: u32 = 64;

/// A waiting array, as ticket locks have it (Dice and Kogan 2019): a place to sleep for each ticket that may wait at one
/// time. A worker has one ticket at most, so [`MAX_WORKERS`] places are enough.
#[derive(Drop)]
pub(crate) struct WaitingArray {
    places: [Parker; MAX_WORKERS as usize],
}

impl WaitingArray {
    /// An array in which nobody sleeps.
    pub(crate) fn new() -> WaitingArray {
        WaitingArray {
            places: array::from_fn(|_| Parker::new()),
        }
    }

    /// Lets time pass for the worker with this ticket while another one is served: it yields the processor where its
    /// turn is next and it has not looked often, and else sleeps until it is woken. It may come back early.
    pub(crate) fn rest<R: Wait>(&self, rt: &R, ticket: u64, serving: u64, looks: u32) {
        if ticket.wrapping_sub(serving) == 1 && looks < LOOKS {
            yield_now();
        } else {
            self.place(ticket).park(rt);
        }
    }

    /// Wakes the worker with this ticket. One that has not gone to sleep yet does not sleep.
    pub(crate) fn wake(&self, ticket: u64) {
        self.place(ticket).unpark();
    }

    fn place(&self, ticket: u64) -> &Parker {
        &self.places[(ticket % u64::from(MAX_WORKERS)) as usize]
    }
}

//! The hits of Lru at a capacity, by a window over the trace.
ghost use Rattle.std.specs.Prelude.{◌≡◌, ◌+◌, ◌<◌, ◌≤◌, IfOk, length};
ghost use Rattle.queue_cache.specs.Lru.{lru};
ghost use Rattle.queue_cache.specs.declared.design.QueueSetup.{QueueSetup};
ghost use Rattle.queue_cache.specs.QueueCache.{state_after};
ghost use Rattle.queue_cache.specs.Window.{IsWindow};

use crate::curve::stats_by;
use crate::window::Window;
use engine_base::{Stats, Trace, bits};
use std::alloc::{AllocError, Global};
use std::marker::Model;
use trace_index::PreviousUse;

/// A trace, with the place of the last access to its key before each access: 4 bytes an access.
///
/// It is found once, and the statistics of Lru at any capacity take a pass over these places then, in which no key is
/// looked up. Lru holds the keys of a window of the trace, which ends at the latest access: an access is a hit where
/// its key came in the window. A pass notes that by a bit at the access where the key came last. Where a miss finds the
/// cache full, the window's first key whose bit is not set leaves, and the window begins after that one.
#[derive(Drop)]
pub struct Reuses<'a> {
    uses: PreviousUse<'a>,
}

impl<'a> Model for Reuses<'a> {
    ghost use Rattle.std.specs.Prelude.{ℕ, List};

    ghost Value = { List ℕ };

    ghost view = { λ r. r.uses };
}

impl<'a> Reuses<'a> {
    /// The reuses of a trace, found in one pass over it. The only error is out of memory.
    pub fn of_trace(alloc: Global, trace: &'a Trace) -> Result<Reuses<'a>, AllocError>
        ensures { IfOk result (λ r. r ≡ trace.now) }
    {
        let uses = PreviousUse::build(alloc, trace)?;
        Ok(Reuses { uses })
    }

    /// The statistics of Lru at a capacity, those of its definition over the trace: what a cache of Lru of this
    /// capacity counts, with any configuration. It takes a pass over the trace, and a bit for each access meanwhile.
    /// The only error is out of memory.
    pub fn stats(&self, alloc: Global, capacity: u32) -> Result<Stats, AllocError>
        requires { 1 ≤ capacity }
        ensures { IfOk result (λ t. (s : QueueSetup) → s.design ≡ lru → s.config.capacity ≡ capacity
            → t ≡ (state_after s self.now).stats) }
    {
        let mut window = Window::new(alloc, capacity, self.uses.len())?;
        for place in 0..self.uses.len() {
            self.access(&mut window, place);
        }
        Ok(stats_by(
            self.uses.len() as u64,
            window.hits as u64,
            window.held as u64,
        ))
    }

    // Makes the next access of the trace.
    #[inline(always)]
    fn access(&self, window: &mut Window, place: usize)
        requires place { place < length self.now }
        requires window { IsWindow self.now place window.old }
        ensures window { IsWindow self.now (place + 1) window.new }
        ensures capacity { window.new.capacity ≡ window.old.capacity }
    {
        let before = self.uses.number(place) as usize;
        if before > window.first {
            window.hits += 1;
            bits::set(&mut window.renewed, before - 1);
            return;
        }
        if window.held < window.capacity {
            window.held += 1;
            return;
        }
        window.first = window.oldest() + 1;
    }
}

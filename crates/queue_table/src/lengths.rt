//! How many slots stand in each section of the ring.
ghost use Rattle.std.specs.Prelude.{◌≡◌, ◌<◌, suc};
ghost use Rattle.queue_table.specs.Queues.{QUEUES};

/// How many sections the ring has: the free slots and the queues.
pub(crate) const SECTIONS: usize = 5;

/// The number of free slots, then the length of each queue.
#[derive(Clone, Copy)]
pub(crate) struct Lengths {
    pub(crate) at: [usize; SECTIONS],
}

impl Lengths {
    ghost use Rattle.std.specs.Prelude.{◌≡◌, ◌<◌, ◌≤◌, ◌+◌, ◌-◌, ◌^◌, ℕ, suc, slice_index, eqb, cond};
    ghost use Rattle.queue_table.specs.Ring.{SECTIONS};

    /// How many slots are free.
    #[inline(always)]
    pub(crate) fn free(&self) -> usize
        ensures { result ≡ slice_index self.now.at 0 }
    {
        self.at[0]
    }

    /// How many items stand in the queue.
    #[inline(always)]
    pub(crate) fn of(&self, queue: u8) -> usize
        requires { queue < QUEUES }
        ensures { result ≡ slice_index self.now.at (suc queue) }
    {
        self.at[queue as usize + 1]
    }

    /// How many items stand in the queues.
    #[inline(always)]
    pub(crate) fn items(&self) -> usize
        requires { slice_index self.now.at 1 + slice_index self.now.at 2 + slice_index self.now.at 3
            + slice_index self.now.at 4 < 2 ^ 64 }
        ensures { result ≡ slice_index self.now.at 1 + slice_index self.now.at 2 + slice_index self.now.at 3
            + slice_index self.now.at 4 }
    {
        self.at[1] + self.at[2] + self.at[3] + self.at[4]
    }

    /// One slot more is free.
    #[inline(always)]
    pub(crate) fn add_free(&mut self)
        requires { slice_index self.old.at 0 + 1 < 2 ^ 64 }
        ensures { (s : ℕ) → s < SECTIONS → slice_index self.new.at s ≡ slice_index self.old.at s + cond (eqb s 0) 1 0 }
    {
        self.at[0] += 1;
    }

    /// One slot fewer stands in a section, and one more in another.
    #[inline(always)]
    pub(crate) fn pass(&mut self, from: usize, to: usize)
        requires sections { (from < SECTIONS) × (to < SECTIONS) }
        requires some { 1 ≤ slice_index self.old.at from }
        requires few { slice_index self.old.at to + 1 < 2 ^ 64 }
        ensures { (s : ℕ) → s < SECTIONS → slice_index self.new.at s + cond (eqb s from) 1 0
            ≡ slice_index self.old.at s + cond (eqb s to) 1 0 }
    {
        if from == to {
            return;
        }
        self.at[from] -= 1;
        self.at[to] += 1;
    }
}

/// The section of a queue.
#[inline(always)]
pub(crate) fn section(queue: u8) -> usize
    requires { queue < QUEUES }
    ensures { result ≡ suc queue }
{
    queue as usize + 1
}

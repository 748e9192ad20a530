//! The stretch of a trace whose keys Lru holds.
ghost use Rattle.std.specs.Prelude.{◌≡◌, ℕ, ◌≤◌, List, IfOk, length};
ghost use Rattle.engine_base.specs.declared.limits.TheConstants.{MAX_ACCESSES};
ghost use Rattle.queue_cache.specs.Window.{IsWindow, IsFirstClear};

use crate::limits::WORD_BITS;
use std::alloc::{AllocError, Global};

/// Where the window begins, how many keys it has, how many accesses were hits, and a bit for each access of the trace,
/// 64 to a word: whether its key came again in the window.
#[derive(Drop)]
pub(crate) struct Window {
    pub(crate) capacity: usize,
    pub(crate) first: usize,
    pub(crate) held: usize,
    pub(crate) hits: usize,
    pub(crate) renewed: Vec<u64>,
}

impl Window {
    /// The window before any access, for a trace of that many accesses. The only error is out of memory.
    pub(crate) fn new(alloc: Global, capacity: u32, accesses: usize) -> Result<Window, AllocError>
        requires { accesses ≤ MAX_ACCESSES }
        ensures window { IfOk result (λ w. (keys : List ℕ) → length keys ≡ accesses → IsWindow keys 0 w) }
        ensures capacity { IfOk result (λ w. w.capacity ≡ capacity) }
    {
        let count = accesses.div_ceil(WORD_BITS);
        let renewed: Vec<u64> = vec![in alloc; 0; count]?;
        Ok(Window {
            capacity: capacity as usize,
            first: 0,
            held: 0,
            hits: 0,
            renewed,
        })
    }

    /// The first access of the window whose key did not come again.
    #[inline(always)]
    pub(crate) fn oldest(&self) -> usize
        requires { length self.now.renewed.items ≤ MAX_ACCESSES }
        ensures { IsFirstClear self.now.renewed.items self.now.first result }
    {
        first_clear(&self.renewed, self.first)
    }
}

// The first place from one on whose bit is not set; none past the last word is.
#[inline(always)]
fn first_clear(words: &[u64], from: usize) -> usize
    requires { length words.now ≤ MAX_ACCESSES }
    ensures { IsFirstClear words.now from result }
{
    let mut at = from;
    'words: while at / WORD_BITS < words.len() {
        let clear = !words[at / WORD_BITS] >> (at % WORD_BITS);
        if clear != 0 {
            return at + clear.trailing_zeros() as usize;
        }
        at = (at / WORD_BITS + 1) * WORD_BITS;
    }
    at
}

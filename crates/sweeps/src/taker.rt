//! What takes the accesses of a trace, and how those of a trace that is kept are taken.
ghost use Rattle.std.specs.Int.{div_ceil};
ghost use Rattle.std.specs.Prelude.{◌≡◌, ◌+◌, ℕ, List, OnOk, length};
ghost use Rattle.std.specs.Thread.{IsSync};
ghost use Rattle.sweeps.specs.declared.taker.TheConstants.{AT_A_TIME};
ghost use Rattle.sweeps.specs.Taking.{AreNext, CanTakeFor, Task};

use engine_base::{Gate, Key, Trace};
use std::alloc::AllocError;
use std::thread::Threads;

/// So many accesses are taken at a time: enough for threads to pay, which are made anew for each piece.
pub const AT_A_TIME: usize = 1 << 19;

/// What takes the accesses of a trace, piece by piece.
pub trait Taker: Drop {
    // so many of the first accesses of a trace were taken for a task
    ghost has_taken: { Task → List ℕ → ℕ → Self → Type 0 };

    /// Takes the next accesses, side by side on threads of `rt` where that pays. The one error is out of memory; it is of
    /// no more use then.
    fn take<T: Threads + Sync>(&mut self, rt: &T, keys: &[Key]) -> Result<(), AllocError>
        requires sync { IsSync T.row }
        requires next { CanTakeFor has_taken keys.now self.old }
        ensures { (task : Task) (trace : List ℕ) (n : ℕ) → AreNext trace n keys.now → has_taken task trace n self.old
            → OnOk result (has_taken task trace (n + length keys.now) self.new) };
}

/// Around how many pieces of the trace `take_trace` calls its gate.
pub fn pieces_of(trace: &Trace) -> u64
    ensures { result ≡ div_ceil (length trace.now) AT_A_TIME }
{
    trace.len().div_ceil(AT_A_TIME) as u64
}

/// Has all accesses of the trace taken, `AT_A_TIME` of them at a time. The gate is called around each piece, as number 0,
/// 1 and so on of worker 0. The one error is out of memory.
pub fn take_trace<T: Threads + Sync, K: Taker, G: Gate>(
    rt: &T,
    trace: &Trace,
    taker: &mut K,
    gate: &G,
) -> Result<(), AllocError>
    requires { (task : Task) × K.has_taken task trace.now 0 taker.old }
    ensures { (task : Task) → K.has_taken task trace.now 0 taker.old
        → OnOk result (K.has_taken task trace.now (length trace.now) taker.new) }
{
    trace.bounded();
    let mut rest = trace.keys();
    for number in 0..pieces_of(trace) {
        let (piece, later) = rest.split_at(AT_A_TIME.min(rest.len()));
        gate.before(0, number);
        taker.take(rt, piece)?;
        gate.after(0, number);
        rest = later;
    }
    Ok(())
}

//! Workers side by side.
ghost use Rattle.std.specs.Prelude.{◌≡◌, ◌≤◌, ◌<◌, ℕ, Ok, IfOk, map, vec_len, slice_index_or};
ghost use Rattle.engine_base.specs.declared.worker.TheConstants.{MAX_WORKERS};
ghost use Rattle.turn_book.specs.declared.book.TheConstants.{MAX_TURNS};
ghost use Rattle.turn_book.specs.Passes.{id_of};
ghost use Rattle.library_examples.specs.LogLines.{IsFresh, IsWritten, Wrote};

use crate::log::{Log, LogLine};
use crate::log_turn::{AppendFault, append};
use std::alloc::{AllocError, Global};
use std::sync::Wait;
use std::thread;
use std::thread::Threads;
use step_record::Gate;
use turn_book::{Pass, TurnBook};

/// What workers wrote: the log, and the lines of each worker, in its order, at its number.
#[derive(Drop)]
pub struct Written {
    pub log: Log,
    pub lists: Vec<Vec<LogLine>>,
}

/// Workers write their lines numbered below `lines`, each on a thread of its own where one can be made. Each line is
/// written in a turn of its own; the gate is called around each, without a turn.
///
/// The only error is that an allocation failed.
pub fn write_log<G: Gate, R: Threads + Wait + Sync>(
    rt: &R,
    alloc: Global,
    gate: &G,
    log: Log,
    workers: u8,
    lines: u64,
) -> Result<Written, AllocError>
    requires workers { (1 ≤ workers) × (workers ≤ MAX_WORKERS) }
    requires lines { (1 ≤ lines) × (lines ≤ MAX_TURNS) }
    ensures { IfOk result (λ r. IsWritten workers lines log r.log (map (λ l. l.items) r.lists.items)) }
{
    let Ok((book, passes)) = TurnBook::open(alloc, log, workers, lines) else {
        return Err(AllocError);
    };
    let passes = with_numbers(alloc, workers, passes)?;
    let write = |(worker, pass): (u8, Pass<Log>)| -> Result<(Pass<Log>, Vec<LogLine>), AllocError>
        requires { IsFresh (id_of book) pass × (pass.worker ≡ worker) × (lines ≤ book.turns) }
        ensures { IfOk result (λ r. Wrote (id_of book) lines worker r.0 r.1) }
    { write_own(rt, alloc, gate, &book, pass, worker, lines) };
    let results = thread::map_vec(rt, passes, &write)?;
    let (passes, lists) = passes_and_lists(alloc, results)?;
    let log = book.close(passes);
    Ok(Written { log, lists })
}

// The pass of each worker, with its number.
fn with_numbers(
    alloc: Global,
    workers: u8,
    passes: Vec<Pass<Log>>,
) -> Result<Vec<(u8, Pass<Log>)>, AllocError>
    requires { vec_len passes ≡ workers }
    ensures len { IfOk result (λ r. vec_len r ≡ workers) }
    ensures each { IfOk result (λ r. (i : ℕ) (d : _) → i < workers
        → slice_index_or r.items i d ≡ (i, slice_index_or passes.items i d.1)) }
{
    (0..workers).zip(passes).collect(alloc)
}

// One worker writes its lines, and puts each into a list of its own.
fn write_own<G: Gate, R: Wait>(
    rt: &R,
    alloc: Global,
    gate: &G,
    book: &TurnBook<Log>,
    mut pass: Pass<Log>,
    worker: u8,
    lines: u64,
) -> Result<(Pass<Log>, Vec<LogLine>), AllocError>
    requires fresh { IsFresh (id_of book.now) pass }
    requires worker { pass.worker ≡ worker }
    requires turns { lines ≤ book.now.turns }
    ensures { IfOk result (λ r. Wrote (id_of book.now) lines worker r.0 r.1) }
{
    let mut list = Vec::new(alloc);
    for number in 0..lines {
        gate.before(worker, number);
        let line = LogLine { worker, number };
        list.push(line)?;
        pass = match append(rt, book, pass, line) {
            Ok(pass) => pass,
            Err(AppendFault::OutOfMemory(_)) => return Err(AllocError),
            Err(AppendFault::Spent(_)) => unreachable!(),
        };
        gate.after(worker, number);
    }
    Ok((pass, list))
}

// The passes and the lists of the workers, unless one of them was out of memory.
fn passes_and_lists(
    alloc: Global,
    results: Vec<Result<(Pass<Log>, Vec<LogLine>), AllocError>>,
) -> Result<(Vec<Pass<Log>>, Vec<Vec<LogLine>>), AllocError>
    ensures len { IfOk result (λ r. (vec_len r.0 ≡ vec_len results) × (vec_len r.1 ≡ vec_len results)) }
    ensures each { IfOk result (λ r. (i : ℕ) (p : _) (l : _) → i < vec_len results
        → slice_index_or results.items i (Ok (p, l))
        ≡ Ok (slice_index_or r.0.items i p, slice_index_or r.1.items i l)) }
{
    let pairs: Vec<_> = results.into_iter().try_collect(alloc)?;
    pairs.into_iter().unzip(alloc)
}

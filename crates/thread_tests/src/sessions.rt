//! Sessions of the concurrent cache, the calls of their workers, and what a run of them leaves.
ghost use Rattle.std.specs.Prelude.{◌≤◌};
ghost use Rattle.engine_base.specs.declared.limits.TheConstants.{MAX_JOURNAL_LIMIT};

use super::assertions::assert_equal;
use drive::{Cause, DriveFault, Driven, drive};
use journal::Session;
use maintenance::Shell;
use std::alloc::{AllocError, Global};
use std::process::Abort;
use std::sync::Wait;
use std::test::Fail;
use std::thread::Threads;
use step_record::{Call, Config, Entry, Gate, Reply, Spread, Step, Worker};

// A small cache with one read buffer.
pub(crate) const SMALL: Config = Config {
    capacity: 8,
    main_percent: 99,
    spread: Spread::Mixed,
    stripes: 1,
    journal_limit: 1,
};

// A session over a new cache, with room for all that these tests do.
pub(crate) fn fresh(
    rt: &impl Abort,
    alloc: Global,
    config: &Config,
) -> Result<Session<Shell>, Fail> {
    opened(rt, alloc, config, 1_000_000)
}

// A session of at most so many steps over a new cache.
pub(crate) fn opened(
    rt: &impl Abort,
    alloc: Global,
    config: &Config,
    limit: usize,
) -> Result<Session<Shell>, Fail>
    requires { (1 ≤ limit) × (limit ≤ MAX_JOURNAL_LIMIT) }
{
    assert!(rt; config.check().is_ok());
    let shell = Shell::new(alloc, config)?;
    Ok(Session::open(alloc, shell, limit))
}

// A piece for each worker, with its calls in order.
pub(crate) fn pieces_of(alloc: Global, pieces: &[&[Call]]) -> Result<Vec<Vec<Call>>, AllocError> {
    let mut owned = Vec::new(alloc);
    for calls in pieces {
        let mut piece = Vec::new(alloc);
        piece.extend_from_slice(calls)?;
        owned.push(piece)?;
    }
    Ok(owned)
}

// What a run that did not make all walks is to a test.
fn failed(fault: DriveFault) -> Fail {
    let text = match &fault {
        DriveFault::OutOfMemory { .. } => "out of memory",
        DriveFault::Stopped {
            cause: Cause::Memory,
            ..
        } => "out of memory",
        _ => "not driven",
    };
    drop(fault);
    Fail::from(text)
}

// A run that makes all walks.
pub(crate) fn driven<G: Gate, R: Threads + Wait + Sync>(
    rt: &R,
    alloc: Global,
    session: Session<Shell>,
    pieces: Vec<Vec<Call>>,
    gate: &G,
) -> Result<Driven, Fail> {
    drive(rt, alloc, session, pieces, gate).map_err(failed)
}

// The list of each worker's entries in a run, at its number.
pub(crate) fn lists_of(
    alloc: Global,
    driven: &Driven,
    workers: u8,
) -> Result<Vec<Vec<Entry<Step, Reply>>>, AllocError> {
    let mut lists = Vec::new(alloc);
    for number in 0..workers {
        if let Some(worker) = Worker::new(number) {
            lists.push(driven.list(alloc, worker)?)?;
        }
    }
    Ok(lists)
}

// The entry at which the list of an entry's worker has come to be, by how many of each list were read.
fn assert_next_entry(
    rt: &impl Abort,
    entry: &Entry<Step, Reply>,
    lists: &[Vec<Entry<Step, Reply>>],
    read: &mut [usize],
) {
    let worker = usize::from(entry.step.worker.number());
    let list = lists.get(worker).expect(rt, "a list of the worker");
    let at = read.get_mut(worker).expect(rt, "a worker below the limit");
    assert!(rt; list.get(*at) == Some(entry));
    *at = at.wrapping_add(1);
}

// Each list has the session's entries of its worker, in order.
pub(crate) fn assert_own_lists(
    rt: &impl Abort,
    session: &Session<Shell>,
    lists: &[Vec<Entry<Step, Reply>>],
) {
    let mut read: [usize; 64] = [0; 64];
    for n in 1..=session.len() {
        let entry = session.entry(n).expect(rt, "an entry");
        assert_next_entry(rt, entry, lists, &mut read);
    }
    let mut total: usize = 0;
    for list in lists {
        total = total.wrapping_add(list.len());
    }
    assert_equal(rt, total, session.len());
}

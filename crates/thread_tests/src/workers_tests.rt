//! Workers on threads, with gates that hold them, and that see and choose the order of their calls.
use super::assertions::assert_equal;
use super::gates::{Hold, OneFirst, Turns};
use super::sessions::{SMALL, assert_own_lists, driven, fresh, lists_of, pieces_of};
use drive::Driven;
use std::alloc::{AllocError, Global};
use std::process::Abort;
use std::sync::Wait;
use std::test::Fail;
use std::thread::Threads;
use step_record::{Call, Config, Gate};

// Of eight calls seven are reads, and the last removes a key.
fn call_of(worker: u8, n: u64) -> Call {
    let key = u64::from(worker)
        .wrapping_mul(7)
        .wrapping_add(n.wrapping_mul(13))
        % 97;
    if n % 8 == 7 {
        Call::Remove(key)
    } else {
        Call::Read(key)
    }
}

// A list of calls for each worker.
fn calls_of_each(alloc: Global, workers: u8, calls: u64) -> Result<Vec<Vec<Call>>, AllocError> {
    let mut pieces = Vec::new(alloc);
    for worker in 0..workers {
        let mut piece = Vec::new(alloc);
        for n in 0..calls {
            piece.push(call_of(worker, n))?;
        }
        pieces.push(piece)?;
    }
    Ok(pieces)
}

// Runs so many workers of 160 calls each at so many read buffers, and sees that their lists are the session's, that
// each read was counted, and that nobody holds the maintenance.
fn assert_crowd<G: Gate, R: Threads + Wait + Sync + Abort>(
    rt: &R,
    alloc: Global,
    (workers, stripes): (u8, u8),
    gate: &G,
) -> Result<(), Fail> {
    let pieces = calls_of_each(alloc, workers, 160)?;
    let config = Config {
        capacity: 50,
        stripes,
        ..SMALL
    };
    let session = fresh(rt, alloc, &config)?;
    let driven = driven(rt, alloc, session, pieces, gate)?;
    let lists = lists_of(alloc, &driven, workers)?;
    assert_own_lists(rt, &driven.session, lists.as_slice());
    let stats = driven.session.engine().stats();
    let reads = u64::from(workers).wrapping_mul(140);
    assert_equal(rt, stats.hits.wrapping_add(stats.misses), reads);
    assert!(rt; driven.session.engine().holder().is_none());
    Ok(())
}

// None of the 64 goes on with its first call before all of them have begun theirs.
#[test]
fn sixty_four_workers_are_held_at_once(rt: HostRuntime) -> Result<(), Fail> {
    let gate = Hold::new(64, 1);
    assert_crowd(&rt, rt.alloc(), (64, 64), &gate)?;
    if gate.is_late() {
        return Err(Fail::from("workers one after the other, or out of memory for a thread"));
    }
    assert_equal(&rt, gate.over(), 10_240);
    Ok(())
}

#[test]
fn thirty_three_workers_pass_the_gate_in_turn(rt: HostRuntime) -> Result<(), Fail> {
    let gate = Turns::new(rt.alloc(), 33)?;
    assert_crowd(&rt, rt.alloc(), (33, 1), &gate)?;
    assert!(rt; gate.is_over(160));
    Ok(())
}

const CALLS: [Call; 7] = [
    Call::Read(1),
    Call::Read(2),
    Call::Remove(1),
    Call::Read(1),
    Call::Read(3),
    Call::Read(2),
    Call::Read(4),
];

// Runs workers of these calls in a small cache.
fn run_pieces<G: Gate, R: Threads + Wait + Sync + Abort>(
    rt: &R,
    alloc: Global,
    pieces: &[&[Call]],
    gate: &G,
) -> Result<Driven, Fail> {
    let pieces = pieces_of(alloc, pieces)?;
    let session = fresh(rt, alloc, &SMALL)?;
    driven(rt, alloc, session, pieces, gate)
}

#[test]
fn each_worker_passes_the_gate_as_often_as_it_has_calls(rt: HostRuntime) -> Result<(), Fail> {
    let gate = Turns::new(rt.alloc(), 4)?;
    let pieces = [&CALLS[..1], &[], &CALLS[..3], &CALLS];
    let run = run_pieces(&rt, rt.alloc(), &pieces, &gate)?;
    drop(run);
    assert!(rt; gate.is_over_each(&[1, 0, 3, 7]));
    Ok(())
}

// How many of the run's entries are the first worker's before any of the second's, and how many are the second's after
// them.
fn lengths(driven: &Driven) -> (usize, usize) {
    let (mut first, mut second) = (0usize, 0usize);
    for n in 1..=driven.session.len() {
        match driven
            .session
            .entry(n)
            .map(|entry| entry.step.worker.number())
        {
            Some(0) if second == 0 => first = first.wrapping_add(1),
            Some(1) => second = second.wrapping_add(1),
            _ => {}
        }
    }
    (first, second)
}

// A held worker has made no step of the call before which it is held, and each step of the one after which it is.
#[test]
fn a_held_worker_makes_no_step(rt: HostRuntime) -> Result<(), Fail> {
    let gate = OneFirst::new(CALLS.len() as u64);
    let driven = run_pieces(&rt, rt.alloc(), &[&CALLS, &CALLS], &gate)?;
    if gate.is_late() {
        drop(driven);
        return Err(Fail::from("workers one after the other, or out of memory for a thread"));
    }
    let (first, second) = lengths(&driven);
    assert!(rt; first >= CALLS.len() && second >= CALLS.len());
    assert_equal(&rt, first.wrapping_add(second), driven.session.len());
    Ok(())
}

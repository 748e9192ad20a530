//! Actors on threads that wait for one another, over small traces whose reports were worked out by hand.
use super::assertions::assert_equal;
use super::gates::{Hold, Turns};
use super::jobs::{failed, four_jobs, four_reports, job, one_key};
use policies::Report;
use policy_actors::run_actors;
use std::alloc::Global;
use std::process::Abort;
use std::sync::Wait;
use std::test::Fail;
use std::thread::Threads;
use step_record::{Gate, Job, Policy, Trace};

// Runs jobs on actors, and sees their reports.
fn assert_run<G: Gate, R: Threads + Wait + Sync + Abort>(
    rt: &R,
    alloc: Global,
    trace: &Trace,
    (jobs, batch): (&[Job], u32),
    gate: &G,
    wanted: &[Report],
) -> Result<(), Fail> {
    let reports = run_actors(rt, alloc, trace, jobs, batch, gate).map_err(failed)?;
    assert_equal(rt, reports.as_slice(), wanted);
    Ok(())
}

// Of three batches none is over before all four actors have begun it.
#[test]
fn actors_run_side_by_side(rt: HostRuntime) -> Result<(), Fail> {
    let gate = Hold::new(4, u64::MAX);
    let trace = Trace::new(vec![in rt.alloc(); 1, 1, 2, 3, 1]?);
    let (jobs, wanted) = (four_jobs(), four_reports());
    assert_run(&rt, rt.alloc(), &trace, (&jobs, 2), &gate, &wanted)?;
    assert!(rt; !gate.is_late());
    assert_equal(&rt, gate.over(), 12);
    Ok(())
}

// Of every kind of policy: that of Belady's too, which makes its accesses once all are there.
#[test]
fn actors_of_each_kind_take_their_batches_in_turn(rt: HostRuntime) -> Result<(), Fail> {
    let gate = Turns::new(rt.alloc(), 4)?;
    let trace = Trace::new(vec![in rt.alloc(); 1, 1, 2, 3, 1]?);
    let (jobs, wanted) = (four_jobs(), four_reports());
    assert_run(&rt, rt.alloc(), &trace, (&jobs, 1), &gate, &wanted)?;
    assert!(rt; gate.is_over(5));
    Ok(())
}

// How many accesses and actors there are, how many accesses a batch has, and how many batches that makes.
const BATCHES: [(usize, usize, u32, u64); 4] = [
    (0, 64, 3, 1),
    (1_000, 2, 1, 1_000),
    (1_000, 63, 999, 2),
    (1_000, 64, 334, 3),
];

#[test]
fn each_actor_takes_its_batches_in_turn(rt: HostRuntime) -> Result<(), Fail> {
    for (accesses, actors, batch, batches) in BATCHES {
        let trace = Trace::new(vec![in rt.alloc(); 7; accesses]?);
        take_in_turn(&rt, rt.alloc(), &trace, (actors, batch), batches)?;
    }
    Ok(())
}

fn take_in_turn<R: Threads + Wait + Sync + Abort>(
    rt: &R,
    alloc: Global,
    trace: &Trace,
    (actors, batch): (usize, u32),
    batches: u64,
) -> Result<(), Fail> {
    assert!(rt; actors <= 64);
    let jobs = [job(Policy::Lru, 2); 64];
    let wanted = [one_key(trace.keys().len() as u64); 64];
    let gate = Turns::new(alloc, actors)?;
    let run = (&jobs[..actors], batch);
    assert_run(rt, alloc, trace, run, &gate, &wanted[..actors])?;
    assert!(rt; gate.is_over(batches));
    Ok(())
}

// More batches than a channel and an actor hold: while the first actor is held at its first batch, the second has to
// be given its own.
#[test]
fn a_held_actor_does_not_keep_batches_from_another(rt: HostRuntime) -> Result<(), Fail> {
    let long = Trace::new(vec![in rt.alloc(); 7; 16_400]?);
    let gate = Hold::new(2, 1);
    let jobs = [job(Policy::Lru, 2); 2];
    let wanted = [one_key(16_400); 2];
    assert_run(&rt, rt.alloc(), &long, (&jobs, 1), &gate, &wanted)?;
    assert!(rt; !gate.is_late());
    Ok(())
}

//! Reports on this thread, and side by side at several capacities, and rows of intervals, over small traces whose
//! reports were worked out by hand.
use super::assertions::assert_equal;
use super::gates::{AllAlike, Hold};
use super::jobs::{counted, failed, four_jobs, four_reports, job};
use policies::{ActorFault, Interval, Report};
use std::alloc::Global;
use std::process::Abort;
use std::test::Fail;
use std::thread::Threads;
use step_record::{Job, OpenGate, Policy, Trace};
use sweeps::{AT_A_TIME, intervals, run_one, sweep, sweep_batches, sweep_each};

// Runs a job alone, and sees its report.
fn assert_alone(
    rt: &impl Abort,
    alloc: Global,
    trace: &Trace,
    job: &Job,
    wanted: Report,
) -> Result<(), Fail> {
    let report = run_one(alloc, trace, job).map_err(failed)?;
    assert_equal(rt, report, wanted);
    Ok(())
}

#[test]
fn single_runs(rt: HostRuntime) -> Result<(), Fail> {
    let trace = Trace::new(vec![in rt.alloc(); 1, 1, 2, 3, 1]?);
    for (one, report) in four_jobs().iter().zip(four_reports().iter()) {
        assert_alone(&rt, rt.alloc(), &trace, one, *report)?;
    }
    Ok(())
}

// What Lru counts over the accesses 1, 2, 3, 1, 4, 2: the distances are none, none, none, 3, none, 4.
fn lru_counted(capacity: u32) -> Report {
    let hits = match capacity {
        1 | 2 => 0,
        3 => 1,
        _ => 2,
    };
    let misses = 6u64.wrapping_sub(hits);
    let evictions = misses.wrapping_sub(u64::from(capacity.min(4)));
    counted(Policy::Lru, capacity, [6, hits, misses, evictions, 0])
}

// Capacities that rise, fall and come again: so many that the reports are read off the curve, and the first of them
// fewer.
const CAPACITIES: [u32; 17] = [
    1,
    1 << 20,
    3,
    2,
    1,
    3,
    3,
    4,
    5,
    6,
    7,
    64,
    63,
    4,
    2,
    1,
    1 << 20,
];

// Compares a sweep of Lru with what it counts at each capacity.
fn assert_sweep_of_lru<R: Abort + Threads + Sync>(
    rt: &R,
    alloc: Global,
    trace: &Trace,
    capacities: &[u32],
) -> Result<(), Fail> {
    let swept = sweep(rt, alloc, trace, &job(Policy::Lru, 7), capacities);
    let reports = swept.map_err(failed)?;
    assert_equal(rt, reports.len(), capacities.len());
    for (report, capacity) in reports.iter().zip(capacities.iter()) {
        assert_equal(rt, *report, lru_counted(*capacity));
    }
    Ok(())
}

#[test]
fn few_and_many_capacities_of_lru(rt: HostRuntime) -> Result<(), Fail> {
    let trace = Trace::new(vec![in rt.alloc(); 1, 2, 3, 1, 4, 2]?);
    assert_sweep_of_lru(&rt, rt.alloc(), &trace, &CAPACITIES[..9])?;
    assert_sweep_of_lru(&rt, rt.alloc(), &trace, &CAPACITIES)
}

// Each policy at each capacity before the next policy, one of them twice.
#[test]
fn sweeps_of_several_policies(rt: HostRuntime) -> Result<(), Fail> {
    let trace = Trace::new(vec![in rt.alloc(); 1, 2, 3, 1, 2]?);
    let lru = [
        counted(Policy::Lru, 3, [5, 2, 3, 0, 0]),
        counted(Policy::Lru, 1, [5, 0, 5, 4, 0]),
    ];
    let clairvoyant = [
        counted(Policy::Clairvoyant, 3, [5, 2, 3, 0, 0]),
        counted(Policy::Clairvoyant, 1, [5, 1, 4, 3, 2]),
    ];
    let jobs = [
        job(Policy::Lru, 7),
        job(Policy::Clairvoyant, 7),
        job(Policy::Lru, 7),
    ];
    let wanted = [
        lru[0],
        lru[1],
        clairvoyant[0],
        clairvoyant[1],
        lru[0],
        lru[1],
    ];
    let swept = sweep_each(&rt, rt.alloc(), &trace, &jobs, &[3, 1], &OpenGate);
    let reports = swept.map_err(failed)?;
    assert_equal(&rt, reports.as_slice(), wanted.as_slice());
    Ok(())
}

// The gate is called for as many batches as were announced, those of each report in their turn: for none of Lru, which
// makes no access one by one, and for those of Sieve, whose accesses are to numbers.
#[test]
fn a_sweep_shows_its_batches(rt: HostRuntime) -> Result<(), Fail> {
    let trace = Trace::new(vec![in rt.alloc(); 1; 196_609]?);
    let jobs = [
        job(Policy::Lru, 7),
        job(Policy::Sieve, 7),
        job(Policy::Clairvoyant, 7),
    ];
    let gate = AllAlike::new(rt.alloc(), 4)?;
    assert_equal(&rt, sweep_batches(&trace, &jobs, &[2; 5]), 40);
    let swept = sweep_each(&rt, rt.alloc(), &trace, &jobs, &[2; 5], &gate);
    drop(swept.map_err(failed)?);
    assert!(rt; gate.is_over(10));
    Ok(())
}

// What Lru and Belady's policy count over the accesses 1, 1, 2, 3, 1 in intervals of two. At the fourth access Lru
// evicts 1, and Belady's policy 2, which does not come again.
const INTERVALS: [(Policy, u64, u64, [u64; 5]); 6] = [
    (Policy::Lru, 1, 2, [2, 1, 1, 0, 0]),
    (Policy::Lru, 3, 4, [2, 0, 2, 1, 0]),
    (Policy::Lru, 5, 5, [1, 0, 1, 1, 0]),
    (Policy::Clairvoyant, 1, 2, [2, 1, 1, 0, 0]),
    (Policy::Clairvoyant, 3, 4, [2, 0, 2, 1, 0]),
    (Policy::Clairvoyant, 5, 5, [1, 1, 0, 0, 0]),
];

fn assert_intervals(rt: &impl Abort, rows: Result<Vec<Interval>, ActorFault>) -> Result<(), Fail> {
    let rows = rows.map_err(failed)?;
    assert_equal(rt, rows.len(), INTERVALS.len());
    for (row, (policy, first, last, counts)) in rows.iter().zip(INTERVALS.iter()) {
        assert_equal(rt, (row.first, row.last), (*first, *last));
        assert_equal(rt, row.report, counted(*policy, 2, *counts));
    }
    Ok(())
}

#[test]
fn intervals_of_two_policies(rt: HostRuntime) -> Result<(), Fail> {
    let trace = Trace::new(vec![in rt.alloc(); 1, 1, 2, 3, 1]?);
    let jobs = [job(Policy::Lru, 2), job(Policy::Clairvoyant, 2)];
    let rows = intervals(&rt, rt.alloc(), &trace, &jobs, 2, &OpenGate);
    assert_intervals(&rt, rows)
}

// The accesses are made in three pieces, of which the last has two.
#[test]
fn intervals_show_their_pieces(rt: HostRuntime) -> Result<(), Fail> {
    let trace = Trace::new(vec![in rt.alloc(); 1; 2 * AT_A_TIME + 2]?);
    let jobs = [job(Policy::Lru, 7), job(Policy::Clairvoyant, 7)];
    let gate = AllAlike::new(rt.alloc(), 3)?;
    let rows = intervals(&rt, rt.alloc(), &trace, &jobs, 131_073, &gate);
    drop(rows.map_err(failed)?);
    assert!(rt; gate.is_over(1));
    Ok(())
}

// Neither of two jobs goes on with its first batch before the other has begun its own.
#[test]
fn jobs_are_held_side_by_side(rt: HostRuntime) -> Result<(), Fail> {
    let trace = Trace::new(vec![in rt.alloc(); 1, 1, 2, 3, 1]?);
    let jobs = [job(Policy::SegmentedLru, 2), job(Policy::Clairvoyant, 2)];
    let swept = Hold::new(2, 1);
    let reports = sweep_each(&rt, rt.alloc(), &trace, &jobs, &[2], &swept);
    drop(reports.map_err(failed)?);
    if swept.is_late() {
        return Err(Fail::from("workers one after the other, or out of memory for a thread"));
    }
    assert_equal(&rt, swept.over(), 2);
    Ok(())
}

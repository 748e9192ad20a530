//! The rows of intervals with a policy's queues, over a trace that is kept and one that is read, worked out by hand.
use super::assertions::assert_equal;
use super::jobs::online_job;
use super::pieces::Pieces;
use std::test::Fail;
use step_record::{OpenGate, Policy, Trace};
use streams::CountedReader;
use trace_read::{Format, Limits};

// After 1, 2, 3, 1 the hand of SIEVE is at the oldest key, 1, whose bit is set. At 4 it clears that bit, passes 1 and
// evicts 2, which stood ahead of it.
const ROWS: &[u8] =
    b"policy,capacity,first,last,hits,misses,evictions,rejections,rate,queue,held,marked,left
sieve,3,1,4,1,3,0,0,25.00,passed,0,,0
sieve,3,1,4,1,3,0,0,25.00,ahead,3,1,0
sieve,3,5,5,0,1,1,0,0.00,passed,1,0,0
sieve,3,5,5,0,1,1,0,0.00,ahead,2,0,1
";

#[test]
fn the_queues_over_a_trace_that_is_kept(rt: HostRuntime) -> Result<(), Fail> {
    let alloc = rt.alloc();
    let trace = Trace::new(vec![in alloc; 1, 2, 3, 1, 4]?);
    let jobs = [online_job(Policy::Sieve, 3)?];
    let text = policy_comparison::queues_text(&rt, alloc, &trace, &jobs, 4, &OpenGate)?;
    assert_equal(&rt, text.as_slice(), ROWS);
    Ok(())
}

#[test]
fn the_queues_over_a_trace_that_is_read(rt: HostRuntime) -> Result<(), Fail> {
    let alloc = rt.alloc();
    let mut reader = CountedReader::new(Pieces::of("1\n2\n3\n1\n4\n", 3));
    let jobs = [online_job(Policy::Sieve, 3)?];
    let limits = Limits::LONG;
    let read = long_traces::queues_text(&rt, alloc, &mut reader, Format::Lirs, limits, &jobs, 4);
    match read {
        Ok(text) => assert_equal(&rt, text.as_slice(), ROWS),
        Err(_) => return Err(Fail::from("out of memory")),
    }
    Ok(())
}

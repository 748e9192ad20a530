//! Runs of actors while the trace is read, whose reports were worked out by hand.
use super::assertions::assert_equal;
use super::gates::{Hold, Turns};
use super::jobs::{counted, failed, four_jobs, four_reports, job, one_key};
use policies::Report;
use policy_actors::{check_run, run_reading_within};
use std::alloc::Global;
use std::io;
use std::io::{Error, ErrorKind, Read};
use std::process::Abort;
use std::sync::Wait;
use std::test::Fail;
use std::thread::Threads;
use step_record::{Gate, Job, OpenGate, Policy};
use streams::CountedReader;
use trace_read::{Format, Limits, TraceFault};

/// A reader of a text so many times, in pieces of a size, that then ends or fails. It reads its last text only once a
/// gate, where there is one, has seen two batches begin.
#[derive(Drop)]
struct Pieces<'a> {
    text: &'a [u8],
    size: usize,
    place: usize,
    times: u32,
    fails: bool,
    gate: Option<&'a Hold>,
}

impl Pieces<'_> {
    fn of(text: &str, size: usize, times: u32) -> Pieces<'_> {
        Pieces {
            text: text.as_bytes(),
            size,
            place: 0,
            times,
            fails: false,
            gate: None,
        }
    }
}

impl Read for Pieces<'_> {
    fn read(&mut self, buf: &mut [u8]) -> io::Result<usize> {
        if self.place >= self.text.len() {
            self.times = self.times.saturating_sub(1);
            self.place = 0;
        }
        if self.times == 0 {
            if self.fails {
                return Err(Error::from(ErrorKind::BrokenPipe));
            }
            return Ok(0);
        }
        if self.times == 1
            && let Some(gate) = self.gate
        {
            gate.wait_for(2);
        }
        let rest = &self.text[self.place..];
        let count = self.size.min(rest.len()).min(buf.len());
        buf[..count].copy_from_slice(&rest[..count]);
        self.place += count;
        Ok(count)
    }
}

// Runs the jobs while the text is read, and sees their reports or the fault.
fn assert_reading<G: Gate, R: Threads + Wait + Sync + Abort>(
    rt: &R,
    alloc: Global,
    text: Pieces<'_>,
    jobs: &[Job],
    batch: u32,
    gate: &G,
    wanted: Result<&[Report], TraceFault>,
) -> Result<(), Fail> {
    check_run(batch, jobs).map_err(failed)?;
    let mut reader = CountedReader::new(text);
    let limits = Limits::DEFAULT;
    match run_reading_within(
        rt,
        alloc,
        &mut reader,
        Format::Lirs,
        limits,
        jobs,
        batch,
        gate,
    ) {
        Ok(reports) => assert_equal(rt, Ok(reports.as_slice()), wanted),
        Err(fault) => assert_equal(rt, Err(fault), wanted),
    }
    Ok(())
}

// Whatever the pieces and the batches; and no report where a read fails after whole lines.
#[test]
fn reports_are_made_while_a_text_is_read(rt: HostRuntime) -> Result<(), Fail> {
    let jobs = four_jobs();
    for (size, batch, fails) in [(1, 2, false), (64, 65_536, false), (2, 1, true)] {
        let mut text = Pieces::of("1\n1\n\n*\n2\n3\r\n1\n", size, 1);
        text.fails = fails;
        let wanted = four_reports();
        let wanted = if fails {
            Err(TraceFault::Read)
        } else {
            Ok(wanted.as_slice())
        };
        assert_reading(&rt, rt.alloc(), text, &jobs, batch, &OpenGate, wanted)?;
    }
    Ok(())
}

// At most three accesses.
const THREE: Limits = Limits {
    accesses: 3,
    bytes: 64,
};

// A text, whether a read fails after it, and the counts of its report or its fault, of three accesses at most.
const AT_THREE: [(&str, bool, Result<[u64; 5], TraceFault>); 5] = [
    ("1\n1\n2\n*\n", false, Ok([3, 1, 2, 0, 0])),
    ("1\n1\n2", false, Ok([3, 1, 2, 0, 0])),
    ("1\n1\n2\n3", false, Err(TraceFault::TooLong { line: 4 })),
    (
        "1\n1\n2\n3\nx\n",
        false,
        Err(TraceFault::TooLong { line: 4 }),
    ),
    ("1\n1\n2\n3\n", true, Err(TraceFault::Read)),
];

#[test]
fn a_run_ends_at_its_limits(rt: HostRuntime) -> Result<(), Fail> {
    let jobs = [job(Policy::Lru, 2)];
    check_run(1, &jobs).map_err(failed)?;
    for size in [1, 3, 64] {
        for (text, fails, wanted) in AT_THREE {
            let mut pieces = Pieces::of(text, size, 1);
            pieces.fails = fails;
            let mut reader = CountedReader::new(pieces);
            let read = run_reading_within(
                &rt,
                rt.alloc(),
                &mut reader,
                Format::Lirs,
                THREE,
                &jobs,
                1,
                &OpenGate,
            );
            let reports = read
                .as_ref()
                .map(|reports| reports.as_slice())
                .map_err(|fault| *fault);
            let wanted = wanted.map(|counts| [counted(Policy::Lru, 2, counts)]);
            let wanted = wanted
                .as_ref()
                .map(|reports| reports.as_slice())
                .map_err(|fault| *fault);
            assert_eq!(rt; reports, wanted, "of {text:?} by {size}");
        }
    }
    Ok(())
}

// Ten accesses of one key.
const TEN: &str = "7\n7\n7\n7\n7\n7\n7\n7\n7\n7\n";

// Reads ten accesses of one key so many times, for two actors.
fn read_tens<G: Gate, R: Threads + Wait + Sync + Abort>(
    rt: &R,
    alloc: Global,
    tens: u32,
    batch: u32,
    gate: &G,
) -> Result<(), Fail> {
    let text = Pieces::of(TEN, 20, tens);
    let wanted = [one_key(u64::from(tens) * 10); 2];
    let jobs = [job(Policy::Lru, 2); 2];
    assert_reading(rt, alloc, text, &jobs, batch, gate, Ok(&wanted))
}

// How many times ten accesses there are, how many accesses a batch has, and how many batches that makes.
const BATCHES: [(u32, u32, u64); 4] = [
    (0, 3, 1),
    (30_000, 1_000, 300),
    (30_000, 1_024, 293),
    (30_000, 65_536, 5),
];

#[test]
fn batches_come_in_turn(rt: HostRuntime) -> Result<(), Fail> {
    for (tens, batch, batches) in BATCHES {
        let gate = Turns::new(rt.alloc(), 2)?;
        read_tens(&rt, rt.alloc(), tens, batch, &gate)?;
        assert!(rt; gate.is_over(batches));
    }
    Ok(())
}

// While the first actor is held at its first batch, the second has to be given its own: of the few accesses that are
// handed over at the end, and of the many that are handed over while more are read, more batches than a channel holds.
#[test]
fn a_held_actor_keeps_no_batch_from_another(rt: HostRuntime) -> Result<(), Fail> {
    for tens in [1_000, 4_000] {
        let gate = Hold::new(2, 1);
        read_tens(&rt, rt.alloc(), tens, 1, &gate)?;
        assert!(rt; !gate.is_late());
    }
    Ok(())
}

// The actors have begun before the trace is read to its end.
#[test]
fn actors_begin_while_the_trace_is_read(rt: HostRuntime) -> Result<(), Fail> {
    let gate = Hold::new(0, 0);
    let mut text = Pieces::of(TEN, 20, 4_000);
    text.gate = Some(&gate);
    let jobs = [job(Policy::Lru, 2); 2];
    let wanted = [one_key(40_000); 2];
    assert_reading(&rt, rt.alloc(), text, &jobs, 1_024, &gate, Ok(&wanted))?;
    assert!(rt; !gate.is_late());
    Ok(())
}

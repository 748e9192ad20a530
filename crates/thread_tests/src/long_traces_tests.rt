//! Jobs over a trace that is read and not kept, whose answers were worked out by hand.
ghost use Rattle.std.specs.Prelude.{◌≤◌};
ghost use Rattle.trace_read.specs.declared.limits.TheConstants.{MAX_LONG_ACCESSES, MAX_LONG_TRACE_BYTES};

use super::assertions::assert_equal;
use super::jobs::{counted, online_job};
use super::pieces::Pieces;
use long_traces::{compare, compare_intervals, intervals, part, reports};
use std::alloc::Global;
use std::process::Abort;
use std::sync::Wait;
use std::test::Fail;
use std::thread::Threads;
use step_record::{OpenGate, Policy};
use streams::CountedReader;
use trace_read::{Format, Limits, TraceFault};

// A text in pieces of a size, of which so many accesses are read at most; a read may fail after it.
#[derive(Clone, Copy)]
struct Text {
    format: Format,
    text: &'static str,
    size: usize,
    fails: bool,
    accesses: u32,
}

impl Text {
    fn reader(&self) -> CountedReader<Pieces<'static>> {
        let mut pieces = Pieces::of(self.text, self.size);
        pieces.fails = self.fails;
        CountedReader::new(pieces)
    }

    fn limits(&self) -> Limits
        ensures accesses { result.accesses ≤ MAX_LONG_ACCESSES }
        ensures bytes { result.bytes ≤ MAX_LONG_TRACE_BYTES }
    {
        Limits {
            accesses: self.accesses as usize,
            bytes: 64,
        }
    }
}

// What Lru and SegmentedLru, at two entries, make of a text: the reports, and the hits of each interval of the one and
// then of the other; at how many accesses both hit, the first alone, the second alone, and neither, of all and of each
// interval; and the first access at which just one hits.
struct Answers {
    reports: [[u64; 5]; 2],
    intervals: &'static [(u64, u64, u64)],
    counts: [u64; 4],
    rows: &'static [(u64, u64, [u64; 4])],
    part: Option<u64>,
}

fn assert_reports<R: Threads + Wait + Sync + Abort>(
    rt: &R,
    alloc: Global,
    text: Text,
    wanted: Result<&Answers, TraceFault>,
) -> Result<(), Fail> {
    let jobs = [
        online_job(Policy::Lru, 2)?,
        online_job(Policy::SegmentedLru, 2)?,
    ];
    let mut reader = text.reader();
    let read = reports(
        rt,
        alloc,
        &mut reader,
        text.format,
        text.limits(),
        &jobs,
        &OpenGate,
    );
    match (read, wanted) {
        (Ok(found), Ok(answers)) => {
            let [lru, segmented] = answers.reports;
            let lru = counted(Policy::Lru, 2, lru);
            let segmented = counted(Policy::SegmentedLru, 2, segmented);
            assert_equal(rt, found.as_slice(), &[lru, segmented]);
        }
        (found, wanted) => assert_equal(rt, found.err(), wanted.err()),
    }
    Ok(())
}

fn assert_part<R: Threads + Sync + Abort>(
    rt: &R,
    alloc: Global,
    text: Text,
    wanted: Result<&Answers, TraceFault>,
) -> Result<(), Fail> {
    let (first, second) = (
        online_job(Policy::Lru, 2)?,
        online_job(Policy::SegmentedLru, 2)?,
    );
    let mut reader = text.reader();
    let found = part(
        rt,
        alloc,
        &mut reader,
        text.format,
        text.limits(),
        &first,
        &second,
    );
    assert_equal(rt, found, wanted.map(|answers| answers.part));
    Ok(())
}

fn assert_counts<R: Threads + Sync + Abort>(
    rt: &R,
    alloc: Global,
    text: Text,
    wanted: Result<&Answers, TraceFault>,
) -> Result<(), Fail> {
    let (first, second) = (
        online_job(Policy::Lru, 2)?,
        online_job(Policy::SegmentedLru, 2)?,
    );
    let mut reader = text.reader();
    let found = compare(
        rt,
        alloc,
        &mut reader,
        text.format,
        text.limits(),
        &first,
        &second,
    );
    let found = found.map(|c| [c.both, c.first_only, c.second_only, c.neither]);
    assert_equal(rt, found, wanted.map(|answers| answers.counts));
    Ok(())
}

fn assert_intervals<R: Threads + Sync + Abort>(
    rt: &R,
    alloc: Global,
    text: Text,
    every: usize,
    wanted: Result<&Answers, TraceFault>,
) -> Result<(), Fail>
    requires { 1 ≤ every }
{
    let jobs = [
        online_job(Policy::Lru, 2)?,
        online_job(Policy::SegmentedLru, 2)?,
    ];
    let mut reader = text.reader();
    let read = intervals(
        rt,
        alloc,
        &mut reader,
        text.format,
        text.limits(),
        &jobs,
        every,
    );
    match (read, wanted) {
        (Ok(found), Ok(answers)) => {
            assert_equal(rt, found.len(), answers.intervals.len());
            for (row, wanted) in found.iter().zip(answers.intervals.iter()) {
                assert_equal(rt, (row.first, row.last, row.report.hits), *wanted);
            }
        }
        (found, wanted) => assert_equal(rt, found.err(), wanted.err()),
    }
    Ok(())
}

fn assert_rows<R: Threads + Sync + Abort>(
    rt: &R,
    alloc: Global,
    text: Text,
    every: usize,
    wanted: Result<&Answers, TraceFault>,
) -> Result<(), Fail>
    requires { 1 ≤ every }
{
    let (first, second) = (
        online_job(Policy::Lru, 2)?,
        online_job(Policy::SegmentedLru, 2)?,
    );
    let mut reader = text.reader();
    let read = compare_intervals(
        rt,
        alloc,
        &mut reader,
        text.format,
        text.limits(),
        &first,
        &second,
        every,
    );
    match (read, wanted) {
        (Ok(found), Ok(answers)) => {
            assert_equal(rt, found.len(), answers.rows.len());
            for (row, wanted) in found.iter().zip(answers.rows.iter()) {
                let c = &row.counts;
                let counts = [c.both, c.first_only, c.second_only, c.neither];
                assert_equal(rt, (row.from, row.to, counts), *wanted);
            }
        }
        (found, wanted) => assert_equal(rt, found.err(), wanted.err()),
    }
    Ok(())
}

// Each call reads the text, and sees its answer or the fault.
fn assert_read<R: Threads + Wait + Sync + Abort>(
    rt: &R,
    alloc: Global,
    text: Text,
    every: usize,
    wanted: Result<&Answers, TraceFault>,
) -> Result<(), Fail>
    requires { 1 ≤ every }
{
    assert_reports(rt, alloc, text, wanted)?;
    assert_intervals(rt, alloc, text, every, wanted)?;
    assert_counts(rt, alloc, text, wanted)?;
    assert_rows(rt, alloc, text, every, wanted)?;
    assert_part(rt, alloc, text, wanted)
}

// The answers, or the fault that there is in their place.
fn or_fault(answers: &Answers, fault: Option<TraceFault>) -> Result<&Answers, TraceFault> {
    match fault {
        Some(fault) => Err(fault),
        None => Ok(answers),
    }
}

// Over the accesses 1, 1, 2, 3, 1 both hit at the second; at the fifth SegmentedLru alone does, which protects 1 then.
const FIVE: Answers = Answers {
    reports: [[5, 1, 4, 2, 0], [5, 2, 3, 1, 0]],
    intervals: &[
        (1, 2, 1),
        (3, 4, 0),
        (5, 5, 0),
        (1, 2, 1),
        (3, 4, 0),
        (5, 5, 1),
    ],
    counts: [1, 0, 1, 3],
    rows: &[
        (1, 2, [1, 0, 0, 1]),
        (3, 4, [0, 0, 0, 2]),
        (5, 5, [0, 0, 1, 0]),
    ],
    part: Some(5),
};

// A text of five accesses at most, whether a read fails after it, and the fault of it.
const TEXTS: [(&str, bool, Option<TraceFault>); 5] = [
    ("1\n1\n2\n3\n1\n", false, None),
    ("1\n1\n2\n3\n1", false, None),
    (
        "1\n1\n2\n3\n1\n4\nx\n",
        false,
        Some(TraceFault::TooLong { line: 6 }),
    ),
    (
        "1\n1\nx\n3\n1\n",
        false,
        Some(TraceFault::BadNumber { line: 3 }),
    ),
    ("1\n1\n2\n3\n1\n", true, Some(TraceFault::Read)),
];

// In pieces of one byte, of three, which cut lines in two, and of the whole text.
#[test]
fn texts_of_few_lines(rt: HostRuntime) -> Result<(), Fail> {
    for size in [1, 3, 64] {
        for (text, fails, fault) in TEXTS {
            let text = Text {
                format: Format::Lirs,
                text,
                size,
                fails,
                accesses: 5,
            };
            assert_read(&rt, rt.alloc(), text, 2, or_fault(&FIVE, fault))?;
        }
    }
    Ok(())
}

// 70,000 blocks, the last of them again, the first two, and the last again: Lru has evicted it then, and SegmentedLru
// protects it.
const RUNS: &str = "0 70000\n69999 1\n0 2\n69999 1";

const LONG: Answers = Answers {
    reports: [
        [70_004, 1, 70_003, 70_001, 0],
        [70_004, 2, 70_002, 70_000, 0],
    ],
    intervals: &[
        (1, 65_536, 0),
        (65_537, 70_004, 1),
        (1, 65_536, 0),
        (65_537, 70_004, 2),
    ],
    counts: [1, 0, 1, 70_002],
    rows: &[
        (1, 65_536, [0, 0, 0, 65_536]),
        (65_537, 70_004, [1, 0, 1, 4_466]),
    ],
    part: Some(70_004),
};

// How many accesses there may be, and the line that passes them.
const RUN_LIMITS: [(u32, Option<TraceFault>); 3] = [
    (70_004, None),
    (70_003, Some(TraceFault::TooLong { line: 4 })),
    (69_999, Some(TraceFault::TooLong { line: 1 })),
];

#[test]
fn lines_of_many_accesses(rt: HostRuntime) -> Result<(), Fail> {
    for (accesses, fault) in RUN_LIMITS {
        let text = Text {
            format: Format::Arc,
            text: RUNS,
            size: 5,
            fails: false,
            accesses,
        };
        assert_read(&rt, rt.alloc(), text, 65_536, or_fault(&LONG, fault))?;
    }
    Ok(())
}

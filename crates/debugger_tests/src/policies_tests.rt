//! Small traces whose outcomes were worked out by hand.
use super::assertions::assert_equal;
use super::pipe::{Pipe, ROOM};
use debug_policies::{DebugFault, run_debug};
use policies::ActorFault;
use policy_comparison::{
    ComparedInterval, Comparison, compare, compare_intervals, part, part_watched,
};
use std::alloc::Global;
use std::process::Abort;
use std::sync::atomic::AtomicU64;
use std::sync::atomic::Ordering::SeqCst;
use std::test::Fail;
use std::thread::Threads;
use step_record::{Config, Gate, Job, Key, OpenGate, Policy, Sizes, Spread, Trace, Tuning};
use streams::{CountedReader, CountedWriter};
use sweeps::AT_A_TIME;

const fn at_two(policy: Policy) -> Job {
    of_capacity(2, policy)
}

const fn of_capacity(capacity: u32, policy: Policy) -> Job {
    Job {
        policy,
        sizes: Sizes::NONE,
        config: Config {
            capacity,
            main_percent: 99,
            spread: Spread::Plain,
            stripes: 1,
            journal_limit: 1,
        },
        tuning: Tuning::PUBLISHED,
    }
}

fn trace_of(alloc: Global, keys: &[Key]) -> Result<Trace, Fail> {
    match keys.len() <= 16 {
        true => Ok(Trace::new(keys.to_vec(alloc)?)),
        false => Err(Fail::from("a longer trace than these tests have")),
    }
}

// Accesses, a policy beside Lru, and the first access at which just one of the two hits. At the fifth access Lru
// holds 2 and 3; SegmentedLru protected 1 at the second, and holds 3 and 1. The optimal policy rejects 3 and hits 1
// and 2, of which Lru evicts 1 for 3 and 2 for 1; where no key comes twice, neither hits.
const CHOSEN: [(&[Key], Policy, Option<u64>); 3] = [
    (&[1, 1, 2, 3, 1], Policy::SegmentedLru, Some(5)),
    (&[1, 2, 3, 1, 2], Policy::Clairvoyant, Some(4)),
    (&[1, 2, 3, 4], Policy::Clairvoyant, None),
];

#[test]
fn the_first_access_at_which_just_one_hits(rt: HostRuntime) -> Result<(), Fail> {
    for (keys, policy, wanted) in CHOSEN {
        let trace = trace_of(rt.alloc(), keys)?;
        let (lru, other) = (at_two(Policy::Lru), at_two(policy));
        match part(&rt, rt.alloc(), &trace, &lru, &other) {
            Ok(found) => assert_eq!(rt; found, wanted, "over {keys:?}"),
            Err(fault) => return Err(failed(fault)),
        }
    }
    Ok(())
}

// A test that gets no answer fails by the fault's name.
fn failed(fault: ActorFault) -> Fail {
    match fault {
        ActorFault::OutOfMemory => Fail::from("out of memory"),
        _ => Fail::from("no answer"),
    }
}

// At how many accesses both hit, the first alone, the second alone, and neither.
fn counts_of(counts: &Comparison) -> [u64; 4] {
    [
        counts.both,
        counts.first_only,
        counts.second_only,
        counts.neither,
    ]
}

// Lru and SegmentedLru over the accesses 1, 1, 2, 3, 1 in intervals of two: the first and the last access, and the
// counts.
const ROWS: [(u64, u64, [u64; 4]); 3] = [
    (1, 2, [1, 0, 0, 1]),
    (3, 4, [0, 0, 0, 2]),
    (5, 5, [0, 0, 1, 0]),
];

fn assert_rows(rt: &impl Abort, rows: &[ComparedInterval]) {
    assert_equal(rt, rows.len(), ROWS.len());
    for (row, (from, to, counts)) in rows.iter().zip(ROWS.iter()) {
        assert_equal(rt, (row.from, row.to), (*from, *to));
        assert_equal(rt, counts_of(&row.counts), *counts);
    }
}

#[test]
fn how_often_two_policies_hit_together(rt: HostRuntime) -> Result<(), Fail> {
    let trace = trace_of(rt.alloc(), &[1, 1, 2, 3, 1])?;
    let (lru, segmented) = (at_two(Policy::Lru), at_two(Policy::SegmentedLru));
    let counts = compare(&rt, rt.alloc(), &trace, &lru, &segmented, &OpenGate).map_err(failed)?;
    assert_equal(&rt, counts_of(&counts), [1, 0, 1, 3]);
    let rows = compare_intervals(&rt, rt.alloc(), &trace, &lru, &segmented, 2, &OpenGate);
    assert_rows(&rt, rows.map_err(failed)?.as_slice());
    Ok(())
}

// Counts the calls that begin and that are over, adds up their numbers, and sees that each is over before the next
// begins.
#[derive(Drop)]
struct InTurn {
    begun: AtomicU64,
    over: AtomicU64,
    numbers: AtomicU64,
    wrong: AtomicU64,
}

impl InTurn {
    fn new() -> InTurn {
        InTurn {
            begun: AtomicU64::new(0),
            over: AtomicU64::new(0),
            numbers: AtomicU64::new(0),
            wrong: AtomicU64::new(0),
        }
    }

    // How many calls are over, and the sum of their numbers, where they were in turn.
    fn seen(&self) -> Option<(u64, u64)> {
        let over = self.over.load(SeqCst);
        if self.wrong.load(SeqCst) > 0 || self.begun.load(SeqCst) != over {
            return None;
        }
        Some((over, self.numbers.load(SeqCst)))
    }
}

impl Gate for InTurn {
    fn before(&self, _who: u8, n: u64) {
        if self.begun.fetch_add(1, SeqCst) != self.over.load(SeqCst) {
            self.wrong.fetch_add(1, SeqCst);
        }
        self.numbers.fetch_add(n, SeqCst);
    }

    fn after(&self, _who: u8, _n: u64) {
        if self.over.fetch_add(1, SeqCst).wrapping_add(1) != self.begun.load(SeqCst) {
            self.wrong.fetch_add(1, SeqCst);
        }
    }
}

// Three pieces of accesses to key 7 but for the third and the fourth, so the policies part at the fifth.
fn parting_early(alloc: Global) -> Result<Trace, Fail> {
    let mut keys = Vec::new(alloc);
    for i in 0..2 * AT_A_TIME + 1 {
        keys.push(match i {
            2 => 2,
            3 => 3,
            _ => 7,
        })?;
    }
    match keys.len() <= 2_000_000 {
        true => Ok(Trace::new(keys)),
        false => Err(Fail::from("a longer trace than these tests have")),
    }
}

// Over three pieces, of which the last has one access; also where the policies part in the first.
#[test]
fn the_gate_is_called_around_each_piece(rt: HostRuntime) -> Result<(), Fail> {
    let (lru, segmented) = (at_two(Policy::Lru), at_two(Policy::SegmentedLru));
    let trace = Trace::new(vec![in rt.alloc(); 7; 2 * AT_A_TIME + 1]?);
    let gate = InTurn::new();
    let found = part_watched(&rt, rt.alloc(), &trace, &lru, &segmented, &gate).map_err(failed)?;
    assert_equal(&rt, (found, gate.seen()), (None, Some((3, 0 + 1 + 2))));
    let gate = InTurn::new();
    compare(&rt, rt.alloc(), &trace, &lru, &segmented, &gate).map_err(failed)?;
    assert_equal(&rt, gate.seen(), Some((3, 0 + 1 + 2)));
    let gate = InTurn::new();
    let rows = compare_intervals(&rt, rt.alloc(), &trace, &lru, &segmented, 50_000, &gate);
    drop(rows.map_err(failed)?);
    assert_equal(&rt, gate.seen(), Some((3, 0 + 1 + 2)));
    let trace = parting_early(rt.alloc())?;
    let gate = InTurn::new();
    let found = part_watched(&rt, rt.alloc(), &trace, &lru, &segmented, &gate).map_err(failed)?;
    assert_equal(&rt, (found, gate.seen()), (Some(5), Some((3, 0 + 1 + 2))));
    Ok(())
}

// The answer to commands about the trace 1 1 2 3 1 at capacity 2, with lru as `a` and slru as `b`, through these ends.
pub fn answer_through(
    rt: &(impl Threads + Sync),
    alloc: Global,
    input: Pipe<'_>,
    output: &mut CountedWriter<Pipe<'_>>,
) -> Result<Result<(), DebugFault>, Fail> {
    let trace = trace_of(alloc, &[1, 1, 2, 3, 1])?;
    let (lru, segmented) = (at_two(Policy::Lru), at_two(Policy::SegmentedLru));
    let mut input = CountedReader::new(input);
    match run_debug(rt, alloc, &trace, &lru, &segmented, &mut input, output) {
        Err(DebugFault::OutOfMemory) => Err(Fail::from("out of memory")),
        answer => Ok(answer),
    }
}

#[test]
fn a_debug_session(rt: HostRuntime) -> Result<(), Fail> {
    let commands =
        "part\ngoto 5\nback 1\nshow\nback 5\ngoto 0\nbreak part\nrun\nclear\nbreak evict 2\nrun\njump\nquit\n";
    let text = "part 5
at 5
at 4
a lru hits 1 misses 3 evictions 1 rejections 0
a holds 2 3
b slru hits 1 misses 3 evictions 1 rejections 0
b holds 3 1
fault: PastStart
at 0
ok
stop part
at 5
ok
ok
fault: PastEnd
fault: Command
";
    let input = Pipe::of(rt.alloc(), commands.as_bytes(), ROOM)?;
    let mut output = CountedWriter::new(Pipe::of(rt.alloc(), b"", ROOM)?);
    let answer = answer_through(&rt, rt.alloc(), input, &mut output)?;
    assert_equal(&rt, answer, Ok(()));
    assert_equal(&rt, output.get_ref().taken.as_slice(), text.as_bytes());
    Ok(())
}

// A capacity, a policy beside Caffeine, commands and their answers, over ten accesses an entry to key 1, as many to new
// keys, and as many to key 1 again. Caffeine's window has a size of 1 at first, and each of the three is a period. In the
// first more hit than in none, so the target goes on down, and stays at 1. In the second fewer hit: the direction turns,
// and the target goes up by the step, a sixteenth of the capacity. In the third more hit, and it goes up again. The size
// is the target at once.
const WINDOWS: [(u32, Policy, &str, &str); 2] = [
    (
        16,
        Policy::WindowTinyLfu,
        "window\ngoto 160\nwindow\ngoto 319\nwindow\nstep 1\nwindow\ngoto 480\nwindow\nback 1\nwindow\nwindow 1\n",
        "a caffeine window 1 target 1
b wtinylfu window 1
at 160
a caffeine window 1 target 1
b wtinylfu window 1
at 319
a caffeine window 1 target 1
b wtinylfu window 1
at 320
a caffeine window 2 target 2
b wtinylfu window 1
at 480
a caffeine window 3 target 3
b wtinylfu window 1
at 479
a caffeine window 2 target 2
b wtinylfu window 1
fault: Command
",
    ),
    (
        32,
        Policy::Lru,
        "goto 639\nwindow\nstep 1\nwindow\n",
        "at 639
a caffeine window 1 target 1
b lru window none
at 640
a caffeine window 3 target 3
b lru window none
",
    ),
];

// Ten accesses an entry to key 1, as many to new keys, and as many to key 1 again.
fn there_and_back(alloc: Global, capacity: u32) -> Result<Trace, Fail> {
    let third = 10 * Key::from(capacity);
    let mut keys = Vec::new(alloc);
    for i in 0..3 * third {
        let is_new = third <= i && i < 2 * third;
        keys.push(if is_new { i } else { 1 })?;
    }
    match keys.len() <= 1000 {
        true => Ok(Trace::new(keys)),
        false => Err(Fail::from("a longer trace than these tests have")),
    }
}

// Sees what the debugger answers to the commands of a row.
fn assert_windows<R: Abort + Threads + Sync>(
    rt: &R,
    alloc: Global,
    (capacity, other, commands, wanted): (u32, Policy, &str, &str),
) -> Result<(), Fail> {
    let trace = there_and_back(alloc, capacity)?;
    let first = of_capacity(capacity, Policy::Caffeine);
    let second = of_capacity(capacity, other);
    assert_answers(rt, alloc, &trace, (&first, &second), (commands, wanted))
}

// Sees what the debugger answers to commands about two policies over a trace.
fn assert_answers<R: Abort + Threads + Sync>(
    rt: &R,
    alloc: Global,
    trace: &Trace,
    (first, second): (&Job, &Job),
    (commands, wanted): (&str, &str),
) -> Result<(), Fail> {
    let mut input = commands.as_bytes();
    let mut out = CountedWriter::new(Vec::with_capacity(alloc, ROOM)?);
    match run_debug(rt, alloc, trace, first, second, &mut input, &mut out) {
        Ok(()) => assert_equal(rt, out.get_ref().as_slice(), wanted.as_bytes()),
        Err(DebugFault::OutOfMemory) => return Err(Fail::from("out of memory")),
        Err(_) => return Err(Fail::from("a fault")),
    }
    Ok(())
}

#[test]
fn the_window_at_each_place(rt: HostRuntime) -> Result<(), Fail> {
    for row in WINDOWS {
        assert_windows(&rt, rt.alloc(), row)?;
    }
    Ok(())
}

// Two policies, commands and their answers, over the accesses 1, 2, 1, 3, 2 at capacity 2. At the fourth Lru, SIEVE and ARC
// evict 2, which nobody asked for twice, CLOCK and Belady's policy 1; S3-FIFO and 2Q evict 1 too, since a hit moves nothing
// in their queues of new keys. At the fifth ARC finds 2 in its ghost, so the target rises by one, and 1 leaves.
const INSIDE: [(Policy, Policy, &str, &str); 5] = [
    (
        Policy::Lru,
        Policy::SegmentedLru,
        "queues\nlast\ngoto 4\nqueues\nlast\nback 1\nlast\nback 1\nlast\nestimate 1\nestimate\nqueues 1\n",
        "a lru queue
b slru probation
b slru protected
access none
at 4
a lru queue 1 3
b slru probation 3
b slru protected 1
access 4 block 3
a lru evicted 2
b slru evicted 2
at 3
access 3 block 1
a lru hit
b slru hit
at 2
access 2 block 2
a lru kept
b slru kept
a lru estimate none
b slru estimate none
fault: Command
fault: Command
",
    ),
    (
        Policy::Arc,
        Policy::Clairvoyant,
        "goto 5\nqueues\nlast\nback 1\nqueues\nlast\nback 2\nqueues\n",
        "at 5
a arc t1 3
a arc t2 2
a arc b1
a arc b2 1
a arc target 1
b clairvoyant next 2:0 3:0
access 5 block 2
a arc evicted 1
b clairvoyant hit
at 4
a arc t1 3
a arc t2 1
a arc b1 2
a arc b2
a arc target 0
b clairvoyant next 2:5 3:0
access 4 block 3
a arc evicted 2
b clairvoyant evicted 1
at 2
a arc t1 1 2
a arc t2
a arc b1
a arc b2
a arc target 0
b clairvoyant next 1:3 2:5
",
    ),
    (
        Policy::Clock,
        Policy::Sieve,
        "goto 3\nqueues\nstep 1\nqueues\nlast\nstep 1\nqueues\nlast\n",
        "at 3
a clock queue 1:1 2:1
b sieve passed
b sieve ahead 1:1 2:0
at 4
a clock queue 2:0 3:1
b sieve passed
b sieve ahead 1:0 3:0
access 4 block 3
a clock evicted 1
b sieve evicted 2
at 5
a clock queue 2:1 3:1
b sieve passed
b sieve ahead 3:0 2:0
access 5 block 2
a clock hit
b sieve evicted 1
",
    ),
    (
        Policy::S3Fifo,
        Policy::TwoQ,
        "goto 5\nqueues\nlast\n",
        "at 5
a s3-fifo small 2:1 3:0
a s3-fifo main
a s3-fifo ghost 1
b 2q a1in 2 3
b 2q am
b 2q a1out 1
access 5 block 2
a s3-fifo hit
b 2q hit
",
    ),
    (
        Policy::TinyLfuLru,
        Policy::Caffeine,
        "goto 1\nestimate 1\nqueues\nlast\nback 1\nestimate 1\n",
        "at 1
a tinylfu-lru estimate 1
b caffeine estimate 1
a tinylfu-lru queue 1
b caffeine window 1
b caffeine probation
b caffeine protected
access 1 block 1
a tinylfu-lru kept
b caffeine kept
at 0
a tinylfu-lru estimate 0
b caffeine estimate 0
",
    ),
];

#[test]
fn what_stands_in_the_queues_at_each_place(rt: HostRuntime) -> Result<(), Fail> {
    let trace = trace_of(rt.alloc(), &[1, 2, 1, 3, 2])?;
    for (first, second, commands, wanted) in INSIDE {
        let jobs = (&at_two(first), &at_two(second));
        assert_answers(&rt, rt.alloc(), &trace, jobs, (commands, wanted))?;
    }
    Ok(())
}

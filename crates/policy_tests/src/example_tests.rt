//! Worked examples: the outcomes, what is counted and the keys that stay, by hand from the table of moves.
use super::assertions::assert_equal;
use Outcome::{Evicted, Hit, Kept, Rejected};
use Policy::{
    Arc, Caffeine, Car, Clairvoyant, Clock, Fifo, Lru as LeastRecent, S3Fifo,
    SegmentedLru as Segmented, Sieve, TinyLfuLru, TinyLfuSegmented, TwoQ,
    WindowTinyLfu as Windowed,
};
use policies::AnyPolicy;
use std::alloc::Global;
use std::process::Abort;
use std::test::Fail;
use step_record::{Config, Engine, Job, Key, Outcome, Policy, Sizes, Spread, Stats, Trace, Tuning};

// A worked example: a policy at a capacity, the accesses with their outcomes, what is counted (accesses, hits, misses,
// evictions and rejections), and the keys that stay.
#[derive(Clone, Copy)]
struct Example {
    policy: Policy,
    capacity: u32,
    accesses: &'static [(Key, Outcome)],
    counted: [u64; 5],
    residents: &'static [Key],
}

// The trace of an example.
fn trace_of(rt: &impl Abort, alloc: Global, accesses: &[(Key, Outcome)]) -> Result<Trace, Fail> {
    let mut keys = Vec::new(alloc);
    for (key, _) in accesses {
        keys.push(*key)?;
    }
    assert!(rt; keys.len() <= 16);
    Ok(Trace::new(keys))
}

// The cache of an example with this tuning, which made no access yet.
fn opened(
    rt: &impl Abort,
    alloc: Global,
    example: &Example,
    tuning: Tuning,
) -> Result<AnyPolicy, Fail> {
    let config = Config {
        capacity: example.capacity,
        main_percent: 99,
        spread: Spread::Plain,
        stripes: 1,
        journal_limit: 1,
    };
    assert!(rt; config.check().is_ok());
    let policy = example.policy;
    let trace = trace_of(rt, alloc, example.accesses)?;
    let job = Job {
        policy,
        sizes: Sizes::NONE,
        config,
        tuning,
    };
    let cache = AnyPolicy::open(alloc, &job, &trace)?;
    Ok(cache)
}

// Makes an access, undoes it and makes it again, and compares the outcomes.
fn access(
    rt: &impl Abort,
    cache: &mut AnyPolicy,
    (key, wanted): (Key, Outcome),
) -> Result<(), Fail> {
    let (outcome, done) = cache.apply(&key)?;
    assert_eq!(rt; outcome, wanted, "{key}");
    if cache.undo(done).is_err() {
        return Err(Fail::from("out of memory"));
    }
    let (again, _) = cache.apply(&key)?;
    assert_equal(rt, again, wanted);
    Ok(())
}

fn assert_residents(
    rt: &impl Abort,
    alloc: Global,
    cache: &AnyPolicy,
    wanted: &[Key],
) -> Result<(), Fail> {
    let residents = cache.residents(alloc)?;
    assert_equal(rt, residents.as_slice(), wanted);
    Ok(())
}

fn assert_example(
    rt: &impl Abort,
    alloc: Global,
    cache: &mut AnyPolicy,
    example: &Example,
) -> Result<(), Fail> {
    for one in example.accesses {
        access(rt, cache, *one)?;
    }
    let Stats {
        accesses,
        hits,
        misses,
        evictions,
        rejections,
    } = cache.stats();
    let counted = [accesses, hits, misses, evictions, rejections];
    assert_equal(rt, counted, example.counted);
    assert_residents(rt, alloc, cache, example.residents)
}

fn assert_all(
    rt: &impl Abort,
    alloc: Global,
    examples: &[Example],
    tuning: Tuning,
) -> Result<(), Fail> {
    for example in examples {
        let mut cache = opened(rt, alloc, example, tuning)?;
        assert_example(rt, alloc, &mut cache, example)?;
    }
    Ok(())
}

// Lru evicts the key whose last access is oldest.
const LEAST_RECENT: [Example; 1] = [Example {
    policy: LeastRecent,
    capacity: 3,
    accesses: &[
        (1, Kept),
        (2, Kept),
        (3, Kept),
        (1, Hit),
        (4, Evicted(2)),
        (2, Evicted(3)),
    ],
    counted: [6, 1, 5, 2, 0],
    residents: &[1, 4, 2],
}];

// Segmented Lru protects a key that was hit. Of two keys protected holds one: when 2 is hit, 1 goes to probation's
// recent end, and leaves for 3.
const PROTECTED: [Example; 2] = [
    Example {
        policy: Segmented,
        capacity: 2,
        accesses: &[(1, Kept), (1, Hit), (2, Kept), (3, Evicted(2)), (1, Hit)],
        counted: [5, 2, 3, 1, 0],
        residents: &[3, 1],
    },
    Example {
        policy: Segmented,
        capacity: 2,
        accesses: &[(1, Kept), (2, Kept), (1, Hit), (2, Hit), (3, Evicted(1))],
        counted: [5, 2, 3, 1, 0],
        residents: &[3, 2],
    },
];

// An admission filter rejects a tie.
const FILTERED: [Example; 2] = [
    Example {
        policy: TinyLfuLru,
        capacity: 1,
        accesses: &[(1, Kept), (2, Rejected(2)), (2, Evicted(1))],
        counted: [3, 0, 3, 2, 1],
        residents: &[2],
    },
    Example {
        policy: TinyLfuSegmented,
        capacity: 2,
        accesses: &[(1, Kept), (1, Hit), (2, Kept), (3, Rejected(3))],
        counted: [4, 1, 3, 1, 1],
        residents: &[2, 1],
    },
];

// A window comes before the main part.
const WINDOWED: [Example; 3] = [
    Example {
        policy: Windowed,
        capacity: 1,
        accesses: &[(1, Kept), (2, Rejected(1)), (1, Rejected(2))],
        counted: [3, 0, 3, 2, 2],
        residents: &[1],
    },
    Example {
        policy: Windowed,
        capacity: 2,
        accesses: &[(1, Kept), (2, Kept), (1, Hit), (3, Rejected(2)), (1, Hit)],
        counted: [5, 2, 3, 1, 1],
        residents: &[3, 1],
    },
    // Four leaves no room for 3, which came as often as 2.
    Example {
        policy: Caffeine,
        capacity: 3,
        accesses: &[
            (1, Kept),
            (2, Kept),
            (3, Kept),
            (1, Hit),
            (4, Rejected(3)),
            (2, Hit),
        ],
        counted: [6, 2, 4, 1, 1],
        residents: &[4, 1, 2],
    },
];

// The optimal policy keeps what is used next.
const OPTIMAL: [Example; 2] = [
    Example {
        policy: Clairvoyant,
        capacity: 2,
        accesses: &[(1, Kept), (2, Kept), (3, Rejected(3)), (1, Hit), (2, Hit)],
        counted: [5, 2, 3, 1, 1],
        residents: &[1, 2],
    },
    Example {
        policy: Clairvoyant,
        capacity: 2,
        accesses: &[(1, Kept), (2, Kept), (3, Evicted(1)), (4, Evicted(2))],
        counted: [4, 0, 4, 2, 0],
        residents: &[3, 4],
    },
];

// The policies that keep each missed key: by their definitions, step by step.
const DEMAND: [Example; 8] = [
    Example {
        policy: Fifo,
        capacity: 3,
        accesses: &[
            (1, Kept),
            (2, Kept),
            (3, Kept),
            (1, Hit),
            (4, Evicted(1)),
            (2, Hit),
        ],
        counted: [6, 2, 4, 1, 0],
        residents: &[2, 3, 4],
    },
    Example {
        policy: Clock,
        capacity: 3,
        accesses: &[
            (1, Kept),
            (2, Kept),
            (3, Kept),
            (1, Hit),
            (4, Evicted(1)),
            (2, Hit),
        ],
        counted: [6, 2, 4, 1, 0],
        residents: &[2, 3, 4],
    },
    Example {
        policy: Clock,
        capacity: 3,
        accesses: &[
            (1, Kept),
            (2, Kept),
            (1, Hit),
            (3, Kept),
            (4, Evicted(1)),
            (2, Hit),
            (1, Evicted(3)),
        ],
        counted: [7, 2, 5, 2, 0],
        residents: &[4, 2, 1],
    },
    Example {
        policy: Sieve,
        capacity: 3,
        accesses: &[
            (1, Kept),
            (2, Kept),
            (3, Kept),
            (1, Hit),
            (4, Evicted(2)),
            (2, Evicted(3)),
        ],
        counted: [6, 1, 5, 2, 0],
        residents: &[1, 4, 2],
    },
    Example {
        policy: S3Fifo,
        capacity: 3,
        accesses: &[
            (1, Kept),
            (2, Kept),
            (3, Kept),
            (1, Hit),
            (4, Evicted(1)),
            (2, Hit),
            (1, Evicted(2)),
        ],
        counted: [7, 2, 5, 2, 0],
        residents: &[3, 4, 1],
    },
    Example {
        policy: TwoQ,
        capacity: 3,
        accesses: &[
            (1, Kept),
            (2, Kept),
            (3, Kept),
            (1, Hit),
            (4, Evicted(1)),
            (2, Hit),
            (1, Evicted(2)),
        ],
        counted: [7, 2, 5, 2, 0],
        residents: &[3, 4, 1],
    },
    Example {
        policy: Arc,
        capacity: 3,
        accesses: &[
            (1, Kept),
            (2, Kept),
            (3, Kept),
            (1, Hit),
            (4, Evicted(2)),
            (2, Evicted(3)),
        ],
        counted: [6, 1, 5, 2, 0],
        residents: &[4, 1, 2],
    },
    Example {
        policy: Car,
        capacity: 3,
        accesses: &[
            (1, Kept),
            (2, Kept),
            (3, Kept),
            (1, Hit),
            (4, Evicted(2)),
            (2, Evicted(3)),
            (1, Hit),
            (5, Evicted(4)),
            (3, Evicted(5)),
        ],
        counted: [9, 2, 7, 4, 0],
        residents: &[1, 2, 3],
    },
];

// Sizes other than the published ones: of four keys the small queue is to have two, a1in three, and the ghost of 2Q
// remembers one.
const CHOSEN: Tuning = Tuning {
    small: 50,
    kin: 75,
    kout: 25,
    period: None,
};

// With the published sizes 4 would have evicted 5 from S3-FIFO, whose main queue could have three keys; and 6 would have
// evicted 3 from 2Q, and 9 the key 3, which a ghost of two keys would have remembered.
const SIZED: [Example; 2] = [
    Example {
        policy: S3Fifo,
        capacity: 4,
        accesses: &[
            (1, Kept),
            (1, Hit),
            (1, Hit),
            (2, Kept),
            (3, Kept),
            (4, Kept),
            (5, Evicted(2)),
            (2, Evicted(3)),
            (3, Evicted(4)),
            (4, Evicted(2)),
        ],
        counted: [10, 2, 8, 4, 0],
        residents: &[5, 3, 1, 4],
    },
    Example {
        policy: TwoQ,
        capacity: 4,
        accesses: &[
            (1, Kept),
            (2, Kept),
            (3, Kept),
            (4, Kept),
            (5, Evicted(1)),
            (1, Evicted(2)),
            (6, Evicted(1)),
            (2, Evicted(3)),
            (7, Evicted(2)),
            (8, Evicted(4)),
            (3, Evicted(5)),
            (9, Evicted(6)),
        ],
        counted: [12, 0, 12, 8, 0],
        residents: &[7, 8, 3, 9],
    },
];

#[test]
fn each_policy_that_keeps_missed_keys_answers_by_its_definition(
    rt: HostRuntime,
) -> Result<(), Fail> {
    assert_all(&rt, rt.alloc(), &DEMAND, Tuning::PUBLISHED)?;
    assert_all(&rt, rt.alloc(), &SIZED, CHOSEN)
}

#[test]
fn each_policy_answers_by_the_table_of_moves(rt: HostRuntime) -> Result<(), Fail> {
    assert_all(&rt, rt.alloc(), &LEAST_RECENT, Tuning::PUBLISHED)?;
    assert_all(&rt, rt.alloc(), &PROTECTED, Tuning::PUBLISHED)?;
    assert_all(&rt, rt.alloc(), &FILTERED, Tuning::PUBLISHED)?;
    assert_all(&rt, rt.alloc(), &WINDOWED, Tuning::PUBLISHED)?;
    assert_all(&rt, rt.alloc(), &OPTIMAL, Tuning::PUBLISHED)
}

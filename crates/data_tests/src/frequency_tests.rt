//! Approximate access frequencies, beside the definition, which was worked out by a calculator of its own over lists of
//! keys.
ghost use Rattle.std.specs.Prelude.{◌≤◌};
ghost use Rattle.engine_base.specs.declared.limits.TheConstants.{MAX_CAPACITY};

use super::assertions::assert_equal;
use admission::Frequency;
use engine_base::{Config, Key, Spread};
use journal::Session;
use queue_cache::AdaptiveCache;
use std::alloc::{AllocError, Global};
use std::process::Abort;
use std::test::Fail;

// The squares modulo 7.
const SQUARES: [Key; 7] = [0, 1, 4, 2, 2, 4, 1];

// What a frequency of two entries is after so many of them, over and over: the age, the halvings, and the estimates of
// the keys from 0 on.
const AGED: [(usize, u32, u64, [u8; 7]); 5] = [
    (19, 19, 0, [3, 5, 6, 0, 5, 0, 0]),
    (20, 10, 1, [1, 2, 2, 0, 2, 0, 0]),
    (29, 19, 1, [3, 5, 4, 0, 4, 0, 0]),
    (45, 15, 3, [1, 3, 2, 0, 3, 0, 0]),
    (49, 19, 3, [1, 4, 4, 0, 4, 0, 0]),
];

// Records so many keys, over and over.
fn record(
    rt: &impl Abort,
    frequency: &mut Frequency,
    keys: &[Key; 7],
    count: usize,
) -> Result<(), AllocError> {
    for i in 0..count {
        assert!(rt; frequency.halvings() < u64::MAX);
        let _done = frequency.record(keys[i % 7])?;
    }
    Ok(())
}

// The frequency at so many entries after so many keys.
fn recorded(
    rt: &impl Abort,
    alloc: Global,
    capacity: u32,
    spread: Spread,
    keys: &[Key; 7],
    count: usize,
) -> Result<Frequency, AllocError>
    requires { (1 ≤ capacity) × (capacity ≤ MAX_CAPACITY) }
{
    let mut frequency = Frequency::new(alloc, capacity, spread)?;
    record(rt, &mut frequency, keys, count)?;
    Ok(frequency)
}

fn assert_estimates(rt: &impl Abort, frequency: &Frequency, wanted: &[u8; 7]) {
    for (key, estimate) in wanted.iter().enumerate() {
        assert_equal(rt, frequency.estimate(key as u64), *estimate);
    }
}

#[test]
fn estimates_by_the_definition(rt: HostRuntime) -> Result<(), Fail> {
    for spread in [Spread::Plain, Spread::Mixed] {
        for (count, age, halvings, estimates) in AGED {
            let frequency = recorded(&rt, rt.alloc(), 2, spread, &SQUARES, count)?;
            assert_equal(
                &rt,
                (frequency.age(), frequency.halvings()),
                (age, halvings),
            );
            assert_estimates(&rt, &frequency, &estimates);
        }
    }
    Ok(())
}

#[test]
fn opens_at_the_largest_capacity(rt: HostRuntime) -> Result<(), Fail> {
    for spread in [Spread::Plain, Spread::Mixed] {
        let frequency = recorded(&rt, rt.alloc(), 1 << 20, spread, &[Key::MAX; 7], 3)?;
        assert_equal(&rt, (frequency.estimate(Key::MAX), frequency.age()), (3, 3));
    }
    Ok(())
}

// The sketch of a cache without a doorkeeper: the entries, how many keys come in turn, how many accesses, and the age and
// the halvings after them. Keys that differ leave many odd counters, of which the halving takes a fourth off the age
// before it is halved; a key whose counters are full ages no more.
const OPEN_AGES: [(u32, Key, u64, (u32, u64)); 5] = [
    (16, 160, 160, (64, 1)),
    (16, 80, 160, (80, 1)),
    (100, 1, 20, (15, 0)),
    (100, 1, 15, (15, 0)),
    (1, 2, 200, (8, 32)),
];

// Sees the age and the halvings after accesses to some keys in turn.
fn assert_ages(
    rt: &impl Abort,
    session: &mut Session<AdaptiveCache>,
    keys: Key,
    count: u64,
    wanted: (u32, u64),
) -> Result<(), Fail> {
    for i in 0..count {
        assert!(rt; 0 < keys);
        session.step(i % keys)?;
    }
    let frequency = session.engine().frequency();
    assert_equal(rt, (frequency.age(), frequency.halvings()), wanted);
    Ok(())
}

#[test]
fn ages_without_a_doorkeeper(rt: HostRuntime) -> Result<(), Fail> {
    for (capacity, keys, count, wanted) in OPEN_AGES {
        let config = Config {
            capacity,
            main_percent: 99,
            spread: Spread::Mixed,
            stripes: 1,
            journal_limit: 200,
        };
        assert!(rt; config.check() == Ok(()));
        let cache = AdaptiveCache::new(rt.alloc(), &config, None)?;
        let mut session = Session::open(rt.alloc(), cache, 200);
        assert_ages(&rt, &mut session, keys, count, wanted)?;
    }
    Ok(())
}

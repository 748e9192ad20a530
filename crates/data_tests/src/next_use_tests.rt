//! Places of keys, next uses of a trace that comes whole or in pieces, and numbers of its keys.
use super::assertions::assert_equal;
use clairvoyant::{NextUse, NextUseFinder};
use engine_base::{Key, Trace};
use std::alloc::Global;
use std::process::Abort;
use std::test::Fail;
use trace_index::{KeyPlaces, TraceNumbers};

// A key of more than 4 bytes.
const LONG: Key = 4_294_967_297;

// Keys with the place at which each comes again. From the end on, 1,048,580 comes before a table of places reaches it; when
// it comes again the table grows past it.
const USES: [(Key, Option<u32>); 10] = [
    (1_048_580, Some(5)),
    (1_048_582, Some(4)),
    (5, Some(6)),
    (LONG, Some(8)),
    (1_048_582, None),
    (1_048_580, Some(9)),
    (5, None),
    (Key::MAX, None),
    (LONG, None),
    (1_048_580, None),
];

#[test]
fn a_key_has_the_place_that_was_put_last(rt: HostRuntime) -> Result<(), Fail> {
    let mut places = KeyPlaces::new(rt.alloc());
    for (key, _) in USES {
        let _ = places.put(key, 0)?;
        assert_equal(&rt, places.put(key, 16_777_215)?, Some(0));
    }
    Ok(())
}

// The inverse of the number by which keys are multiplied before their upper bits tell where they stand: its multiples by
// 0, 1, 2 .. would all stand at one place.
const SAME_HOME: Key = 17_428_512_612_931_826_493;

// How many keys: more than stand near one place, and more than the first cells of the table hold.
const MANY: u64 = 600;

// Puts the places of as many multiples of a key, and then puts each again.
fn assert_multiples_have_places(rt: &impl Abort, alloc: Global, key: Key) -> Result<(), Fail> {
    let mut places = KeyPlaces::new(alloc);
    for i in 0..MANY {
        assert_equal(rt, places.put(key.wrapping_mul(i), i as u32)?, None);
    }
    for i in 0..MANY {
        assert_equal(rt, places.put(key.wrapping_mul(i), 1000)?, Some(i as u32));
    }
    Ok(())
}

#[test]
fn many_wide_keys_have_their_places(rt: HostRuntime) -> Result<(), Fail> {
    assert_multiples_have_places(&rt, rt.alloc(), LONG)
}

#[test]
fn keys_chosen_to_stand_at_one_place_have_theirs(rt: HostRuntime) -> Result<(), Fail> {
    assert_multiples_have_places(&rt, rt.alloc(), SAME_HOME)
}

// Sees the key and the next use of each access.
fn assert_uses(rt: &impl Abort, uses: &NextUse) {
    assert!(rt; uses.len() == 10);
    for (place, (key, next)) in USES.iter().enumerate() {
        assert!(rt; place < uses.len());
        assert_equal(rt, uses.key(place), *key);
        assert_equal(rt, uses.next(place), *next);
    }
}

#[test]
fn next_uses_are_found_across_the_pieces_of_a_trace(rt: HostRuntime) -> Result<(), Fail> {
    let mut finder = NextUseFinder::new(rt.alloc());
    for (key, _) in USES {
        assert!(rt; finder.len() < 100);
        finder.take(&[key])?;
    }
    let uses = finder.finish(rt.alloc())?;
    assert_uses(&rt, &uses);
    Ok(())
}

#[test]
fn shared_next_uses_outlive_their_first_owner(rt: HostRuntime) -> Result<(), Fail> {
    let mut keys = Vec::new(rt.alloc());
    for (key, _) in USES {
        keys.push(key)?;
    }
    assert!(rt; keys.len() <= 10);
    let first = NextUse::build(rt.alloc(), &Trace::new(keys))?;
    let second = first.share()?;
    drop(first);
    assert_uses(&rt, &second);
    Ok(())
}

#[test]
fn keys_have_numbers_as_they_first_come(rt: HostRuntime) -> Result<(), Fail> {
    let trace = Trace::new(vec![in rt.alloc(); 7, LONG, 7, 1_048_582, LONG, 0]?);
    let numbers = TraceNumbers::of(rt.alloc(), &trace)?;
    assert_equal(&rt, numbers.as_slice(), &[0, 1, 0, 2, 1, 3]);
    Ok(())
}

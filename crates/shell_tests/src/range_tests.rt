//! Calls at both ends of their ranges, with ample memory: none of them may answer that it is out of memory.
use super::assertions::assert_equal;
use super::sessions::{CONFIG, ask, opened};
use engine_base::{Act, Config, Reply};
use journal::Session;
use maintenance::Shell;
use std::alloc::Global;
use std::process::Abort;
use std::test::Fail;

// The entries, the main part and the read buffers of new caches.
const RANGES: [(u32, u8, u8); 4] = [
    (1, 0, 1),
    (1, 99, 64),
    (1_048_576, 0, 2),
    (1_048_576, 99, 32),
];

// A new cache of so many read buffers holds nothing.
fn assert_empty(rt: &impl Abort, alloc: Global, config: &Config) -> Result<(), Fail> {
    assert!(rt; config.check() == Ok(()));
    let shell = Shell::new(alloc, config)?;
    assert_equal(rt, shell.stripes(), config.stripes);
    assert!(rt; shell.table(alloc)?.is_empty() && shell.tasks().is_empty());
    Ok(())
}

#[test]
fn new_caches_at_the_ends_of_their_ranges(rt: HostRuntime) -> Result<(), Fail> {
    for (capacity, main_percent, stripes) in RANGES {
        let config = Config {
            capacity,
            main_percent,
            stripes,
            ..CONFIG
        };
        assert_empty(&rt, rt.alloc(), &config)?;
    }
    Ok(())
}

// Puts keys 1 to 64, which are new, and sees that each write waits.
fn put_new_keys(rt: &impl Abort, session: &mut Session<Shell>) {
    for node in 0..64 {
        let put = Act::Put { key: node + 1 };
        assert_equal(rt, ask(rt, session, put), Ok(Reply::Added { node }));
    }
}

// A put of a key that is there waits too, until 128 writes do; a removal is refused then.
fn put_a_present_key(rt: &impl Abort, session: &mut Session<Shell>) {
    let put = Act::Put { key: 1 };
    for _again in 0..64 {
        assert_equal(rt, ask(rt, session, put), Ok(Reply::Present { node: 0 }));
    }
    assert_equal(rt, session.engine().tasks().len(), 128);
    for refused in [put, Act::Remove { key: 1 }] {
        assert_equal(rt, ask(rt, session, refused), Ok(Reply::WritesFull));
    }
}

#[test]
fn writes_wait_until_they_are_128(rt: HostRuntime) -> Result<(), Fail> {
    let mut session = opened(&rt, rt.alloc(), &CONFIG, 200)?;
    put_new_keys(&rt, &mut session);
    put_a_present_key(&rt, &mut session);
    Ok(())
}

//! Journals worked out by hand: each is read, undone to its start, redone, and written as it was.
use super::assertions::assert_equal;
use super::sessions::{CONFIG, read};
use engine_base::Config;
use journal::Session;
use journal_text::write_journal;
use maintenance::Shell;
use std::alloc::Global;
use std::process::Abort;
use std::test::Fail;
use streams::CountedWriter;

// A key is read, removed and read again, each with a round.
const THREE_ROUNDS: &str = "cachesim journal 2
0 look 1 = miss
0 put 1 = added 0
0 afterwrite = drain
0 begin = began
0 drainread 0 = empty
0 drainwrite = applied 1 0
0 drainwrite = empty
0 evict = fits
0 end = idle
0 remove 1 = removed 0
0 afterwrite = drain
0 begin = began
0 drainread 0 = empty
0 drainwrite = cleared 1 0
0 drainwrite = empty
0 evict = fits
0 end = idle
0 look 1 = miss
0 put 1 = added 1
0 afterwrite = drain
0 begin = began
0 drainread 0 = empty
0 drainwrite = applied 1 1
0 drainwrite = empty
0 evict = fits
0 end = idle
steps 26
";

// A seventeenth read is dropped.
const READS: &str = "cachesim journal 2
0 put 1 = added 0
0 look 1 = hit 0
0 lose 0 1 0 = lost
0 offer 0 1 0 = kept\n0 offer 0 1 0 = kept\n0 offer 0 1 0 = kept\n0 offer 0 1 0 = kept\n\
0 offer 0 1 0 = kept\n0 offer 0 1 0 = kept\n0 offer 0 1 0 = kept\n0 offer 0 1 0 = kept\n\
0 offer 0 1 0 = kept\n0 offer 0 1 0 = kept\n0 offer 0 1 0 = kept\n0 offer 0 1 0 = kept\n\
0 offer 0 1 0 = kept\n0 offer 0 1 0 = kept\n0 offer 0 1 0 = kept\n0 offer 0 1 0 = kept\n\
0 offer 0 1 0 = full
0 afterread full = drain
0 begin = began
0 drainread 0 = drained 1 0
steps 23
";

// A write during maintenance asks for another round, and a second worker finds the first at it.
const LATE_WRITE: &str = "cachesim journal 2
0 begin = began
1 begin = busy
1 afterwrite = go
0 end = again
steps 4
";

// At one entry: an item that is rejected was removed before, and its key came back under a newer node.
const REJECTED: &str = "cachesim journal 2
0 remove 1 = absent
0 put 1 = added 0
0 put 2 = added 1
0 begin = began
0 drainwrite = applied 1 0
0 drainwrite = applied 2 1
1 remove 1 = removed 0
1 put 1 = added 2
0 evict = rejected 1 0
0 evict = fits
0 end = idle
0 begin = began
0 drainwrite = cleared 1 0
0 drainwrite = applied 1 2
steps 14
";

// The journals, with the entries of their caches.
const JOURNALS: [(&str, u32); 4] = [
    (THREE_ROUNDS, 8),
    (READS, 8),
    (LATE_WRITE, 8),
    (REJECTED, 1),
];

// A session is written so.
fn assert_written(
    rt: &impl Abort,
    alloc: Global,
    session: &Session<Shell>,
    wanted: &str,
) -> Result<(), Fail> {
    // A vector that grows while it is written to would answer `Write` where it is out of memory.
    let mut text = CountedWriter::new(Vec::with_capacity(alloc, 1024)?);
    write_journal(alloc, session, &mut text)?;
    assert_equal(rt, text.get_ref().as_slice(), wanted.as_bytes());
    Ok(())
}

// Undoes all steps of a session, redoes them, and sees how it is written.
fn go_there_and_back(
    rt: &impl Abort,
    alloc: Global,
    session: &mut Session<Shell>,
    text: &str,
) -> Result<(), Fail> {
    let steps = session.len();
    session.back(steps)?;
    assert_equal(rt, (session.len(), session.ahead()), (0, steps));
    assert_equal(rt, session.engine().next_node(), 0);
    session.forward(steps)?;
    assert_written(rt, alloc, session, text)
}

#[test]
fn journals_are_read_undone_redone_and_written(rt: HostRuntime) -> Result<(), Fail> {
    for (text, capacity) in JOURNALS {
        let config = Config { capacity, ..CONFIG };
        let mut session = read(&rt, rt.alloc(), &config, text)?;
        go_there_and_back(&rt, rt.alloc(), &mut session, text)?;
    }
    Ok(())
}

// The version that has no count is written in the one that has.
#[test]
fn a_journal_of_the_first_version_is_read(rt: HostRuntime) -> Result<(), Fail> {
    let text = "cachesim journal 1\n0 look 1 = miss\n0 put 1 = added 0\n";
    let wanted = "cachesim journal 2\n0 look 1 = miss\n0 put 1 = added 0\nsteps 2\n";
    let session = read(&rt, rt.alloc(), &CONFIG, text)?;
    assert_written(&rt, rt.alloc(), &session, wanted)
}

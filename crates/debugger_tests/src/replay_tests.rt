//! A small session, worked out by hand: that of one access of one worker.
ghost use Rattle.std.specs.Prelude.{◌≡◌, [], IfOk};

use super::assertions::assert_equal;
use super::pipe::ROOM;
use debug_commands::{DebugFault, run_replay};
use journal::Session;
use journal_text::read_journal;
use maintenance::Shell;
use std::alloc::Global;
use std::process::Abort;
use std::test::Fail;
use step_record::{Config, Spread};
use streams::CountedWriter;

const CONFIG: Config = Config {
    capacity: 8,
    main_percent: 99,
    spread: Spread::Plain,
    stripes: 1,
    journal_limit: 100,
};

pub const JOURNAL: &str = "cachesim journal 1
0 look 1 = miss
0 put 1 = added 0
0 afterwrite = drain
0 begin = began
0 drainread 0 = empty
0 drainwrite = applied 1 0
0 drainwrite = empty
0 evict = fits
0 end = idle
";

// A session of no step.
pub fn empty(rt: &impl Abort, alloc: Global) -> Result<Session<Shell>, Fail>
    ensures kept { IfOk result (λ s. s.kept ≡ []) }
    ensures tail { IfOk result (λ s. s.tail ≡ []) }
{
    assert!(rt; CONFIG.check().is_ok());
    let shell = Shell::new(alloc, &CONFIG)?;
    Ok(Session::open(alloc, shell, 100))
}

// A session that holds the journal.
pub fn opened(rt: &impl Abort, alloc: Global) -> Result<Session<Shell>, Fail> {
    let mut session = empty(rt, alloc)?;
    read_journal(alloc, &mut JOURNAL.as_bytes(), &mut session)?;
    Ok(session)
}

const COMMANDS: &str = "back 3\nshow\nwindow\nbreak drop\nrun\nstep 1\ngoto 2\nsave\n";

const ANSWERS: &str = "at 6
drain toidle
holder 0 writes 127
next 1
table 1:0
window 1:0
probation
protected
stripe 0
writes
age 1 halvings 0
hits 0 misses 1 kept 0 full 0 lost 0 added 1 updated 0 refused 0 evictions 0 rejections 0 begun 1 busy 0 removed 0
fault: Command
ok
end
at 9
fault: PastEnd
at 2
cachesim journal 2
0 look 1 = miss
0 put 1 = added 0
steps 2
";

// Sees what the debugger answers, and where it leaves the session.
fn assert_answers(
    rt: &impl Abort,
    alloc: Global,
    session: &mut Session<Shell>,
) -> Result<(), Fail> {
    let mut out = CountedWriter::new(Vec::with_capacity(alloc, ROOM)?);
    match run_replay(alloc, session, &mut COMMANDS.as_bytes(), &mut out) {
        Ok(()) => assert_equal(rt, out.get_ref().as_slice(), ANSWERS.as_bytes()),
        Err(DebugFault::OutOfMemory) => return Err(Fail::from("out of memory")),
        Err(_) => return Err(Fail::from("a fault")),
    }
    assert_equal(rt, (session.len(), session.ahead()), (2, 7));
    Ok(())
}

#[test]
fn a_replay_of_a_journal(rt: HostRuntime) -> Result<(), Fail> {
    let mut session = opened(&rt, rt.alloc())?;
    assert_answers(&rt, rt.alloc(), &mut session)
}

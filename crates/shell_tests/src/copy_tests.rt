//! A session over the concurrent cache, copied by way of its text.
ghost use Rattle.std.specs.Prelude.{◌≡◌, ◌≤◌, [], IfOk, OnOk, length};
ghost use Rattle.maintenance.specs.EmptyShell.{IsOpened};
ghost use Rattle.shell_journal.specs.Copy.{CanHold};

use super::assertions::assert_equal;
use super::sessions::CONFIG;
use engine_base::{Act, Config, Reply, Step, Worker};
use journal::Session;
use maintenance::Shell;
use shell_journal::{copy_journal, theorems};
use std::alloc::Global;
use std::process::Abort;
use std::test::Fail;

// A session of at most three steps over an empty shell.
fn fresh(rt: &impl Abort, alloc: Global, config: &Config) -> Result<Session<Shell>, Fail>
    ensures opened { IfOk result (λ s. IsOpened config.now s.opening) }
    ensures limit { IfOk result (λ s. s.limit ≡ 3) }
    ensures kept { IfOk result (λ s. s.kept ≡ []) }
    ensures tail { IfOk result (λ s. s.tail ≡ []) }
{
    assert!(rt; config.check() == Ok(()));
    let shell = Shell::new(alloc, config)?;
    Ok(Session::open(alloc, shell, 3))
}

// Makes a step of worker 0, which is answered so.
fn make(rt: &impl Abort, session: &mut Session<Shell>, act: Act, reply: Reply) -> Result<(), Fail>
    ensures opening { session.new.opening ≡ session.old.opening }
    ensures limit { session.new.limit ≡ session.old.limit }
{
    let worker = Worker::new(0).expect(rt, "a worker below the limit");
    assert_equal(rt, session.step(Step { worker, act })?, reply);
    Ok(())
}

// Makes the steps of a miss.
fn make_miss(rt: &impl Abort, session: &mut Session<Shell>) -> Result<(), Fail>
    ensures opening { session.new.opening ≡ session.old.opening }
    ensures limit { session.new.limit ≡ session.old.limit }
    ensures few { OnOk result (length session.new.kept ≤ session.new.limit) }
{
    session.sound();
    make(rt, session, Act::Look { key: 1 }, Reply::Miss)?;
    make(rt, session, Act::Put { key: 1 }, Reply::Added { node: 0 })?;
    make(rt, session, Act::AfterWrite, Reply::Drain)?;
    session.sound();
    Ok(())
}

// Copies a session of the three steps of a miss.
fn assert_copied(
    rt: &impl Abort,
    alloc: Global,
    session: &Session<Shell>,
    copy: &mut Session<Shell>,
) -> Result<(), Fail>
    requires { CanHold session.now copy.old }
{
    copy_journal(alloc, session, copy)?;
    assert_equal(rt, copy.len(), 3);
    let put = copy.entry(2).map(|entry| entry.reply);
    assert_equal(rt, put, Some(Reply::Added { node: 0 }));
    Ok(())
}

#[test]
fn a_session_is_copied_by_its_text(rt: HostRuntime) -> Result<(), Fail> {
    theorems::opened_alike();
    let mut session = fresh(&rt, rt.alloc(), &CONFIG)?;
    make_miss(&rt, &mut session)?;
    let mut copy = fresh(&rt, rt.alloc(), &CONFIG)?;
    assert_copied(&rt, rt.alloc(), &session, &mut copy)
}

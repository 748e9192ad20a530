//! Sessions to test.
ghost use Rattle.std.specs.Prelude.{◌≡◌, ◌≤◌, [], IfOk};
ghost use Rattle.engine_base.specs.declared.limits.TheConstants.{MAX_JOURNAL_LIMIT};

use engine_base::{Act, Config, Reply, Spread, Step, Worker};
use journal::{Session, SessionFault};
use journal_text::read_journal;
use maintenance::Shell;
use std::alloc::Global;
use std::process::Abort;
use std::test::Fail;

/// A configuration of one read buffer.
pub const CONFIG: Config = Config {
    capacity: 8,
    main_percent: 99,
    spread: Spread::Plain,
    stripes: 1,
    journal_limit: 1,
};

/// A session over an empty shell.
pub fn opened(
    rt: &impl Abort,
    alloc: Global,
    config: &Config,
    limit: usize,
) -> Result<Session<Shell>, Fail>
    requires { (1 ≤ limit) × (limit ≤ MAX_JOURNAL_LIMIT) }
    ensures kept { IfOk result (λ s. s.kept ≡ []) }
    ensures tail { IfOk result (λ s. s.tail ≡ []) }
{
    assert!(rt; config.check() == Ok(()));
    let shell = Shell::new(alloc, config)?;
    Ok(Session::open(alloc, shell, limit))
}

/// A session that made the steps of a journal, which got the replies of the journal.
pub fn read(
    rt: &impl Abort,
    alloc: Global,
    config: &Config,
    text: &str,
) -> Result<Session<Shell>, Fail> {
    let mut session = opened(rt, alloc, config, 1000)?;
    let mut reader = text.as_bytes();
    read_journal(alloc, &mut reader, &mut session)?;
    Ok(session)
}

/// Asks for one step of worker 0.
pub fn ask(rt: &impl Abort, session: &mut Session<Shell>, act: Act) -> Result<Reply, SessionFault> {
    let worker = Worker::new(0).expect(rt, "a worker below the limit");
    session.step(Step { worker, act })
}

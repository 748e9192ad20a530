//! Workers that write one log in turns.
use super::assertions::assert_equal;
use library_examples::{Log, LogLine, Written, write_log};
use std::process::Abort;
use std::test::Fail;
use step_record::OpenGate;

const FIRST: LogLine = LogLine {
    worker: 9,
    number: 8,
};

// The log has the line that it had, and 300 of each worker, each list too.
fn assert_whole(rt: &impl Abort, written: &Written) {
    assert_equal(rt, written.log.lines.first(), Some(&FIRST));
    assert_equal(rt, written.log.lines.len(), 19_201);
    assert_equal(rt, written.lists.len(), 64);
    for (worker, list) in (0u8..).zip(written.lists.iter()) {
        let last = LogLine {
            worker,
            number: 299,
        };
        assert_equal(rt, (list.len(), list.last()), (300, Some(&last)));
    }
}

#[test]
fn threads_write_one_log(rt: HostRuntime) -> Result<(), Fail> {
    let log = Log {
        name: 7,
        lines: vec![in rt.alloc(); FIRST]?,
    };
    let written = write_log(&rt, rt.alloc(), &OpenGate, log, 64, 300)?;
    assert_whole(&rt, &written);
    Ok(())
}

//! Each fault beside the text that it is displayed as.
use journal::{BackFault, ForwardFault, GotoFault, SessionFault};
use policies::ActorFault;
use quiet_run::{QuietFault, SettleFault};
use std::alloc::Global;
use std::fmt::Display;
use std::process::Abort;
use std::test::Fail;
use step_record::{ConfigFault, StepFault};
use streams::{ReadAllFault, ReadFault, WriteAllFault, WriteFault};

// Each fault is displayed as the text beside it.
fn assert_shown<D: Display>(
    rt: &impl Abort,
    alloc: Global,
    table: &[(D, &str)],
) -> Result<(), Fail> {
    for (fault, wanted) in table {
        let shown = format!(in alloc; "{fault}")?;
        assert_eq!(rt; shown.as_str(), *wanted);
    }
    Ok(())
}

#[test]
fn faults_of_streams_are_shown_by_their_names(rt: HostRuntime) -> Result<(), Fail> {
    let reads = [
        (ReadAllFault::OutOfMemory, "OutOfMemory"),
        (ReadAllFault::TooLarge, "TooLarge"),
        (ReadAllFault::Read, "Read"),
    ];
    assert_shown(&rt, rt.alloc(), &reads)?;
    assert_shown(&rt, rt.alloc(), &[(ReadFault, "Read")])?;
    let writes = [
        (WriteFault::OutOfMemory, "OutOfMemory"),
        (WriteFault::Write, "Write"),
    ];
    assert_shown(&rt, rt.alloc(), &writes)?;
    assert_shown(&rt, rt.alloc(), &[(WriteAllFault, "Write")])
}

#[test]
fn faults_of_jobs_are_shown_by_their_names(rt: HostRuntime) -> Result<(), Fail> {
    let configs = [
        (ConfigFault::Capacity, "Capacity"),
        (ConfigFault::MainPercent, "MainPercent"),
        (ConfigFault::Stripes, "Stripes"),
        (ConfigFault::JournalLimit, "JournalLimit"),
    ];
    assert_shown(&rt, rt.alloc(), &configs)?;
    let jobs = [
        (ActorFault::OutOfMemory, "OutOfMemory"),
        (ActorFault::Batch, "Batch"),
        (ActorFault::Config { index: 3 }, "Config"),
        (ActorFault::Actors, "Actors"),
    ];
    assert_shown(&rt, rt.alloc(), &jobs)
}

#[test]
fn faults_of_steps_are_shown_by_their_names(rt: HostRuntime) -> Result<(), Fail> {
    let engine = [
        (StepFault::OutOfMemory, "OutOfMemory"),
        (StepFault::NotNow, "NotNow"),
    ];
    assert_shown(&rt, rt.alloc(), &engine)?;
    let session = [
        (SessionFault::OutOfMemory, "OutOfMemory"),
        (SessionFault::NotNow, "NotNow"),
        (SessionFault::JournalFull, "JournalFull"),
    ];
    assert_shown(&rt, rt.alloc(), &session)
}

#[test]
fn faults_of_undoing_are_shown_by_their_names(rt: HostRuntime) -> Result<(), Fail> {
    let back = [
        (BackFault::OutOfMemory { undone: 7 }, "OutOfMemory"),
        (BackFault::PastStart, "PastStart"),
    ];
    assert_shown(&rt, rt.alloc(), &back)?;
    let forward = [
        (ForwardFault::OutOfMemory { done: 7 }, "OutOfMemory"),
        (ForwardFault::PastEnd, "PastEnd"),
    ];
    assert_shown(&rt, rt.alloc(), &forward)?;
    let moves = [
        (GotoFault::OutOfMemory { at: 7 }, "OutOfMemory"),
        (GotoFault::PastEnd, "PastEnd"),
    ];
    assert_shown(&rt, rt.alloc(), &moves)
}

#[test]
fn what_is_left_unfinished_is_shown_by_its_cause(rt: HostRuntime) -> Result<(), Fail> {
    let rounds = [
        (SettleFault::OutOfMemory { done: 7 }, "OutOfMemory"),
        (SettleFault::JournalFull { done: 7 }, "JournalFull"),
    ];
    assert_shown(&rt, rt.alloc(), &rounds)?;
    let runs = [
        (QuietFault::OutOfMemory { done: 7 }, "OutOfMemory"),
        (QuietFault::JournalFull { done: 7 }, "JournalFull"),
        (QuietFault::Held, "Held"),
    ];
    assert_shown(&rt, rt.alloc(), &runs)
}

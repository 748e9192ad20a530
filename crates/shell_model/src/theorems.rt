//! What holds of every list of steps. Each of these functions does nothing: its contract is the theorem.
ghost use Rattle.shell_model.specs.ShellEviction.{EvictionsByReply};
ghost use Rattle.shell_model.specs.Laws.{HistoryLaws};
ghost use Rattle.shell_model.specs.ReachableShell.{RecordLaw, LaterLaws, BoundLaw, HoldLaws};
ghost use Rattle.shell_model.specs.Shell.{act};
ghost use Rattle.shell_model.specs.ShellSteps.{StepsByReply};
ghost use Rattle.engine_base.specs.Answers.{AnswersItsActs};

/// The replies so far determine the state of a shell that was opened empty: each read buffer is the offers kept less
/// those drained, the write queue is the tasks of puts and removals less those applied, each statistic is a count of
/// replies, an item is in the table exactly where a put added it and no eviction or removal named it, it is queued or
/// waits for that just once, the frequency is that of the keys applied, and the holder is the worker of the last
/// Began.
pub fn history()
    ensures { HistoryLaws }
{}

/// From any reachable state without a holder: who holds the maintenance now follows from the steps since, and table
/// nodes stay below the next number.
pub fn later_history()
    ensures { LaterLaws }
{}

/// The record of a step fits what the step left, and leads back to what was before.
pub fn records_undo()
    ensures { RecordLaw }
{}

/// Nodes and statistics stay below the number of applied steps.
pub fn bounds()
    ensures { BoundLaw }
{}

/// Each reply is one that belongs to its act.
pub fn replies_belong()
    ensures { AnswersItsActs act }
{}

/// A worker holds the maintenance from its Began to its own End.
pub fn holder_stays()
    ensures { HoldLaws }
{}

/// Each accepted step is one of the cases by its reply: when that reply is given, and what the step changes.
pub fn steps_by_reply()
    ensures { StepsByReply }
{}

/// An eviction, which is that of the policies' table of moves, in the words of the maintenance: what it makes of the
/// state, one case for each reply.
pub fn evictions_by_reply()
    ensures { EvictionsByReply }
{}

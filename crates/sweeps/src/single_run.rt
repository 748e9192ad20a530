//! One job over a trace, on this thread.
ghost use Rattle.std.specs.Prelude.{◌≡◌, IfOk, [], ◌∷◌};
ghost use Rattle.policies.specs.FaultyJobs.{faulty_in, ReturnsFault};
ghost use Rattle.policies.specs.Reports.{report_on};

use policies::{ActorFault, Report, report_over};
use std::alloc::Global;
use step_record::{Job, OpenGate, Trace};

/// The report of a job over the trace, made on this thread.
///
/// Errors: `Config` with index 0 exactly where `Config::check` refuses the job's configuration, and `OutOfMemory`.
pub fn run_one(alloc: Global, trace: &Trace, job: &Job) -> Result<Report, ActorFault>
    ensures report { IfOk result (λ r. r ≡ report_on job.now trace.now) }
    ensures fault { ReturnsFault (faulty_in (job.now ∷ [])) result }
{
    if job.config.check().is_err() {
        return Err(ActorFault::Config { index: 0 });
    }
    let report = report_over(alloc, trace, None, job, &OpenGate)?;
    Ok(report)
}

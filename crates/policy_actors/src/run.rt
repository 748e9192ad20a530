//! Each job on a thread of its own.
ghost use Rattle.std.specs.Prelude.{◌≡◌, ◌<◌, ◌≤◌, ◌++◌, ◌∷◌, [], ℕ, List, All, length, map, Ok, Err, None, Some, IfOk, IsOk, OnOk, IfSome, IsSome, MatchResult};
ghost use denote.Param.Send.{IsSync};
ghost use Rattle.engine_base.specs.Config.{config_fault};
ghost use Rattle.engine_base.specs.declared.limits.TheConstants.{MAX_STEPS};
ghost use Rattle.policies.specs.declared.job_checks.TheConstants.{MAX_ACTORS};
ghost use Rattle.policy_actors.specs.Actors.{jobs_of};
ghost use Rattle.policy_actors.specs.Faults.{actor_fault};
ghost use Rattle.policy_actors.specs.Following.{CanFollow};
ghost use Rattle.trace_read.specs.ReadTrace.{IsReadWithin};
ghost use Rattle.trace_read.specs.declared.limits.TheConstants.{MAX_LONG_ACCESSES, MAX_LONG_TRACE_BYTES};
ghost use Rattle.policies.specs.FaultyJobs.{faulty_in, ReturnsFault};
ghost use Rattle.policies.specs.Reports.{report_on};
ghost use Rattle.streams.specs.Tally.{FailsWhere};
ghost use Rattle.trace_read.specs.TraceText.{keys_in};

use crate::actor::run_actor;
use crate::feeder::Feeder;
use crate::lump::{BatchSize, FedTrace};
use crate::mail::Outboxes;
use crate::source::{AccessSource, ReaderSource, TraceSource};
use policies::{ActorFault, MAX_ACTORS, Report, check_jobs};
use std::alloc::{AllocError, Global};
use std::marker::{Brand, PhantomData};
use std::sync::Wait;
use std::sync::atomic::AtomicU64;
use std::thread;
use std::thread::{Promise, Threads};
use step_record::{Gate, Job, MAX_BATCH, Trace};
use streams::CountedRead;
use trace_read::{Format, Limits, TraceFault};

/// The reports of the jobs over the trace, in the order of the jobs. Each job is an actor on a thread of its own, fed
/// through a channel: batch j goes to every actor before batch j + 1 goes to any. A batch is `batch` accesses of the
/// trace, the last one may be shorter, and an empty trace is one empty batch. The gate is called before and after each
/// batch of an actor, with the actor's index and the batch's number; an actor of Belady's policy, which has to know the
/// whole trace, makes all its accesses in the last batch. No jobs: no reports.
///
/// Errors: `Batch`, `Actors` and `Config`, exactly where their causes stand, in this order, before any thread is
/// started; then `OutOfMemory`.
pub fn run_actors<R: Threads + Wait + Sync, G: Gate>(
    rt: &R,
    alloc: Global,
    trace: &Trace,
    jobs: &[Job],
    batch: u32,
    gate: &G,
) -> Result<Vec<Report>, ActorFault>
    ensures reports { IfOk result (λ v. v.items ≡ map (λ j. report_on j trace.now) jobs.now) }
    ensures fault { ReturnsFault (actor_fault batch jobs.now) result }
{
    check_run(batch, jobs)?;
    trace.bounded();
    let finished = AtomicU64::new(0);
    let source = TraceSource { trace };
    let size = batch as usize;
    let ((), reports) = run_actors_from::<Brand, R, G, _, _>(
        rt, alloc, source, jobs, size, gate, &finished,
    );
    let reports = reports?;
    Ok(reports)
}

/// The reports of the jobs over the trace that the reader gives, in the order of the jobs: those of `read_trace_within` and
/// then `run_actors`, but the actors take the first accesses while later ones are still read, and nobody keeps the
/// trace. The limits may be those of a long trace: no policy among the jobs has to know the whole trace then. At most
/// four million accesses wait for an actor, so the memory does not grow with the trace. The jobs and the size of a batch
/// are such as `check_run` accepts. The gate is called as there.
///
/// Errors: those of `read_trace`, and `OutOfMemory` also where the actors are out of memory. An actor that is fed no
/// last batch has no report.
pub fn run_reading_within<T: Threads + Wait + Sync, R: CountedRead, G: Gate>(
    rt: &T,
    alloc: Global,
    reader: &mut R,
    format: Format,
    limits: Limits,
    jobs: &[Job],
    batch: u32,
    gate: &G,
) -> Result<Vec<Report>, TraceFault>
    requires due { actor_fault batch jobs.now ≡ None }
    requires accesses { limits.accesses ≤ MAX_LONG_ACCESSES }
    requires bytes { limits.bytes ≤ MAX_LONG_TRACE_BYTES }
    requires follow { All (CanFollow limits.accesses) jobs.now }
    ensures reports { IfOk result (λ v. IfSome (R.remaining reader.old)
        (λ bytes. v.items ≡ map (λ j. report_on j (keys_in format bytes)) jobs.now)) }
    ensures read { IsReadWithin limits format (R.remaining reader.old) (R.remaining reader.new) result }
    // `Read` comes just where a read failed, or the millionth was interrupted.
    ensures tally { FailsWhere (result ≡ Err TraceFault.Read) (R.tally reader.old) (R.tally reader.new) }
{
    let finished = AtomicU64::new(0);
    let source = ReaderSource {
        reader,
        format,
        limits,
    };
    let size = batch as usize;
    let ((reader, read), reports) = run_actors_from::<Brand, T, G, _, _>(
        rt, alloc, source, jobs, size, gate, &finished,
    );
    let _ = reader;
    match read {
        Ok(()) => match reports {
            Ok(reports) => Ok(reports),
            Err(_) => Err(TraceFault::OutOfMemory),
        },
        Err(fault) => Err(fault),
    }
}

/// Whether jobs can be run with so many accesses to a batch. The errors are those of `run_actors`, but for
/// `OutOfMemory`, which does not come.
pub fn check_run(batch: u32, jobs: &[Job]) -> Result<(), ActorFault>
    ensures { MatchResult result (λ _. actor_fault batch jobs.now ≡ None) (λ f. actor_fault batch jobs.now ≡ Some f) }
{
    if batch == 0 || batch > MAX_BATCH {
        return Err(ActorFault::Batch);
    }
    if jobs.len() > MAX_ACTORS {
        return Err(ActorFault::Actors);
    }
    check_jobs(jobs)
}

// What an actor's thread promises: with a report, it is that of the whole trace.
#[derive(Drop)]
pub struct Promised<S: FedTrace> {
    pub job: Job,
    marker: PhantomData<S>,
}

impl<S: FedTrace> Promise<Option<Report>> for Promised<S> {
    ghost use Rattle.std.specs.Prelude.{◌≡◌, ℕ, List, Some, IfSome};
    ghost use Rattle.policies.specs.Reports.{report_on};

    ghost kept_by = { λ p r. (all : List ℕ) → S.known ≡ Some all → IfSome r (λ x. x ≡ report_on p.job all) };
}

type Handle<S> = thread::PromisedHandle<Option<Report>, Promised<S>>;

// Starts an actor for each job, has them fed from the source in batches of `size` accesses, and joins them: the
// source's result, and the reports.
fn run_actors_from<
    S: FedTrace + Send + Sync + 'static,
    R: Threads + Wait + Sync,
    G: Gate,
    A: AccessSource<Outcome = O>,
    O: Drop,
>(
    rt: &R,
    alloc: Global,
    source: A,
    jobs: &[Job],
    size: usize,
    gate: &G,
    finished: &AtomicU64,
) -> (O, Result<Vec<Report>, AllocError>)
    requires source { A.gives source S.known S.most }
    requires size { (size ≡ S.size) × (0 < size) }
    requires most { S.most ≤ MAX_STEPS }
    requires follow { All (CanFollow S.most) jobs.now }
    requires few { length jobs.now ≤ MAX_ACTORS }
    requires checked { faulty_in jobs.now ≡ None }
    ensures source { A.becomes source result.0 }
    ensures reports { (all : List ℕ) → S.known ≡ Some all
        → IfOk result.1 (λ v. v.items ≡ map (λ j. report_on j all) jobs.now) }
{
    thread::scope(
        thread::scope_env(),
        rt,
        move |scope| -> (O, Result<Vec<Report>, AllocError>)
            requires { IsSync R.row × IsSync G.row × (length jobs.now ≤ MAX_ACTORS) × (faulty_in jobs.now ≡ None)
                × (size ≡ S.size) × (0 < size) × A.gives source S.known S.most × (S.most ≤ MAX_STEPS)
                × All (CanFollow S.most) jobs.now }
            ensures { A.becomes source result.0
                × ((all : List ℕ) → S.known ≡ Some all
                → IfOk result.1 (λ v. v.items ≡ map (λ j. report_on j all) jobs.entry.now)) }
        {
            let size = BatchSize::<S>::new(size);
            let batches = size.waiting(source.max_accesses());
            let mut handles = Vec::new(alloc);
            let mut ends = Outboxes::new(alloc);
            for i in 0..jobs.len() {
                let job = jobs[i];
                let who = i as u8;
                let Ok(inbox) = ends.add(alloc, batches) else {
                    return (source.cancel(), Err(AllocError));
                };
                let promised: Promised<S> = Promised {
                    job,
                    marker: PhantomData,
                };
                let started = scope.spawn_with(
                    promised,
                    move || -> Option<Report>
                        requires { (inbox.taken ≡ 0) × (config_fault job.config ≡ Ok tt) × (S.most ≤ MAX_STEPS)
                            × CanFollow S.most job }
                        ensures { (all : List ℕ) → S.known ≡ Some all → IfSome result (λ x. x ≡ report_on job all) }
                    { run_actor::<S, R, G>(rt, alloc, inbox, job, who, gate, finished) },
                );
                let Ok(()) = push_handle(&mut handles, started) else {
                    return (source.cancel(), Err(AllocError));
                };
            }
            let outcome = source.feed(Feeder::new(rt, alloc, ends, size, finished));
            (outcome, join_all(rt, alloc, handles))
        },
    )
}

// Appends the handle of an actor, if its thread was started.
fn push_handle<S: FedTrace, E: Drop>(
    handles: &mut Vec<Handle<S>>,
    started: Result<Handle<S>, E>,
) -> Result<(), AllocError>
    ensures started { OnOk result (IsOk started) }
    ensures pushed { OnOk result (IfOk started (λ h. handles.new.items ≡ handles.old.items ++ h ∷ [])) }
{
    let Ok(handle) = started else {
        return Err(AllocError);
    };
    handles.push(handle)?;
    Ok(())
}

// The reports of all actors, in order, where each has one.
fn join_all<S: FedTrace, R: Threads>(
    rt: &R,
    alloc: Global,
    handles: Vec<Handle<S>>,
) -> Result<Vec<Report>, AllocError>
    ensures { (all : List ℕ) → S.known ≡ Some all
        → IfOk result (λ v. v.items ≡ map (λ j. report_on j all) (jobs_of handles.items)) }
{
    let mut reports = Vec::new(alloc);
    for handle in handles {
        push_report(&mut reports, handle.join(rt))?;
    }
    Ok(reports)
}

// Appends the report of an actor, if it has one.
fn push_report(reports: &mut Vec<Report>, one: Option<Report>) -> Result<(), AllocError>
    ensures none { OnOk result (IsSome one) }
    ensures pushed { OnOk result (IfSome one (λ r. reports.new.items ≡ reports.old.items ++ r ∷ [])) }
{
    reports.push(one.ok_or(AllocError)?)?;
    Ok(())
}

//! Workers on threads, over one session of the concurrent cache: what each worker has and does, and how all of them
//! work side by side.
ghost use Rattle.std.specs.Prelude.{◌≡◌, ◌<◌, ◌≤◌, ◌∷◌, ◌++◌, true, Some, None, Err, [], All};
ghost use Rattle.std.specs.Prelude.{IfOk, IfErr, OnOk, OnErr, IfSome, IfNone, IsSome, length, map, vec_capacity};
ghost use Rattle.engine_base.specs.declared.limits.TheConstants.{MAX_STRIPES};
ghost use Rattle.engine_base.specs.declared.worker.TheConstants.{MAX_WORKERS};
ghost use Rattle.engine_base.specs.Answers.{AnswersItsActs, is_answer};
ghost use Rattle.engine_base.specs.History.{IsLegal, data_after};
ghost use Rattle.shell_model.specs.Shell.{act};
ghost use Rattle.turn_book.specs.Turns.{Every};
ghost use Rattle.turn_book.specs.Passes.{id_of};
ghost use Rattle.shell_model.specs.Walks.{IsWalk, AreWalks};
ghost use Rattle.shell_model.specs.AdmittedSteps.{AdmitsNext};
ghost use Rattle.shell_model.specs.WorkerEntries.{Made, IsUnfinished};
ghost use Rattle.workers.specs.DriveFaults.{CanRun, LeavesFault};
ghost use Rattle.workers.specs.Draws.{IsWithin};
ghost use Rattle.workers.specs.Runs.{IsRun, IsRunUpTo, first_cause};
ghost use Rattle.workers.specs.Walkers.{CanWalk, WasRefused};
ghost use Rattle.workers.specs.WorkerStates.{HoldsPass, HasWorked, AreNumbered, AdmitsAll, calls_of};

use super::driven::Driven;
use engine_base::{Call, Engine, Gate, MAX_WORKERS, Reply, Step, Worker};
use journal::{Session, SessionFault};
use maintenance::Shell;
use shell_model::{Local, Next, next_step};
use std::alloc::{AllocError, Global};
use std::sync::Wait;
use std::thread;
use std::thread::Threads;
use turn_book::{MAX_TURNS, OpenFault, Pass, TurnBook};

/// Why a worker was refused a step.
#[derive(Clone, Copy, PartialEq, Eq)]
pub enum Cause {
    /// Out of memory.
    Memory,
    /// The journal is full.
    JournalFull,
}

/// Why a run did not make all walks. Each fault holds the session.
#[derive(Drop)]
pub enum DriveFault {
    /// There are no pieces, or more than [`MAX_WORKERS`]. The session is as it was.
    Workers {
        session: Session<Shell>,
    },
    /// This worker holds the maintenance, which is to be settled first. The session is as it was.
    Held {
        worker: Worker,
        session: Session<Shell>,
    },
    /// An allocation failed before any step. The session is as it was.
    OutOfMemory {
        session: Session<Shell>,
    },
    /// A worker was refused a step, and ended there, while the others went on: those that were not refused made all
    /// their walks. The entries are those of a run, those of refused workers without their ends; the cause is that of
    /// the refused worker with the lowest number.
    Stopped {
        driven: Driven,
        cause: Cause,
    },
}

/// Workers, each on a thread of its own where one can be made, make the walks of their calls: worker `w` those of piece
/// `w`, in order. Each step is made in a turn of its own, so the session has one list of steps, and once a step was
/// made nothing is left to redo; the gate is called around each call of a worker, without a turn.
///
/// The faults are looked for in the order in which [`DriveFault`] has them.
pub fn drive<G: Gate, R: Threads + Wait + Sync>(
    rt: &R,
    alloc: Global,
    session: Session<Shell>,
    pieces: Vec<Vec<Call>>,
    gate: &G,
) -> Result<Driven, DriveFault>
    // Past the old entries, those of each worker are one walk for each of its calls, in order. What was left to redo is
    // left where no step was made, and else nothing is.
    ensures run { IfOk result (λ d. IsRun (λ w. AreWalks w session.engine.config.stripes)
        (map (λ p. p.items) pieces.items) session d.session) }
    ensures earlier { IfOk result (λ d. d.earlier ≡ length session.kept) }
    ensures legal { IfOk result (λ d. IsLegal act d.session.opening d.session.kept) }
    // Nobody holds the maintenance.
    ensures free { IfOk result (λ d. d.session.engine.holder ≡ None) }
    ensures accepted { OnOk result (CanRun (map (λ p. p.items) pieces.items) session.engine) }
    ensures fault { IfErr result (λ f. LeavesFault f (map (λ p. p.items) pieces.items) session) }
{
    let workers = pieces.len();
    if workers == 0 || workers > usize::from(MAX_WORKERS) {
        return Err(DriveFault::Workers { session });
    }
    if let Some((worker, _, _)) = session.engine().holder() {
        return Err(DriveFault::Held { worker, session });
    }
    let earlier = session.len();
    match run_workers(rt, alloc, session, pieces.as_slice(), gate) {
        Err(session) => Err(DriveFault::OutOfMemory { session }),
        Ok((session, cause)) => {
            let driven = Driven { session, earlier };
            match cause {
                None => Ok(driven),
                Some(cause) => Err(DriveFault::Stopped { driven, cause }),
            }
        }
    }
}

// The session with what the workers made of it, and why one of them was refused a step. Where an allocation failed, the
// session as it was.
fn run_workers<G: Gate, R: Threads + Wait + Sync>(
    rt: &R,
    alloc: Global,
    session: Session<Shell>,
    pieces: &[Vec<Call>],
    gate: &G,
) -> Result<(Session<Shell>, Option<Cause>), Session<Shell>>
    requires { CanRun (map (λ p. p.items) pieces.now) session.engine }
    ensures run { IfOk result (λ r. IsRunUpTo r.1 session.engine.config.stripes
        (map (λ p. p.items) pieces.now) session r.0) }
    ensures legal { IfOk result (λ r. IsLegal act r.0.opening r.0.kept) }
    ensures free { IfOk result (λ r. IfNone r.1 (r.0.engine.holder ≡ None)) }
    ensures err { IfErr result (λ s. s ≡ session) }
{
    let stripes = session.engine().stripes();
    let workers = pieces.len();
    let Ok((states, room)) = reserve_states(alloc, workers) else {
        return Err(session);
    };
    match TurnBook::open(alloc, session, workers as u8, MAX_TURNS) {
        Ok((book, passes)) => {
            let states = assign_passes(passes, states);
            let states = work_all(rt, gate, &book, pieces, stripes, states);
            let (passes, cause) = collect_passes(states, room);
            let session = book.close(passes);
            session.sound();
            Ok((session, cause))
        }
        Err(OpenFault::OutOfMemory(session)) => Err(session),
        Err(OpenFault::Workers(_)) => unreachable!(),
        Err(OpenFault::Turns(_)) => unreachable!(),
    }
}

// Room for the states of the workers, and for their passes.
fn reserve_states(
    alloc: Global,
    workers: usize,
) -> Result<(Vec<WorkerState>, Vec<Pass<Session<Shell>>>), AllocError>
    ensures states { IfOk result (λ r. (r.0.items ≡ []) × (workers ≤ vec_capacity r.0)) }
    ensures passes { IfOk result (λ r. (r.1.items ≡ []) × (workers ≤ vec_capacity r.1)) }
{
    let states = Vec::with_capacity(alloc, workers)?;
    let passes = Vec::with_capacity(alloc, workers)?;
    Ok((states, passes))
}

// A worker's pass (taken out while it works), and why it stopped early, if it did.
#[derive(Drop)]
struct WorkerState {
    pass: Option<Pass<Session<Shell>>>,
    worker: Worker,
    refusal: Option<Cause>,
}

// The state of each worker, with its pass, without allocating.
fn assign_passes(
    passes: Vec<Pass<Session<Shell>>>,
    mut states: Vec<WorkerState>,
) -> Vec<WorkerState>
    requires few { length passes.items ≤ MAX_WORKERS }
    requires room { (states.items ≡ []) × (length passes.items ≤ vec_capacity states) }
    ensures passes { map (λ d. d.pass) result.items ≡ map (λ p. Some p) passes.items }
    ensures counts { AreNumbered 0 result.items × (length result.items ≡ length passes.items) }
{
    for pass in passes {
        let worker = Worker::new(states.len() as u8).unwrap();
        states.push_reserved(WorkerState {
            pass: Some(pass),
            worker,
            refusal: None,
        });
    }
    states
}

// All workers make the walks of their calls, each on a thread of its own where one can be made.
fn work_all<G: Gate, R: Threads + Wait + Sync>(
    rt: &R,
    gate: &G,
    book: &TurnBook<Session<Shell>>,
    pieces: &[Vec<Call>],
    stripes: u8,
    mut states: Vec<WorkerState>,
) -> Vec<WorkerState>
    requires stripes { (1 ≤ stripes) × (stripes ≤ MAX_STRIPES) }
    requires admits { AdmitsAll stripes book.now.opening }
    requires turns { book.now.opening.limit ≤ book.now.turns }
    requires holds { Every (λ d. HoldsPass (id_of book.now) d
        × IfSome d.pass (λ p. (p.own ≡ []) × IsWithin book.now.opening.limit p)) states.items }
    requires counts { AreNumbered 0 states.items × (length states.items ≡ length pieces.now) }
    ensures holds { Every (λ d. HoldsPass (id_of book.now) d
        × HasWorked stripes book.now.opening (calls_of pieces.now) d) result.items }
    ensures counts { AreNumbered 0 result.items × (length result.items ≡ length pieces.now) }
{
    if states.is_empty() {
        return states;
    }
    let threads = states.len();
    let each = |_i: usize, state: &mut WorkerState|
        requires { (1 ≤ stripes) × (stripes ≤ MAX_STRIPES) × AdmitsAll stripes book.now.opening
            × (book.now.opening.limit ≤ book.now.turns) × HoldsPass (id_of book.now) state.now
            × IfSome state.now.pass (λ p. (p.own ≡ []) × IsWithin book.now.opening.limit p)
            × (state.now.worker < length pieces.now) }
        ensures { HoldsPass (id_of book.entry.now) state.exit.now
            × HasWorked stripes book.entry.now.opening (calls_of pieces.entry.now) state.exit.now
            × (state.exit.now.worker ≡ state.entry.now.worker) }
    {
        let pass = state.pass.take().unwrap();
        let worker = state.worker;
        let calls = pieces[usize::from(worker.number())].as_slice();
        let (pass, answer) = work_in_turns(rt, gate, book, pass, worker, stripes, calls);
        state.pass = Some(pass);
        state.refusal = answer.err();
    };
    thread::for_each_mut(rt, states.as_mut_slice(), threads, &each);
    states
}

// Makes one walk for each call, in order, a turn for each step. The gate is called around each call, without a turn.
fn work_in_turns<E: Engine<Step = Step, Reply = Reply> + Drop, G: Gate, R: Wait>(
    rt: &R,
    gate: &G,
    book: &TurnBook<Session<E>>,
    mut pass: Pass<Session<E>>,
    worker: Worker,
    stripes: u8,
    calls: &[Call],
) -> (Pass<Session<E>>, Result<(), Cause>)
    requires answers { AnswersItsActs E.act }
    requires walker { CanWalk E.act E.count book.now pass worker stripes }
    ensures same { result.0.book ≡ pass.book }
    ensures worker { result.0.worker ≡ worker }
    ensures ok { OnOk result.1 (Made (AreWalks worker stripes calls.now) pass.own result.0.own) }
    ensures err { OnErr result.1 (Made (IsUnfinished (AreWalks worker stripes calls.now)) pass.own result.0.own) }
    ensures refused { IfErr result.1 (λ c. WasRefused c book.now.opening.kept book.now.opening.limit result.0) }
    ensures within { OnOk result.1 (IsWithin book.now.opening.limit result.0) }
{
    for (n, call) in calls.iter().enumerate() {
        gate.before(worker.number(), n as u64);
        let (given, answer) = walk_in_turns(rt, book, pass, worker, stripes, *call);
        pass = given;
        if let Err(cause) = answer {
            return (pass, Err(cause));
        }
        gate.after(worker.number(), n as u64);
    }
    (pass, Ok(()))
}

// Makes the walk of one call, a turn for each step.
fn walk_in_turns<E: Engine<Step = Step, Reply = Reply> + Drop, R: Wait>(
    rt: &R,
    book: &TurnBook<Session<E>>,
    mut pass: Pass<Session<E>>,
    worker: Worker,
    stripes: u8,
    call: Call,
) -> (Pass<Session<E>>, Result<(), Cause>)
    requires answers { AnswersItsActs E.act }
    requires walker { CanWalk E.act E.count book.now pass worker stripes }
    ensures same { (result.0.book ≡ pass.book) × (result.0.worker ≡ worker) }
    ensures ok { OnOk result.1 (Made (IsWalk worker stripes call) pass.own result.0.own
        × IsWithin book.now.opening.limit result.0) }
    ensures err { IfErr result.1 (λ c. Made (IsUnfinished (IsWalk worker stripes call)) pass.own result.0.own
        × WasRefused c book.now.opening.kept book.now.opening.limit result.0) }
{
    let mut next = next_step(Local::start(worker, stripes, call), None);
    for _ in rt.forever() {
        let Next::Do(act, local) = next else {
            return (pass, Ok(()));
        };
        let (given, answer) = step_in_turn(rt, book, pass, Step { worker, act });
        pass = given;
        match answer {
            Ok(reply) => next = next_step(local, Some(reply)),
            Err(cause) => return (pass, Err(cause)),
        }
    }
    unreachable!()
}

// Makes one step in a turn. It is refused where the session refuses it, for memory only where the journal is not
// full. A pass that has drawn all of its turns made an entry in each of them, and these fill the journal.
fn step_in_turn<E: Engine<Step = Step, Reply = Reply> + Drop, R: Wait>(
    rt: &R,
    book: &TurnBook<Session<E>>,
    pass: Pass<Session<E>>,
    step: Step,
) -> (Pass<Session<E>>, Result<Reply, Cause>)
    requires own { pass.book ≡ id_of book.now }
    requires worker { pass.worker ≡ step.worker }
    requires answers { AnswersItsActs E.act }
    requires takes { AdmitsNext E.act E.count
        (data_after E.act book.now.opening.opening book.now.opening.kept) pass.own step }
    requires within { IsWithin book.now.opening.limit pass }
    requires turns { book.now.opening.limit ≤ book.now.turns }
    ensures same { (result.0.book ≡ pass.book) × (result.0.worker ≡ pass.worker) }
    ensures ok { IfOk result.1 (λ r. (result.0.own ≡ pass.own ++ record { step = step; reply = r } ∷ [])
        × (is_answer step.act r ≡ true) × IsWithin book.now.opening.limit result.0) }
    ensures err { IfErr result.1 (λ c. (result.0.own ≡ pass.own)
        × WasRefused c book.now.opening.kept book.now.opening.limit result.0) }
{
    match book.take(rt, pass) {
        Ok(mut turn) => match turn.value().step(step) {
            Ok(reply) => (book.give(turn), Ok(reply)),
            Err(SessionFault::OutOfMemory) => (book.give(turn), Err(Cause::Memory)),
            Err(SessionFault::JournalFull) => (book.give(turn), Err(Cause::JournalFull)),
            Err(SessionFault::NotNow) => unreachable!(),
        },
        Err(pass) => (pass, Err(Cause::JournalFull)),
    }
}

// The passes of all workers, without allocating, and why the refused worker with the lowest number was refused a
// step.
fn collect_passes(
    states: Vec<WorkerState>,
    mut passes: Vec<Pass<Session<Shell>>>,
) -> (Vec<Pass<Session<Shell>>>, Option<Cause>)
    requires holds { Every (λ d. IsSome d.pass) states.items }
    requires room { (passes.items ≡ []) × (length states.items ≤ vec_capacity passes) }
    ensures passes { map (λ p. Some p) result.0.items ≡ map (λ d. d.pass) states.items }
    ensures cause { result.1 ≡ first_cause (map (λ d. d.refusal) states.items) }
{
    let mut cause = None;
    for state in states {
        let WorkerState {
            pass,
            worker: _,
            refusal,
        } = state;
        passes.push_reserved(pass.unwrap());
        cause = cause.or(refusal);
    }
    (passes, cause)
}

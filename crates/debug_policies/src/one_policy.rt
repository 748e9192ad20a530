//! One policy over a trace, in a session that goes back and forth.
ghost use Rattle.std.specs.Prelude.{◌≡◌, ◌≢◌, ◌≤◌, ◌<◌, ◌+◌, ◌-◌, ◌++◌, Ok, Some, None, IfOk, OnOk, OnErr, [], codes};
ghost use Rattle.std.specs.Prelude.{◌∷◌, length};
ghost use Rattle.std.specs.List.{flat_map};
ghost use Rattle.engine_base.specs.Config.{config_fault};
ghost use Rattle.step_record.specs.Job.{name_of};
ghost use Rattle.policies.specs.AnyStep.{any_act};
ghost use Rattle.debug_policies.specs.OnePolicy.{age_at, counts_line, holds_line, outcome_at, policy_lines};
ghost use Rattle.debug_policies.specs.Inside.{estimate_at, estimate_line, outcome_line, queue_line, queue_lines};
ghost use Rattle.debug_policies.specs.Window.{window_at, window_line};

use crate::inside::{push_estimate, push_outcome, push_queue};
use crate::window::{Window, push_window, window_in};
use journal::{BackFault, Session, SessionFault};
use policies::{AnyPolicy, theorems};
use segments::NamedQueue;
use std::alloc::{AllocError, Global};
use std::marker::Model;
use step_record::{Job, Key, MAX_JOURNAL_LIMIT, Outcome, Stats, Trace, push_name};
use streams::{push_counts_line, push_numbers_line, push_pieces};

/// A policy over a trace, and how many of the accesses are made.
pub struct OnePolicy<'a> {
    job: Job,
    trace: &'a Trace,
    session: Session<AnyPolicy>,
}

impl Drop for OnePolicy<'_> {
    fn drop(self) {
        let OnePolicy {
            job: _,
            trace: _,
            session: _,
        } = self;
    }
}

impl<'a> Model for OnePolicy<'a> {
    ghost use Rattle.std.specs.Prelude.{length};
    ghost use Rattle.debug_policies.specs.OnePolicy.{IsPolicyAt, OnePolicyState};

    ghost Value = { OnePolicyState };

    ghost view = { λ w. record { job = w.job; trace = w.trace.now; at = length w.session.kept } };

    ghost invariant = { λ w. IsPolicyAt w.job w.trace.now w.session };
}

impl<'a> OnePolicy<'a> {
    /// Before the first access. It requires a configuration that `Config::check` accepts. The one error is that an
    /// allocation failed.
    pub fn open(alloc: Global, job: &Job, trace: &'a Trace) -> Result<OnePolicy<'a>, AllocError>
        requires { config_fault job.now.config ≡ Ok tt }
        ensures { IfOk result (λ w. w ≡ record { job = job.now; trace = trace.now; at = 0 }) }
    {
        let cache = AnyPolicy::open(alloc, job, trace)?;
        trace.bounded();
        Ok(OnePolicy {
            job: *job,
            trace,
            session: Session::open(alloc, cache, MAX_JOURNAL_LIMIT as usize),
        })
    }

    /// What it runs.
    pub fn job(&self) -> &Job
        ensures { result.now ≡ self.now.job }
    {
        &self.job
    }

    /// What it goes over.
    pub fn trace(&self) -> &'a Trace
        ensures { result.now ≡ self.now.trace }
    {
        self.trace
    }

    /// How many accesses are made.
    pub fn position(&self) -> usize
        ensures at { result ≡ self.now.at }
        ensures within { result ≤ length self.now.trace }
    {
        self.session.len()
    }

    /// Makes the next access. The one error is that an allocation failed.
    pub fn next(&mut self) -> Result<Outcome, AllocError>
        requires { self.old.at < length self.old.trace }
        ensures job { self.new.job ≡ self.old.job }
        ensures trace { self.new.trace ≡ self.old.trace }
        ensures at { OnOk result (self.new.at ≡ self.old.at + 1) }
        ensures outcome { IfOk result (λ o. o ≡ outcome_at self.old.job self.old.trace (self.old.at + 1)) }
    {
        theorems::any_step_law();
        theorems::any_accepts();
        theorems::any_answers();
        let key = self.trace.keys()[self.session.len()];
        make(&mut self.session, key)
    }

    /// Undoes the last `n` of the accesses that are made. The one error is that an allocation failed.
    pub fn back(&mut self, n: usize) -> Result<(), AllocError>
        requires { n ≤ self.old.at }
        ensures job { self.new.job ≡ self.old.job }
        ensures trace { self.new.trace ≡ self.old.trace }
        ensures at { OnOk result (self.new.at ≡ self.old.at - n) }
    {
        theorems::any_step_law();
        match self.session.back(n) {
            Ok(()) => Ok(()),
            Err(BackFault::OutOfMemory { .. }) => Err(AllocError),
            Err(BackFault::PastStart) => unreachable!(),
        }
    }

    /// Makes the next `n` accesses. The one error is that an allocation failed.
    pub fn forward(&mut self, n: usize) -> Result<(), AllocError>
        requires { self.old.at + n ≤ length self.old.trace }
        ensures job { self.new.job ≡ self.old.job }
        ensures trace { self.new.trace ≡ self.old.trace }
        ensures at { OnOk result (self.new.at ≡ self.old.at + n) }
    {
        for _access in 0..n {
            self.next()?;
        }
        Ok(())
    }

    /// The age of its sketch, 0 where it has none.
    pub fn age(&self) -> u32
        ensures { result ≡ age_at self.now.job self.now.trace self.now.at }
    {
        match self.session.engine().frequency() {
            Some(frequency) => frequency.age(),
            None => 0,
        }
    }

    /// Its window.
    pub fn window(&self) -> Window
        ensures { result ≡ window_at self.now.job self.now.trace self.now.at }
    {
        window_in(self.session.engine(), &self.job)
    }

    /// What its admission filter takes as a key's frequency, where it has one.
    pub fn estimate(&self, key: Key) -> Option<u8>
        ensures { result ≡ estimate_at self.now.job self.now.trace self.now.at key }
    {
        self.session.engine().estimate(key)
    }

    /// The outcome of the last access that is made.
    pub fn last_outcome(&self) -> Outcome
        requires { 1 ≤ self.now.at }
        ensures { result ≡ outcome_at self.now.job self.now.trace self.now.at }
    {
        theorems::any_step_law();
        theorems::any_answers();
        match self.session.entry(self.session.len()) {
            Some(entry) => entry.reply,
            None => unreachable!(),
        }
    }

    /// Adds a line for each of its queues. The one error is that an allocation failed.
    pub fn show_queues(
        &self,
        alloc: Global,
        label: &'static str,
        text: &mut Vec<u8>,
    ) -> Result<(), AllocError>
        ensures { OnOk result (text.new.items
            ≡ text.old.items ++ queue_lines label.now self.now.job self.now.trace self.now.at) }
    {
        let queues = self.session.engine().named_queues(alloc)?;
        push_queues(text, label, &self.job, queues.as_slice())
    }

    /// Adds the line of the outcome of the last access that is made. The one error is that an allocation failed.
    pub fn show_outcome(&self, label: &'static str, text: &mut Vec<u8>) -> Result<(), AllocError>
        requires { 1 ≤ self.now.at }
        ensures { OnOk result (text.new.items
            ≡ text.old.items ++ outcome_line label.now self.now.job self.now.trace self.now.at) }
    {
        push_policy(text, label, &self.job)?;
        push_outcome(text, self.last_outcome())
    }

    /// Adds the line of its estimate of a key. The one error is that an allocation failed.
    pub fn show_estimate(
        &self,
        label: &'static str,
        key: Key,
        text: &mut Vec<u8>,
    ) -> Result<(), AllocError>
        ensures { OnOk result (text.new.items
            ≡ text.old.items ++ estimate_line label.now self.now.job self.now.trace self.now.at key) }
    {
        push_policy(text, label, &self.job)?;
        push_estimate(text, self.estimate(key))
    }

    /// Adds the line of its window. The one error is that an allocation failed.
    pub fn show_window(&self, label: &'static str, text: &mut Vec<u8>) -> Result<(), AllocError>
        ensures { OnOk result (text.new.items
            ≡ text.old.items ++ window_line label.now self.now.job self.now.trace self.now.at) }
    {
        push_policy(text, label, self.job())?;
        push_window(text, self.window())
    }

    /// Adds the lines that show it. The one error is that an allocation failed.
    pub fn show(
        &self,
        alloc: Global,
        label: &'static str,
        text: &mut Vec<u8>,
    ) -> Result<(), AllocError>
        ensures { OnOk result (text.new.items
            ≡ text.old.items ++ policy_lines label.now self.now.job self.now.trace self.now.at) }
    {
        let cache = self.session.engine();
        push_counts(text, label, &self.job, &cache.stats())?;
        let keys = cache.residents(alloc)?;
        push_holds(text, label, keys.as_slice())
    }
}

// Makes a step that the cache accepts, where there is room for it.
fn make(session: &mut Session<AnyPolicy>, key: Key) -> Result<Outcome, AllocError>
    requires accepted { any_act session.old.engine key ≢ None }
    requires room { length session.old.kept < session.old.limit }
    ensures made { IfOk result (λ o. any_act session.old.engine key ≡ Some (o, session.new.engine)) }
    ensures kept { IfOk result (λ o. session.new.kept ≡ session.old.kept ++ record { step = key; reply = o } ∷ []) }
    ensures opening { session.new.opening ≡ session.old.opening }
    ensures limit { session.new.limit ≡ session.old.limit }
    ensures err { OnErr result ((session.new.kept ≡ session.old.kept) × (session.new.engine ≡ session.old.engine)) }
{
    match session.step(key) {
        Ok(outcome) => Ok(outcome),
        Err(SessionFault::OutOfMemory) => Err(AllocError),
        Err(SessionFault::NotNow) => unreachable!(),
        Err(SessionFault::JournalFull) => unreachable!(),
    }
}

// Adds the label and what the policy is called, with which a line begins.
fn push_policy(text: &mut Vec<u8>, label: &'static str, job: &Job) -> Result<(), AllocError>
    ensures { OnOk result (text.new.items
        ≡ text.old.items ++ (label.now ++ (codes " " ++ name_of job.now.policy job.now.sizes))) }
{
    push_pieces(text, &[label.as_bytes(), b" "])?;
    push_name(text, job.policy, &job.sizes)
}

// Adds the lines of queues.
fn push_queues(
    text: &mut Vec<u8>,
    label: &'static str,
    job: &Job,
    queues: &[NamedQueue],
) -> Result<(), AllocError>
    ensures { OnOk result (text.new.items
        ≡ text.old.items ++ flat_map (queue_line label.now job.now) queues.now) }
{
    for queue in queues {
        push_queue_line(text, label, job, queue)?;
    }
    Ok(())
}

// Adds the line of a queue.
fn push_queue_line(
    text: &mut Vec<u8>,
    label: &'static str,
    job: &Job,
    queue: &NamedQueue,
) -> Result<(), AllocError>
    ensures { OnOk result (text.new.items ≡ text.old.items ++ queue_line label.now job.now queue.now) }
{
    push_policy(text, label, job)?;
    push_queue(text, queue)
}

// Adds the line of the counts.
fn push_counts(
    text: &mut Vec<u8>,
    label: &'static str,
    job: &Job,
    stats: &Stats,
) -> Result<(), AllocError>
    ensures { OnOk result (text.new.items ≡ text.old.items ++ counts_line label.now job.now stats.now) }
{
    push_policy(text, label, job)?;
    push_counts_line(
        text,
        &[
            (b" hits ", stats.hits),
            (b" misses ", stats.misses),
            (b" evictions ", stats.evictions),
            (b" rejections ", stats.rejections),
        ],
    )
}

// Adds the line of the residents.
fn push_holds(text: &mut Vec<u8>, label: &'static str, keys: &[Key]) -> Result<(), AllocError>
    ensures { OnOk result (text.new.items ≡ text.old.items ++ holds_line label.now keys.now) }
{
    push_pieces(text, &[label.as_bytes(), b" holds"])?;
    push_numbers_line(text, b" ", keys)
}

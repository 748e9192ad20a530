//! The debugger of two policies over one trace, and the two as it walks them.
ghost use Rattle.std.specs.Prelude.{◌≡◌, Ok, Err, IfOk, IfErr, IfSome, OnOk, OnErr, [], ◌∷◌, ℕ, true, false};
ghost use Rattle.debug_commands.specs.Dialogue.{dialogue_of, WritesDialogue};
ghost use Rattle.policies.specs.FaultyJobs.{faulty_in};
ghost use Rattle.engine_base.specs.Config.{config_fault};
ghost use Rattle.debug_policies.specs.ConfigFault.{ReturnsConfig, UntouchedAtConfig};
ghost use Rattle.debug_policies.specs.TwoPolicies.{access_facts, just_one, left_on_access, policies_timeline};
ghost use Rattle.debug_policies.specs.TwoPolicies.{IsPartWalk};
ghost use Rattle.streams.specs.Part.{AppendsPart};
ghost use Rattle.streams.specs.Tally.{FailsWhere};

use crate::one_policy::OnePolicy;
use crate::views::{push_estimates, push_last, push_queues, push_windows};
use debug_commands::{DebugFault, Dialect, StepFacts, Timeline, View, answer_commands};
use policies::theorems;
use policy_comparison::{hits, part, push_part};
use std::alloc::{AllocError, Global};
use std::thread::Threads;
use step_record::{Job, Key, Outcome, Trace};
use streams::{CountedRead, CountedWrite};

/// Reads commands line by line and answers each at once, about two policies over a trace: where they part, and what
/// they hold after any number of accesses. It ends at `quit` or the end of the input.
///
/// Errors: `Config` with the index of the first job whose configuration `Config::check` refuses, before anything is
/// read; `TooLarge` where a line goes past 2^20 bytes of input, with the lines before it answered; `OutOfMemory`,
/// `Read` and `Write` where an allocation, the input or the output failed: the answers that were written are then a
/// beginning of those to all lines.
pub fn run_debug<T: Threads + Sync, R: CountedRead, W: CountedWrite>(
    rt: &T,
    alloc: Global,
    trace: &Trace,
    first: &Job,
    second: &Job,
    commands: &mut R,
    out: &mut W,
) -> Result<(), DebugFault>
    // With its end it has written what the definition gives for the bytes of the commands.
    ensures done { OnOk result (IfSome (R.remaining commands.old) (λ bytes. (position : ℕ) ×
        WritesDialogue (dialogue_of (policies_timeline trace.now first.now second.now) 0 bytes) true
        (W.contents out.old) (W.contents out.new) position)) }
    // So it has where a line was too large, for the lines before that.
    ensures large { result ≡ Err DebugFault.TooLarge → IfSome (R.remaining commands.old) (λ bytes. (position : ℕ) ×
        WritesDialogue (dialogue_of (policies_timeline trace.now first.now second.now) 0 bytes) false
        (W.contents out.old) (W.contents out.new) position) }
    // Whatever failed, it has written a beginning of that text.
    ensures part { OnErr result (IfSome (R.remaining commands.old) (λ bytes.
        AppendsPart (W.contents out.old) (W.contents out.new)
        (dialogue_of (policies_timeline trace.now first.now second.now) 0 bytes).text)) }
    // A refused configuration is reported, and no other; nothing is read or written then.
    ensures config { ReturnsConfig (faulty_in (first.now ∷ second.now ∷ [])) result }
    ensures untouched { IfErr result (UntouchedAtConfig (commands.new ≡ commands.old) (out.new ≡ out.old)) }
    ensures flushed { OnOk result (W.is_flushed out.new ≡ true) }
    // `Read` comes just where a read failed or the millionth was interrupted, and `Write` where a write or a flush did.
    ensures reads { FailsWhere (result ≡ Err DebugFault.Read) (R.tally commands.old) (R.tally commands.new) }
    ensures writes { FailsWhere (result ≡ Err DebugFault.Write) (W.tally out.old) (W.tally out.new) }
{
    if first.config.check().is_err() {
        return Err(DebugFault::Config { index: 0 });
    }
    if second.config.check().is_err() {
        return Err(DebugFault::Config { index: 1 });
    }
    let mut both = TwoPolicies::open(rt, alloc, trace, first, second)?;
    answer_commands(alloc, &mut both, commands, out)
}

// Two policies over one trace, both with as many accesses made.
struct TwoPolicies<'a, T> {
    rt: &'a T,
    first: OnePolicy<'a>,
    second: OnePolicy<'a>,
}

impl<'a, T> Drop for TwoPolicies<'a, T> {
    fn drop(self) {
        let TwoPolicies {
            rt: _,
            first: _,
            second: _,
        } = self;
    }
}

impl<'a, T: Threads + Sync> TwoPolicies<'a, T> {
    // Both before the first access. The one error is that an allocation failed.
    fn open(
        rt: &'a T,
        alloc: Global,
        trace: &'a Trace,
        first: &Job,
        second: &Job,
    ) -> Result<TwoPolicies<'a, T>, AllocError>
        requires first { config_fault first.now.config ≡ Ok tt }
        requires second { config_fault second.now.config ≡ Ok tt }
        ensures timeline { IfOk result (λ w. policies_timeline w.first.trace w.first.job w.second.job
            ≡ policies_timeline trace.now first.now second.now) }
        ensures start { IfOk result (λ w. w.first.at ≡ 0) }
        ensures whole { IfOk result (λ w. IsPartWalk w.first w.second) }
    {
        Ok(TwoPolicies {
            rt,
            first: OnePolicy::open(alloc, first, trace)?,
            second: OnePolicy::open(alloc, second, trace)?,
        })
    }
}

impl<'a, T: Threads + Sync> Timeline for TwoPolicies<'a, T> {
    ghost use Rattle.std.specs.Prelude.{ℕ, List};
    ghost use Rattle.std.specs.Thread.{IsSync};
    ghost use Rattle.step_record.specs.declared.job.Job.{Job};
    ghost use Rattle.debug_policies.specs.TwoPolicies.{policies_timeline, IsPartWalk};

    ghost Source = { List ℕ × Job × Job };

    ghost source = { λ w. (w.first.trace, w.first.job, w.second.job) };

    ghost timeline = { λ w. policies_timeline w.first.trace w.first.job w.second.job };

    ghost position = { λ w. w.first.at };

    ghost IsUsable = { λ w. IsPartWalk w.first w.second × IsSync T.row };

    fn dialect(&self) -> Dialect {
        Dialect::Policies
    }

    fn end(&self) -> usize {
        self.first.trace().len()
    }

    fn position(&self) -> usize {
        self.first.position()
    }

    fn back(&mut self, n: usize) -> Result<(), AllocError> {
        self.first.back(n)?;
        self.second.back(n)
    }

    fn forward(&mut self, n: usize) -> Result<(), AllocError> {
        self.first.forward(n)?;
        self.second.forward(n)
    }

    fn next(&mut self) -> Result<StepFacts, AllocError> {
        let key = self.first.trace().keys()[self.first.position()];
        let first_age = self.first.age();
        let second_age = self.second.age();
        let first = self.first.next()?;
        let second = self.second.next()?;
        let first_fell = self.first.age() < first_age;
        let second_fell = self.second.age() < second_age;
        Ok(access_facts(key, first, second, first_fell, second_fell))
    }

    fn show(&self, alloc: Global, text: &mut Vec<u8>) -> Result<(), AllocError> {
        self.first.show(alloc, "a", text)?;
        self.second.show(alloc, "b", text)
    }

    fn view(&self, alloc: Global, view: View, text: &mut Vec<u8>) -> Result<(), AllocError> {
        let (first, second) = (&self.first, &self.second);
        match view {
            View::Window => push_windows(text, first, second),
            View::Queues => push_queues(alloc, text, first, second),
            View::Last => push_last(text, first, second),
            View::Estimate(key) => push_estimates(text, first, second, key),
        }
    }

    fn own(&self, alloc: Global, text: &mut Vec<u8>) -> Result<(), AllocError> {
        theorems::any_covers_trace();
        let (first, second) = (self.first.job(), self.second.job());
        match part(self.rt, alloc, self.first.trace(), first, second) {
            Ok(found) => push_part(text, found),
            Err(_) => Err(AllocError),
        }
    }
}

// What breakpoints look at in an access of both policies.
fn access_facts(
    key: Key,
    first: Outcome,
    second: Outcome,
    first_halved: bool,
    second_halved: bool,
) -> StepFacts
    ensures { result ≡ access_facts key first second first_halved second_halved }
{
    StepFacts {
        hit: if hits(first) || hits(second) {
            Some(key)
        } else {
            None
        },
        evicted: left_on_access(first),
        evicted_too: left_on_access(second),
        halved: first_halved || second_halved,
        parted: just_one(hits(first), hits(second)),
        dropped: false,
    }
}

// The key that left, or was not kept.
fn left_on_access(outcome: Outcome) -> Option<Key>
    ensures { result ≡ left_on_access outcome }
{
    match outcome {
        Outcome::Evicted(key) | Outcome::Rejected(key) => Some(key),
        Outcome::Hit | Outcome::Kept => None,
    }
}

// Whether just one of the two holds.
fn just_one(first: bool, second: bool) -> bool
    ensures { result ≡ just_one first second }
{
    if first { !second } else { second }
}

//! Engines: machines whose every step can be undone from a small record.
ghost use Rattle.std.specs.Prelude.{◌≡◌, ℕ, ◌+◌, ◌≤◌, ◌↔◌, Option, Some, None, IfOk, IfErr, OnOk, OnErr};
ghost use Rattle.engine_base.specs.declared.limits.TheConstants.{MAX_STEPS};
ghost use Rattle.engine_base.specs.Pace.{Pace, IsPaced, words_of_halvings};

use thiserror::Error;

/// Why a step was refused. After a refusal the engine is as it was.
#[derive(Clone, Copy, Debug, PartialEq, Eq, Error)]
pub enum StepFault {
    /// The allocation for the step failed.
    #[error("OutOfMemory")]
    OutOfMemory,
    /// The engine does not take this step in this state, or `MAX_STEPS` steps are applied already.
    #[error("NotNow")]
    NotNow,
}

/// A machine that takes steps, answers each, and can undo them one at a time.
///
/// All that its contract says is over its data: what its readers show, its count of applied steps
/// (those that are not undone), and what it was opened with. So an engine that undoes a step has
/// the step's undo record and the data after it, and nothing else, to find the data before it.
pub trait Engine {
    type Step: Copy;

    type Reply: Copy;

    /// The undo record of an accepted step: what it changed, in a form from which it can be undone.
    type Record: Drop;

    /// What the engine shows. No value of it is ever made.
    type Data;

    /// The data that an engine shows now.
    ghost seen: { Self → Self.Data };

    /// The reply to a step and the data after it, or `None` where the step is not accepted.
    ghost act: { Self.Data → Self.Step → Option (Self.Reply × Self.Data) };

    /// The undo record of a step, from the data before it. An engine's records are these alone, so none can hold what
    /// the step and these data do not say.
    ghost record_of: { Self.Step → Self.Data → Self.Record };

    /// Making this step at these data allocates, so it may be refused.
    ghost may_ask: { Self.Data → Self.Step → Type 0 };

    /// A record that may be undone at these data.
    ghost fits: { Self.Record → Self.Data → Type 0 };

    /// The data before the step of a record, from the data after it.
    ghost undone: { Self.Record → Self.Data → Self.Data };

    /// Undoing this record allocates, so it may be refused.
    ghost asks: { Self.Record → Type 0 };

    /// How many steps are applied.
    ghost count: { Self.Data → ℕ };

    /// How many words a record holds in lists.
    ghost words_of: { Self.Record → ℕ };

    /// How the engine's sketch has aged; `still` where it has none.
    ghost pace: { Self.Data → Pace };

    /// Makes a step. With `Ok` it returns the reply, and the record that undoes the step.
    fn apply(&mut self, step: &Self::Step) -> Result<(Self::Reply, Self::Record), StepFault>
        ensures accepted { IfOk result (λ r. act (seen self.old) step.now ≡ Some (r.0, seen self.new)) }
        ensures record_is { IfOk result (λ r. r.1 ≡ record_of step.now (seen self.old)) }
        ensures fits { IfOk result (λ r. fits r.1 (seen self.new)) }
        ensures undone { IfOk result (λ r. undone r.1 (seen self.new) ≡ seen self.old) }
        // A record holds words only for the halvings of its step.
        ensures words { IfOk result (λ r. words_of_halvings (pace (seen self.new))
            ≡ words_of_halvings (pace (undone r.1 (seen self.new))) + words_of r.1) }
        ensures not_now { result ≡ Err StepFault.NotNow ↔ act (seen self.old) step.now ≡ None }
        ensures memory { result ≡ Err StepFault.OutOfMemory → may_ask (seen self.old) step.now }
        ensures err { OnErr result (seen self.new ≡ seen self.old) };

    /// Undoes the step of a record that fits. Where an allocation failed, it returns the record
    /// and the engine is as it was. Only a record that asks for memory is refused.
    fn undo(&mut self, done: Self::Record) -> Result<(), Self::Record>
        requires { fits done (seen self.old) }
        ensures ok { OnOk result (seen self.new ≡ undone done (seen self.old)) }
        ensures err { OnErr result (seen self.new ≡ seen self.old) }
        ensures returned { IfErr result (λ r. r ≡ done) }
        ensures asks { OnErr result (asks done) };

    /// How many steps are applied.
    fn standing(&self) -> u64
        ensures { result ≡ count (seen self.now) };

    /// How many words the record holds in lists.
    fn words(done: &Self::Record) -> u64
        ensures words { result ≡ words_of done.now }
        ensures bounded { result ≤ MAX_STEPS };

    /// An accepted step is one more that is applied.
    ghost counted: { (d : Self.Data) (s : Self.Step) (r : Self.Reply) (e : Self.Data)
        → act d s ≡ Some (r, e) → count e ≡ count d + 1 };

    /// No step is accepted where `MAX_STEPS` are applied.
    ghost counted_out: { (d : Self.Data) (s : Self.Step) → count d ≡ MAX_STEPS → act d s ≡ None };

    /// A step records at most one key in the sketch, which is halved when its age reaches twice
    /// its period, and not before.
    ghost paced: { (d : Self.Data) (s : Self.Step) (r : Self.Reply) (e : Self.Data)
        → act d s ≡ Some (r, e) → IsPaced (pace d) (pace e) };
}

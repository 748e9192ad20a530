//! What the debugger walks.
ghost use Rattle.std.specs.Prelude.{◌≡◌, ◌≤◌, ◌<◌, ◌+◌, ◌-◌, ◌++◌, ℕ, IfOk, OnOk};
ghost use Rattle.debug_commands.specs.Timeline.{TimelineData};

use crate::breakpoint::StepFacts;
use crate::command::{Dialect, View};
use std::alloc::{AllocError, Global};

/// Steps that can be made and undone one by one, at a position: how many of them are made. The one error of each call
/// is that an allocation failed; no further call may be made then.
pub trait Timeline {
    ghost Source: { Type 0 };

    /// What is walked. No call changes it, nor does one that fails.
    ghost source: { Self → Source };

    /// All that the debugger's answers go by. No call that succeeds changes it.
    ghost timeline: { Self → TimelineData };

    /// How many steps are made.
    ghost position: { Self → ℕ };

    /// No call on it was out of memory.
    ghost IsUsable: { Self → Type 0 };

    /// Which commands it has.
    fn dialect(&self) -> Dialect
        ensures { result ≡ (timeline self.now).dialect };

    /// How many steps there are.
    fn end(&self) -> usize
        requires { IsUsable self.now }
        ensures { result ≡ (timeline self.now).end };

    /// How many steps are made.
    fn position(&self) -> usize
        requires { IsUsable self.now }
        ensures position { result ≡ position self.now }
        ensures within { result ≤ (timeline self.now).end };

    /// Undoes the last `n` of the steps that are made.
    fn back(&mut self, n: usize) -> Result<(), AllocError>
        requires usable { IsUsable self.old }
        requires within { n ≤ position self.old }
        ensures source { source self.new ≡ source self.old }
        ensures usable { OnOk result (IsUsable self.new) }
        ensures same { OnOk result (timeline self.new ≡ timeline self.old) }
        ensures position { OnOk result (position self.new ≡ position self.old - n) };

    /// Makes the next `n` steps.
    fn forward(&mut self, n: usize) -> Result<(), AllocError>
        requires usable { IsUsable self.old }
        requires within { position self.old + n ≤ (timeline self.old).end }
        ensures source { source self.new ≡ source self.old }
        ensures usable { OnOk result (IsUsable self.new) }
        ensures same { OnOk result (timeline self.new ≡ timeline self.old) }
        ensures position { OnOk result (position self.new ≡ position self.old + n) };

    /// Makes the next step, and returns what breakpoints look at in it.
    fn next(&mut self) -> Result<StepFacts, AllocError>
        requires usable { IsUsable self.old }
        requires within { position self.old < (timeline self.old).end }
        ensures source { source self.new ≡ source self.old }
        ensures usable { OnOk result (IsUsable self.new) }
        ensures same { OnOk result (timeline self.new ≡ timeline self.old) }
        ensures position { OnOk result (position self.new ≡ position self.old + 1) }
        ensures facts { IfOk result (λ facts. facts ≡ (timeline self.old).facts (position self.old + 1)) };

    /// Adds what `show` prints.
    fn show(&self, alloc: Global, text: &mut Vec<u8>) -> Result<(), AllocError>
        requires { IsUsable self.now }
        ensures { OnOk result (text.new.items ≡ text.old.items ++ (timeline self.now).shown (position self.now)) };

    /// Adds what the command of a view prints, where the dialect has views.
    fn view(&self, alloc: Global, view: View, text: &mut Vec<u8>) -> Result<(), AllocError>
        requires { IsUsable self.now }
        ensures { OnOk result (text.new.items ≡ text.old.items ++ (timeline self.now).viewed view (position self.now)) };

    /// Adds what the dialect's own command prints.
    fn own(&self, alloc: Global, text: &mut Vec<u8>) -> Result<(), AllocError>
        requires { IsUsable self.now }
        ensures { OnOk result (text.new.items ≡ text.old.items ++ (timeline self.now).own (position self.now)) };
}

//! The write queue.
ghost use Rattle.std.specs.Prelude.{◌≡◌, ◌<◌, ◌≤◌, [], ◌∷◌, ◌++◌, length, nat_lt, true, false};
ghost use Rattle.std.specs.Prelude.{IfOk, IfSome, IfNone};
ghost use Rattle.shell_model.specs.Buffers.{all_but_newest};
ghost use Rattle.shell_model.specs.declared.write_tasks.TheConstants.{MAX_TASKS};

use crate::task::Task;
use arrayvec::ArrayVec;
use std::alloc::{AllocError, Global};
use std::marker::Model;

/// How many tasks the write queue holds at most, and one maintenance applies at most.
pub const MAX_TASKS: usize = 128;

/// The tasks that were not applied yet, in a boxed buffer, shown as a list, oldest first.
#[derive(Drop)]
pub struct WriteTasks {
    buffer: Box<ArrayVec<Task, MAX_TASKS>>,
}

impl Model for WriteTasks {
    ghost use Rattle.std.specs.Prelude.{List};
    ghost use Rattle.shell_model.specs.declared.task.Task.{Task as TaskValue};

    ghost Value = { List TaskValue };

    ghost view = { λ w. w.buffer.value.items };
}

impl WriteTasks {
    /// An empty queue, with room for all that it may hold. The only error is that the allocation failed.
    pub fn new(alloc: Global) -> Result<WriteTasks, AllocError>
        ensures { IfOk result (λ queue. queue ≡ []) }
    {
        let buffer = Box::new(alloc, ArrayVec::new())?;
        Ok(WriteTasks { buffer })
    }

    /// The tasks, oldest first.
    pub fn tasks(&self) -> &[Task]
        ensures { result.now ≡ self.now }
    {
        self.buffer.as_slice()
    }

    /// Puts a task after the newest. A full queue answers `false`, and keeps what it has.
    pub fn push(&mut self, task: Task) -> bool
        ensures room { result ≡ nat_lt (length self.old) MAX_TASKS }
        ensures kept { result ≡ true → self.new ≡ self.old ++ task ∷ [] }
        ensures full { result ≡ false → self.new ≡ self.old }
    {
        if self.buffer.is_full() {
            return false;
        }
        self.buffer.push(task);
        true
    }

    /// Undoes a `push` that answered `true`: takes the newest off.
    pub fn unpush(&mut self)
        requires { 1 ≤ length self.old }
        ensures { self.new ≡ all_but_newest self.old }
    {
        let _ = self.buffer.pop();
    }

    /// Takes the oldest task out, or answers `None` where the queue is empty.
    pub fn take_oldest(&mut self) -> Option<Task>
        ensures none { IfNone result ((self.old ≡ []) × (self.new ≡ [])) }
        ensures oldest { IfSome result (λ task. self.old ≡ task ∷ self.new) }
    {
        if self.buffer.is_empty() {
            return None;
        }
        Some(self.buffer.remove(0))
    }

    /// Undoes a `take_oldest`: puts a task before the oldest.
    pub fn untake(&mut self, task: Task)
        requires { length self.old < MAX_TASKS }
        ensures { self.new ≡ task ∷ self.old }
    {
        self.buffer.insert(0, task);
    }
}

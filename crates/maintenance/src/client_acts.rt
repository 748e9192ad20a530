//! What readers and writers do.
ghost use Rattle.std.specs.Prelude.{◌≡◌, ◌<◌, length, Some, None, IfOk, OnErr};
ghost use Rattle.engine_base.specs.declared.limits.TheConstants.{MAX_STEPS};
ghost use Rattle.shell_model.specs.declared.record.Change.TheVariants.{Requested};
ghost use Rattle.shell_model.specs.Changes.{after_change};
ghost use Rattle.shell_model.specs.Shell.{look_reply, node_of, put_reply, remove_at, begin_reply, offer_reply};
ghost use Rattle.shell_model.specs.Shell.{after_write, after_read, held_by};

use crate::shell_core::ShellCore;
use engine_base::{Answer, Drain, Item, Key, Phase, Reply, Worker};
use shell_model::{Change, Holder, MAX_TASKS, Task};
use std::alloc::AllocError;

impl ShellCore {
    pub(crate) fn look(&self, key: Key) -> Reply
        ensures { result ≡ look_reply (node_of key self.now.table) }
    {
        match self.table.node_of(key) {
            Some(node) => Reply::Hit { node },
            None => Reply::Miss,
        }
    }

    pub(crate) fn offer(&mut self, stripe: u8, item: Item) -> (Reply, Change)
        requires { stripe < length self.old.stripes }
        ensures made { result ≡ offer_reply stripe item self.old }
        ensures state { self.new ≡ after_change result.1 self.old }
    {
        if self.stripes.offer(stripe, item) {
            (Reply::Kept, Change::Offered { stripe, item })
        } else {
            (Reply::Full, Change::Nothing)
        }
    }

    pub(crate) fn put(&mut self, key: Key) -> Result<(Reply, Change), AllocError>
        requires { self.old.next < MAX_STEPS }
        ensures made { IfOk result (λ r. r ≡ put_reply key self.old) }
        ensures state { IfOk result (λ r. self.new ≡ after_change r.1 self.old) }
        ensures err { OnErr result (self.new ≡ self.old) }
    {
        if self.writes.tasks().len() >= MAX_TASKS {
            return Ok((Reply::WritesFull, Change::Nothing));
        }
        match self.table.node_of(key) {
            Some(node) => {
                let item = Item { key, node };
                let _ = self.writes.push(Task::Update(item));
                Ok((Reply::Present { node }, Change::Updated { item }))
            }
            None => {
                let node = self.next;
                let item = Item { key, node };
                self.table.place(item)?;
                self.next = node + 1;
                let _ = self.writes.push(Task::Add(item));
                Ok((Reply::Added { node }, Change::Added { item }))
            }
        }
    }

    pub(crate) fn remove(&mut self, key: Key) -> (Reply, Change)
        ensures made { result ≡ remove_at key (node_of key self.old.table) self.old }
        ensures state { self.new ≡ after_change result.1 self.old }
    {
        match self.table.node_of(key) {
            None => (Reply::Absent, Change::Nothing),
            Some(node) => {
                if self.writes.tasks().len() >= MAX_TASKS {
                    return (Reply::WritesFull, Change::Nothing);
                }
                let item = Item { key, node };
                self.table.remove(item);
                let _ = self.writes.push(Task::Remove(item));
                (Reply::Removed { node }, Change::Removed { item })
            }
        }
    }

    pub(crate) fn after_read(&self, answer: Answer) -> Reply
        ensures { result ≡ after_read self.now.drain answer }
    {
        match self.drain {
            Drain::Idle => match answer {
                Answer::Full => Reply::Drain,
                _ => Reply::Go,
            },
            Drain::Required => Reply::Drain,
            Drain::ToIdle => Reply::Go,
            Drain::ToRequired => Reply::Go,
        }
    }

    pub(crate) fn after_write(&mut self) -> (Reply, Change)
        ensures made { result
            ≡ ((after_write self.old.drain).0, Requested self.old.drain (after_write self.old.drain).1) }
        ensures state { self.new ≡ after_change result.1 self.old }
    {
        let before = self.drain;
        let (reply, now) = match before {
            Drain::Idle => (Reply::Drain, Drain::Required),
            Drain::Required => (Reply::Drain, Drain::Required),
            Drain::ToIdle => (Reply::Go, Drain::ToRequired),
            Drain::ToRequired => (Reply::Go, Drain::ToRequired),
        };
        self.drain = now;
        (reply, Change::Requested { before, now })
    }

    pub(crate) fn begin(&mut self, worker: Worker) -> (Reply, Change)
        ensures made { result ≡ begin_reply worker self.old.holder self.old }
        ensures state { self.new ≡ after_change result.1 self.old }
    {
        if self.holder.is_some() {
            return (Reply::Busy, Change::Nothing);
        }
        let before = self.drain;
        self.drain = Drain::ToIdle;
        self.holder = Some(Holder {
            worker,
            phase: Phase::Reads,
            left: MAX_TASKS as u8,
        });
        (Reply::Began, Change::Began { worker, before })
    }

    // The holder, where the worker is it.
    pub(crate) fn held_by(&self, worker: Worker) -> Option<Holder>
        ensures { result ≡ held_by worker self.now.holder }
    {
        match self.holder {
            Some(holder) if holder.worker.number() == worker.number() => Some(holder),
            _ => None,
        }
    }
}

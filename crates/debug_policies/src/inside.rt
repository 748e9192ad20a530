//! What is printed of a policy's queues, of an outcome and of an estimate.
ghost use Rattle.std.specs.Prelude.{◌≡◌, ◌++◌, OnOk, codes};
ghost use Rattle.std.specs.List.{flat_map};
ghost use Rattle.debug_policies.specs.Inside.{estimate_text, key_text, outcome_text, queue_text};

use segments::{NamedQueue, QueueKey};
use std::alloc::AllocError;
use step_record::Outcome;
use streams::{push_count, push_counts_line, push_pieces};

/// Adds the end of the line of a queue: its name, and its keys. The one error is that an allocation failed.
pub(crate) fn push_queue(text: &mut Vec<u8>, queue: &NamedQueue) -> Result<(), AllocError>
    ensures { OnOk result (text.new.items ≡ text.old.items ++ queue_text queue.now) }
{
    push_pieces(text, &[b" ", queue.name().as_bytes()])?;
    push_keys_line(text, queue.keys())
}

// Adds keys, each with the number beside it, and a line feed.
fn push_keys_line(text: &mut Vec<u8>, keys: &[QueueKey]) -> Result<(), AllocError>
    ensures { OnOk result (text.new.items ≡ text.old.items ++ (flat_map key_text keys.now ++ codes "\n")) }
{
    for key in keys {
        push_key(text, *key)?;
    }
    text.extend_from_slice(b"\n")
}

// Adds a key, and the number beside it.
fn push_key(text: &mut Vec<u8>, key: QueueKey) -> Result<(), AllocError>
    ensures { OnOk result (text.new.items ≡ text.old.items ++ key_text key) }
{
    push_count(text, b" ", key.key)?;
    match key.number {
        Some(number) => push_count(text, b":", number),
        None => Ok(()),
    }
}

/// Adds the end of the line of an outcome. The one error is that an allocation failed.
pub(crate) fn push_outcome(text: &mut Vec<u8>, outcome: Outcome) -> Result<(), AllocError>
    ensures { OnOk result (text.new.items ≡ text.old.items ++ outcome_text outcome) }
{
    match outcome {
        Outcome::Hit => text.extend_from_slice(b" hit\n"),
        Outcome::Kept => text.extend_from_slice(b" kept\n"),
        Outcome::Evicted(key) => push_counts_line(text, &[(b" evicted ", key)]),
        Outcome::Rejected(key) => push_counts_line(text, &[(b" rejected ", key)]),
    }
}

/// Adds the end of the line of an estimate. The one error is that an allocation failed.
pub(crate) fn push_estimate(text: &mut Vec<u8>, estimate: Option<u8>) -> Result<(), AllocError>
    ensures { OnOk result (text.new.items ≡ text.old.items ++ estimate_text estimate) }
{
    match estimate {
        Some(estimate) => push_counts_line(text, &[(b" estimate ", u64::from(estimate))]),
        None => text.extend_from_slice(b" estimate none\n"),
    }
}

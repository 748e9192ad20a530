//! The text of rows of intervals with a policy's queues. The one error of each call is that an allocation failed.
ghost use Rattle.std.specs.Prelude.{◌≡◌, ◌++◌, IfOk, OnOk, codes, get_or};
ghost use Rattle.std.specs.List.{count_by, flat_map, join_with_byte, list_any};
ghost use Rattle.streams.specs.Texts.{count_text};
ghost use Rattle.report.specs.IntervalText.{interval_fields};
ghost use Rattle.policy_comparison.specs.QueueRows.{cell, first_key, held_in, is_marked, is_numbered, marked_in};
ghost use Rattle.policy_comparison.specs.QueueRows.{queue_row, rows_from};
ghost use Rattle.policy_comparison.specs.QueueRows.{queues_header as header_text};

use policies::Interval;
use report::{interval_numbers, rate_text};
use segments::{NamedQueue, QueueKey};
use std::alloc::{AllocError, Global};
use step_record::push_name;
use streams::{push_count, push_counts_line, push_pieces};

/// The header.
pub(crate) fn queues_header(alloc: Global) -> Result<Vec<u8>, AllocError>
    ensures { IfOk result (λ text. text.items ≡ header_text) }
{
    Vec::from_slice(
        alloc,
        b"policy,capacity,first,last,hits,misses,evictions,rejections,rate,queue,held,marked,left\n",
    )
}

/// Adds the row of an interval once a queue, where so many keys left each queue: of those without a number none.
pub(crate) fn push_queue_rows(
    alloc: Global,
    text: &mut Vec<u8>,
    interval: &Interval,
    queues: &[NamedQueue],
    left: &[u64],
) -> Result<(), AllocError>
    ensures { OnOk result (text.new.items
        ≡ text.old.items ++ rows_from interval.now (λ row. get_or left.now row 0) 0 queues.now) }
{
    for i in 0..queues.len() {
        push_queue_row(alloc, text, interval, &queues[i], number_at(left, i))?;
    }
    Ok(())
}

// The number at a place, 0 behind the last.
fn number_at(numbers: &[u64], i: usize) -> u64
    ensures { result ≡ get_or numbers.now i 0 }
{
    if i < numbers.len() { numbers[i] } else { 0 }
}

// Adds the row of an interval and of a queue, which so many keys left.
fn push_queue_row(
    alloc: Global,
    text: &mut Vec<u8>,
    interval: &Interval,
    queue: &NamedQueue,
    left: u64,
) -> Result<(), AllocError>
    ensures { OnOk result (text.new.items ≡ text.old.items ++ queue_row interval.now queue.now left) }
{
    push_interval(alloc, text, interval)?;
    push_pieces(text, &[b",", queue.name().as_bytes()])?;
    push_count(text, b",", held_in(queue))?;
    push_marked(text, queue.keys())?;
    push_counts_line(text, &[(b",", left)])
}

// Adds the fields of an interval.
fn push_interval(alloc: Global, text: &mut Vec<u8>, interval: &Interval) -> Result<(), AllocError>
    ensures { OnOk result (text.new.items
        ≡ text.old.items ++ join_with_byte 44 (interval_fields interval.now)) }
{
    let report = &interval.report;
    push_name(text, report.policy, &report.sizes)?;
    push_numbers(text, &interval_numbers(interval))?;
    let rate = rate_text(alloc, report.rate())?;
    push_pieces(text, &[b",", rate.as_bytes()])
}

// Adds numbers, each behind a comma.
fn push_numbers(text: &mut Vec<u8>, numbers: &[u64]) -> Result<(), AllocError>
    ensures { OnOk result (text.new.items
        ≡ text.old.items ++ flat_map (count_text (codes ",")) numbers.now) }
{
    for number in numbers {
        push_count(text, b",", *number)?;
    }
    Ok(())
}

// How many keys the queue holds, or the size that is a target.
fn held_in(queue: &NamedQueue) -> u64
    ensures { result ≡ held_in queue.now }
{
    let keys = queue.keys();
    if queue.name() == "target" {
        first_key(keys)
    } else {
        keys.len() as u64
    }
}

// The first of the keys.
fn first_key(keys: &[QueueKey]) -> u64
    ensures { result ≡ first_key keys.now }
{
    match keys.first() {
        Some(key) => key.key,
        None => 0,
    }
}

// Adds how many of the keys are marked, behind a comma.
fn push_marked(text: &mut Vec<u8>, keys: &[QueueKey]) -> Result<(), AllocError>
    ensures { OnOk result (text.new.items ≡ text.old.items ++ (codes "," ++ cell (marked_in keys.now))) }
{
    match marked_in(keys) {
        Some(marked) => push_count(text, b",", marked),
        None => text.extend_from_slice(b","),
    }
}

// How many of the keys are marked, where there are numbers beside them.
fn marked_in(keys: &[QueueKey]) -> Option<u64>
    ensures { result ≡ marked_in keys.now }
{
    if has_numbers(keys) {
        Some(count_marked(keys))
    } else {
        None
    }
}

// Whether there is a number beside one of the keys.
fn has_numbers(keys: &[QueueKey]) -> bool
    ensures { result ≡ list_any is_numbered keys.now }
{
    keys.iter().any(|key| key.number.is_some())
}

// How many of the keys are marked.
fn count_marked(keys: &[QueueKey]) -> u64
    ensures { result ≡ count_by is_marked keys.now }
{
    let mut marked = 0;
    for key in keys {
        if is_marked(key) {
            marked += 1;
        }
    }
    marked
}

// Whether a number above 0 stands beside the key.
fn is_marked(key: &QueueKey) -> bool
    ensures { result ≡ is_marked key.now }
{
    match key.number {
        Some(number) => number > 0,
        None => false,
    }
}

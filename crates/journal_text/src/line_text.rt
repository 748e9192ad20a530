//! A line as text, appended to a buffer. The buffer has the room, so nothing fails.
ghost use Rattle.std.specs.Prelude.{◌≡◌, ◌<◌, ◌≤◌, ◌+◌, ◌*◌, ◌++◌, ◌∷◌, [], length, map, vec_len, vec_capacity};
ghost use Rattle.std.specs.Fmt.{decimal};
ghost use Rattle.journal_text.specs.Table.{act_words, behind, line_words, reply_words, spaced, text_of, FitWords};
ghost use Rattle.journal_text.specs.Table.{Named, Wide};
ghost use Rattle.journal_text.specs.Journal.{ended_line};
ghost use Rattle.journal_text.specs.declared.line_text.TheConstants.{MAX_LINE};

use super::JournalLine;
use super::table::{EQUALS, STEPS, act_word, answer_reply, reply_word};
use engine_base::{Act, Reply};
use itoa::Buffer;

/// The room that is asked for a line and its line feed. A line has nine words at most, each of
/// at most 20 bytes and with one byte after it.
pub const MAX_LINE: usize = 192;

/// Adds a line with its line feed.
pub fn push_ended_line(text: &mut Vec<u8>, line: &JournalLine)
    requires { vec_len text.old + MAX_LINE ≤ vec_capacity text.old }
    ensures items { text.new.items ≡ text.old.items ++ ended_line (text_of line.now) }
    ensures capacity { vec_capacity text.old ≤ vec_capacity text.new }
    ensures fit { FitWords (line_words line.now) }
{
    push_line(text, line);
    text.push_reserved(b'\n');
}

/// Adds a line without its line feed. Its words fit, since its numbers are of their types.
pub fn push_line(text: &mut Vec<u8>, line: &JournalLine)
    requires { vec_len text.old + MAX_LINE ≤ vec_capacity text.old }
    ensures items { text.new.items ≡ text.old.items ++ text_of line.now }
    ensures len { vec_len text.new < vec_len text.old + MAX_LINE }
    ensures capacity { vec_capacity text.old ≤ vec_capacity text.new }
    ensures fit { FitWords (line_words line.now) }
{
    match line {
        JournalLine::Made(entry) => {
            push_number(text, u64::from(entry.step.worker.number()));
            push_act(text, entry.step.act);
            push_name(text, EQUALS);
            push_reply(text, entry.reply);
        }
        JournalLine::Steps(count) => {
            push_bytes(text, STEPS);
            push_numbers(text, &[*count]);
        }
    }
}

/// Adds bytes.
pub fn push_bytes(text: &mut Vec<u8>, bytes: &[u8])
    requires { vec_len text.old + length bytes.now ≤ vec_capacity text.old }
    ensures items { text.new.items ≡ text.old.items ++ bytes.now }
    ensures len { vec_len text.new ≡ vec_len text.old + length bytes.now }
    ensures capacity { vec_capacity text.old ≤ vec_capacity text.new }
{
    if text.extend_from_slice(bytes).is_err() {
        unreachable!()
    }
}

// Adds a number.
fn push_number(text: &mut Vec<u8>, number: u64)
    requires { vec_len text.old + 20 ≤ vec_capacity text.old }
    ensures items { text.new.items ≡ text.old.items ++ decimal number }
    ensures len { vec_len text.new ≤ vec_len text.old + 20 }
    ensures capacity { vec_capacity text.old ≤ vec_capacity text.new }
{
    let mut digits = Buffer::new();
    push_bytes(text, digits.format(number).as_bytes());
}

// Adds numbers, each with a space before it.
fn push_numbers(text: &mut Vec<u8>, numbers: &[u64])
    requires { vec_len text.old + 21 * length numbers.now ≤ vec_capacity text.old }
    ensures items { text.new.items ≡ text.old.items ++ spaced (map Wide numbers.now) }
    ensures len { vec_len text.new ≤ vec_len text.old + 21 * length numbers.now }
    ensures capacity { vec_capacity text.old ≤ vec_capacity text.new }
{
    for number in numbers {
        text.push_reserved(b' ');
        push_number(text, *number);
    }
}

// Adds a name with a space before it.
fn push_name(text: &mut Vec<u8>, name: &[u8])
    requires { vec_len text.old + (length name.now + 1) ≤ vec_capacity text.old }
    ensures items { text.new.items ≡ text.old.items ++ spaced (Named name.now ∷ []) }
    ensures len { vec_len text.new ≡ vec_len text.old + (length name.now + 1) }
    ensures capacity { vec_capacity text.old ≤ vec_capacity text.new }
{
    text.push_reserved(b' ');
    push_bytes(text, name);
}

// Adds an act. Its words fit, since its numbers are of their types.
fn push_act(text: &mut Vec<u8>, act: Act)
    requires { vec_len text.old + 84 ≤ vec_capacity text.old }
    ensures items { text.new.items ≡ text.old.items ++ spaced (act_words act) }
    ensures len { vec_len text.new ≤ vec_len text.old + 84 }
    ensures capacity { vec_capacity text.old ≤ vec_capacity text.new }
    ensures fit { FitWords (act_words act) }
{
    push_name(text, act_word(&act));
    push_act_numbers(text, act);
}

// Adds what follows the word of an act.
#[tactic(auto, unfolding(crate::specs::Table::spaced))]
fn push_act_numbers(text: &mut Vec<u8>, act: Act)
    requires { vec_len text.old + 63 ≤ vec_capacity text.old }
    ensures items { text.new.items ≡ text.old.items ++ spaced (behind (act_words act)) }
    ensures len { vec_len text.new ≤ vec_len text.old + 63 }
    ensures capacity { vec_capacity text.old ≤ vec_capacity text.new }
    ensures fit { FitWords (behind (act_words act)) }
{
    match act {
        Act::Look { key } | Act::Put { key } | Act::Remove { key } => push_numbers(text, &[key]),
        Act::Offer { stripe, item } | Act::Lose { stripe, item } => {
            push_numbers(text, &[u64::from(stripe), item.key, item.node]);
        }
        Act::AfterRead { answer } => push_name(text, reply_word(&answer_reply(answer))),
        Act::DrainRead { stripe } => push_numbers(text, &[u64::from(stripe)]),
        _ => push_numbers(text, &[]),
    }
}

// Adds a reply. Its words fit, since its numbers are of their types.
fn push_reply(text: &mut Vec<u8>, reply: Reply)
    requires { vec_len text.old + 53 ≤ vec_capacity text.old }
    ensures items { text.new.items ≡ text.old.items ++ spaced (reply_words reply) }
    ensures len { vec_len text.new ≤ vec_len text.old + 53 }
    ensures capacity { vec_capacity text.old ≤ vec_capacity text.new }
    ensures fit { FitWords (reply_words reply) }
{
    push_name(text, reply_word(&reply));
    push_reply_numbers(text, reply);
}

// Adds what follows the word of a reply.
fn push_reply_numbers(text: &mut Vec<u8>, reply: Reply)
    requires { vec_len text.old + 42 ≤ vec_capacity text.old }
    ensures items { text.new.items ≡ text.old.items ++ spaced (behind (reply_words reply)) }
    ensures len { vec_len text.new ≤ vec_len text.old + 42 }
    ensures capacity { vec_capacity text.old ≤ vec_capacity text.new }
    ensures fit { FitWords (behind (reply_words reply)) }
{
    match reply {
        Reply::Hit { node }
        | Reply::Added { node }
        | Reply::Present { node }
        | Reply::Removed { node } => push_numbers(text, &[node]),
        Reply::Drained { item }
        | Reply::Applied { item }
        | Reply::Cleared { item }
        | Reply::Shifted { item }
        | Reply::Evicted { item }
        | Reply::Rejected { item } => push_numbers(text, &[item.key, item.node]),
        _ => push_numbers(text, &[]),
    }
}

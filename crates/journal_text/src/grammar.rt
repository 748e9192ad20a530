//! A line, read word by word.
ghost use Rattle.std.specs.Prelude.{◌≡◌, ◌≤◌, Some, IfSome, vec_capacity};
ghost use Rattle.journal_text.specs.Table.{JournalLine, act_word, reply_word, text_of, IsLine};
ghost use Rattle.journal_text.specs.LineGrammar.{act_at, count_in, entry_in, line_in, reply_at};
ghost use Rattle.journal_text.specs.LineGrammar.{answer_at, item_at, named_at, only_at, small_at};
ghost use Rattle.journal_text.specs.declared.line_text.TheConstants.{MAX_LINE};
ghost use Rattle.journal_text.specs.declared.table.TheConstants.{ACTS, REPLIES};
ghost use Rattle.streams.specs.Reads.{with_rest};
ghost use Rattle.streams.specs.Words.{words_in};

use super::line_text::{MAX_LINE, push_line};
use super::table::{ACTS, EQUALS, REPLIES, STEPS, act_named, is_line_in, reply_named};
use super::{JournalLine, Version};
use engine_base::{Act, Answer, Entry, Item, MAX_WORKERS, Reply, Step, Worker};
use streams::Words;

/// The line of the table that the text is, without its line feed. What is read of the text is printed into the buffer,
/// which has the room, and is the line where both are the same.
pub fn line(version: Version, text: &[u8], printed: &mut Vec<u8>) -> Option<JournalLine>
    requires { MAX_LINE ≤ vec_capacity printed.old }
    // What is read is a line of the table, in its one spelling.
    ensures found { IfSome result (λ l. IsLine version l × (text_of l ≡ text.now)) }
    // Each line of the table is read; so where none is, no line of the table is spelled so.
    ensures only { (l : JournalLine) → IsLine version l → text_of l ≡ text.now → result ≡ Some l }
    ensures room { MAX_LINE ≤ vec_capacity printed.new }
{
    let line = line_read(text)?;
    if !is_line_in(version, &line) {
        return None;
    }
    printed.clear();
    push_line(printed, &line);
    if printed.as_slice() == text {
        return Some(line);
    }
    None
}

// The line that the text begins with, however it is spelled.
#[tactic(auto, unfolding(crate::specs::LineGrammar::line_in))]
fn line_read(text: &[u8]) -> Option<JournalLine>
    ensures { result ≡ line_in text.now }
{
    match entry(text) {
        Some(entry) => Some(JournalLine::Made(entry)),
        None => Some(JournalLine::Steps(count(text)?)),
    }
}

// The entry with which the words begin.
#[tactic(auto, unfolding(crate::specs::LineGrammar::entry_in))]
fn entry(text: &[u8]) -> Option<Entry<Step, Reply>>
    ensures { result ≡ entry_in (words_in text.now) }
{
    let mut words = Words::of(text);
    let worker = worker(&mut words)?;
    let act = act(&mut words)?;
    only(&mut words, EQUALS)?;
    let reply = reply(&mut words)?;
    Some(Entry {
        step: Step { worker, act },
        reply,
    })
}

// The count of steps with which the words begin.
#[tactic(auto, unfolding(crate::specs::LineGrammar::count_in))]
fn count(text: &[u8]) -> Option<u64>
    ensures { result ≡ count_in (words_in text.now) }
{
    let mut words = Words::of(text);
    only(&mut words, STEPS)?;
    words.number()
}

// The act that stands next.
#[tactic(auto, unfolding(crate::specs::LineGrammar::act_at))]
fn act(words: &mut Words) -> Option<Act>
    ensures { with_rest words.new result ≡ act_at words.old }
{
    match named_act(words)? {
        Act::Look { .. } => Some(Act::Look {
            key: words.number()?,
        }),
        Act::Offer { .. } => Some(Act::Offer {
            stripe: stripe(words)?,
            item: item(words)?,
        }),
        Act::Lose { .. } => Some(Act::Lose {
            stripe: stripe(words)?,
            item: item(words)?,
        }),
        Act::Put { .. } => Some(Act::Put {
            key: words.number()?,
        }),
        Act::Remove { .. } => Some(Act::Remove {
            key: words.number()?,
        }),
        Act::AfterRead { .. } => Some(Act::AfterRead {
            answer: answer(words)?,
        }),
        Act::DrainRead { .. } => Some(Act::DrainRead {
            stripe: stripe(words)?,
        }),
        act => Some(act),
    }
}

// The reply that stands next.
#[tactic(auto, unfolding(crate::specs::LineGrammar::reply_at))]
fn reply(words: &mut Words) -> Option<Reply>
    ensures { with_rest words.new result ≡ reply_at words.old }
{
    match named_reply(words)? {
        Reply::Hit { .. } => Some(Reply::Hit {
            node: words.number()?,
        }),
        Reply::Added { .. } => Some(Reply::Added {
            node: words.number()?,
        }),
        Reply::Present { .. } => Some(Reply::Present {
            node: words.number()?,
        }),
        Reply::Removed { .. } => Some(Reply::Removed {
            node: words.number()?,
        }),
        Reply::Drained { .. } => Some(Reply::Drained { item: item(words)? }),
        Reply::Applied { .. } => Some(Reply::Applied { item: item(words)? }),
        Reply::Cleared { .. } => Some(Reply::Cleared { item: item(words)? }),
        Reply::Shifted { .. } => Some(Reply::Shifted { item: item(words)? }),
        Reply::Evicted { .. } => Some(Reply::Evicted { item: item(words)? }),
        Reply::Rejected { .. } => Some(Reply::Rejected { item: item(words)? }),
        reply => Some(reply),
    }
}

// The act whose word stands next. Its numbers are still to be read.
#[tactic(auto, unfolding(crate::specs::LineGrammar::named_at), using(crate::proofs::Parsed::found_at))]
fn named_act(words: &mut Words) -> Option<Act>
    ensures { with_rest words.new result ≡ named_at act_word ACTS words.old }
{
    act_named(&ACTS, words.next()?)
}

// The reply whose word stands next. Its numbers are still to be read.
#[tactic(auto, unfolding(crate::specs::LineGrammar::named_at), using(crate::proofs::Parsed::found_at))]
fn named_reply(words: &mut Words) -> Option<Reply>
    ensures { with_rest words.new result ≡ named_at reply_word REPLIES words.old }
{
    reply_named(&REPLIES, words.next()?)
}

// The answer to an offer that stands next.
#[tactic(auto, unfolding(crate::specs::LineGrammar::answer_at))]
fn answer(words: &mut Words) -> Option<Answer>
    ensures { with_rest words.new result ≡ answer_at words.old }
{
    match named_reply(words)? {
        Reply::Kept => Some(Answer::Kept),
        Reply::Full => Some(Answer::Full),
        Reply::Lost => Some(Answer::Lost),
        _ => None,
    }
}

// The worker that stands next.
#[tactic(auto, unfolding(crate::specs::LineGrammar::small_at))]
fn worker(words: &mut Words) -> Option<Worker>
    ensures { with_rest words.new result ≡ small_at MAX_WORKERS words.old }
{
    let number = words.number()?;
    if number < u64::from(MAX_WORKERS) {
        Worker::new(number as u8)
    } else {
        None
    }
}

// The number that stands next, below 256.
#[tactic(auto, unfolding(crate::specs::LineGrammar::small_at))]
fn stripe(words: &mut Words) -> Option<u8>
    ensures { with_rest words.new result ≡ small_at 256 words.old }
{
    let number = words.number()?;
    if number < 256 {
        Some(number as u8)
    } else {
        None
    }
}

// The key and node that stand next.
#[tactic(auto, unfolding(crate::specs::LineGrammar::item_at))]
fn item(words: &mut Words) -> Option<Item>
    ensures { with_rest words.new result ≡ item_at words.old }
{
    let key = words.number()?;
    let node = words.number()?;
    Some(Item { key, node })
}

// Takes this word, which must stand next.
#[tactic(auto, unfolding(crate::specs::LineGrammar::only_at))]
fn only(words: &mut Words, word: &[u8]) -> Option<()>
    ensures { with_rest words.new result ≡ only_at word.now words.old }
{
    if words.next()? == word {
        Some(())
    } else {
        None
    }
}

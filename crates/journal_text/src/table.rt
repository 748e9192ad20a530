//! The words of a journal's lines, from which acts and replies are written, read and compared, and which lines a
//! version has.
ghost use Rattle.std.specs.Prelude.{◌≡◌, ◌≤◌, length};
ghost use Rattle.journal_text.specs.Table.{act_word, answer_reply, is_in_version, is_line_in, reply_word};
ghost use Rattle.streams.specs.Reads.{first_named};

use super::{JournalLine, Version};
use engine_base::{Act, Answer, Entry, Item, Reply};

/// The word between an act and its reply.
pub const EQUALS: &[u8] = b"=";
/// The word before the count of the steps.
pub const STEPS: &[u8] = b"steps";

/// An act for each word, its numbers 0. A word is compared with these in turn, so common ones come first.
pub const ACTS: [Act; 12] = [
    Act::Look { key: 0 },
    Act::Offer {
        stripe: 0,
        item: NO_ITEM,
    },
    Act::AfterRead {
        answer: Answer::Kept,
    },
    Act::DrainRead { stripe: 0 },
    Act::Put { key: 0 },
    Act::AfterWrite,
    Act::DrainWrite,
    Act::Evict,
    Act::Begin,
    Act::End,
    Act::Lose {
        stripe: 0,
        item: NO_ITEM,
    },
    Act::Remove { key: 0 },
];

/// A reply for each word, its numbers 0. A word is compared with these in turn, so common ones come first.
pub const REPLIES: [Reply; 26] = [
    Reply::Hit { node: 0 },
    Reply::Go,
    Reply::Kept,
    Reply::Drained { item: NO_ITEM },
    Reply::Full,
    Reply::Miss,
    Reply::Added { node: 0 },
    Reply::Drain,
    Reply::Applied { item: NO_ITEM },
    Reply::Empty,
    Reply::Fits,
    Reply::Rejected { item: NO_ITEM },
    Reply::Evicted { item: NO_ITEM },
    Reply::Began,
    Reply::Idle,
    Reply::Busy,
    Reply::WritesFull,
    Reply::Shifted { item: NO_ITEM },
    Reply::Lost,
    Reply::Again,
    Reply::Present { node: 0 },
    Reply::Removed { node: 0 },
    Reply::Cleared { item: NO_ITEM },
    Reply::Absent,
    Reply::Enough,
    Reply::NotYet,
];

// What stands for an item that is still to be read.
const NO_ITEM: Item = Item { key: 0, node: 0 };

/// The word of an act.
pub fn act_word(act: &Act) -> &'static [u8]
    ensures word { result.now ≡ act_word act.now }
    ensures length { length result.now ≤ 10 }
{
    match act {
        Act::Look { .. } => b"look",
        Act::Offer { .. } => b"offer",
        Act::Lose { .. } => b"lose",
        Act::Put { .. } => b"put",
        Act::Remove { .. } => b"remove",
        Act::AfterRead { .. } => b"afterread",
        Act::AfterWrite => b"afterwrite",
        Act::Begin => b"begin",
        Act::DrainRead { .. } => b"drainread",
        Act::DrainWrite => b"drainwrite",
        Act::Evict => b"evict",
        Act::End => b"end",
    }
}

/// The word of a reply.
pub fn reply_word(reply: &Reply) -> &'static [u8]
    ensures word { result.now ≡ reply_word reply.now }
    ensures length { length result.now ≤ 10 }
{
    match reply {
        Reply::Hit { .. } => b"hit",
        Reply::Miss => b"miss",
        Reply::Kept => b"kept",
        Reply::Full => b"full",
        Reply::Lost => b"lost",
        Reply::Added { .. } => b"added",
        Reply::Present { .. } => b"present",
        Reply::WritesFull => b"writesfull",
        Reply::Removed { .. } => b"removed",
        Reply::Absent => b"absent",
        Reply::Go => b"go",
        Reply::Drain => b"drain",
        Reply::Began => b"began",
        Reply::Busy => b"busy",
        Reply::Drained { .. } => b"drained",
        Reply::Empty => b"empty",
        Reply::Applied { .. } => b"applied",
        Reply::Cleared { .. } => b"cleared",
        Reply::Enough => b"enough",
        Reply::Shifted { .. } => b"shifted",
        Reply::Evicted { .. } => b"evicted",
        Reply::Rejected { .. } => b"rejected",
        Reply::Fits => b"fits",
        Reply::Idle => b"idle",
        Reply::Again => b"again",
        Reply::NotYet => b"notyet",
    }
}

/// The reply whose word stands for the answer to an offer.
pub fn answer_reply(answer: Answer) -> Reply
    ensures { result ≡ answer_reply answer }
{
    match answer {
        Answer::Kept => Reply::Kept,
        Answer::Full => Reply::Full,
        Answer::Lost => Reply::Lost,
    }
}

/// The first of the acts that has this word.
pub fn act_named(acts: &[Act], word: &[u8]) -> Option<Act>
    ensures { result ≡ first_named act_word acts.now word.now }
{
    for act in acts {
        if act_word(act) == word {
            return Some(*act);
        }
    }
    None
}

/// The first of the replies that has this word.
pub fn reply_named(replies: &[Reply], word: &[u8]) -> Option<Reply>
    ensures { result ≡ first_named reply_word replies.now word.now }
{
    for reply in replies {
        if reply_word(reply) == word {
            return Some(*reply);
        }
    }
    None
}

/// Whether the version has such a line, in which the reply belongs to the act.
pub fn is_line_in(version: Version, line: &JournalLine) -> bool
    ensures { result ≡ is_line_in version line.now }
{
    match (version, line) {
        (_, JournalLine::Made(Entry { step, reply })) => {
            is_known(version, &step.act, reply) && step.act.is_answered_by(reply)
        }
        (Version::One, JournalLine::Steps(_)) => false,
        (Version::Two, JournalLine::Steps(_)) => true,
    }
}

// Whether the version has such an entry.
fn is_known(version: Version, act: &Act, reply: &Reply) -> bool
    ensures { result ≡ is_in_version version act.now reply.now }
{
    match (version, act, reply) {
        (Version::One, Act::Remove { .. }, _) => false,
        (Version::One, _, Reply::Cleared { .. }) => false,
        _ => true,
    }
}

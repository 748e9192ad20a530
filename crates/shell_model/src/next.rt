//! What a worker does next.
ghost use Rattle.std.specs.Prelude.{◌≡◌, ◌<◌, ◌+◌, ◌==◌, ◌↔◌, ℕ, true, MatchBool, MatchOption, IfSome, Some, []};
ghost use Rattle.engine_base.specs.Answers.{is_answer};
ghost use Rattle.engine_base.specs.History.{Entries};
ghost use Rattle.shell_model.specs.Walks.{IsReading, IsWriting};
ghost use Rattle.shell_model.specs.WalkPlaces.{is_place, IsWalkFrom};
ghost use Rattle.shell_model.specs.NextActs.{AheadAfter, IsRestOfWalk, IsAskedNext};

use super::place::Local;
use crate::stripes::MAX_ITEMS;
use engine_base::{Act, Answer, Item, Reply};

/// What a worker does next: an act, with where it then stands, or nothing more for its call.
#[derive(Clone, Copy)]
pub enum Next {
    /// The act to make next.
    Do(Act, Local),
    /// The walk is over.
    Done,
}

/// What a worker does after the reply to its last act; with no reply, that act, which at first is
/// the first one of its walk.
pub fn next_step(local: Local, reply: Option<Reply>) -> Next
    requires { IfSome reply (λ r. is_answer local.act r ≡ true) }
    ensures left { (es : Entries) → AheadAfter local reply es ↔ IsRestOfWalk result es }
    ensures asks { IsAskedNext local.worker local.stripes result }
{
    let worker = local.worker;
    let stripes = local.stripes;
    let place = match reply {
        None => Some((local.act, local.drained)),
        Some(reply) => after(local, reply),
    };
    match place {
        None => Next::Done,
        Some((act, drained)) => Next::Do(
            act,
            Local {
                worker,
                stripes,
                act,
                drained,
            },
        ),
    }
}

// The act after a reply, with how many items of its stripe were drained; none where the walk is over.
fn after(local: Local, reply: Reply) -> Option<(Act, u8)>
    requires { is_answer local.act reply ≡ true }
    ensures ahead { (es : Entries) → AheadAfter local (Some reply) es
        ↔ MatchOption result (es ≡ []) (λ p. IsWalkFrom local.worker local.stripes p.0 p.1 es) }
    ensures place { IfSome result (λ p. is_place local.stripes p.0 p.1 ≡ true) }
{
    let stripes = local.stripes;
    let act = match (local.act, reply) {
        (Act::Look { key }, Reply::Hit { node }) => Act::Offer {
            stripe: local.worker.number() % stripes,
            item: Item { key, node },
        },
        (Act::Look { key }, Reply::Miss) => Act::Put { key },
        (Act::Offer { .. }, Reply::Kept) => Act::AfterRead {
            answer: Answer::Kept,
        },
        (Act::Offer { .. }, Reply::Full) => Act::AfterRead {
            answer: Answer::Full,
        },
        (Act::Put { .. }, Reply::Added { .. } | Reply::Present { .. }) => Act::AfterWrite,
        (Act::Put { .. }, Reply::WritesFull) => Act::Begin,
        (Act::Remove { .. }, Reply::Absent) => return None,
        (Act::Remove { .. }, Reply::Removed { .. }) => Act::AfterWrite,
        (Act::Remove { .. }, Reply::WritesFull) => Act::Begin,
        (Act::AfterRead { .. } | Act::AfterWrite, Reply::Go) => return None,
        (Act::AfterRead { .. } | Act::AfterWrite, Reply::Drain) => Act::Begin,
        (Act::Begin, Reply::Busy) => return None,
        (Act::Begin, Reply::Began) => Act::DrainRead { stripe: 0 },
        (Act::DrainRead { stripe }, Reply::Drained { .. }) => {
            return Some(after_drained(stripes, stripe, local.drained));
        }
        (Act::DrainRead { stripe }, Reply::Empty) => after_stripe(stripes, stripe),
        (Act::DrainWrite, Reply::Applied { .. } | Reply::Cleared { .. }) => Act::DrainWrite,
        (Act::DrainWrite, Reply::Empty | Reply::Enough) => Act::Evict,
        (Act::Evict, Reply::Fits) => Act::End,
        (Act::Evict, _) => Act::Evict,
        (Act::End, _) => return None,
        _ => unreachable!(),
    };
    Some((act, 0))
}

// Past one more item of a stripe.
fn after_drained(stripes: u8, stripe: u8, drained: u8) -> (Act, u8)
    requires stripe { stripe < stripes }
    requires drained { drained < MAX_ITEMS }
    ensures ahead { (w : ℕ) (es : Entries) → MatchBool (drained + 1 == MAX_ITEMS)
        (MatchBool (stripe + 1 == stripes) (IsWriting w stripes es) (IsReading w stripes (stripe + 1) 0 es))
        (IsReading w stripes stripe (drained + 1) es) ↔ IsWalkFrom w stripes result.0 result.1 es }
    ensures place { is_place stripes result.0 result.1 ≡ true }
{
    if usize::from(drained) + 1 == MAX_ITEMS {
        (after_stripe(stripes, stripe), 0)
    } else {
        (Act::DrainRead { stripe }, drained + 1)
    }
}

// Past the last entry of a stripe.
fn after_stripe(stripes: u8, stripe: u8) -> Act
    requires { stripe < stripes }
    ensures ahead { (w : ℕ) (es : Entries) → MatchBool (stripe + 1 == stripes) (IsWriting w stripes es)
        (IsReading w stripes (stripe + 1) 0 es) ↔ IsWalkFrom w stripes result 0 es }
    ensures place { is_place stripes result 0 ≡ true }
{
    if stripe + 1 == stripes {
        Act::DrainWrite
    } else {
        let stripe = stripe + 1;
        Act::DrainRead { stripe }
    }
}

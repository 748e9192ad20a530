//! Walks, step by step.
use super::assertions::assert_equal;
use drive::{Local, Next, next_step};
use std::process::Abort;
use step_record::{Act, Answer, Call, Item, Reply, Worker};

const ITEM: Item = Item { key: 1, node: 0 };

// A miss adds the key and makes a round.
const MISS: [(Act, Reply); 13] = [
    (Act::Look { key: 1 }, Reply::Miss),
    (Act::Put { key: 1 }, Reply::Added { node: 0 }),
    (Act::AfterWrite, Reply::Drain),
    (Act::Begin, Reply::Began),
    (Act::DrainRead { stripe: 0 }, Reply::Drained { item: ITEM }),
    (Act::DrainRead { stripe: 0 }, Reply::Empty),
    (Act::DrainRead { stripe: 1 }, Reply::Empty),
    (Act::DrainWrite, Reply::Applied { item: ITEM }),
    (Act::DrainWrite, Reply::Enough),
    (Act::Evict, Reply::Shifted { item: ITEM }),
    (Act::Evict, Reply::Rejected { item: ITEM }),
    (Act::Evict, Reply::Fits),
    (Act::End, Reply::Idle),
];

// A worker that finds another at the maintenance goes on.
const BUSY: [(Act, Reply); 3] = [
    (Act::Look { key: 1 }, Reply::Miss),
    (Act::Put { key: 1 }, Reply::WritesFull),
    (Act::Begin, Reply::Busy),
];

// A removal makes a round where the key left.
const REMOVAL: [(Act, Reply); 9] = [
    (Act::Remove { key: 1 }, Reply::Removed { node: 0 }),
    (Act::AfterWrite, Reply::Drain),
    (Act::Begin, Reply::Began),
    (Act::DrainRead { stripe: 0 }, Reply::Empty),
    (Act::DrainRead { stripe: 1 }, Reply::Empty),
    (Act::DrainWrite, Reply::Cleared { item: ITEM }),
    (Act::DrainWrite, Reply::Empty),
    (Act::Evict, Reply::Fits),
    (Act::End, Reply::Again),
];

// A hit of worker 63 offers its item to the second of two read buffers.
const HIT: [(Act, Reply); 3] = [
    (Act::Look { key: 1 }, Reply::Hit { node: 0 }),
    (
        Act::Offer {
            stripe: 1,
            item: ITEM,
        },
        Reply::Kept,
    ),
    (
        Act::AfterRead {
            answer: Answer::Kept,
        },
        Reply::Go,
    ),
];

const WALKS: [(Call, &[(Act, Reply)]); 5] = [
    (Call::Read(1), &MISS),
    (Call::Read(1), &BUSY),
    (Call::Remove(1), &REMOVAL),
    (Call::Read(1), &HIT),
    (Call::Remove(1), &[(Act::Remove { key: 1 }, Reply::Absent)]),
];

// Asks for each act of a walk in its turn, and gives it its reply.
fn assert_walk(rt: &impl Abort, worker: Worker, call: Call, walk: &[(Act, Reply)]) {
    let mut local = Some(Local::start(worker, 2, call));
    for (act, reply) in walk {
        let place = local.expect(rt, "a walk that is not over");
        match next_step(place, None) {
            Next::Do(asked, place) => {
                assert_equal(rt, asked, *act);
                assert!(rt; asked.is_answered_by(reply));
                local = match next_step(place, Some(*reply)) {
                    Next::Do(_, place) => Some(place),
                    Next::Done => None,
                };
            }
            Next::Done => panic!(rt; "the walk is over"),
        }
    }
    assert!(rt; local.is_none());
}

#[test]
fn each_walk_asks_for_its_acts(rt: HostRuntime) {
    let worker = Worker::new(63).expect(&rt, "a worker below the limit");
    for (call, walk) in WALKS {
        assert_walk(&rt, worker, call, walk);
    }
}

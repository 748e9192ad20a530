//! Gates that hold calls until all have begun theirs, and gates that see the order of the calls.
use std::alloc::{AllocError, Global};
use std::sync::atomic::AtomicU64;
use std::sync::atomic::Ordering::SeqCst;
use std::thread;
use step_record::Gate;

// Waits until this number is counted. False if that takes too long.
fn comes_to(count: &AtomicU64, wanted: u64) -> bool {
    for _ in 0..1_000_000 {
        if count.load(SeqCst) >= wanted {
            return true;
        }
        thread::yield_now();
    }
    false
}

// Holds each thread's call n, for the first few n, until call n of every thread has begun.
#[derive(Drop)]
pub(crate) struct Hold {
    threads: u64,
    held: u64,
    begun: AtomicU64,
    over: AtomicU64,
    late: AtomicU64,
}

impl Hold {
    pub(crate) fn new(threads: u64, held: u64) -> Hold {
        Hold {
            threads,
            held,
            begun: AtomicU64::new(0),
            over: AtomicU64::new(0),
            late: AtomicU64::new(0),
        }
    }

    // Waits until this number of calls have begun.
    pub(crate) fn wait_for(&self, begun: u64) {
        if !comes_to(&self.begun, begun) {
            self.late.fetch_add(1, SeqCst);
        }
    }

    // How many calls are over.
    pub(crate) fn over(&self) -> u64 {
        self.over.load(SeqCst)
    }

    // Whether a call went on before those that it waits for, since they did not begin for long.
    pub(crate) fn is_late(&self) -> bool {
        self.late.load(SeqCst) > 0
    }
}

impl Gate for Hold {
    fn before(&self, _who: u8, n: u64) {
        self.begun.fetch_add(1, SeqCst);
        if n < self.held && !comes_to(&self.begun, n.wrapping_add(1).wrapping_mul(self.threads)) {
            self.late.fetch_add(1, SeqCst);
        }
    }

    fn after(&self, _who: u8, _n: u64) {
        self.over.fetch_add(1, SeqCst);
    }
}

// So many counts, at zero.
fn zeros(alloc: Global, counts: usize) -> Result<Vec<AtomicU64>, AllocError> {
    let mut zeros = Vec::new(alloc);
    for _ in 0..counts {
        zeros.push(AtomicU64::new(0))?;
    }
    Ok(zeros)
}

// Counts the calls of each thread, and those that came out of turn: call 0 begins and is then over, then call 1.
#[derive(Drop)]
pub(crate) struct Turns {
    calls: Vec<AtomicU64>,
    wrong: AtomicU64,
}

impl Turns {
    pub(crate) fn new(alloc: Global, threads: usize) -> Result<Turns, AllocError> {
        Ok(Turns {
            calls: zeros(alloc, threads)?,
            wrong: AtomicU64::new(0),
        })
    }

    // Beginning or end number `number` of a thread.
    fn called(&self, who: u8, number: u64) {
        if let Some(calls) = self.calls.get(usize::from(who))
            && calls.fetch_add(1, SeqCst) == number
        {
            return;
        }
        self.wrong.fetch_add(1, SeqCst);
    }

    // Whether each thread was seen to begin and to end `calls` calls in turn, and no more.
    pub(crate) fn is_over(&self, calls: u64) -> bool {
        let wanted = calls.wrapping_mul(2);
        self.is_in_turn() && self.calls.iter().all(|calls| calls.load(SeqCst) == wanted)
    }

    // The same, where each thread has its own number of calls.
    pub(crate) fn is_over_each(&self, calls: &[u64]) -> bool {
        let mut pairs = self.calls.iter().zip(calls);
        let each = pairs.all(|(seen, calls)| seen.load(SeqCst) == calls.wrapping_mul(2));
        self.is_in_turn() && each && self.calls.len() == calls.len()
    }

    // Whether no thread was seen to begin or to end a call out of turn.
    fn is_in_turn(&self) -> bool {
        self.wrong.load(SeqCst) == 0
    }
}

impl Gate for Turns {
    fn before(&self, who: u8, n: u64) {
        self.called(who, n.wrapping_mul(2));
    }

    fn after(&self, who: u8, n: u64) {
        self.called(who, n.wrapping_mul(2).wrapping_add(1));
    }
}

// Lets two workers make `calls` calls each, the first all of its own and then the second: the second waits before its
// first call, the first until the second is there, and after its last call until the second is through.
#[derive(Drop)]
pub(crate) struct OneFirst {
    calls: u64,
    first_over: AtomicU64,
    second_begun: AtomicU64,
    second_over: AtomicU64,
    late: AtomicU64,
}

impl OneFirst {
    pub(crate) fn new(calls: u64) -> OneFirst {
        OneFirst {
            calls,
            first_over: AtomicU64::new(0),
            second_begun: AtomicU64::new(0),
            second_over: AtomicU64::new(0),
            late: AtomicU64::new(0),
        }
    }

    // Whether a call went on before those that it waits for, since they did not come for long.
    pub(crate) fn is_late(&self) -> bool {
        self.late.load(SeqCst) > 0
    }

    fn wait_for(&self, count: &AtomicU64, wanted: u64) {
        if !comes_to(count, wanted) {
            self.late.fetch_add(1, SeqCst);
        }
    }
}

impl Gate for OneFirst {
    fn before(&self, who: u8, n: u64) {
        if who == 0 && n == 0 {
            self.wait_for(&self.second_begun, 1);
        }
        if who == 1 {
            self.second_begun.fetch_add(1, SeqCst);
            self.wait_for(&self.first_over, self.calls);
        }
    }

    fn after(&self, who: u8, _n: u64) {
        if who == 1 {
            self.second_over.fetch_add(1, SeqCst);
            return;
        }
        let over = self.first_over.fetch_add(1, SeqCst).wrapping_add(1);
        if over == self.calls {
            self.wait_for(&self.second_over, self.calls);
        }
    }
}

// Counts the calls of several threads that are all worker 0, by their numbers, and those that came out of turn: of each
// number no more are over than have begun, and no more have begun than are over of the number before.
#[derive(Drop)]
pub(crate) struct AllAlike {
    begun: Vec<AtomicU64>,
    over: Vec<AtomicU64>,
    wrong: AtomicU64,
}

impl AllAlike {
    pub(crate) fn new(alloc: Global, calls: usize) -> Result<AllAlike, AllocError> {
        Ok(AllAlike {
            begun: zeros(alloc, calls)?,
            over: zeros(alloc, calls)?,
            wrong: AtomicU64::new(0),
        })
    }

    // Counts a call, of which there may be no more than of an earlier one.
    fn count(&self, calls: &[AtomicU64], n: usize, earlier: Option<&AtomicU64>) {
        let Some(count) = calls.get(n) else {
            self.wrong.fetch_add(1, SeqCst);
            return;
        };
        let counted = count.fetch_add(1, SeqCst).wrapping_add(1);
        if let Some(earlier) = earlier
            && earlier.load(SeqCst) < counted
        {
            self.wrong.fetch_add(1, SeqCst);
        }
    }

    // Whether each call was seen to begin and to end this number of times in turn, and no more.
    pub(crate) fn is_over(&self, times: u64) -> bool {
        let begun = self.begun.iter().all(|count| count.load(SeqCst) == times);
        let over = self.over.iter().all(|count| count.load(SeqCst) == times);
        self.wrong.load(SeqCst) == 0 && begun && over
    }
}

impl Gate for AllAlike {
    fn before(&self, who: u8, n: u64) {
        let n = n as usize;
        self.count(&self.begun, n, self.over.get(n.wrapping_sub(1)));
        if who != 0 {
            self.wrong.fetch_add(1, SeqCst);
        }
    }

    fn after(&self, who: u8, n: u64) {
        let n = n as usize;
        self.count(&self.over, n, self.begun.get(n));
        if who != 0 {
            self.wrong.fetch_add(1, SeqCst);
        }
    }
}

//! How many accesses of a trace have each stack distance.
ghost use Rattle.std.specs.Prelude.{◌≡◌, ◌+◌, ◌<◌, ◌≤◌, ℕ, [], length, slice_index, IfOk, OnOk};
ghost use Rattle.engine_base.specs.declared.limits.TheConstants.{MAX_ACCESSES};
ghost use Rattle.queue_cache.specs.Histogram.{IsHistogram, IsNoted, count_at};

use crate::marks::Marks;
use engine_base::Key;
use std::alloc::{AllocError, Global};
use trace_index::KeyPlaces;

/// How many accesses are read ahead at once.
const STRETCH: usize = 64;

/// The histogram of the stack distances of the accesses so far.
///
/// The place of each key's last access has a mark. So an access to a key whose last place is p has for its distance the
/// number of distinct keys less the marks below p; its mark then goes from p to the new place.
#[derive(Drop)]
pub(crate) struct Histogram {
    // The place of each key's last access.
    last: KeyPlaces,
    // A mark at each of these places.
    marks: Marks,
    // At d - 1, how many accesses have the distance d, less those that are noted; as many as there are distinct keys.
    counts: Vec<u32>,
    // Where one more is to be counted. Each count lies far from the last one, and where many are added to at once the
    // processor overlaps the reads.
    noted: Vec<usize>,
    // A sum over what `read_stretch` read, kept so that the compiler cannot drop the reads.
    read: u64,
}

impl Histogram {
    /// The histogram of no access, with room for those of a trace. The only error is out of memory.
    pub(crate) fn new(alloc: Global, keys: &[Key]) -> Result<Histogram, AllocError>
        requires { length keys.now ≤ MAX_ACCESSES }
        ensures { IfOk result (λ h. IsHistogram keys.now 0 h) }
    {
        let noted = Vec::with_capacity(alloc, STRETCH)?;
        let marks = Marks::new(alloc, keys.len())?;
        Ok(Histogram {
            last: KeyPlaces::new(alloc),
            marks,
            counts: Vec::new(alloc),
            noted,
            read: 0,
        })
    }

    /// Adds, at the first of each stretch of accesses, the distances of the last one to the counts, and reads what
    /// those of the stretch read first: the places of their keys, and the marks there. Unlike the reads of `access`,
    /// these do not depend on one another, so the processor overlaps them.
    #[inline(always)]
    pub(crate) fn begin_access(&mut self, keys: &[Key], place: usize)
        requires few { length keys.now ≤ MAX_ACCESSES }
        requires counted { IsHistogram keys.now place self.old }
        ensures { IsHistogram keys.now place self.new }
    {
        if place % STRETCH == 0 {
            count_noted(&mut self.counts, &mut self.noted);
            self.read_stretch(keys, place);
        }
    }

    /// Counts the distance of the next access of the trace, the one at `place`. The only error is out of memory, after
    /// which the histogram counts nothing more.
    pub(crate) fn access(&mut self, keys: &[Key], place: usize) -> Result<(), AllocError>
        requires next { place < length keys.now }
        requires few { length keys.now ≤ MAX_ACCESSES }
        requires counted { IsHistogram keys.now place self.old }
        ensures { OnOk result (IsHistogram keys.now (place + 1) self.new) }
    {
        self.marks.put(place)?;
        match self.last.put(keys[place], place as u32)? {
            None => {
                self.counts.push(0)?;
                Ok(())
            }
            Some(before) => {
                let before = before as usize;
                let distance = self.counts.len() - self.marks.below(before) as usize;
                self.noted.push(distance - 1)?;
                self.marks.take(before);
                Ok(())
            }
        }
    }

    /// How many accesses have each distance: at d - 1 those of distance d, up to the number of distinct keys.
    pub(crate) fn into_counts(mut self) -> Vec<u32>
        requires { IsNoted self.counts.items self.noted.items }
        ensures len { length result.items ≡ length self.counts.items }
        ensures counts { (d : ℕ) → slice_index result.items d ≡ count_at self.counts.items self.noted.items d }
    {
        count_noted(&mut self.counts, &mut self.noted);
        self.counts
    }

    #[inline(never)]
    fn read_stretch(&mut self, keys: &[Key], from: usize)
        ensures last { self.new.last ≡ self.old.last }
        ensures marks { self.new.marks ≡ self.old.marks }
        ensures counts { self.new.counts ≡ self.old.counts }
        ensures noted { self.new.noted ≡ self.old.noted }
    {
        let mut read = 0;
        for place in from..keys.len().min(from.saturating_add(STRETCH)) {
            if let Some(before) = self.last.in_table(keys[place]) {
                read ^= self.marks.word_of(before as usize);
            }
        }
        self.read ^= read;
    }
}

// Counts one more at each place that was noted.
fn count_noted(counts: &mut Vec<u32>, noted: &mut Vec<usize>)
    requires { IsNoted counts.old.items noted.old.items }
    ensures len { length counts.new.items ≡ length counts.old.items }
    ensures counts { (d : ℕ) → slice_index counts.new.items d ≡ count_at counts.old.items noted.old.items d }
    ensures none { noted.new.items ≡ [] }
{
    while let Some(place) = noted.pop() {
        counts[place] += 1;
    }
}

//! Approximate access frequencies.
ghost use Rattle.std.specs.Prelude.{◌≡◌, ◌<◌, ◌≤◌, ◌+◌, ◌-◌, ◌^◌, ◌*◌, ◌++◌, ◌∷◌, List, [], ℕ, nat_lt, cond, Some};
ghost use Rattle.std.specs.Prelude.{IfOk, OnOk, OnErr, true, ◌&&◌};
ghost use Rattle.engine_base.specs.declared.limits.TheConstants.{MAX_CAPACITY};
ghost use Rattle.admission.specs.Shape.{Shape, IsSized};
ghost use Rattle.admission.specs.Frequency.{IsFrequencyOf, frequency_of, marked, faded, frequency_with, halves};
ghost use Rattle.admission.specs.Frequency.{halving_words, IsOpenFrequencyOf, ages, halved_age};
ghost use Rattle.std.specs.Int.{IsPowerOfTwo};
ghost use Rattle.sketch.specs.Sketch.{least_counter};
ghost use Rattle.admission.specs.Frequency.{estimate as estimate_of};
ghost use Rattle.admission.specs.FreqRecord.{frequency_record, record_of, mark_of, lost_of};
ghost use Rattle.admission.specs.FreqRecord.{frequency_before, FitsRecord, unmarked, FitsMark, unaged, FitsAging};
ghost use Rattle.admission.specs.FreqRecord.{unfaded, FitsFade, size_of, has_aged};

use crate::door_record::DoorRecord;
use crate::doorkeeper::Doorkeeper;
use crate::freq_record::{FreqRecord, Halving, Mark};
use crate::shape::{size_for, width_for};
use engine_base::{Key, Spread};
use sketch::{Sketch, TouchRecord};
use std::alloc::{AllocError, Global};
use std::marker::Model;

/// Approximate access frequencies: a sketch behind a doorkeeper, both aged by halving. Contracts see the capacity, the
/// table of the sketch, the doorkeeper, the age and the halvings.
pub struct Frequency {
    capacity: u32,
    sketch: Sketch,
    door: Doorkeeper,
    age: u32,
    halvings: u64,
}

impl Drop for Frequency {
    fn drop(self) {
        let Frequency {
            capacity: _,
            sketch: _,
            door: _,
            age: _,
            halvings: _,
        } = self;
    }
}

impl Model for Frequency {
    ghost use Rattle.engine_base.specs.declared.limits.TheConstants.{MAX_CAPACITY};
    ghost use Rattle.std.specs.Prelude.{◌≤◌, ◌<◌, ◌*◌};
    ghost use Rattle.admission.specs.Frequency.{FrequencyData};

    ghost Value = { FrequencyData };

    ghost view = { λ f. record {
      capacity = f.capacity;
      table = f.sketch;
      door = f.door;
      age = f.age;
      halvings = f.halvings;
    } };

    ghost invariant = { λ f. (1 ≤ f.capacity) × (f.capacity ≤ MAX_CAPACITY) × (f.age < 10 * f.capacity) };
}

impl Frequency {
    /// The frequency of no key, for a cache of 1 to `MAX_CAPACITY` entries. The one error is out of memory.
    pub fn new(alloc: Global, capacity: u32, spread: Spread) -> Result<Frequency, AllocError>
        requires some { 1 ≤ capacity }
        requires few { capacity ≤ MAX_CAPACITY }
        ensures { IfOk result (λ f. IsFrequencyOf capacity spread [] f) }
    {
        let width = width_for(capacity);
        let size = size_for(capacity);
        Ok(Frequency {
            capacity,
            sketch: Sketch::new(alloc, width, spread)?,
            door: Doorkeeper::new(alloc, size, spread)?,
            age: 0,
            halvings: 0,
        })
    }

    /// The same without a doorkeeper, so that each record touches the key's counters, and with `columns` columns in
    /// each row of the sketch for each entry, a power of two up to 4. It ages as Caffeine's does: a key of which no
    /// counter rises does not age it, and a halving takes a fourth of the odd counters off the age before it is halved.
    /// The one error is out of memory.
    pub fn without_doorkeeper(
        alloc: Global,
        capacity: u32,
        spread: Spread,
        columns: u32,
    ) -> Result<Frequency, AllocError>
        requires some { 1 ≤ capacity }
        requires few { capacity ≤ MAX_CAPACITY }
        requires power { IsPowerOfTwo columns }
        requires columns { columns ≤ 4 }
        ensures { IfOk result (λ f. IsOpenFrequencyOf columns capacity spread [] f) }
    {
        let width = columns * width_for(capacity);
        Ok(Frequency {
            capacity,
            sketch: Sketch::new(alloc, width, spread)?,
            door: Doorkeeper::of_no_bits(alloc, spread),
            age: 0,
            halvings: 0,
        })
    }

    /// Records a key, and returns what it takes to undo that. A key whose three bits in the doorkeeper are not all
    /// set gets them set, another one has its four counters touched; the age rises by 1, and at ten times the capacity
    /// all counters are halved, the doorkeeper is emptied and the age is halved. Without a doorkeeper a key of which no
    /// counter rose does not age, and a fourth of the odd counters is taken off the age before it is halved. The one
    /// error is out of memory for a halving; nothing is changed then.
    #[inline(always)]
    pub fn record(&mut self, key: Key) -> Result<FreqRecord, AllocError>
        requires { self.old.halvings < 2 ^ 64 - 1 }
        ensures after { OnOk result (self.new ≡ frequency_with key self.old) }
        ensures record_is { IfOk result (λ r. r ≡ frequency_record key self.old) }
        ensures fits { IfOk result (λ r. FitsRecord r self.new) }
        ensures undone { IfOk result (λ r. frequency_before r self.new ≡ self.old) }
        ensures size { IfOk result (λ r. size_of r
            ≡ cond (ages key self.old && halves self.old) (halving_words self.old) 0) }
        ensures err { OnErr result (self.new ≡ self.old) }
        ensures memory { OnErr result (halves self.old ≡ true) }
        ensures ageing { OnErr result (ages key self.old ≡ true) }

        // Of the frequency of a list of keys it makes that of the list with the key at its end.
        ensures appends { (s : Shape) (keys : List ℕ) → IsSized s → self.old ≡ frequency_of s keys
            → OnOk result (self.new ≡ frequency_of s (keys ++ key ∷ [])) }
    {
        // Inlined, so that what a caller does not read of the record is not written; the halving is apart, as it is
        // rare.
        let mark = self.mark(key);
        if !self.has_aged(&mark) {
            return Ok(mark.record());
        }
        if self.age + 1 == 10 * self.capacity {
            return self.end_sample(mark);
        }
        self.age += 1;
        Ok(mark.record())
    }

    /// Records a key as `record` does, and makes no undo record. The one error is out of memory for a halving; nothing
    /// is changed then.
    #[inline(always)]
    pub fn count(&mut self, key: Key) -> Result<(), AllocError>
        requires { self.old.halvings < 2 ^ 64 - 1 }
        ensures after { OnOk result (self.new ≡ frequency_with key self.old) }
        ensures memory { OnErr result (halves self.old ≡ true) }
        ensures ageing { OnErr result (ages key self.old ≡ true) }
        ensures err { OnErr result (self.new ≡ self.old) }
    {
        // Only where the key may fill the sample is its mark kept, until it is sure that there is memory for the
        // halving.
        if self.age + 1 == 10 * self.capacity {
            return self.count_last(key);
        }
        let mark = self.mark(key);
        if self.has_aged(&mark) {
            self.age += 1;
        }
        Ok(())
    }

    // The same for a key that may fill the sample.
    #[cold]
    #[inline(never)]
    fn count_last(&mut self, key: Key) -> Result<(), AllocError>
        requires { self.old.halvings < 2 ^ 64 - 1 }
        ensures after { OnOk result (self.new ≡ frequency_with key self.old) }
        ensures memory { OnErr result (halves self.old ≡ true) }
        ensures ageing { OnErr result (ages key self.old ≡ true) }
        ensures err { OnErr result (self.new ≡ self.old) }
    {
        let _ = self.record(key)?;
        Ok(())
    }

    /// Undoes the recording of a key. The record has to fit, as that of the last recording that is not undone does.
    pub fn unrecord(&mut self, done: FreqRecord)
        requires { FitsRecord done self.old }
        ensures { self.new ≡ frequency_before done self.old }
    {
        match done {
            FreqRecord::Nothing => {}
            FreqRecord::Put { set, key } => {
                self.age -= 1;
                self.door.unput(DoorRecord { key, set });
            }
            FreqRecord::Touch { rose, key } => {
                let done = TouchRecord { key, rose };
                if self.has_aged(&Mark::Touch(done)) {
                    self.age -= 1;
                }
                self.sketch.untouch(done);
            }
            FreqRecord::HalvedPut { set, key, lost } => {
                self.unend_sample(lost);
                self.door.unput(DoorRecord { key, set });
            }
            FreqRecord::HalvedTouch { rose, key, lost } => {
                self.unend_sample(lost);
                self.sketch.untouch(TouchRecord { key, rose });
            }
        }
    }

    /// A key's approximate frequency: the least of its four counters, and 1 more if the doorkeeper has it, as one of no
    /// bits has every key.
    pub fn estimate(&self, key: Key) -> u8
        ensures value { result ≡ estimate_of key self.now }
    {
        let known = self.door.has(key);
        let least = self.sketch.least(key);
        least + known as u8
    }

    /// The least of a key's four counters: its estimate where the doorkeeper is left out.
    pub fn least(&self, key: Key) -> u8
        ensures { result ≡ least_counter key self.now.table }
    {
        self.sketch.least(key)
    }

    /// Works out what the estimate of a key is read by, and keeps it until another key is prepared. Changes nothing that
    /// a caller can see, and pays for a key that stays the victim of several admissions.
    pub fn prepare(&mut self, key: Key)
        ensures { self.new ≡ self.old }
    {
        self.door.prepare(key);
        self.sketch.prepare(key);
    }

    /// Whether the candidate is estimated above the victim. A tie admits nobody.
    pub fn admits(&self, candidate: Key, victim: Key) -> bool
        ensures { result ≡ nat_lt (estimate_of victim self.now) (estimate_of candidate self.now) }
    {
        let most = self.estimate(candidate);
        // For most candidates that came once, the victim's bits alone decide.
        let known = self.door.has(victim) as u8;
        if most <= known {
            return false;
        }
        self.sketch.least(victim) + known < most
    }

    /// How many of the recorded keys aged it, less what halvings took off.
    pub fn age(&self) -> u32
        ensures { result ≡ self.now.age }
    {
        self.age
    }

    /// How many halvings there were.
    pub fn halvings(&self) -> u64
        ensures { result ≡ self.now.halvings }
    {
        self.halvings
    }

    /// The sketch.
    pub fn sketch(&self) -> &Sketch
        ensures { result.now ≡ self.now.table }
    {
        &self.sketch
    }

    /// The doorkeeper.
    pub fn doorkeeper(&self) -> &Doorkeeper
        ensures { result.now ≡ self.now.door }
    {
        &self.door
    }

    // Sets a key's bits, or touches its counters where its bits are set.
    #[inline(always)]
    fn mark(&mut self, key: Key) -> Mark
        ensures after { self.new ≡ marked key self.old }
        ensures record_is { result ≡ mark_of key self.old }
        ensures fits { FitsMark result self.new }
        ensures undone { unmarked result self.new ≡ self.old }
        ensures ages { has_aged result self.new ≡ ages key self.old }
    {
        match self.door.note(key) {
            Some(done) => Mark::Put(done),
            None => Mark::Touch(self.sketch.touch(key)),
        }
    }

    // Whether the key that left the mark aged.
    #[inline(always)]
    fn has_aged(&self, mark: &Mark) -> bool
        ensures { result ≡ has_aged mark.now self.now }
    {
        match mark {
            Mark::Put(_) => true,
            Mark::Touch(done) => self.door.has_bits() || done.has_risen(),
        }
    }

    // The age that a halving leaves.
    fn halved_age(&self) -> u32
        ensures value { result ≡ halved_age self.now }
        ensures young { result ≤ 5 * self.now.capacity }
    {
        if self.door.has_bits() {
            return 5 * self.capacity;
        }
        (10 * self.capacity).saturating_sub(self.sketch.odd_counters() / 4) / 2
    }

    // The key that left the mark fills the sample: the counters are halved and the doorkeeper is emptied, or the mark
    // is taken back if that is out of memory.
    #[cold]
    #[inline(never)]
    fn end_sample(&mut self, mark: Mark) -> Result<FreqRecord, AllocError>
        requires full { self.old.age + 1 ≡ 10 * self.old.capacity }
        requires few { self.old.halvings < 2 ^ 64 - 1 }
        requires mark { FitsMark mark self.old }
        requires aged { has_aged mark self.old ≡ true }
        ensures after { OnOk result (self.new ≡ record (faded self.old)
            { age = halved_age self.old; halvings = self.old.halvings + 1 }) }
        ensures record_is { IfOk result (λ r. r ≡ record_of mark (Some (lost_of self.old))) }
        ensures fits { IfOk result (λ r. FitsRecord r self.new) }
        ensures undone { IfOk result (λ r. frequency_before r self.new ≡ unmarked mark self.old) }
        ensures err { OnErr result (self.new ≡ unmarked mark self.old) }
    {
        let age = self.halved_age();
        match self.fade() {
            Ok(lost) => {
                self.age = age;
                self.halvings += 1;
                Ok(mark.halved(lost))
            }
            Err(AllocError) => {
                self.unmark(mark);
                Err(AllocError)
            }
        }
    }

    fn unmark(&mut self, mark: Mark)
        requires { FitsMark mark self.old }
        ensures { self.new ≡ unmarked mark self.old }
    {
        match mark {
            Mark::Put(done) => self.door.unput(done),
            Mark::Touch(done) => self.sketch.untouch(done),
        }
    }

    // Undoes a halving, and the count of the key that brought it.
    fn unend_sample(&mut self, lost: Halving)
        requires { FitsAging lost self.old }
        ensures { self.new ≡ unaged lost self.old }
    {
        self.unfade(lost);
        self.halvings -= 1;
        self.age = 10 * self.capacity - 1;
    }

    // Halves the counters and empties the doorkeeper, or neither.
    fn fade(&mut self) -> Result<Halving, AllocError>
        ensures after { OnOk result (self.new ≡ faded self.old) }
        ensures record_is { IfOk result (λ r. r ≡ lost_of self.old) }
        ensures fits { IfOk result (λ r. FitsFade r self.new) }
        ensures undone { IfOk result (λ r. unfaded r self.new ≡ self.old) }
        ensures err { OnErr result (self.new ≡ self.old) }
    {
        let counters = self.sketch.halve()?;
        match self.door.clear() {
            Ok(door) => Ok(Halving { counters, door }),
            Err(AllocError) => {
                self.sketch.unhalve(counters);
                Err(AllocError)
            }
        }
    }

    fn unfade(&mut self, lost: Halving)
        requires { FitsFade lost self.old }
        ensures { self.new ≡ unfaded lost self.old }
    {
        let Halving { counters, door } = lost;
        self.sketch.unhalve(counters);
        self.door.restore(door);
    }
}

//! Four rows of counters up to 15.
ghost use Rattle.std.specs.Prelude.{◌≡◌, ◌<◌, ◌≤◌, ◌*◌, min, slice_index, ℕ, IfOk, OnOk, OnErr};
ghost use Rattle.std.specs.Int.{IsPowerOfTwo};
ghost use Rattle.sketch.specs.declared.columns.TheConstants.{MAX_WIDTH};
ghost use Rattle.engine_base.specs.Places.{by_place};
ghost use Rattle.sketch.specs.Columns.{column as column_of};
ghost use Rattle.sketch.specs.Sketch.{counter as counter_of, touched_table, halved_table, least_counter as least_of};
ghost use Rattle.sketch.specs.Sketch.{odd_counters as odd_counters_of};
ghost use Rattle.sketch.specs.TouchRecord.{touch_record_of, table_before_touch, FitsTouch};
ghost use Rattle.sketch.specs.HalveRecord.{halve_record_of, table_before_halving, FitsHalve};

use crate::columns::columns;
use crate::counters::get;
use crate::halve_record::HalveRecord;
use crate::laws::{halve_words, odd_counters, unhalve_words};
use crate::rows::{lower_rows, raise_rows};
use crate::touch_record::{RaisedRows, TouchRecord};
use engine_base::{BitList, Key, Spread};
use std::alloc::{AllocError, Global};
use std::marker::Model;

/// Four rows of counters from 0 to 15. Contracts see a table: the width, the spread and the list of the counters, row
/// after row.
#[derive(Drop)]
pub struct Sketch {
    width: u32,
    spread: Spread,
    words: Vec<u64>,
    alloc: Global,
    // The key that was touched last and its least, which the question after it asks for. The least is None where no
    // touch came, or where anything was undone or halved since.
    last: Key,
    last_least: Option<u8>,
    // The key that was prepared last, whose least is asked for again and again, and its columns.
    prepared: Key,
    prepared_columns: [u32; 4],
}

impl Model for Sketch {
    ghost use Rattle.std.specs.Prelude.{◌≡◌, ◌≤◌, ◌*◌, ◌/◌, length, IfSome};
    ghost use Rattle.sketch.specs.Sketch.{Table, least_counter as least_of};
    ghost use Rattle.engine_base.specs.Places.{by_place};
    ghost use Rattle.sketch.specs.Counters.{counter_at};
    ghost use Rattle.sketch.specs.Columns.{column as column_of};
    ghost use Rattle.std.specs.Int.{IsPowerOfTwo};
    ghost use Rattle.sketch.specs.declared.columns.TheConstants.{MAX_WIDTH};

    ghost Value = { Table };

    ghost view = { λ s. record {
      width = s.width;
      spread = s.spread;
      counters = by_place (4 * s.width) (counter_at s.words.items);
    } };

    ghost invariant = { λ s. (16 ≤ s.width) × (s.width ≤ MAX_WIDTH) × (s.width ≡ 4 * length s.words.items)
        × (s.width ≡ 16 * (s.width / 16)) × IsPowerOfTwo s.width
        × IfSome s.last_least (λ n. n ≡ least_of s.last
        record {
          width = s.width;
          spread = s.spread;
          counters = by_place (4 * s.width)
              (counter_at s.words.items);
        }) × (s.prepared_columns ≡ by_place 4 (λ row. column_of s.spread s.prepared row s.width)) };
}

impl Sketch {
    /// A sketch of four rows of `width` columns, a power of two from 16 to `MAX_WIDTH`, with all counters 0. The one error is
    /// out of memory. The allocator is kept for the records of halvings.
    pub fn new(alloc: Global, width: u32, spread: Spread) -> Result<Sketch, AllocError>
        requires power { IsPowerOfTwo width }
        requires low { 16 ≤ width }
        requires high { width ≤ MAX_WIDTH }
        ensures { IfOk result (λ s. s
            ≡ record { width = width; spread = spread; counters = by_place (4 * width) (λ i. 0) }) }
    {
        let words = vec![in alloc; 0; (width / 4) as usize]?;
        Ok(Sketch {
            width,
            spread,
            words,
            alloc,
            last: 0,
            last_least: None,
            prepared: 0,
            prepared_columns: columns(spread, 0, width),
        })
    }

    /// The counter in a row below 4 and a column below the width.
    pub fn counter(&self, row: u32, col: u32) -> u8
        requires row { row < 4 }
        requires col { col < self.now.width }
        ensures value { result ≡ counter_of self.now row col }
        ensures small { result ≤ 15 }
    {
        self.count(row, col) as u8
    }

    // The counter as a number of the width that the processor compares.
    fn count(&self, row: u32, col: u32) -> u32
        requires row { row < 4 }
        requires col { col < self.now.width }
        ensures value { result ≡ counter_of self.now row col }
        ensures small { result ≤ 15 }
    {
        get(&self.words, (row * self.width + col) as usize)
    }

    /// Raises the key's four counters, each unless it is 15, and returns the undo record: which of them rose.
    #[inline(always)]
    pub fn touch(&mut self, key: Key) -> TouchRecord
        ensures after { self.new ≡ touched_table key self.old }
        ensures record_is { result ≡ touch_record_of key self.old }
        ensures fits { FitsTouch result self.new }
        ensures undone { table_before_touch result self.new ≡ self.old }
    {
        let columns = columns(self.spread, key, self.width);
        let were = raise_rows(&mut self.words, self.width, columns);
        // Each of the four rose, but for those that were 15.
        let least = least_of_four(were).min(14) + 1;
        self.last = key;
        self.last_least = Some(least as u8);
        let rose = RaisedRows {
            row_0: were[0] < 15,
            row_1: were[1] < 15,
            row_2: were[2] < 15,
            row_3: were[3] < 15,
        };
        TouchRecord { key, rose }
    }

    /// Undoes a touch: lowers the counters that it raised, and no other. The record has to fit, as that of the last
    /// touch or halving that is not undone does.
    pub fn untouch(&mut self, done: TouchRecord)
        requires { FitsTouch done self.old }
        ensures { self.new ≡ table_before_touch done self.old }
    {
        self.last_least = None;
        lower_rows(&mut self.words, self.width, self.spread, &done);
    }

    /// Floors each counter to its half, and returns the undo record: the bits that are lost. The one error is out of
    /// memory for them; nothing is changed then.
    pub fn halve(&mut self) -> Result<HalveRecord, AllocError>
        ensures after { OnOk result (self.new ≡ halved_table self.old) }
        ensures record_is { IfOk result (λ r. r ≡ halve_record_of self.old) }
        ensures fits { IfOk result (λ r. FitsHalve r self.new) }
        ensures undone { IfOk result (λ r. table_before_halving r self.new ≡ self.old) }
        ensures err { OnErr result (self.new ≡ self.old) }
    {
        let mut lost = vec![in self.alloc; 0; self.words.len() / 4]?;
        self.last_least = None;
        halve_words(&mut self.words, &mut lost);
        Ok(HalveRecord {
            lost: BitList::of_words(lost),
        })
    }

    /// How many of its counters are odd: as many as a halving loses bits that are set.
    pub fn odd_counters(&self) -> u32
        ensures { result ≡ odd_counters_of self.now }
    {
        odd_counters(&self.words)
    }

    /// Undoes a halving: doubles each counter and adds the bit that it lost. The record has to fit, as that of the
    /// last touch or halving that is not undone does.
    pub fn unhalve(&mut self, done: HalveRecord)
        requires { FitsHalve done self.old }
        ensures { self.new ≡ table_before_halving done self.old }
    {
        self.last_least = None;
        unhalve_words(&mut self.words, done.lost.as_words());
    }

    /// Works out what the least of the key's counters is read by, and keeps it until another key is prepared. Changes
    /// nothing that a caller can see.
    pub fn prepare(&mut self, key: Key)
        ensures { self.new ≡ self.old }
    {
        if key != self.prepared {
            self.prepared = key;
            self.prepared_columns = columns(self.spread, key, self.width);
        }
    }

    /// The least of the key's four counters.
    pub fn least(&self, key: Key) -> u8
        ensures value { result ≡ least_of key self.now }
        ensures small { result ≤ 15 }
    {
        match self.last_least {
            Some(least) if key == self.last => least,
            _ => self.counted_least(key),
        }
    }

    // The least of the key's four counters, read at its columns.
    fn counted_least(&self, key: Key) -> u8
        ensures value { result ≡ least_of key self.now }
        ensures small { result ≤ 15 }
    {
        let columns = self.columns_of(key);
        let a = self.count(0, columns[0]);
        let b = self.count(1, columns[1]);
        let c = self.count(2, columns[2]);
        let d = self.count(3, columns[3]);
        least_of_four([a, b, c, d]) as u8
    }

    // The key's column in each row.
    #[inline(always)]
    fn columns_of(&self, key: Key) -> [u32; 4]
        ensures value { result ≡ by_place 4 (λ row. column_of self.now.spread key row self.now.width) }
        ensures below { (row : ℕ) → row < 4 → slice_index result row < self.now.width }
    {
        if key == self.prepared {
            self.prepared_columns
        } else {
            columns(self.spread, key, self.width)
        }
    }
}

fn least_of_four(counters: [u32; 4]) -> u32
    ensures { result ≡ min (min (slice_index counters 0) (slice_index counters 1))
        (min (slice_index counters 2) (slice_index counters 3)) }
{
    let [a, b, c, d] = counters;
    a.min(b).min(c.min(d))
}

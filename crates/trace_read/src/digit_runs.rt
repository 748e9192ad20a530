//! Runs of digits and what ends them, 64 bytes at a time.
ghost use Rattle.std.specs.Prelude.{◌≡◌, ◌↔◌, ◌≤◌, ◌+◌, ◌-◌, IfSome, IsTrue, None, get_or, length, map, take};
ghost use Rattle.std.specs.Simd.Lanes.{mask_l};
ghost use Rattle.trace_read.specs.DigitRuns.{is_other, DigitsBetween, HasUpTo, IsDigitRuns, IsNextRun, IsLineEnd};

use crate::digits::SHORT_DIGITS;
use std::simd::prelude::*;

// How many bytes are looked at at once.
const BLOCK: usize = 64;

/// How many bytes stand after the end of each run that is found: a word that begins in the run may reach past it.
pub const BEHIND: usize = 16;

/// The range of a run of digits, possibly empty: its first byte, and the byte after its last.
#[derive(Clone, Copy)]
pub struct DigitRun {
    pub start: usize,
    pub end: usize,
}

impl DigitRun {
    /// Whether there are one to `SHORT_DIGITS` digits.
    #[inline(always)]
    pub fn is_short(self) -> bool
        requires { self.start ≤ self.end }
        ensures { IsTrue result ↔ HasUpTo SHORT_DIGITS self }
    {
        (self.end - self.start).wrapping_sub(1) < SHORT_DIGITS
    }
}

/// Goes through the runs of digits of some bytes, each of which ends at a byte that is not a digit, but for those
/// that end in the last few bytes. The ends within 64 bytes are found at once, so that no run waits for the one
/// before it to be read.
#[derive(Clone, Copy, Drop)]
pub struct DigitRuns<'a> {
    pub bytes: &'a [u8],
    /// Where the next run begins.
    pub start: usize,
    // A bit for each byte between these two places: whether it is not a digit. Between `start` and `from` all are
    // digits.
    from: usize,
    to: usize,
    others: u64,
}

/// Where a line ends, and the runs after it.
#[derive(Clone, Copy, Drop)]
pub struct LineEnd<'a> {
    pub end: usize,
    pub runs: DigitRuns<'a>,
}

impl<'a> DigitRuns<'a> {
    /// Begins at this place.
    pub fn at(bytes: &'a [u8], start: usize) -> DigitRuns<'a>
        requires { start ≤ length bytes.now }
        ensures runs { IsDigitRuns result }
        ensures bytes { result.bytes.now ≡ bytes.now }
        ensures start { result.start ≡ start }
    {
        DigitRuns {
            bytes,
            start,
            from: start,
            to: start,
            others: 0,
        }
    }

    /// The next run; `None` where it ends in the last few bytes.
    #[inline(always)]
    pub fn next(&mut self) -> Option<DigitRun>
        requires { IsDigitRuns self.old }
        ensures runs { IsDigitRuns self.new }
        ensures bytes { self.new.bytes.now ≡ self.old.bytes.now }
        ensures start { IfSome result (λ r. (r.start ≡ self.old.start) × (self.new.start ≡ r.end + 1)) }
        ensures within { IfSome result (λ r. (r.start ≤ r.end) × (r.end + BEHIND ≤ length self.old.bytes.now)) }
        ensures digits { IfSome result (λ r. DigitsBetween self.old.bytes.now r.start r.end) }
        ensures none { result ≡ None → self.new.start ≡ self.old.start }
    {
        'words: while self.others == 0 {
            if self.bytes.len() - self.to < BLOCK + BEHIND {
                return None;
            }
            self.others = others_in(&self.bytes[self.to..]);
            self.from = self.to;
            self.to += BLOCK;
        }
        let skipped = self.others.trailing_zeros();
        let run = DigitRun {
            start: self.start,
            end: self.from + skipped as usize,
        };
        self.others = self.others >> skipped >> 1;
        self.start = run.end + 1;
        self.from = self.start;
        Some(run)
    }

    /// The end of the line that this run, the one before these, is in; `None` where it is in the last few bytes.
    #[inline(always)]
    pub fn line_end(self, run: DigitRun) -> Option<LineEnd<'a>>
        requires { IsNextRun self.bytes.now run self }
        ensures line { IfSome result (IsLineEnd self.entry.bytes.now run.start) }
        ensures past { IfSome result (λ l. run.end ≤ l.end) }
    {
        let mut end = run.end;
        let mut runs = self;
        'runs: while runs.bytes[end] != b'\n' {
            let Some(next) = runs.next() else {
                return None;
            };
            end = next.end;
        }
        Some(LineEnd { end, runs })
    }
}

/// Whether these two bytes stand at this place.
#[inline(always)]
pub fn are_at(bytes: &[u8], place: usize, first: u8, second: u8) -> bool
    requires { place + 2 ≤ length bytes.now }
    ensures { IsTrue result → (get_or bytes.now place 0 ≡ first) × (get_or bytes.now (place + 1) 0 ≡ second) }
{
    u16::from_le_bytes([bytes[place], bytes[place + 1]]) == u16::from_le_bytes([first, second])
}

// The bytes that are not digits among the first 64: a bit for each byte, the lowest for the first.
#[inline(always)]
fn others_in(bytes: &[u8]) -> u64
    requires { 64 ≤ length bytes.now }
    ensures { result ≡ mask_l (map is_other (take 64 bytes.now)) }
{
    (u8x64::from_slice(bytes) - u8x64::splat(b'0'))
        .simd_ge(u8x64::splat(10))
        .to_bitmask()
}

//! The lines of a trace file, one after another, as its bytes come in.
ghost use Rattle.std.specs.Prelude.{◌≡◌, ◌↔◌, ◌≤◌, ◌<◌, ◌+◌, ◌-◌, ◌^◌, ◌++◌, ◌⊎◌, ℕ, List, [], Some, None, OnOk};
ghost use Rattle.std.specs.Prelude.{IfOk, IfErr, IfSome, IsTrue, MatchOption, length, take, drop, vec_len};
ghost use Rattle.trace_read.specs.DigitRuns.{IsNextRun};
ghost use Rattle.trace_read.specs.UsualLine.{AreFourStars, BeginsUsual, IsLongRun, IsStarLine, IsUsualLine};
ghost use Rattle.trace_read.specs.TraceText.{fault_within, keys_in, line_keys, IsOfLine, IsRead, IsTraceRefused, IsStopped};
ghost use Rattle.trace_read.specs.Pending.{pending_count, pending_keys};
ghost use Rattle.trace_read.specs.ScanState.{fault_ahead, keys_ahead, AreLinesTaken, CanTakeFrom, IsLastEnded, IsLineGiven, IsNextEnded, IsRefusedFrom, IsSameLine, IsScan, IsTaken, IsTakenUpTo};
ghost use Rattle.streams.specs.Feeds.{feed_in};

use super::TraceFault;
use super::arc::{BlockRun, UsualLine, add_arc_line, long_run, push_reserved_run, usual_run};
use super::digit_runs::{DigitRun, DigitRuns, are_at};
use super::digits::{MAX_DIGITS, first_word};
use super::format::Format;
use super::lirs::{add_lirs_line, usual_number};
use super::pending::Pending;
use engine_base::Key;
use std::alloc::Global;
use std::mem;
use streams::place_of;

/// What a scan took of some bytes: so many from the front, up to behind a line of many accesses where there are some of
/// these.
#[derive(Drop)]
pub struct Taken {
    pub bytes: usize,
    pub run: Pending,
}

/// A scan of the lines of a trace file, whose bytes come in pieces. It keeps no byte but those of
/// the line that the last piece cut in two.
///
/// What it says is what the whole file comes to, for each list of bytes that may still follow: so
/// no contract names the bytes that it took.
pub struct Scan {
    alloc: Global,
    format: Format,
    // The most accesses that the file may have.
    max_accesses: usize,
    // The accesses that were read and not handed over yet; how many were, with those of lines of many.
    keys: Vec<Key>,
    handed_on: usize,
    // The number of the line that comes to its end next.
    line: u64,
    // What is there of that line.
    partial_line: Vec<u8>,
}

impl Drop for Scan {
    fn drop(self) {
        let Scan {
            alloc: _,
            format: _,
            max_accesses: _,
            keys: _,
            handed_on: _,
            line: _,
            partial_line: _,
        } = self;
    }
}

impl Scan {
    /// The scan before the first byte, of a file of at most so many accesses.
    pub fn new(alloc: Global, format: Format, max_accesses: usize) -> Scan
        ensures scan { IsScan result }
        ensures fault { (rest : List ℕ) → fault_ahead result rest ≡ fault_within max_accesses format rest }
        ensures keys { (rest : List ℕ) → keys_ahead result rest ≡ keys_in format rest }
        ensures line { result.line ≡ 1 }
        ensures handed_on { result.handed_on ≡ 0 }
        ensures limit { result.max_accesses ≡ max_accesses }
        ensures none { result.keys.items ≡ [] }
    {
        Scan {
            alloc,
            format,
            max_accesses,
            keys: Vec::new(alloc),
            handed_on: 0,
            line: 1,
            partial_line: Vec::new(alloc),
        }
    }

    /// Takes the next bytes, all of them or up to behind the first line of many accesses. The accesses that they end are
    /// handed over in the empty list, but for those of that line, which are not made: `Taken` has their run. `OutOfMemory`
    /// comes where there is none for the accesses or for what is there of a line, and the fault of a line at the first
    /// faulty line, whatever follows it. After either the scan is of no more use.
    pub fn take(&mut self, piece: &[u8], keys: &mut Vec<Key>) -> Result<Taken, TraceFault>
        requires scan { IsScan self.old }
        requires lines { self.old.line + length piece.now < 2 ^ 64 }
        requires limit { self.old.max_accesses < 2 ^ 64 }
        requires none { keys.old.items ≡ [] }
        ensures scan { OnOk result (IsScan self.new) }
        ensures none { OnOk result (self.new.keys.items ≡ []) }
        ensures taken { IfOk result (λ t. IsTaken self.old piece.now t.bytes
            (keys.new.items ++ pending_keys t.run) self.new) }
        ensures some { IfOk result (λ t. 0 < length piece.now → 0 < t.bytes) }
        ensures err { IfErr result (λ e. (e ≡ TraceFault.OutOfMemory)
            ⊎ (IsOfLine e
            × ((rest : List ℕ) → fault_ahead self.old (piece.now ++ rest) ≡ Some e))) }
    {
        let mut at = 0;
        'lines: loop {
            let rest = &piece[at..];
            let Some(line) = self.end_next(rest, keys)? else {
                self.partial_line.extend_from_slice(rest)?;
                self.hand_over(keys);
                return Ok(Taken {
                    bytes: piece.len(),
                    run: Pending::none(),
                });
            };
            at += line.bytes;
            if line.run.count() > 0 {
                return Ok(Taken {
                    bytes: at,
                    run: line.run,
                });
            }
            let taken = self.take_lines(&piece[at..])?;
            at += taken;
        }
    }

    /// Ends the last line, where no more bytes come, and hands its accesses over as `take` does. The faults are those of
    /// `take`, of that line.
    pub fn end(&mut self, keys: &mut Vec<Key>) -> Result<Pending, TraceFault>
        requires scan { IsScan self.old }
        requires lines { self.old.line + 1 < 2 ^ 64 }
        requires limit { self.old.max_accesses < 2 ^ 64 }
        requires none { keys.old.items ≡ [] }
        ensures scan { OnOk result (IsScan self.new) }
        ensures none { OnOk result (self.new.keys.items ≡ []) }
        ensures ended { IfOk result (λ run. IsLastEnded self.old (keys.new.items ++ pending_keys run) self.new) }
        ensures err { IfErr result (λ e. (e ≡ TraceFault.OutOfMemory)
            ⊎ (IsOfLine e × (fault_ahead self.old [] ≡ Some e))) }
    {
        let run = self.end_line(keys)?;
        if run.count() == 0 {
            self.hand_over(keys);
        }
        Ok(run)
    }

    // Hands the accesses over, which are no longer in the scan then.
    fn hand_over(&mut self, keys: &mut Vec<Key>)
        requires none { keys.old.items ≡ [] }
        requires few { self.old.handed_on + length self.old.keys.items ≤ self.old.max_accesses }
        requires limit { self.old.max_accesses < 2 ^ 64 }
        ensures keys { keys.new.items ≡ self.old.keys.items }
        ensures none { self.new.keys.items ≡ [] }
        ensures given { self.new.handed_on ≡ self.old.handed_on + length self.old.keys.items }
        ensures same { IsSameLine self.old self.new }
    {
        mem::swap(&mut self.keys, keys);
        self.handed_on += keys.len();
    }

    // Ends the next line as `end_line` does, where it ends in these bytes, and returns with its run how many they are.
    fn end_next(&mut self, bytes: &[u8], keys: &mut Vec<Key>) -> Result<Option<Taken>, TraceFault>
        requires scan { IsScan self.old }
        requires lines { self.old.line + length bytes.now < 2 ^ 64 }
        requires limit { self.old.max_accesses < 2 ^ 64 }
        requires none { keys.old.items ≡ [] }
        ensures scan { OnOk result (IsScan self.new) }
        ensures ended { IfOk result (λ line. MatchOption line
            ((feed_in bytes.now ≡ length bytes.now) × (self.new ≡ self.old) × (keys.new.items ≡ []))
            (λ t. IsNextEnded self.old bytes.now keys.new.items t self.new)) }
        ensures err { IfErr result (λ e. (feed_in bytes.now < length bytes.now)
            × IsStopped self.old.format self.old.max_accesses self.old.line self.old.handed_on self.old.keys.items
            (self.old.partial_line.items ++ take (feed_in bytes.now) bytes.now) e) }
    {
        let end = place_of(bytes, b'\n');
        if end == bytes.len() {
            return Ok(None);
        }
        self.partial_line.extend_from_slice(&bytes[..end])?;
        let run = self.end_line(keys)?;
        Ok(Some(Taken {
            bytes: end + 1,
            run,
        }))
    }

    // Adds the accesses of the line that is there. Where they are many, they are not made: those before them are handed
    // over, and the run is returned.
    fn end_line(&mut self, keys: &mut Vec<Key>) -> Result<Pending, TraceFault>
        requires few { self.old.handed_on + length self.old.keys.items ≤ self.old.max_accesses }
        requires lines { self.old.line + 1 < 2 ^ 64 }
        requires limit { self.old.max_accesses < 2 ^ 64 }
        requires none { keys.old.items ≡ [] }
        ensures scan { OnOk result (IsScan self.new) }
        ensures given { IfOk result (λ run. IsLineGiven self.old self.old.partial_line.items
            (keys.new.items ++ pending_keys run) self.new) }
        ensures many { IfOk result (λ run. 0 < pending_count run → self.new.keys.items ≡ []) }
        ensures none { IfOk result (λ run. pending_count run ≡ 0 → keys.new.items ≡ []) }
        ensures err { IfErr result
            (IsStopped self.old.format self.old.max_accesses self.old.line self.old.handed_on self.old.keys.items
            self.old.partial_line.items) }
    {
        let (format, limit) = (self.format, self.max_accesses);
        let room = limit - self.handed_on - self.keys.len();
        let text = self.partial_line.as_slice();
        if let Some(run) = long_line(format, text, room) {
            self.hand_over(keys);
            self.handed_on += run.count as usize;
            self.partial_line.clear();
            self.line += 1;
            return Ok(Pending::new(run));
        }
        let (line, handed_on) = (self.line, self.handed_on);
        add_line(format, text, line, handed_on, limit, &mut self.keys)?;
        self.partial_line.clear();
        self.line += 1;
        Ok(Pending::none())
    }

    // Takes lines from the front of these bytes, 64 bytes at a time, and returns where the next line begins. The last
    // few bytes are left, and all from a line of many accesses on.
    #[inline(never)]
    fn take_lines(&mut self, bytes: &[u8]) -> Result<usize, TraceFault>
        requires scan { IsScan self.old }
        requires partial_line { self.old.partial_line.items ≡ [] }
        requires lines { self.old.line + length bytes.now < 2 ^ 64 }
        ensures taken { IfOk result (λ n. IsTakenUpTo self.old bytes.now 0 n self.new) }
        ensures err { IfErr result (IsRefusedFrom self.old bytes.now 0) }
    {
        let mut runs = DigitRuns::at(bytes, 0);
        'lines: while let Some(first) = self.next_other(bytes, &mut runs) {
            if begins_star_lines(self.format, bytes, first) {
                runs = DigitRuns::at(bytes, self.take_star_lines(bytes, first.start));
                continue;
            }
            let Some(line) = runs.line_end(first) else {
                return Ok(first.start);
            };
            let text = &bytes[first.start..line.end];
            let (format, limit) = (self.format, self.max_accesses);
            let room = limit - self.handed_on - self.keys.len();
            if long_line(format, text, room).is_some() {
                return Ok(first.start);
            }
            let (line_number, keys) = (self.line, &mut self.keys);
            add_line(format, text, line_number, self.handed_on, limit, keys)?;
            self.line += 1;
            runs = line.runs;
        }
        Ok(runs.start)
    }

    // Takes this line of a lone `*` and all such lines after it, of which some traces have long runs, and returns where
    // they end.
    #[cold]
    #[inline(never)]
    fn take_star_lines(&mut self, bytes: &[u8], start: usize) -> usize
        requires scan { IsScan self.old }
        requires format { self.old.format ≡ Format.Lirs }
        requires partial_line { self.old.partial_line.items ≡ [] }
        requires lines { self.old.line + length bytes.now < 2 ^ 64 + start }
        requires within { start + 2 ≤ length bytes.now }
        requires star { IsStarLine bytes.now start }
        ensures taken { IsTakenUpTo self.old bytes.now start result self.new }
        ensures some { start < result }
    {
        // The loop changes locals alone, so that they are in registers.
        let mut line = self.line + 1;
        let mut end = start + 2;
        'fours: while bytes.len() - end >= 8 && are_four_stars(bytes, end) {
            line += 4;
            end += 8;
        }
        'stars: while bytes.len() - end >= 2 && are_at(bytes, end, b'*', b'\n') {
            line += 1;
            end += 2;
        }
        self.line = line;
        end
    }

    // Takes usual lines where one begins here, and returns the run that the next other line begins with: to call the
    // loop over usual lines in vain costs more than a short line.
    #[inline(always)]
    fn next_other<'a>(&mut self, bytes: &'a [u8], runs: &mut DigitRuns<'a>) -> Option<DigitRun>
        requires { CanTakeFrom self.old bytes.now runs.old }
        ensures { AreLinesTaken self.old self.new bytes.now runs.old runs.new result }
    {
        let mut ahead = *runs;
        let Some(first) = ahead.next() else {
            return None;
        };
        if begins_usual_line(self.format, bytes, first) {
            return match self.format {
                Format::Lirs => self.take_numbers(bytes, runs),
                Format::Arc => self.take_runs(bytes, runs),
            };
        }
        *runs = ahead;
        Some(first)
    }

    // `take_usual_lines`, compiled for LIRS.
    #[inline(never)]
    fn take_numbers<'a>(&mut self, bytes: &'a [u8], runs: &mut DigitRuns<'a>) -> Option<DigitRun>
        requires lines { CanTakeFrom self.old bytes.now runs.old }
        requires format { self.old.format ≡ Format.Lirs }
        ensures { AreLinesTaken self.old self.new bytes.now runs.old runs.new result }
    {
        self.take_usual_lines(Format::Lirs, bytes, runs)
    }

    // The same for ARC.
    #[inline(never)]
    fn take_runs<'a>(&mut self, bytes: &'a [u8], runs: &mut DigitRuns<'a>) -> Option<DigitRun>
        requires lines { CanTakeFrom self.old bytes.now runs.old }
        requires format { self.old.format ≡ Format.Arc }
        ensures { AreLinesTaken self.old self.new bytes.now runs.old runs.new result }
    {
        self.take_usual_lines(Format::Arc, bytes, runs)
    }

    // Takes the lines of the usual form from the next run of digits on, where there is room for their accesses, and
    // returns the run that the first other line begins with.
    #[inline(always)]
    fn take_usual_lines<'a>(
        &mut self,
        format: Format,
        bytes: &'a [u8],
        runs: &mut DigitRuns<'a>,
    ) -> Option<DigitRun>
        requires lines { CanTakeFrom self.old bytes.now runs.old }
        requires format { self.old.format ≡ format }
        ensures { AreLinesTaken self.old self.new bytes.now runs.old runs.new result }
    {
        let limit = self.max_accesses - self.handed_on;
        // The loop changes locals alone, so that they are in registers.
        let mut keys = mem::replace(&mut self.keys, Vec::new(self.alloc));
        let mut line = self.line;
        let mut ahead = *runs;
        'lines: while let Some(first) = ahead.next() {
            let room = keys.capacity().min(limit) - keys.len();
            let Some(next) = usual_line(format, bytes, first, ahead, room) else {
                self.keys = keys;
                self.line = line;
                *runs = ahead;
                return Some(first);
            };
            push_reserved_run(next.run.start, next.run.count, &mut keys);
            line += 1;
            ahead = next.end.runs;
        }
        self.keys = keys;
        self.line = line;
        *runs = ahead;
        None
    }
}

// Adds the accesses of a line to those of the lines before it, of which `handed_on` were handed over, of at most `limit`
// in all.
fn add_line(
    format: Format,
    text: &[u8],
    line: u64,
    handed_on: usize,
    limit: usize,
    keys: &mut Vec<Key>,
) -> Result<(), TraceFault>
    requires { handed_on + vec_len keys.old ≤ limit }
    ensures ok { OnOk result (IsRead format limit line handed_on keys.old.items text.now keys.new.items) }
    ensures within { OnOk result (handed_on + vec_len keys.new ≤ limit) }
    ensures err { IfErr result (IsTraceRefused format limit line handed_on keys.old.items text.now) }
{
    match format {
        Format::Lirs => add_lirs_line(text, line, handed_on, limit, keys),
        Format::Arc => add_arc_line(text, line, handed_on, limit, keys),
    }
}

// The run of a line that stands for many accesses, and for at most `room`. `None` says nothing of the line.
fn long_line(format: Format, text: &[u8], room: usize) -> Option<BlockRun>
    ensures { IfSome result (IsLongRun format text.now room) }
{
    match format {
        Format::Lirs => None,
        Format::Arc => long_run(text, room),
    }
}

// Whether a line that begins with this run of digits begins as one of the format's usual form: with a number of at most
// `MAX_DIGITS`, which a line feed ends, or one of at most `SHORT_DIGITS`, and one byte between it and the next.
#[inline(always)]
fn begins_usual_line(format: Format, bytes: &[u8], first: DigitRun) -> bool
    requires { (first.start ≤ first.end) × (first.end + 1 < length bytes.now) }
    ensures { IsTrue result ↔ BeginsUsual format bytes.now first }
{
    match format {
        Format::Lirs => bytes[first.end] == b'\n'
            && (first.end - first.start).wrapping_sub(1) < MAX_DIGITS,
        Format::Arc => first.is_short() && bytes[first.end + 1].is_ascii_digit(),
    }
}

// Whether two lines of a lone `*` of the LIRS format begin with this run of digits. One between numbers is read
// sooner as any other line, since the runs of digits need not be found anew after it.
#[inline(always)]
fn begins_star_lines(format: Format, bytes: &[u8], first: DigitRun) -> bool
    requires { first.start + 4 ≤ length bytes.now }
    ensures format { IsTrue result → format ≡ Format.Lirs }
    ensures line { IsTrue result → IsStarLine bytes.now first.start }
{
    matches!(format, Format::Lirs)
        && are_at(bytes, first.start, b'*', b'\n')
        && are_at(bytes, first.start + 2, b'*', b'\n')
}

// Whether four lines of a lone `*` stand at this place.
#[inline(always)]
fn are_four_stars(bytes: &[u8], place: usize) -> bool
    requires { place + 8 ≤ length bytes.now }
    ensures { IsTrue result → AreFourStars bytes.now place }
{
    first_word(&bytes[place..]) == 0x0a2a_0a2a_0a2a_0a2a
}

// The line that begins with this run of digits, the one before `runs`, where it has the format's usual form and at most
// `room` accesses. `None` says nothing of the line.
#[inline(always)]
fn usual_line<'a>(
    format: Format,
    bytes: &'a [u8],
    first: DigitRun,
    runs: DigitRuns<'a>,
    room: usize,
) -> Option<UsualLine<'a>>
    requires { IsNextRun bytes.now first runs }
    ensures { IfSome result (IsUsualLine format bytes.now first room) }
{
    match format {
        Format::Lirs => usual_number(bytes, first, runs, room),
        Format::Arc => usual_run(bytes, first, runs, room),
    }
}

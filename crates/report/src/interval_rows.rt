//! The rows of intervals.
ghost use Rattle.std.specs.Prelude.{IfOk, ◌≡◌};
ghost use Rattle.report.specs.IntervalText.{interval_numbers, intervals_text};

use super::Interval;
use crate::rows::{write_row, written_text};
use csv::WriterBuilder;
use std::alloc::{AllocError, Global};

/// The header and a line for each interval, in order. The one error is out of memory.
pub fn intervals_text(alloc: Global, intervals: &[Interval]) -> Result<Vec<u8>, AllocError>
    ensures { IfOk result (λ v. v.items ≡ intervals_text intervals.now) }
{
    let header = b"policy,capacity,first,last,hits,misses,evictions,rejections,rate\n";
    let mut writer = WriterBuilder::new().from_writer(Vec::from_slice(alloc, header)?);
    for interval in intervals {
        let numbers = interval_numbers(interval);
        write_row(alloc, &mut writer, &interval.report, numbers.as_slice())?;
    }
    written_text(writer)
}

/// The numbers of an interval's line, between its name and its rate.
pub fn interval_numbers(interval: &Interval) -> [u64; 7]
    ensures { result ≡ interval_numbers interval.now }
{
    let report = &interval.report;
    [
        u64::from(report.capacity),
        interval.first,
        interval.last,
        report.hits,
        report.misses,
        report.evictions,
        report.rejections,
    ]
}

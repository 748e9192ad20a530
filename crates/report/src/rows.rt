//! The rows of reports.
ghost use Rattle.std.specs.Prelude.{◌≡◌, ◌<◌, ◌^◌, ◌++◌, [], ℕ, List, Err, IfOk, OnOk, string_bytes, true};
ghost use Rattle.std.specs.Io.KnownBytes.{Appends};
ghost use Rattle.csv.specs.Records.{fields_of, partial_of};
ghost use Rattle.policies.specs.Reports.{rate_of};
ghost use Rattle.report.specs.RowWriter.{HasWritten};
ghost use Rattle.report.specs.ShortSizes.{AreShort};
ghost use Rattle.report.specs.Text.{line_text, rate_text_of, reports_text, row_fields};
ghost use Rattle.step_record.specs.Job.{name_of};
ghost use Rattle.streams.specs.Part.{AppendsPart};
ghost use Rattle.streams.specs.Tally.{FailsWhere};

use super::{Report, WriteFault};
use csv::{ByteRecord, Writer, WriterBuilder};
use itoa::Buffer;
use std::alloc::{AllocError, Global};
use step_record::{Policy, Sizes, push_name};
use streams::CountedWrite;

/// Writes the text of the reports, and flushes. The writes and flushes of one call share its interruptions, of which
/// the millionth is `Write`. `OutOfMemory` has written nothing; after `Write` a beginning of the text was written.
pub fn write_reports<W: CountedWrite>(
    alloc: Global,
    reports: &[Report],
    writer: &mut W,
) -> Result<(), WriteFault>
    ensures text { OnOk result (Appends (W.contents writer.old) (W.contents writer.new) (reports_text reports.now)) }
    ensures none { result ≡ Err WriteFault.OutOfMemory → writer.new ≡ writer.old }
    ensures part { result ≡ Err WriteFault.Write
        → AppendsPart (W.contents writer.old) (W.contents writer.new) (reports_text reports.now) }
    ensures flushed { OnOk result (W.is_flushed writer.new ≡ true) }
    // `Write` comes exactly where a write or the flush failed, or the millionth was interrupted.
    ensures tally { FailsWhere (result ≡ Err WriteFault.Write) (W.tally writer.old) (W.tally writer.new) }
{
    let text = reports_text(alloc, reports)?;
    streams::write_all(writer, text.as_slice())?;
    Ok(())
}

/// The header and a line for each report, in order. The one error is out of memory.
pub fn reports_text(alloc: Global, reports: &[Report]) -> Result<Vec<u8>, AllocError>
    ensures { IfOk result (λ v. v.items ≡ reports_text reports.now) }
{
    let header = b"policy,capacity,accesses,hits,misses,evictions,rejections,rate\n";
    let mut writer = WriterBuilder::new().from_writer(Vec::from_slice(alloc, header)?);
    for report in reports {
        let numbers = [
            u64::from(report.capacity),
            report.accesses,
            report.hits,
            report.misses,
            report.evictions,
            report.rejections,
        ];
        write_row(alloc, &mut writer, report, numbers.as_slice())?;
    }
    written_text(writer)
}

/// Writes a row: the policy of the report, these numbers, and its rate.
pub fn write_row(
    alloc: Global,
    writer: &mut Writer<Vec<u8>>,
    report: &Report,
    numbers: &[u64],
) -> Result<(), AllocError>
    ensures { (text : List ℕ) → HasWritten text writer.old
        → OnOk result (HasWritten (text ++ line_text (row_fields report.now numbers.now)) writer.new) }
{
    let mut row = ByteRecord::new(alloc);
    push_fields(alloc, &mut row, report, numbers)?;
    match writer.write_byte_record(&row) {
        Ok(()) => Ok(()),
        Err(_) => Err(AllocError),
    }
}

/// The text that was written. Into memory that fails only where the allocation failed.
pub fn written_text(writer: Writer<Vec<u8>>) -> Result<Vec<u8>, AllocError>
    ensures { (text : List ℕ) → HasWritten text writer → IfOk result (λ v. v.items ≡ text) }
{
    match writer.into_inner() {
        Ok(text) => Ok(text),
        Err(_) => Err(AllocError),
    }
}

// Adds the fields of a row to a record that is empty.
fn push_fields(
    alloc: Global,
    row: &mut ByteRecord,
    report: &Report,
    numbers: &[u64],
) -> Result<(), AllocError>
    requires fields { fields_of row.old ≡ [] }
    requires partial { partial_of row.old ≡ [] }
    ensures fields { OnOk result (fields_of row.new ≡ row_fields report.now numbers.now) }
    ensures rate { OnOk result (rate_of report.now < 2 ^ 128) }
    ensures sizes { OnOk result (AreShort report.now.sizes) }
{
    let name = policy_name(alloc, report.policy, report.sizes)?;
    row.push_field(name.as_slice())?;
    let mut digits = Buffer::new();
    for number in numbers {
        row.push_field(digits.format(*number).as_bytes())?;
    }
    let rate = rate_text(alloc, report.rate())?;
    row.push_field(rate.as_bytes())
}

// What a policy with these sizes is called.
fn policy_name(alloc: Global, policy: Policy, sizes: Sizes) -> Result<Vec<u8>, AllocError>
    ensures name { IfOk result (λ name. name.items ≡ name_of policy sizes) }
    ensures sizes { AreShort sizes }
{
    let mut name = Vec::new(alloc);
    push_name(&mut name, policy, &sizes)?;
    Ok(name)
}

/// The rate in percent, with two decimals. The one error is out of memory.
pub fn rate_text(alloc: Global, rate: u128) -> Result<String, AllocError>
    ensures { IfOk result (λ s. string_bytes s ≡ rate_text_of rate) }
{
    let whole = rate / 100;
    let tens = rate % 100 / 10;
    let ones = rate % 10;
    format!(in alloc; "{whole}.{tens}{ones}")
}

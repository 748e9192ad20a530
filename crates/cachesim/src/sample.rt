//! The subcommand `sample`: a trace to the accesses to some of its blocks.
ghost use Rattle.std.specs.Prelude.{◌≡◌, ◌≤◌, IfOk, IfSome, None, string_bytes, true};
ghost use Rattle.command_line.specs.declared.arguments.Arguments.TheVariants.{Sample};
ghost use Rattle.trace_read.specs.TraceText.{keys_in};
ghost use Rattle.cachesim.specs.SampleOutput.{counts_line, sample_line};
ghost use Rattle.cachesim.specs.Subcommand.{IsPerformed};

use crate::fault::Fault;
use command_line::SampleArguments;
use std::alloc::{AllocError, Global};
use streams::{CountedRead, CountedWrite, Watch};
use trace_read::{SampleCounts, SampleRule, write_sample};

/// Writes the sample of the trace, and returns the line that says what it is.
pub fn sample<R: CountedRead, W: CountedWrite, P: Watch>(
    alloc: Global,
    arguments: &SampleArguments,
    input: &mut R,
    out: &mut W,
    watch: &P,
) -> Result<String, Fault>
    requires { 2 ≤ arguments.now.inverse }
    ensures performed { IsPerformed (Sample arguments.now) (λ path. None) (R.remaining input.old) (W.contents out.old)
        (W.contents out.new) (R.tally input.old) (R.tally input.new) (W.tally out.old) (W.tally out.new)
        (out.new ≡ out.old) (W.is_flushed out.new ≡ true) result }
    ensures line { IfOk result (λ line. IfSome (R.remaining input.old)
        (λ bytes. string_bytes line ≡ sample_line arguments.now (keys_in arguments.now.format bytes))) }
{
    let SampleArguments {
        inverse,
        seed,
        format,
    } = *arguments;
    watch.begin("sample");
    let counts = write_sample(
        alloc,
        input,
        format,
        SampleRule { inverse, seed },
        out,
        watch,
    );
    Ok(sample_line(alloc, inverse, counts?)?)
}

// The line that says what a sample is, as `tools/survey --sampled` reads it.
fn sample_line(alloc: Global, inverse: u32, counts: SampleCounts) -> Result<String, AllocError>
    ensures { IfOk result (λ line. string_bytes line ≡ counts_line inverse counts) }
{
    let SampleCounts {
        kept,
        accesses,
        blocks,
    } = counts;
    format!(in alloc;
        "{kept} of {accesses} accesses, {blocks} blocks: --sampled 1/{inverse} --accesses {accesses}\n"
    )
}

//! Samples worked out from the rule by a calculator of its own, and readers and writers that fail.
use super::assertions::assert_equal;
use engine_base::OpenGate;
use std::io::{self, Error, ErrorKind, Read, Write};
use std::test::Fail;
use streams::{CountedReader, CountedWriter};
use trace_read::{Format, SampleFault, SampleRule, TraceFault, write_sample};

// A trace, its format and the rule; the sample; how many accesses it has, of how many, and how many blocks.
type Row = (
    &'static str,
    Format,
    SampleRule,
    &'static str,
    (u64, u64, u64),
);

const SAMPLES: [Row; 6] = [
    (
        "3\n1\n2\n3\n7\n10",
        Format::Lirs,
        SampleRule {
            inverse: 2,
            seed: 0,
        },
        "3\n3\n7\n10\n",
        (4, 6, 3),
    ),
    (
        "3\n1\n2\n3\n7\n10",
        Format::Lirs,
        SampleRule {
            inverse: 8,
            seed: 1,
        },
        "7\n",
        (1, 6, 1),
    ),
    (
        "3\n1\n2\n3\n7\n10",
        Format::Lirs,
        SampleRule {
            inverse: 8,
            seed: u64::MAX,
        },
        "3\n3\n7\n10\n",
        (4, 6, 3),
    ),
    (
        "1 11 0 0\n3 1\n",
        Format::Arc,
        SampleRule {
            inverse: 8,
            seed: 0,
        },
        "3\n10\n3\n",
        (3, 12, 2),
    ),
    (
        "1\n2\n3\n",
        Format::Lirs,
        SampleRule {
            inverse: 1_048_576,
            seed: 1,
        },
        "",
        (0, 3, 0),
    ),
    (
        "",
        Format::Lirs,
        SampleRule {
            inverse: 2,
            seed: 1,
        },
        "",
        (0, 0, 0),
    ),
];

#[test]
fn samples_of_small_traces(rt: HostRuntime) -> Result<(), Fail> {
    for (text, format, rule, wanted, counts) in SAMPLES {
        let mut out = CountedWriter::new(Vec::with_capacity(rt.alloc(), 64)?);
        let sample = write_sample(
            rt.alloc(),
            &mut text.as_bytes(),
            format,
            rule,
            &mut out,
            &OpenGate,
        );
        let Ok(found) = sample else {
            return Err(Fail::from("out of memory"));
        };
        assert_equal(&rt, (found.kept, found.accesses, found.blocks), counts);
        assert_equal(&rt, out.get_ref().as_slice(), wanted.as_bytes());
    }
    Ok(())
}

/// Gives its text, and fails where there is no more of it.
#[derive(Drop)]
struct Torn<'a> {
    text: &'a [u8],
}

impl Read for Torn<'_> {
    fn read(&mut self, buf: &mut [u8]) -> io::Result<usize> {
        if self.text.is_empty() {
            return Err(Error::from(ErrorKind::Other));
        }
        Read::read(&mut self.text, buf)
    }
}

/// Takes so many writes, and fails at the next.
#[derive(Drop)]
struct Full {
    writes: u32,
}

impl Write for Full {
    fn write(&mut self, buf: &[u8]) -> io::Result<usize> {
        if self.writes == 0 {
            return Err(Error::from(ErrorKind::StorageFull));
        }
        self.writes -= 1;
        Ok(buf.len())
    }

    fn flush(&mut self) -> io::Result<()> {
        Ok(())
    }
}

// What a sample at 1/2 of these accesses ends in, where the input fails behind them and the output takes so many writes.
const FAULTS: [(&str, u32, SampleFault); 5] = [
    ("3 1\n4 1\n", 9, SampleFault::Trace(TraceFault::Read)),
    ("3 1\n4\n", 9, SampleFault::Trace(TraceFault::Read)),
    ("1 60000\n1 1\n", 0, SampleFault::Write),
    ("1 60000\nx\n", 0, SampleFault::Write),
    ("1 60000\n", 9, SampleFault::Trace(TraceFault::Read)),
];

#[test]
fn a_failed_write_ends_the_reading(rt: HostRuntime) {
    let rule = SampleRule {
        inverse: 2,
        seed: 0,
    };
    for (text, writes, wanted) in FAULTS {
        let mut reader = CountedReader::new(Torn {
            text: text.as_bytes(),
        });
        let mut out = CountedWriter::new(Full { writes });
        let sample = write_sample(
            rt.alloc(),
            &mut reader,
            Format::Arc,
            rule,
            &mut out,
            &OpenGate,
        );
        let fault = sample.err();
        assert!(rt;
            fault == Some(wanted) || is_no_memory(fault),
            "{fault:?} of {text:?}"
        );
    }
}

fn is_no_memory(fault: Option<SampleFault>) -> bool {
    matches!(fault, Some(SampleFault::Trace(TraceFault::OutOfMemory)))
}

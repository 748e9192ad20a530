//! The program over words, streams and a file in memory.
use super::{DONE, FAULT, FileInMemory, command};
use std::test::Fail;
use streams::{CountedWriter, ProgressLine};

// The path of the trace of `debug`, the commands, and the status with what is written to the output and to the fault
// output.
const CALLS: [(&str, &str, u8, &str, &str); 3] = [
    (
        "trace",
        "part\nback 1\n",
        DONE,
        "part 5\nfault: PastStart\n",
        "",
    ),
    ("traces", "part\n", FAULT, "", "fault: NoFile\n"),
    ("trac", "part\n", FAULT, "", "fault: NoFile\n"),
];

// At the fifth access lru misses 1, which slru protected at the second.
const TRACE: FileInMemory<'static> = FileInMemory {
    path: "trace",
    bytes: b"1\n1\n2\n3\n1\n",
};

#[test]
fn debug_of_a_file_in_memory(rt: HostRuntime) -> Result<(), Fail> {
    let line = ProgressLine::new(&rt, false, None);
    for (path, commands, status, answers, fault) in CALLS {
        let words = [
            "debug",
            "--trace",
            path,
            "--capacity",
            "2",
            "--first",
            "lru",
            "--second",
            "slru",
        ];
        let mut input = commands.as_bytes();
        let mut out = CountedWriter::new(Vec::with_capacity(rt.alloc(), 64)?);
        let mut fault_out = CountedWriter::new(Vec::with_capacity(rt.alloc(), 64)?);
        let ended = command(
            &rt,
            rt.alloc(),
            &words,
            &mut input,
            &mut out,
            &mut fault_out,
            &TRACE,
            &line,
        );
        if fault_out.get_ref().as_slice() == b"fault: OutOfMemory\n".as_slice() {
            return Err(Fail::from("out of memory"));
        }
        assert_eq!(rt; ended, status, "at {path}");
        assert_eq!(rt; out.get_ref().as_slice(), answers.as_bytes(), "at {path}");
        assert_eq!(rt;
            fault_out.get_ref().as_slice(),
            fault.as_bytes(),
            "at {path}"
        );
    }
    Ok(())
}

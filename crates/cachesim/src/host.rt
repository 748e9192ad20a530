//! The program over the words, the streams and the files of a process.
ghost use Rattle.std.specs.Prelude.{◌≤◌};
ghost use Rattle.cachesim.specs.declared.fault_report.TheConstants.{REFUSED};

use crate::call::command;
use crate::fault::Fault;
use crate::fault_report::{REFUSED, report_fault, report_usage_error};
use crate::files::{FileFault, Files, MAX_FILE_BYTES};
use std::alloc::{AllocError, Global};
use std::env::Env;
use std::io::{ErrorKind, IsTerminal, Read, Write};
use std::rt::Clock;
use std::sync::Wait;
use std::thread::Threads;
use std::{env, fs};
use streams::{
    CountedRead, CountedReader, CountedWrite, CountedWriter, ProgressLine, ReadAllFault, Watch,
    WatchedInput,
};

// The line of a word that is no text, which is a usage error.
const NOT_TEXT: &[u8] = b"error: a word of the call is not UTF-8 text\n";

/// The program, of the words of the process, over its streams and the files of its machine: it returns the status.
pub fn run_process<
    T: Threads + Wait + Sync + AllocGlobal + Env + fs::Files + Clock + Eprint,
    R: Read + Drop,
    W: Write + Drop,
    X: Write + IsTerminal + Drop,
>(rt: &T, input: R, out: W, fault_out: X) -> u8
    ensures { result ≤ REFUSED }
{
    let is_shown = fault_out.is_terminal();
    let size = if is_shown { input_size(rt) } else { None };
    let line = ProgressLine::new(rt, is_shown, size);
    let input = WatchedInput { input, line: &line };
    let mut fault_out = CountedWriter::new(fault_out);
    match words(rt) {
        Ok(words) => run_words(
            rt,
            words.as_slice(),
            &mut CountedReader::new(input),
            &mut CountedWriter::new(out),
            &mut fault_out,
            &line,
        ),
        Err(ErrorKind::InvalidData) => report_usage_error(NOT_TEXT, &mut fault_out),
        Err(_) => report_fault(rt.alloc(), Fault::OutOfMemory, &mut fault_out),
    }
}

// How many bytes standard input has, where it is a file.
fn input_size<T: fs::Files>(rt: &T) -> Option<u64> {
    let found = fs::metadata(rt, "/dev/stdin").ok()?;
    if found.is_file() {
        Some(found.len())
    } else {
        None
    }
}

// The words after the program's name. `InvalidData` where one is no UTF-8 text; the other error is out of memory.
fn words<T: AllocGlobal + Env>(rt: &T) -> Result<Vec<String>, ErrorKind> {
    let words = env::args(rt).and_then(|args| {
        let words: Vec<String> = args.skip(1).collect(rt.alloc())?;
        Ok(words)
    });
    words.map_err(|error| error.kind())
}

// The program, of these words.
fn run_words<
    T: Threads + Wait + Sync + AllocGlobal + fs::Files,
    R: CountedRead,
    W: CountedWrite,
    X: CountedWrite,
    P: Watch,
>(rt: &T, words: &[String], input: &mut R, out: &mut W, fault_out: &mut X, watch: &P) -> u8
    ensures { result ≤ REFUSED }
{
    let alloc = rt.alloc();
    let texts: Result<Vec<&str>, AllocError> = words
        .iter()
        .map(|word| word.as_str())
        .collect(alloc);
    match texts {
        Ok(texts) => {
            let (texts, files) = (texts.as_slice(), HostFiles { rt });
            command(rt, alloc, texts, input, out, fault_out, &files, watch)
        }
        Err(_) => report_fault(alloc, Fault::OutOfMemory, fault_out),
    }
}

// The files of this machine.
#[derive(Drop)]
struct HostFiles<'a, T> {
    rt: &'a T,
}

impl<'a, T: fs::Files> Files for HostFiles<'a, T> {
    ghost use Rattle.std.specs.Prelude.{None};

    // No contract says what a file of the machine has.
    ghost known = { λ files path. None };

    fn bytes(&self, alloc: Global, path: &str) -> Result<Vec<u8>, FileFault> {
        let Ok(file) = fs::open(self.rt, path) else {
            return Err(FileFault::NoFile);
        };
        match streams::read_all(alloc, &mut CountedReader::new(file), MAX_FILE_BYTES) {
            Ok(bytes) => Ok(bytes),
            Err(ReadAllFault::OutOfMemory) => Err(FileFault::OutOfMemory),
            Err(_) => Err(FileFault::NoFile),
        }
    }
}

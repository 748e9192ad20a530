//! Why a subcommand printed no result.
ghost use Rattle.std.specs.Prelude.{◌≡◌, IfErr, MatchResult, Ok};
ghost use Rattle.cachesim.specs.Fault.{of_debug, of_file, of_reading, of_sample, of_write};
ghost use Rattle.cachesim.specs.declared.fault.Fault.TheVariants.{OutOfMemory, Trace};

use crate::files::FileFault;
use debug_commands::DebugFault;
use journal_text::JournalFault;
use policies::ActorFault;
use std::alloc::AllocError;
use std::fmt;
use streams::WriteFault;
use trace_read::{SampleFault, TraceFault};

/// Why a subcommand printed no result. It is displayed as the program prints it after `fault: `.
#[derive(Clone, Copy)]
pub enum Fault {
    /// The allocation failed.
    OutOfMemory,
    /// Over 64 policies were named.
    Actors,
    /// The trace was not read, or has a faulty line.
    Trace(TraceFault),
    /// A worker was refused a step, since as many were made as the journal holds.
    JournalFull,
    /// There is no such file, or it cannot be read.
    NoFile,
    /// The file is no journal of a session with the arguments.
    Journal(JournalFault),
    /// The commands were not answered to their end.
    Debug(DebugFault),
    /// The output failed; it may be partial.
    Write,
}

/// The result of jobs that were checked: the only fault is out of memory.
pub fn only_memory<A>(made: Result<A, ActorFault>) -> Result<A, Fault>
    requires { IfErr made (λ fault. fault ≡ ActorFault.OutOfMemory) }
    ensures { MatchResult result (λ value. made ≡ Ok value) (λ fault. fault ≡ Fault.OutOfMemory) }
{
    match made {
        Ok(value) => Ok(value),
        Err(fault) => {
            prove!(fault == ActorFault::OutOfMemory);
            Err(Fault::OutOfMemory)
        }
    }
}

impl fmt::Display for Fault {
    ghost use Rattle.std.specs.Prelude.{Some};
    ghost use Rattle.cachesim.specs.FaultLine.{fault_text};

    ghost output = { λ fault. Some (fault_text fault) };

    fn fmt<W: fmt::Write>(&self, f: &mut fmt::Formatter<W>) -> fmt::Result {
        match self {
            Fault::OutOfMemory => f.write_str("OutOfMemory"),
            Fault::Actors => f.write_str("Actors"),
            Fault::Trace(fault) => fault.fmt(f),
            Fault::JournalFull => f.write_str("JournalFull"),
            Fault::NoFile => f.write_str("NoFile"),
            Fault::Journal(fault) => fault.fmt(f),
            Fault::Debug(fault) => fault.fmt(f),
            Fault::Write => f.write_str("Write"),
        }
    }
}

impl From<AllocError> for Fault {
    ghost from_gives = { λ _ e. e ≡ OutOfMemory };

    fn from(_error: AllocError) -> Fault {
        Fault::OutOfMemory
    }
}

impl From<TraceFault> for Fault {
    ghost from_gives = { λ fault e. e ≡ Trace fault };

    fn from(fault: TraceFault) -> Fault {
        Fault::Trace(fault)
    }
}

impl From<WriteFault> for Fault {
    ghost from_gives = { λ fault e. e ≡ of_write fault };

    fn from(fault: WriteFault) -> Fault {
        match fault {
            WriteFault::OutOfMemory => Fault::OutOfMemory,
            WriteFault::Write => Fault::Write,
        }
    }
}

impl From<SampleFault> for Fault {
    ghost from_gives = { λ fault e. e ≡ of_sample fault };

    fn from(fault: SampleFault) -> Fault {
        match fault {
            SampleFault::Trace(fault) => Fault::Trace(fault),
            SampleFault::Write => Fault::Write,
        }
    }
}

impl From<FileFault> for Fault {
    ghost from_gives = { λ fault e. e ≡ of_file fault };

    fn from(fault: FileFault) -> Fault {
        match fault {
            FileFault::OutOfMemory => Fault::OutOfMemory,
            FileFault::NoFile => Fault::NoFile,
        }
    }
}

impl From<JournalFault> for Fault {
    ghost from_gives = { λ fault e. e ≡ of_reading fault };

    fn from(fault: JournalFault) -> Fault {
        match fault {
            JournalFault::OutOfMemory => Fault::OutOfMemory,
            other => Fault::Journal(other),
        }
    }
}

impl From<DebugFault> for Fault {
    ghost from_gives = { λ fault e. e ≡ of_debug fault };

    fn from(fault: DebugFault) -> Fault {
        match fault {
            DebugFault::OutOfMemory => Fault::OutOfMemory,
            other => Fault::Debug(other),
        }
    }
}

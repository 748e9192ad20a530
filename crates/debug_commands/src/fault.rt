//! Why a debugger stopped.
ghost use Rattle.std.specs.Prelude.{◌≡◌};
ghost use Rattle.debug_commands.specs.declared.fault.DebugFault.TheVariants.{OutOfMemory, Read, Write};

use std::alloc::AllocError;
use std::fmt;
use streams::{ReadFault, WriteAllFault};
use thiserror::Error;

/// Why a debugger stopped before its input's end or a `quit`. It is displayed by its name.
#[derive(Clone, Copy, Debug, PartialEq, Eq, Error)]
pub enum DebugFault {
    /// An allocation failed.
    OutOfMemory,
    /// The input failed, or was interrupted a million times.
    Read,
    /// The output failed, took no byte, or was interrupted a million times. It may be partial.
    Write,
    /// A line of the input goes past `MAX_COMMAND_BYTES` bytes, counted from the first line on.
    TooLarge,
    /// `Config::check` refuses the configuration of the policy at this index.
    Config { index: usize },
}

impl fmt::Display for DebugFault {
    ghost use Rattle.std.specs.Prelude.{Some};
    ghost use Rattle.debug_commands.specs.FaultText.{debug_fault_text};

    ghost output = { λ fault. Some (debug_fault_text fault) };

    fn fmt<W: fmt::Write>(&self, f: &mut fmt::Formatter<W>) -> fmt::Result {
        match self {
            DebugFault::OutOfMemory => f.write_str("OutOfMemory"),
            DebugFault::Read => f.write_str("Read"),
            DebugFault::Write => f.write_str("Write"),
            DebugFault::TooLarge => f.write_str("TooLarge"),
            DebugFault::Config { index: _ } => f.write_str("Config"),
        }
    }
}

impl From<AllocError> for DebugFault {
    ghost from_gives = { λ _ e. e ≡ OutOfMemory };

    fn from(_error: AllocError) -> DebugFault {
        DebugFault::OutOfMemory
    }
}

impl From<ReadFault> for DebugFault {
    ghost from_gives = { λ _ e. e ≡ Read };

    fn from(_fault: ReadFault) -> DebugFault {
        DebugFault::Read
    }
}

impl From<WriteAllFault> for DebugFault {
    ghost from_gives = { λ _ e. e ≡ Write };

    fn from(_fault: WriteAllFault) -> DebugFault {
        DebugFault::Write
    }
}

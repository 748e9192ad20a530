//! Why a sample was not written whole.
use crate::fault::TraceFault;

/// Why a sample was not written whole.
#[derive(Clone, Copy, Debug, PartialEq, Eq)]
pub enum SampleFault {
    /// The trace was not read to its end, or has a faulty line; `OutOfMemory` also where there is none for the blocks
    /// that are kept or for text.
    Trace(TraceFault),
    /// A write or a flush failed, took no byte, or was the millionth to be interrupted.
    Write,
}

//! Inputs and outputs that fail.
use std::alloc::{AllocError, Global};
use std::io::{Error, ErrorKind, Read, Result, Write};

/// Room for all that is written, so that no output asks for memory.
pub const ROOM: usize = 1024;

/// An input or an output of one byte at a call, which is interrupted so often and fails once so many calls passed.
#[derive(Drop)]
pub struct Pipe<'a> {
    text: &'a [u8],
    pub taken: Vec<u8>,
    passes: usize,
    pub interruptions: u32,
}

impl<'a> Pipe<'a> {
    /// A pipe with these bytes that lets so many calls pass.
    pub fn of(
        alloc: Global,
        text: &'a [u8],
        passes: usize,
    ) -> std::result::Result<Pipe<'a>, AllocError> {
        Ok(Pipe {
            text,
            taken: Vec::with_capacity(alloc, ROOM)?,
            passes,
            interruptions: 0,
        })
    }

    fn next(&mut self) -> Result<()> {
        if self.interruptions > 0 {
            self.interruptions -= 1;
            return Err(Error::from(ErrorKind::Interrupted));
        }
        if self.passes == 0 {
            return Err(Error::from(ErrorKind::BrokenPipe));
        }
        self.passes -= 1;
        Ok(())
    }
}

impl<'a> Read for Pipe<'a> {
    fn read(&mut self, buf: &mut [u8]) -> Result<usize> {
        self.next()?;
        let count = buf.len().min(self.text.len()).min(1);
        buf[..count].copy_from_slice(&self.text[..count]);
        self.text = &self.text[count..];
        Ok(count)
    }
}

impl<'a> Write for Pipe<'a> {
    fn write(&mut self, buf: &[u8]) -> Result<usize> {
        self.next()?;
        let count = buf.len().min(1);
        self.taken.extend_from_slice(&buf[..count])?;
        Ok(count)
    }

    fn flush(&mut self) -> Result<()> {
        self.next()
    }
}

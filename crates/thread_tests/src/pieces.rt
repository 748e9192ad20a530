//! A text that is read in pieces.
use std::io;
use std::io::{Error, ErrorKind, Read};

/// A reader of a text, in pieces of a size, that then ends or fails.
#[derive(Drop)]
pub(crate) struct Pieces<'a> {
    text: &'a [u8],
    size: usize,
    place: usize,
    pub(crate) fails: bool,
}

impl Pieces<'_> {
    pub(crate) fn of(text: &str, size: usize) -> Pieces<'_> {
        Pieces {
            text: text.as_bytes(),
            size,
            place: 0,
            fails: false,
        }
    }
}

impl Read for Pieces<'_> {
    fn read(&mut self, buf: &mut [u8]) -> io::Result<usize> {
        if self.place >= self.text.len() {
            if self.fails {
                return Err(Error::from(ErrorKind::BrokenPipe));
            }
            return Ok(0);
        }
        let rest = &self.text[self.place..];
        let count = self.size.min(rest.len()).min(buf.len());
        buf[..count].copy_from_slice(&rest[..count]);
        self.place += count;
        Ok(count)
    }
}

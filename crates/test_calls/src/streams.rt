//! A writer and a reader that fail.

use std::io;
use std::io::{ErrorKind, Read, Write};

/// Takes so many bytes, one at each write, keeps them, and then fails.
pub struct Failing {
    pub left: usize,
    pub got: Vec<u8>,
}

impl Write for Failing {
    fn write(&mut self, buf: &[u8]) -> io::Result<usize> {
        if self.left == 0 || buf.is_empty() || self.got.push(buf[0]).is_err() {
            return Err(ErrorKind::BrokenPipe.into());
        }
        self.left -= 1;
        Ok(1)
    }

    fn flush(&mut self) -> io::Result<()> {
        Ok(())
    }
}

/// Gives its bytes one at each read, and then its end or a failure.
#[derive(Drop)]
pub struct Slow<'b> {
    pub rest: &'b [u8],
    pub fails: bool,
}

impl Read for Slow<'_> {
    fn read(&mut self, buf: &mut [u8]) -> io::Result<usize> {
        let Some((first, others)) = self.rest.split_first() else {
            if self.fails {
                return Err(ErrorKind::BrokenPipe.into());
            }
            return Ok(0);
        };
        if buf.is_empty() {
            return Ok(0);
        }
        buf[0] = *first;
        self.rest = others;
        Ok(1)
    }
}

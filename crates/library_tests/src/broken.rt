//! Readers and writers that fail.

use std::io;
use std::io::{Error, ErrorKind, Read, Write};

/// A reader and writer that fails at each call, or takes nothing.
#[derive(Drop)]
pub struct Broken {
    pub fails: bool,
}

impl Read for Broken {
    fn read(&mut self, _buf: &mut [u8]) -> io::Result<usize> {
        Err(Error::from(ErrorKind::Other))
    }
}

impl Write for Broken {
    fn write(&mut self, _buf: &[u8]) -> io::Result<usize> {
        if self.fails {
            Err(Error::from(ErrorKind::Other))
        } else {
            Ok(0)
        }
    }

    fn flush(&mut self) -> io::Result<()> {
        Ok(())
    }
}

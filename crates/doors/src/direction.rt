//! One connection of the system, which a source and a sink share.

use std::alloc::{AllocError, Global};
use std::io::{self, Read, Write};
use std::net::TcpStream;
use std::sync::Arc;

/// One of the two directions of a connection, which has one descriptor. It is closed when both are let go.
#[derive(Drop)]
pub struct Direction {
    stream: Arc<TcpStream, Global>,
}

impl Direction {
    /// Both directions of a connection.
    pub(crate) fn both(
        alloc: Global,
        stream: TcpStream,
    ) -> Result<(Direction, Direction), AllocError> {
        let stream = Arc::new(alloc, stream)?;
        let other = Arc::try_clone(&stream)?;
        Ok((Direction { stream }, Direction { stream: other }))
    }
}

impl Read for Direction {
    fn read(&mut self, buf: &mut [u8]) -> io::Result<usize> {
        let mut stream: &TcpStream = &self.stream;
        stream.read(buf)
    }
}

impl Write for Direction {
    fn write(&mut self, buf: &[u8]) -> io::Result<usize> {
        let mut stream: &TcpStream = &self.stream;
        stream.write(buf)
    }

    fn flush(&mut self) -> io::Result<()> {
        Ok(())
    }
}

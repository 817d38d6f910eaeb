//! Standard input and output, and the clock.
use crate::{StdLinks, StdPrint, SystemClock};
use bt_outside::{Clock, LinkFailed, Links, MemoryDisk, Print};
use std::io;
use std::io::{ErrorKind, Write};
use std::test::Fail;

// A pipe that nobody reads any more.
#[derive(Drop)]
struct Closed;

impl Write for Closed {
    fn write(&mut self, _buf: &[u8]) -> io::Result<usize> {
        Err(io::Error::from(ErrorKind::BrokenPipe))
    }

    fn flush(&mut self) -> io::Result<()> {
        Ok(())
    }
}

#[test]
fn a_reader_and_a_writer_are_one_connection(rt: HostRuntime) -> Result<(), Fail> {
    let disk = MemoryDisk::new(rt.alloc());
    let mut links = StdLinks::new(b"abc".as_slice(), Closed);
    assert_eq!(rt; Links::<MemoryDisk>::next(&mut links), Ok(true));
    let mut into = [0u8; 8];
    assert_eq!(rt; Links::<MemoryDisk>::read(&mut links, &mut into), Ok(3));
    assert_eq!(rt; links.write(b"x", &disk), Err(LinkFailed));
    assert_eq!(rt; Links::<MemoryDisk>::next(&mut links), Ok(false));
    Ok(())
}

#[test]
fn the_clock_reads_this_century_and_the_screen_prints(rt: HostRuntime) -> Result<(), Fail> {
    let mut clock = SystemClock::new(&rt);
    assert!(rt; clock.now() > 1_700_000_000_000_000);
    let mut screen = StdPrint::new(&rt);
    assert!(rt; screen.print(b"").is_ok());
    Ok(())
}

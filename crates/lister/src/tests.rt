// Readers and writers that do not do all at once, or fail.
use crate::{ListError, list};
use std::io;
use std::io::{ErrorKind, Read, Write};

const SCRIPT: &[u8] = b"call,number,value\nmake,3,-\nout,0,10\nin,0,-\n";

const LISTING: &[u8] =
    b"line,call,number,answer,detail\n2,make,3,done,4\n3,out,0,done,-\n4,in,0,done,10\n";

// Gives its bytes three at a time, with an interruption before each, and at last an error or the end.
#[derive(Drop)]
struct Sips {
    rest: &'static [u8],
    interrupted: bool,
    last: Option<ErrorKind>,
}

impl Read for Sips {
    fn read(&mut self, buf: &mut [u8]) -> io::Result<usize> {
        self.interrupted = !self.interrupted;
        if self.interrupted {
            return Err(ErrorKind::Interrupted.into());
        }
        if self.rest.is_empty() {
            return match self.last {
                Some(kind) => Err(kind.into()),
                None => Ok(0),
            };
        }
        let most = buf.len().min(3);
        self.rest.read(&mut buf[..most])
    }
}

// Takes seven bytes at a time, with an interruption before each, until it has no more room.
#[derive(Drop)]
struct Narrow {
    bytes: Vec<u8>,
    room: usize,
    interrupted: bool,
}

impl Write for Narrow {
    fn write(&mut self, buf: &[u8]) -> io::Result<usize> {
        self.interrupted = !self.interrupted;
        if self.interrupted {
            return Err(ErrorKind::Interrupted.into());
        }
        let most = buf.len().min(7).min(self.room);
        self.bytes.extend_from_slice(&buf[..most])?;
        self.room -= most;
        Ok(most)
    }

    fn flush(&mut self) -> io::Result<()> {
        Ok(())
    }
}

fn input(last: Option<ErrorKind>) -> Sips {
    Sips {
        rest: SCRIPT,
        interrupted: false,
        last,
    }
}

fn output(rt: &HostRuntime, room: usize) -> Narrow {
    Narrow {
        bytes: Vec::new(rt.alloc()),
        room,
        interrupted: false,
    }
}

#[test]
fn lists_in_small_pieces(rt: HostRuntime) {
    let mut narrow = output(&rt, LISTING.len());
    let listed = list(rt.alloc(), input(None), &mut narrow);
    assert!(rt; matches!(&listed, Ok(count) if *count == LISTING.len()));
    assert_eq!(rt; narrow.bytes.as_slice(), LISTING);
}

#[test]
fn prints_the_first_bytes_where_the_output_fails(rt: HostRuntime) {
    let mut narrow = output(&rt, 40);
    let listed = list(rt.alloc(), input(None), &mut narrow);
    assert!(rt; matches!(&listed, Err(ListError::Output(_))));
    assert_eq!(rt; narrow.bytes.as_slice(), &LISTING[..40]);
}

#[test]
fn prints_nothing_where_the_input_fails(rt: HostRuntime) {
    let mut narrow = output(&rt, LISTING.len());
    let listed = list(rt.alloc(), input(Some(ErrorKind::BrokenPipe)), &mut narrow);
    assert!(rt; matches!(&listed, Err(ListError::Input(_))));
    assert!(rt; narrow.bytes.is_empty());
}

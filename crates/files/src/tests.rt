// A journal that comes in pieces, and a read and a write that fail in its midst.
use crate::{ReadFailed, Streams};
use std::io;
use std::io::{Error, ErrorKind, Read, Write};

// Gives a byte at each read; then its end, or from then on an error.
#[derive(Drop)]
struct Pieces {
    left: u8,
    breaks: bool,
}

impl Read for Pieces {
    fn read(&mut self, buf: &mut [u8]) -> io::Result<usize> {
        if self.left == 0 && self.breaks {
            return Err(Error::from(ErrorKind::Other));
        }
        if self.left == 0 || buf.is_empty() {
            return Ok(0);
        }
        buf[0] = self.left;
        self.left -= 1;
        Ok(1)
    }
}

// Takes no byte.
#[derive(Drop)]
struct Full {}

impl Write for Full {
    fn write(&mut self, _buf: &[u8]) -> io::Result<usize> {
        Err(Error::from(ErrorKind::StorageFull))
    }

    fn flush(&mut self) -> io::Result<()> {
        Ok(())
    }
}

fn three_bytes(rt: &HostRuntime, breaks: bool) -> Streams<Pieces, Full, Vec<u8>> {
    Streams {
        input: Pieces { left: 3, breaks },
        output: Full {},
        errors: Vec::new(rt.alloc()),
    }
}

#[test]
fn reads_to_the_end(rt: HostRuntime) {
    let mut s = three_bytes(&rt, false);
    let mut buf = [9u8; 5];
    let got = crate::whole(&mut s, &mut buf);
    assert_eq!(rt; got, Ok(3));
    assert!(rt; buf == [3, 2, 1, 9, 9]);
    assert!(rt; s.errors.is_empty());
}

#[test]
fn a_failed_read_is_no_end(rt: HostRuntime) {
    let mut s = three_bytes(&rt, true);
    let mut buf = [9u8; 5];
    let got = crate::whole(&mut s, &mut buf);
    assert_eq!(rt; got, Err(ReadFailed { after: 3 }));
    assert!(rt; s.errors.as_slice() == b"nazsombet: standard input could not be read\n".as_slice());
}

#[test]
fn reads_no_more_than_there_is_room(rt: HostRuntime) {
    let mut s = three_bytes(&rt, true);
    let mut buf = [9u8; 2];
    let got = crate::whole(&mut s, &mut buf);
    assert_eq!(rt; got, Ok(2));
    assert!(rt; s.input.left == 1);
}

#[test]
fn says_what_could_not_be_written(rt: HostRuntime) {
    let mut s = three_bytes(&rt, false);
    assert!(rt; crate::show(&mut s, b"text").is_err());
    assert!(rt;
        s.errors.as_slice() == b"nazsombet: standard output could not be written\n".as_slice()
    );
}

#[test]
fn writes_all(rt: HostRuntime) {
    let mut s = Streams {
        input: io::empty(),
        output: Vec::new(rt.alloc()),
        errors: Full {},
    };
    assert!(rt; crate::show(&mut s, b"te").is_ok() && crate::show(&mut s, b"xt").is_ok());
    assert!(rt; s.output.as_slice() == b"text".as_slice());
}

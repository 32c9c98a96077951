// Standard input and standard output for the programs, and what could not be done said on standard error. A read that
// fails is never taken for the end of the input: what was made of half a journal would look like the whole.
#![tactic(auto)]

ghost use Rattle.std.specs.Prelude.{◌<◌, ◌≡◌, length, take, IfOk, OnOk};
ghost use Rattle.std.specs.Io.KnownBytes.{Appends, Consumes, IsAtEnd, ReadConsumes};
ghost use Rattle.files.specs.Counts.{IsPrefixLen, came};

use std::io;
use std::io::{Read, Stderr, Stdin, Stdout, Write};

#[cfg(test)]
mod tests;

// Where a program reads, where it writes, and where it says what it could not do.
#[derive(Drop)]
pub struct Streams<R, W, E> {
    pub input: R,
    pub output: W,
    pub errors: E,
}

// A read failed after so many bytes.
#[derive(Clone, Copy, Debug, PartialEq, Eq)]
pub struct ReadFailed {
    pub after: usize,
}

// The process's own.
pub fn standard(rt: &HostRuntime) -> Streams<Stdin, Stdout, Stderr> {
    Streams {
        input: rt.stdin(),
        output: rt.stdout(),
        errors: rt.stderr(),
    }
}

// Says a text on standard error; whether it could.
pub fn try_complain<R, W, E: Write>(s: &mut Streams<R, W, E>, text: &[u8]) -> io::Result<()>
    ensures input { s.new.input ≡ s.old.input }
    ensures output { s.new.output ≡ s.old.output }
    ensures said { OnOk result (Appends (E.contents s.old.errors) (E.contents s.new.errors) text.now) }
{
    s.errors.write_all(text)
}

// Says a text on standard error, if it can: there is nowhere to say that it could not.
pub fn complain<R, W, E: Write>(s: &mut Streams<R, W, E>, text: &[u8])
    ensures input { s.new.input ≡ s.old.input }
    ensures output { s.new.output ≡ s.old.output }
{
    let _ = try_complain(s, text);
}

// Writes all of it, or says that it could not.
pub fn show<R, W: Write, E: Write>(s: &mut Streams<R, W, E>, text: &[u8]) -> io::Result<()>
    ensures input { s.new.input ≡ s.old.input }
    ensures shown { OnOk result (Appends (W.contents s.old.output) (W.contents s.new.output) text.now) }
    ensures quiet { OnOk result (s.new.errors ≡ s.old.errors) }
{
    let shown = s.output.write_all(text);
    if shown.is_err() {
        complain(s, b"nazsombet: standard output could not be written\n");
    }
    shown
}

// Reads once, what is there: no bytes at the end of the input.
pub fn part<R: Read, W, E: Write>(s: &mut Streams<R, W, E>, buf: &mut [u8]) -> io::Result<usize>
    ensures prefix { IfOk result (λ n. IsPrefixLen n buf.new) }
    ensures output { s.new.output ≡ s.old.output }
    ensures bytes { ReadConsumes (R.remaining s.old.input) (R.remaining s.new.input) result buf.new }
    ensures quiet { OnOk result (s.new.errors ≡ s.old.errors) }
{
    let got = s.input.read(buf);
    if got.is_err() {
        complain(s, b"nazsombet: standard input could not be read\n");
    }
    got
}

// Reads to the end of the input or of the buffer.
pub fn whole<R: Read, W, E: Write>(
    s: &mut Streams<R, W, E>,
    buf: &mut [u8],
) -> Result<usize, ReadFailed>
    ensures prefix { IsPrefixLen (came result) buf.new }
    ensures output { s.new.output ≡ s.old.output }
    ensures bytes { Consumes (R.remaining s.old.input) (R.remaining s.new.input) (take (came result) buf.new) }
    ensures end { IfOk result (λ n. n < length buf.new → IsAtEnd (R.remaining s.new.input)) }
    ensures quiet { OnOk result (s.new.errors ≡ s.old.errors) }
{
    let mut done = 0;
    // stays: no index is counted, each turn goes on by what a read gave (d)
    while done < buf.len() {
        let Ok(got) = part(s, &mut buf[done..]) else {
            return Err(ReadFailed { after: done });
        };
        if got == 0 {
            break;
        }
        done += got;
    }
    Ok(done)
}

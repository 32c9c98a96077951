// A journal from the input to the output, listed or told in a form. Its words come little-endian; a word that does not
// read as a call, and odd bytes at the end, stop it with a last line.
#![tactic(auto)]

ghost use Rattle.std.specs.Prelude.{◌<◌, length};

use files::Streams;
use forms::Form;
use lister::Lister;
use rows::Memory;
use std::io;
use std::io::{Read, Write};

// So many bytes of a journal are read at once.
const PART: usize = 512;

// Before them eleven may be held, of a call that is not yet whole.
const HELD: usize = 11;

// Room for the text of them all.
const TEXT: usize = (HELD + PART) * lister::PER_BYTE;

// Lists a part and writes its text.
fn list<R, W: Write, E: Write>(
    s: &mut Streams<R, W, E>,
    form: Form,
    lister: &mut Lister,
    part: &[u8],
    memory: &mut Memory<'_>,
) -> io::Result<()>
    requires { length part.now < 513 }
{
    let mut out = [0u8; TEXT];
    let used = lister.feed(form, part, memory, &mut out);
    files::show(s, &out[..used])
}

// Reads once, what is there, and writes its text; whether there was any.
fn turn<R: Read, W: Write, E: Write>(
    s: &mut Streams<R, W, E>,
    form: Form,
    lister: &mut Lister,
    memory: &mut Memory<'_>,
) -> io::Result<bool> {
    let mut part = [0u8; PART];
    let used = files::part(s, &mut part)?;
    if used == 0 {
        return Ok(false);
    }
    list(s, form, lister, &part[..used], memory)?;
    Ok(true)
}

// Writes the last line, if the bytes still held ask for one.
fn finish<R, W: Write, E: Write>(
    s: &mut Streams<R, W, E>,
    form: Form,
    lister: &Lister,
    tables: &[u32],
) -> io::Result<()> {
    let mut out = [0u8; forms::ROOM];
    let n = lister.finish(form, tables, &mut out);
    files::show(s, &out[..n])
}

// Lines have a header, and sentences have none.
fn begin<R, W: Write, E: Write>(s: &mut Streams<R, W, E>, form: Form) -> io::Result<()> {
    match form {
        Form::Lines => {
            let mut line = [0u8; listing::ROOM];
            let n = listing::head(&mut line);
            files::show(s, &line[..n])
        }
        Form::Sentences | Form::Numbered => Ok(()),
    }
}

// A proved loop has to end, and nothing says that a journal does. So the turns are counted, up to a number that no run
// reaches.
fn turns<R: Read, W: Write, E: Write>(
    s: &mut Streams<R, W, E>,
    form: Form,
    memory: &mut Memory<'_>,
) -> io::Result<()> {
    begin(s, form)?;
    let mut lister = Lister::new();
    for _ in 0..u64::MAX {
        if !turn(s, form, &mut lister, memory)? {
            return finish(s, form, &lister, memory.tables);
        }
        if !lister.going {
            break;
        }
    }
    Ok(())
}

// The whole journal, on fresh tables and grants. What could not be read or written is said, so the answer is let go.
pub fn run<R: Read, W: Write, E: Write>(s: &mut Streams<R, W, E>, form: Form) {
    let mut tables = [0u32; lent_tables::TABLE_WORDS];
    let mut grants = [0u32; grants::GRANT_WORDS];
    let mut scratch = [0u32; lent_tables::SCRATCH_WORDS];
    let _ = lent_tables::fresh(&mut tables, &mut grants);
    let mut memory = Memory {
        tables: &mut tables,
        grants: &mut grants,
        scratch: &mut scratch,
    };
    let _ = turns(s, form, &mut memory);
}

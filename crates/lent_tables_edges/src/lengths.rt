// The entries on memories of other lengths: the parts of larger ones that are full of words.
ghost use Rattle.std.specs.Prelude.{◌≤◌, length};

use crate::{memory, out};

fn fresh(rt: &impl Print, tables: &mut [u32], n: usize)
    requires { n ≤ length tables.old }
{
    memory::fill(tables);
    let before = memory::sum(tables);
    let answer = memory::fresh(&mut tables[..n]);
    out::value(rt, b"fresh", n as u64);
    out::next(rt, b"answer", u64::from(calls::code(answer)));
    out::next(rt, b"sum", before);
    out::next(rt, b"then", memory::sum(tables));
    out::line(rt);
}

fn check(rt: &impl Print, tables: &[u32], scratch: &mut [u32], n: usize, k: usize)
    requires { (n ≤ length tables.now) × (k ≤ length scratch.old) }
{
    memory::fill(scratch);
    let words = memory::sum(tables);
    let before = memory::sum(scratch);
    let answer = memory::check(&tables[..n], &mut scratch[..k]);
    out::value(rt, b"check", n as u64);
    out::next(rt, b"scratch", k as u64);
    out::next(rt, b"answer", u64::from(calls::code(answer)));
    out::next(rt, b"sum", words);
    out::next(rt, b"then", memory::sum(tables));
    out::next(rt, b"sum", before);
    out::next(rt, b"then", memory::sum(scratch));
    out::line(rt);
}

fn show_fresh(rt: &impl Print, tables: &mut [u32])
    requires { 4097 ≤ length tables.old }
{
    fresh(rt, tables, 0);
    fresh(rt, tables, 4095);
    fresh(rt, tables, 4097);
    fresh(rt, tables, 4096);
}

fn show_tables(rt: &impl Print, tables: &[u32], scratch: &mut [u32])
    requires { (4097 ≤ length tables.now) × (257 ≤ length scratch.old) }
{
    check(rt, tables, scratch, 0, 256);
    check(rt, tables, scratch, 4095, 256);
    check(rt, tables, scratch, 4097, 256);
    check(rt, tables, scratch, 4096, 256);
}

fn show_scratch(rt: &impl Print, tables: &[u32], scratch: &mut [u32])
    requires { (4097 ≤ length tables.now) × (257 ≤ length scratch.old) }
{
    check(rt, tables, scratch, 4096, 0);
    check(rt, tables, scratch, 4096, 255);
    check(rt, tables, scratch, 4096, 257);
    check(rt, tables, scratch, 4095, 255);
}

pub fn show(rt: &impl Print) {
    let mut tables = [0u32; 4097];
    let mut scratch = [0u32; 257];
    memory::fill(&mut tables);
    show_tables(rt, &tables, &mut scratch);
    show_scratch(rt, &tables, &mut scratch);
    show_fresh(rt, &mut tables);
    show_tables(rt, &tables, &mut scratch);
    show_scratch(rt, &tables, &mut scratch);
}

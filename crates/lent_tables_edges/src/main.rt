// Makes tables fresh and checks tables: of several lengths, then ten tables written out by hand, which it reads, and
// every word of those changed in turn. What it must write, stdout, is what the second machine's program `tables`
// writes.
#![tactic(auto)]

ghost use Rattle.std.specs.Prelude.{◌≡◌, length};
ghost use Rattle.layout.specs.Addresses.{table_words};

mod lengths;
mod memory;
mod out;
mod scan;
mod sweep;

// More bytes than tests/tables.txt has.
const ROOM: usize = 65_536;

// The text is that of tests/tables.txt; each table begins behind a #.
fn show_tables(rt: &impl Print, text: &[u8], kept: &mut [u32])
    requires { length kept.old ≡ table_words }
{
    let mut at = scan::table(text, 0, kept);
    for number in 1..=10 {
        at = scan::table(text, at, kept);
        sweep::table(rt, number, kept);
    }
}

fn main(rt: HostRuntime) {
    let mut text = [0u8; ROOM];
    let mut kept = [0u32; lent_tables::TABLE_WORDS];
    lengths::show(&rt);
    let used = match files::whole(&mut files::standard(&rt), &mut text) {
        Ok(used) => used,
        Err(failed) => failed.after,
    };
    show_tables(&rt, &text[..used], &mut kept);
}

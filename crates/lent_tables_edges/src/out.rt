// What is written to standard output.
// stays: (d) each line is made of names and numbers in turn, by functions of its parts.

pub fn text(rt: &impl Print, bytes: &[u8]) {
    let _ = rt.write_all(bytes);
}

// A name and a number.
pub fn value(rt: &impl Print, name: &[u8], n: u64) {
    text(rt, name);
    let _ = print!(rt; " {n}");
}

// The same, behind another.
pub fn next(rt: &impl Print, name: &[u8], n: u64) {
    text(rt, b" ");
    value(rt, name, n);
}

pub fn line(rt: &impl Print) {
    text(rt, b"\n");
}

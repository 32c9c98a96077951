// The type that the reader for C answers with.

// What the reader answers: its code, the word where it stands afterwards, and the call as six numbers.
// stays: (a) C's entry answers these three at once, and `reading` is over them.
#[derive(Clone, Copy)]
pub struct Reading {
    pub code: u32,
    pub at: usize,
    pub call: [u32; 6],
}

// How many there are of each, at the width of an index.
pub const THREADS: usize = 256;

// A level for each priority.
pub const LEVELS: usize = 256;

pub const ENDPOINTS: usize = 64;

pub const LINES: usize = 32;

// Document 01's numbers by name.

// The codes of accepted calls; those of refusals are Refusal's.
pub const DONE: u32 = 0;

pub const BLOCKED: u32 = 1;

// A delete or an abort whose allowance is used up, with work left.
pub const BROKEN_OFF: u32 = 2;

// The outcomes of a thread: how its last waiting ended; none where it has not waited, or waits now.
pub const NO_OUTCOME: u32 = 0;

pub const MESSAGE_TAKEN: u32 = 1;

pub const MESSAGE_RECEIVED: u32 = 2;

pub const MESSAGE_ABORTED: u32 = 3;

pub const ENDPOINT_GONE: u32 = 4;

pub const LINE_FIRED: u32 = 5;

// The ticks that a thread starts with.
pub const TICKS: u32 = 5;

// The greatest number that names a thread, and so on.
pub const LAST_THREAD: u32 = 255;

pub const LAST_PRIORITY: u32 = 255;

pub const LAST_ENDPOINT: u32 = 63;

pub const LAST_LINE: u32 = 31;

// The number that stands for no thread and no level.
pub const NO_SEAT: u32 = 256;

// How many badges there are, and messages: the first number that is neither.
pub const BADGES: u32 = 0x1000_0000;

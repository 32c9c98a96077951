// The numbers that words hold, as specs/Words has them. A range of codes ends where the next one begins.

// A thread's place. Sending and receiving have the endpoint added, waiting has the line.
pub const ABSENT: u32 = 0;

pub const ABLE: u32 = 1;

pub const SENDING: u32 = 2;

pub const RECEIVING: u32 = 66;

pub const WAITING: u32 = 130;

// What a thread has to do with aborts. Member and note have the endpoint added.
pub const NOTHING: u32 = 0;

pub const MEMBER: u32 = 1;

pub const NOTE: u32 = 65;

// An endpoint's status.
pub const MISSING: u32 = 0;

pub const LIVE: u32 = 1;

pub const CLOSING: u32 = 2;

// Whether an abort stands at an endpoint.
pub const NO_ABORT: u32 = 0;

pub const ABORTING: u32 = 1;

// A line. Awaited has the thread added.
pub const QUIET: u32 = 0;

pub const PENDING: u32 = 1;

pub const AWAITED: u32 = 2;

// A link: to nobody, or to a thread, which is added.
pub const NOBODY: u32 = 0;

pub const LINK: u32 = 1;

// The queue of an endpoint has the endpoint added; those before are the levels'.
pub const ENDPOINT_QUEUES: usize = 256;

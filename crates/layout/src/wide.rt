// The codes, and the machine's numbers, at the width at which the check reads words: a cast where one is used would be
// a proof there. LAST is the end of a range.
// stays: (d) the check compares words with indices, which are usize; with codes at u32 each index would be cast.
use crate::codes;

pub const ABSENT: usize = codes::ABSENT as usize;

pub const ABLE: usize = codes::ABLE as usize;

pub const SENDING: usize = codes::SENDING as usize;

pub const RECEIVING: usize = codes::RECEIVING as usize;

pub const WAITING: usize = codes::WAITING as usize;

pub const LAST_PLACE: usize = WAITING + calls::codes::LAST_LINE as usize;

pub const NOTHING: usize = codes::NOTHING as usize;

pub const MEMBER: usize = codes::MEMBER as usize;

pub const LAST_MEMBER: usize = MEMBER + calls::codes::LAST_ENDPOINT as usize;

pub const LAST_NOTE: usize = codes::NOTE as usize + calls::codes::LAST_ENDPOINT as usize;

pub const MISSING: usize = codes::MISSING as usize;

pub const LIVE: usize = codes::LIVE as usize;

pub const CLOSING: usize = codes::CLOSING as usize;

pub const NO_ABORT: usize = codes::NO_ABORT as usize;

pub const ABORTING: usize = codes::ABORTING as usize;

pub const AWAITED: usize = codes::AWAITED as usize;

pub const LAST_AWAITED: usize = AWAITED + calls::codes::LAST_THREAD as usize;

pub const NOBODY: usize = codes::NOBODY as usize;

pub const LINK: usize = codes::LINK as usize;

pub const LAST_LINK: usize = LINK + calls::codes::LAST_THREAD as usize;

pub const NO_OUTCOME: usize = calls::codes::NO_OUTCOME as usize;

pub const MESSAGE_RECEIVED: usize = calls::codes::MESSAGE_RECEIVED as usize;

pub const LAST_OUTCOME: usize = calls::codes::LINE_FIRED as usize;

pub const LAST_PRIORITY: usize = calls::codes::LAST_PRIORITY as usize;

pub const TICKS: usize = calls::codes::TICKS as usize;

pub const BADGES: usize = calls::codes::BADGES as usize;

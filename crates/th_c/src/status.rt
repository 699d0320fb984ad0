//! What a call comes to, as a number. `lib/c/topichub.h` says what each means, by the same names.

pub const DONE: u32 = 0;

pub const SENT: u32 = 1;

pub const VALUE: u32 = 2;

pub const LAGGED: u32 = 3;

pub const EMPTY: u32 = 4;

pub const CLOSED: u32 = 5;

pub const NEW_RX: u32 = 6;

pub const NEW_TX: u32 = 7;

pub const COUNT: u32 = 8;

pub const WAS: u32 = 9;

pub const NEW: u32 = 10;

pub const SAME: u32 = 11;

pub const YES: u32 = 12;

pub const NO: u32 = 13;

pub const MARKED: u32 = 14;

pub const NOT_YET: u32 = 15;

pub const NO_RECEIVERS: u32 = 16;

pub const EXHAUSTED: u32 = 17;

pub const TOO_MANY: u32 = 18;

pub const NO_HANDLE: u32 = 19;

pub const WOULD_WAIT: u32 = 20;

pub const LOG_FULL: u32 = 21;

pub const NO_MEMORY: u32 = 22;

pub const NOT_OPEN: u32 = 23;

pub const IS_OPEN: u32 = 24;

pub const BAD_CAPACITY: u32 = 25;

pub const BAD_VERSION: u32 = 26;

pub const BAD_LIMIT: u32 = 27;

pub const NOT_RECORDED: u32 = 28;

pub const LEGAL: u32 = 29;

pub const ILLEGAL: u32 = 30;

pub const BAD_TRACE: u32 = 31;

pub const OTHER_VALUES: u32 = 32;

pub const BAD_VALUE: u32 = 33;

pub const SMALL_BUFFER: u32 = 34;

/// The status of no call.
pub const NEVER: u32 = 65_536;

// The codes of events, by the names that specs/Codes.antt gives them. Numbers, and no enum: `told_into` lends any list of events, and an enum would ask more of it.
pub const CONNECT: u32 = 1;

pub const SEND_SESSION_OPEN_REQUEST: u32 = 2;

pub const SEND_SESSION_OK: u32 = 3;

pub const SEND_RESPONSE: u32 = 4;

pub const SEND_RESPONSE_AGAIN: u32 = 5;

pub const SEND_ADVISORY: u32 = 6;

pub const DISCONNECT: u32 = 7;

pub const UP: u32 = 8;

pub const CLOSED_ACKNOWLEDGED: u32 = 9;

pub const CLOSED_ADVISED: u32 = 10;

pub const CLOSED_TIMED_OUT: u32 = 11;

pub const CLOSED_LOST: u32 = 12;

pub const REQUEST_ARRIVED: u32 = 13;

pub const OUT_OF_PLACE: u32 = 14;

pub const UNMATCHED: u32 = 15;

pub const UNREADABLE: u32 = 16;

pub const ADVISORY_ARRIVED: u32 = 17;

pub const SEND_ALERT: u32 = 18;

pub const SEND_GOING_OUT_OF_SERVICE: u32 = 19;

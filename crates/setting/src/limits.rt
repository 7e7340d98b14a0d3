// What a caller can set, each range once. The rules ask by these, and tables for menus are made from them. For a field that starts at 0
// this says how many values it has.
use counters::{FramePosition, RelativeNumber};

pub const FIRST_PID: u16 = 16;

pub const LAST_PID: u16 = 8190;

pub const COUNTERS: u8 = 16;

pub const VERSIONS: u8 = 8;

pub const SLOT_ALLOCATION_TYPES: u8 = 2;

pub const FRAME_TYPES: u8 = 16;

// The frame types that a header may have: the first alone in a plain one, and one of its own in a short one.
pub const FIRST_FRAME_TYPE: u8 = 1;

pub const LAST_FRAME_TYPE: u8 = 2;

pub const SHORT_FRAME_TYPE: u8 = 3;

pub const AVAILABILITIES: u16 = counters::AVAILABILITIES;

pub const RECEIVE_STATUSES: u8 = 4;

pub const EMERGENCY_INDICATORS: u8 = 2;

// A slot's number is a stream's, or 0.
pub const NUMBERS: u8 = RelativeNumber::LAST + 1;

pub const FIRST_CARRIER: u8 = 1;

pub const LAST_CARRIER: u8 = 8;

pub const FEWEST_FRAMES: u8 = 3;

pub const MOST_FRAMES: u8 = FramePosition::LAST;

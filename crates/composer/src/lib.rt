// A run of frames: where the parts of its state stand. The state is 436 bytes that the caller keeps, in Rattle as in C. What each call
// answers and leaves is said in specs/.
#![tactic(auto)]

use counters::SLOTS;
use setting_bytes::{ANNOUNCED, ANNOUNCED_BYTES, NUMBERS, SETTING_BYTES};

// The PID, in two bytes, and the kind. Then come counter and version of the last closed header, and what it announced.
pub const PID: usize = 0;

pub const PID_LOW: usize = PID + 1;

pub const KIND: usize = PID_LOW + 1;

pub const COUNTER: usize = KIND + 1;

pub const VERSION: usize = COUNTER + 1;

pub const LAST: usize = VERSION + 1;

// Whether a frame is open, its setting, and a byte for each slot that says whether it is filled.
pub const OPEN: usize = LAST + ANNOUNCED_BYTES;

pub const SETTING: usize = OPEN + 1;

pub const FILLED: usize = SETTING + SETTING_BYTES;

// How many bytes a state takes.
pub const COMPOSER_BYTES: usize = FILLED + SLOTS;

// Where, in the open frame's setting, stand what it announces, its availability and its plan.
pub const SAID: usize = SETTING + ANNOUNCED;

pub const AVAILABILITY: usize = SAID + setting_bytes::AVAILABILITY;

pub const AVAILABILITY_LOW: usize = SAID + setting_bytes::AVAILABILITY_LOW;

pub const PLAN: usize = SETTING + NUMBERS;

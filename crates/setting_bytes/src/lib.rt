// Settings, kinds and numbers of 16 bits as bytes, as a caller keeps them and hands them over. The fields of a setting stand in its own
// order, numbers of 16 bits with the high byte first.
#![tactic(auto)]

ghost use Rattle.std.specs.Prelude.{◌≡◌};
ghost use Rattle.setting_bytes.specs.Words.{words_read};
ghost use Rattle.setting_bytes.specs.Kinds.{kind_of, kind_number};

use counters::{SLOTS, STREAMS};
use setting::{AUXILIARY_BYTES, Kind, PRIVATE_BYTES};

// Reads a number of each two bytes of a part. A part of any other length than the numbers need changes nothing.
pub fn read_words(words: &mut [u16], part: &[u8])
    ensures { words.new ≡ words_read words.old part.now }
{
    if part.len() != 2 * words.len() {
        return;
    }
    for (k, word) in words.iter_mut().enumerate() {
        *word = bits::word(part[2 * k], part[2 * k + 1]);
    }
}

// The largest number of a kind. Calls refuse any above it.
pub const LAST_KIND: u8 = 2;

// The kind of a number: 1 is extended, 2 is short; any other number counts as plain. It is no `From<u8>`, which would read as if every number
// were a kind, and no `TryFrom`: the kind in a saved state decides on lengths, and those are asked before the number is.
#[tactic(auto, unfolding(crate::specs::Kinds::kind_of))]
pub fn kind_of(n: u8) -> Kind
    ensures { result ≡ kind_of n }
{
    match n {
        1 => Kind::Extended,
        2 => Kind::Short,
        _ => Kind::Plain,
    }
}

#[tactic(auto, unfolding(crate::specs::Kinds::kind_number))]
pub fn kind_number(kind: Kind) -> u8
    ensures { result ≡ kind_number kind }
{
    match kind {
        Kind::Plain => 0,
        Kind::Extended => 1,
        Kind::Short => 2,
    }
}

// What a header announces: its parts stand one behind the other, identifiers in two bytes each.
pub const SLOT_ALLOCATION_TYPE: usize = 0;

pub const FRAME_TYPE: usize = SLOT_ALLOCATION_TYPE + 1;

pub const AVAILABILITY: usize = FRAME_TYPE + 1;

pub const AVAILABILITY_LOW: usize = AVAILABILITY + 1;

pub const TS_ID: usize = AVAILABILITY_LOW + 1;

pub const ORIGINAL_NETWORK_ID: usize = TS_ID + 2 * STREAMS;

pub const RECEIVE_STATUS: usize = ORIGINAL_NETWORK_ID + 2 * STREAMS;

pub const EMERGENCY: usize = RECEIVE_STATUS + STREAMS;

pub const ANNOUNCED_BYTES: usize = EMERGENCY + 1;

// A setting: counter and version, what it announces, and the rest in the setting's own order.
pub const COUNTER: usize = 0;

pub const VERSION: usize = COUNTER + 1;

pub const ANNOUNCED: usize = VERSION + 1;

pub const NUMBERS: usize = ANNOUNCED + ANNOUNCED_BYTES;

pub const PRIVATE: usize = NUMBERS + SLOTS;

pub const AUXILIARY: usize = PRIVATE + PRIVATE_BYTES;

// The bonding fields, the group's id first.
pub const BONDING: usize = AUXILIARY + AUXILIARY_BYTES;

pub const CARRIERS: usize = BONDING + 1;

pub const SEQUENCE: usize = CARRIERS + 1;

pub const FRAMES: usize = SEQUENCE + 1;

pub const POSITION: usize = FRAMES + 1;

pub const SETTING_BYTES: usize = POSITION + 1;

// Where, in a whole setting, the parts of what it announces stand.
pub mod in_setting {
    use super::ANNOUNCED;

    pub const SLOT_ALLOCATION_TYPE: usize = ANNOUNCED + super::SLOT_ALLOCATION_TYPE;

    pub const FRAME_TYPE: usize = ANNOUNCED + super::FRAME_TYPE;

    pub const AVAILABILITY: usize = ANNOUNCED + super::AVAILABILITY;

    pub const AVAILABILITY_LOW: usize = ANNOUNCED + super::AVAILABILITY_LOW;

    pub const STREAM_IDS: usize = ANNOUNCED + super::TS_ID;

    pub const NETWORK_IDS: usize = ANNOUNCED + super::ORIGINAL_NETWORK_ID;

    pub const STATUSES: usize = ANNOUNCED + super::RECEIVE_STATUS;

    pub const EMERGENCY: usize = ANNOUNCED + super::EMERGENCY;
}

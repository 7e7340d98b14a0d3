// A setting: what a header of J.183 says, the range of each field, the rules with their refusal numbers, and what decides on the next
// header's version. The rules are definitions in specs/; the code of 17 is in setting_checks, of 8 and 11 in setting_rules, of 9 in
// setting_slots, of 10 in setting_pairs.
#![tactic(auto)]

ghost use Rattle.std.specs.Prelude.{◌≡◌};
ghost use Rattle.setting.specs.Setting.{blank};
ghost use Rattle.setting.specs.Size.{size_of};
ghost use Rattle.setting.specs.Rules.{pid_allowed};
ghost use Rattle.setting.specs.Announcing.{announced};

use counters::{FramePosition, RelativeNumber, SLOTS, STREAMS, Slot};

pub mod limits;

// The bytes of private data that a setting has room for: as many as a short header has.
pub const PRIVATE_BYTES: usize = 131;

// The bytes of auxiliary information in an extended header.
pub const AUXILIARY_BYTES: usize = 28;

// Whether a header is plain, extended or short. The caller says which.
#[derive(Clone, Copy)]
pub enum Kind {
    Plain,
    Extended,
    Short,
}

// The size of a header and of its frame: how many slots carry packets, how many streams the header knows, the bits of a slot's number, and
// the bytes of private data.
#[derive(Clone, Copy)]
pub struct Size {
    pub slots: u8,
    pub streams: u8,
    pub number_bits: u8,
    pub private_bytes: u8,
}

// The size of a kind.
pub fn size_of(kind: Kind) -> Size
    ensures { result ≡ size_of kind }
{
    match kind {
        Kind::Plain => Size {
            slots: Slot::LAST,
            streams: RelativeNumber::LAST,
            number_bits: 4,
            private_bytes: 85,
        },
        Kind::Extended => Size {
            slots: Slot::LAST,
            streams: RelativeNumber::LAST,
            number_bits: 4,
            private_bytes: 0,
        },
        Kind::Short => Size {
            slots: Slot::LAST_SHORT,
            streams: RelativeNumber::LAST_SHORT,
            number_bits: 3,
            private_bytes: 131,
        },
    }
}

// Every field that a caller sets, by J.183's names. A part that the kind does not have is zeros.
#[derive(Clone, Copy)]
pub struct Setting {
    pub continuity_counter: u8,
    pub version_number: u8,
    pub slot_allocation_type: u8,
    pub frame_type: u8,
    // Fifteen bits, the highest is stream 1's, in every kind; 1 means available.
    pub availability: u16,
    pub ts_id: [u16; STREAMS],
    pub original_network_id: [u16; STREAMS],
    pub receive_status: [u8; STREAMS],
    pub emergency_indicator: u8,
    // The number of the stream in each slot, from slot 1 on; 0: none.
    pub relative_ts_number: [u8; SLOTS],
    // Of a plain or a short header.
    pub private_data: [u8; PRIVATE_BYTES],
    // Of an extended header.
    pub auxiliary: [u8; AUXILIARY_BYTES],
    pub group_id: u8,
    pub number_of_carriers: u8,
    pub carrier_sequence: u8,
    pub number_of_frames: u8,
    pub frame_position: FramePosition,
}

impl Setting {
    // Zeros in every part: what a caller fills in, and what stands beside a refusal.
    pub fn blank() -> Setting
        ensures { result ≡ blank }
    {
        Setting {
            continuity_counter: 0,
            version_number: 0,
            slot_allocation_type: 0,
            frame_type: 0,
            availability: 0,
            ts_id: [0u16; STREAMS],
            original_network_id: [0u16; STREAMS],
            receive_status: [0u8; STREAMS],
            emergency_indicator: 0,
            relative_ts_number: [0u8; SLOTS],
            private_data: [0u8; PRIVATE_BYTES],
            auxiliary: [0u8; AUXILIARY_BYTES],
            group_id: 0,
            number_of_carriers: 0,
            carrier_sequence: 0,
            number_of_frames: 0,
            frame_position: FramePosition(0),
        }
    }
}

// Whether a header PID may be used.
pub fn pid_allowed(pid: u16) -> bool
    ensures { result ≡ pid_allowed pid }
{
    if pid < limits::FIRST_PID {
        return false;
    }
    pid <= limits::LAST_PID
}

// What of the last closed header decides on the next version: slot information, identifiers and control information.
#[derive(Clone, Copy)]
pub struct Announced {
    pub slot_allocation_type: u8,
    pub frame_type: u8,
    pub availability: u16,
    pub ts_id: [u16; STREAMS],
    pub original_network_id: [u16; STREAMS],
    pub receive_status: [u8; STREAMS],
    pub emergency_indicator: u8,
}

// What a header with this setting announces.
pub fn announce(s: Setting) -> Announced
    ensures { result ≡ announced s }
{
    let ts_id = s.ts_id;
    let original_network_id = s.original_network_id;
    let receive_status = s.receive_status;
    Announced {
        slot_allocation_type: s.slot_allocation_type,
        frame_type: s.frame_type,
        availability: s.availability,
        ts_id,
        original_network_id,
        receive_status,
        emergency_indicator: s.emergency_indicator,
    }
}

// Whether a number is a header PID.
#[unsafe(no_mangle)]
pub extern "C" fn niranbok_pid_allowed(pid: u16) -> bool
    ensures { result ≡ pid_allowed pid }
{
    pid_allowed(pid)
}

// A setting, and what a header announces, read from bytes.
#![tactic(auto)]

ghost use Rattle.std.specs.Prelude.{◌≡◌};
ghost use Rattle.setting_bytes.specs.Settings.{announced_of, setting_of};

use counters::{FramePosition, SLOTS, STREAMS};
use setting::{AUXILIARY_BYTES, Announced, PRIVATE_BYTES, Setting};
use setting_bytes::{
    ANNOUNCED, ANNOUNCED_BYTES, AUXILIARY, AVAILABILITY, AVAILABILITY_LOW, BONDING, CARRIERS,
    COUNTER, EMERGENCY, FRAME_TYPE, FRAMES, NUMBERS, ORIGINAL_NETWORK_ID, POSITION, PRIVATE,
    RECEIVE_STATUS, SEQUENCE, SETTING_BYTES, SLOT_ALLOCATION_TYPE, TS_ID, VERSION,
};

// What a header announces, from its 80 bytes. Bytes of another length count as zeros.
pub fn announced_of(bytes: &[u8]) -> Announced
    ensures { result ≡ announced_of bytes.now }
{
    let mut ts_id = [0u16; STREAMS];
    let mut original_network_id = [0u16; STREAMS];
    let mut receive_status = [0u8; STREAMS];
    if bytes.len() != ANNOUNCED_BYTES {
        return Announced {
            slot_allocation_type: 0,
            frame_type: 0,
            availability: 0,
            ts_id,
            original_network_id,
            receive_status,
            emergency_indicator: 0,
        };
    }
    setting_bytes::read_words(&mut ts_id, &bytes[TS_ID..ORIGINAL_NETWORK_ID]);
    setting_bytes::read_words(
        &mut original_network_id,
        &bytes[ORIGINAL_NETWORK_ID..RECEIVE_STATUS],
    );
    slices::copy(&mut receive_status, &bytes[RECEIVE_STATUS..EMERGENCY]);
    Announced {
        slot_allocation_type: bytes[SLOT_ALLOCATION_TYPE],
        frame_type: bytes[FRAME_TYPE],
        availability: bits::word(bytes[AVAILABILITY], bytes[AVAILABILITY_LOW]),
        ts_id,
        original_network_id,
        receive_status,
        emergency_indicator: bytes[EMERGENCY],
    }
}

// A setting from its 298 bytes. Bytes of another length count as zeros.
pub fn setting_of(bytes: &[u8]) -> Setting
    ensures { result ≡ setting_of bytes.now }
{
    if bytes.len() != SETTING_BYTES {
        return Setting::blank();
    }
    let a = announced_of(&bytes[ANNOUNCED..NUMBERS]);
    let mut relative_ts_number = [0u8; SLOTS];
    slices::copy(&mut relative_ts_number, &bytes[NUMBERS..PRIVATE]);
    let mut private_data = [0u8; PRIVATE_BYTES];
    slices::copy(&mut private_data, &bytes[PRIVATE..AUXILIARY]);
    let mut auxiliary = [0u8; AUXILIARY_BYTES];
    slices::copy(&mut auxiliary, &bytes[AUXILIARY..BONDING]);
    let ts_id = a.ts_id;
    let original_network_id = a.original_network_id;
    let receive_status = a.receive_status;
    Setting {
        continuity_counter: bytes[COUNTER],
        version_number: bytes[VERSION],
        slot_allocation_type: a.slot_allocation_type,
        frame_type: a.frame_type,
        availability: a.availability,
        ts_id,
        original_network_id,
        receive_status,
        emergency_indicator: a.emergency_indicator,
        relative_ts_number,
        private_data,
        auxiliary,
        group_id: bytes[BONDING],
        number_of_carriers: bytes[CARRIERS],
        carrier_sequence: bytes[SEQUENCE],
        number_of_frames: bytes[FRAMES],
        frame_position: FramePosition(bytes[POSITION]),
    }
}

// A setting, and what a header announces, written as bytes.
#![tactic(auto)]

ghost use Rattle.std.specs.Prelude.{◌≡◌, cond, [], ◌∷◌, ◌++◌, ◌*◌, eqb, length};
ghost use Rattle.setting_bytes.specs.Words.{word_bytes};
ghost use Rattle.setting_bytes.specs.Settings.{ts_id_at, announced_length, announced_bytes};
ghost use Rattle.setting_bytes.specs.Settings.{private_at, auxiliary_at, setting_length, setting_from, setting_bytes};
ghost use Rattle.setting.specs.Announcing.{announced};

use setting::{AUXILIARY_BYTES, Announced, Setting};
use setting_bytes::{
    ANNOUNCED, ANNOUNCED_BYTES, AUXILIARY, AVAILABILITY, AVAILABILITY_LOW, COUNTER, EMERGENCY,
    FRAME_TYPE, NUMBERS, ORIGINAL_NETWORK_ID, PRIVATE, RECEIVE_STATUS, SETTING_BYTES,
    SLOT_ALLOCATION_TYPE, TS_ID, VERSION,
};

fn write_words(part: &mut [u8], words: &[u16])
    requires { length part.old ≡ 2 * length words.now }
    ensures { part.new ≡ word_bytes words.now }
{
    for (k, word) in words.iter().enumerate() {
        let [high, low] = word.to_be_bytes();
        part[2 * k] = high;
        part[2 * k + 1] = low;
    }
}

// Writes slot_allocation_type, frame_type and the availability.
fn write_information(part: &mut [u8], a: Announced)
    requires { length part.old ≡ ts_id_at }
    ensures { part.new ≡ a.slot_allocation_type ∷ a.frame_type ∷ word_bytes (a.availability ∷ []) }
{
    let [high, low] = a.availability.to_be_bytes();
    part[SLOT_ALLOCATION_TYPE] = a.slot_allocation_type;
    part[FRAME_TYPE] = a.frame_type;
    part[AVAILABILITY] = high;
    part[AVAILABILITY_LOW] = low;
}

// Writes what a header announces into the lent 80 bytes; bytes of any other length stay.
pub fn write_announced(bytes: &mut [u8], a: Announced)
    ensures { bytes.new ≡ cond (eqb (length bytes.old) announced_length) (announced_bytes a) bytes.old }
{
    if bytes.len() != ANNOUNCED_BYTES {
        return;
    }
    write_information(&mut bytes[0..TS_ID], a);
    let ts_id = a.ts_id;
    write_words(&mut bytes[TS_ID..ORIGINAL_NETWORK_ID], &ts_id);
    let original_network_id = a.original_network_id;
    write_words(
        &mut bytes[ORIGINAL_NETWORK_ID..RECEIVE_STATUS],
        &original_network_id,
    );
    let receive_status = a.receive_status;
    slices::copy(&mut bytes[RECEIVE_STATUS..EMERGENCY], &receive_status);
    bytes[EMERGENCY] = a.emergency_indicator;
}

// Where the bonding fields stand behind the auxiliary bytes.
const GROUP: usize = AUXILIARY_BYTES;

const CARRIERS: usize = GROUP + 1;

const SEQUENCE: usize = GROUP + 2;

const FRAMES: usize = GROUP + 3;

const POSITION: usize = GROUP + 4;

// The counter, the version, what is announced and the slots' numbers.
fn write_front(part: &mut [u8], s: Setting)
    requires { length part.old ≡ private_at }
    ensures { part.new ≡ (s.continuity_counter ∷ s.version_number ∷ []) ++ (announced_bytes (announced s) ++ s.relative_ts_number) }
{
    write_announced(&mut part[ANNOUNCED..NUMBERS], setting::announce(s));
    let relative_ts_number = s.relative_ts_number;
    slices::copy(&mut part[NUMBERS..PRIVATE], &relative_ts_number);
    part[COUNTER] = s.continuity_counter;
    part[VERSION] = s.version_number;
}

// The auxiliary bytes and the bonding fields, a byte each.
fn write_back(part: &mut [u8], s: Setting)
    requires { length part.old ≡ setting_from auxiliary_at }
    ensures { part.new ≡ s.auxiliary ++ (s.group_id ∷ s.number_of_carriers ∷ s.carrier_sequence ∷ s.number_of_frames ∷ s.frame_position.0 ∷ []) }
{
    let auxiliary = s.auxiliary;
    slices::copy(&mut part[0..GROUP], &auxiliary);
    let position = s.frame_position;
    part[GROUP] = s.group_id;
    part[CARRIERS] = s.number_of_carriers;
    part[SEQUENCE] = s.carrier_sequence;
    part[FRAMES] = s.number_of_frames;
    part[POSITION] = position.0;
}

// Writes a setting into the lent 298 bytes; bytes of any other length stay.
pub fn write_setting(bytes: &mut [u8], s: Setting)
    ensures { bytes.new ≡ cond (eqb (length bytes.old) setting_length) (setting_bytes s) bytes.old }
{
    if bytes.len() != SETTING_BYTES {
        return;
    }
    write_front(&mut bytes[0..PRIVATE], s);
    let private_data = s.private_data;
    slices::copy(&mut bytes[PRIVATE..AUXILIARY], &private_data);
    write_back(&mut bytes[AUXILIARY..SETTING_BYTES], s);
}

// The parts of the writer: each fills its own bytes of the buffer, straight from the setting's bytes. Of each field the low bits are written.
ghost use Rattle.std.specs.Prelude.{◌≡◌, ℕ, ◌+◌, ◌-◌, ◌*◌, ◌/◌, ◌≤◌, length};
ghost use Rattle.bits.specs.Fields.{bits_of, run};
ghost use Rattle.counters.specs.Counters.{last_slot, last_stream};
ghost use Rattle.setting_bytes.specs.Words.{words_of};
ghost use Rattle.setting_bytes.specs.Settings.{setting_of};
ghost use Rattle.setting.specs.declared.Size.{Size};
ghost use Rattle.setting.specs.Size.{size_of, slots_of, streams_of, resized};
ghost use Rattle.header_layout.specs.Layout.{extended_bytes, start_table, stream_table, control_table, private_table, streams_start, private_start};
ghost use Rattle.header_layout.specs.Bytes.{bonding_bytes};
ghost use Rattle.header_layout.specs.Header.{paired, line_bits, body};

use crate::packed;
use counters::SHORT_SLOTS;
use setting::{AUXILIARY_BYTES, Kind, PRIVATE_BYTES};
use setting_bytes::in_setting::{
    AVAILABILITY, AVAILABILITY_LOW, EMERGENCY, FRAME_TYPE, NETWORK_IDS, SLOT_ALLOCATION_TYPE,
    STATUSES, STREAM_IDS,
};
use setting_bytes::{
    AUXILIARY, BONDING, CARRIERS, COUNTER, FRAMES, NUMBERS, POSITION, PRIVATE, SEQUENCE,
    SETTING_BYTES, VERSION,
};

// What an extended header has in the place of private data.
const EXTENDED_BYTES: usize = AUXILIARY_BYTES
    + header_layout::BONDING_BYTES
    + header_layout::RESERVED_BYTES;

// The bytes of the slots' numbers, and of a plain header's private data. A part is cut to its length where it is written, so that the
// compiler knows it.
const LONG_NUMBERS_BYTES: usize = header_layout::PRIVATE - header_layout::NUMBERS;

const SHORT_NUMBERS_BYTES: usize = header_layout::SHORT_PRIVATE - header_layout::SHORT_NUMBERS;

const LONG_PRIVATE_BYTES: usize = header_layout::CRC - header_layout::PRIVATE;

// Bytes 0 to 6, which are the same for every size: packet header, sync, version and types.
fn write_start(part: &mut [u8], pid: u16, setting: &[u8; SETTING_BYTES])
    requires { length part.old ≡ streams_start }
    ensures { (z : Size) → run 8 part.new ≡ line_bits z pid (setting_of setting.now) start_table }
{
    let [pid_high, pid_low] = pid.to_be_bytes();
    part[0] = 0x47;
    part[1] = pid_high % 32;
    part[2] = pid_low;
    part[3] = 16 + setting[COUNTER] % 16;
    part[4] = 0xFA;
    part[5] = 0x86;
    part[6] = setting[VERSION] % 8 * 32
        + setting[SLOT_ALLOCATION_TYPE] % 2 * 16
        + setting[FRAME_TYPE] % 16;
}

// The availability of each stream of the kind, and a reserved bit: two bytes for fifteen streams, and one for seven, which stand in the setting's
// highest bits.
fn write_streams(part: &mut [u8], kind: Kind, setting: &[u8; SETTING_BYTES])
    requires { length part.old ≡ (streams_of kind + 1) / 8 }
    ensures { (pid : ℕ) → run 8 part.new ≡ line_bits (size_of kind) pid (setting_of setting.now) (stream_table (size_of kind)) }
{
    let availability = bits::word(setting[AVAILABILITY], setting[AVAILABILITY_LOW]);
    // The availability has fifteen bits here, or seven, so what a byte takes of it is no byte of a number.
    match kind {
        Kind::Plain | Kind::Extended => {
            part[0] = (availability / 128 % 256) as u8;
            part[1] = (availability % 128 * 2 + 1) as u8;
        }
        Kind::Short => part[0] = (availability / 256 % 128 * 2 + 1) as u8,
    }
}

// The identifiers of so many streams, as they stand in the setting: TS_id and then original_network_id, high byte first.
fn write_identifiers(part: &mut [u8], ts: &[u8], os: &[u8], streams: usize)
    requires part_len { (length part.old ≡ 4 * streams) × (streams ≤ last_stream) }
    requires ts_len { (length ts.now ≡ 2 * last_stream) × (length os.now ≡ 2 * last_stream) }
    ensures { run 8 part.new ≡ run 16 (paired (resized streams (words_of ts.now)) (resized streams (words_of os.now))) }
{
    for k in 0..streams {
        part[4 * k] = ts[2 * k];
        part[4 * k + 1] = ts[2 * k + 1];
        part[4 * k + 2] = os[2 * k];
        part[4 * k + 3] = os[2 * k + 1];
    }
}

// The control information: four statuses to a byte, and in the last byte three, a reserved bit and the emergency bit. As many statuses as there is
// room for.
fn write_control(part: &mut [u8], setting: &[u8; SETTING_BYTES])
    requires { (1 ≤ length part.old) × (4 * length part.old ≤ last_stream + 1) }
    ensures { (z : Size) (pid : ℕ) → z.streams + 1 ≡ 4 * length part.old → run 8 part.new ≡ line_bits z pid (setting_of setting.now) (control_table z) }
{
    let r = &setting[STATUSES..EMERGENCY];
    let last = part.len() - 1;
    for k in 0..last {
        let at = 4 * k;
        part[k] = packed::four(r[at], r[at + 1], r[at + 2], r[at + 3]);
    }
    // The last value is the reserved bit, a one, and the emergency bit.
    let at = 4 * last;
    part[last] = packed::four(r[at], r[at + 1], r[at + 2], 2 + setting[EMERGENCY] % 2);
}

// The number of each slot of the kind.
fn write_numbers(part: &mut [u8], kind: Kind, numbers: &[u8])
    requires { (length part.old ≡ slots_of kind * (size_of kind).number_bits / 8) × (length numbers.now ≡ last_slot) }
    ensures { run 8 part.new ≡ run (size_of kind).number_bits (resized (slots_of kind) numbers.now) }
{
    match kind {
        Kind::Plain | Kind::Extended => {
            bits::pack_halves(&mut part[0..LONG_NUMBERS_BYTES], numbers)
        }
        Kind::Short => {
            packed::write_run(
                &mut part[0..SHORT_NUMBERS_BYTES],
                &numbers[0..SHORT_SLOTS],
                3,
            );
        }
    }
}

// The bonding fields of an extended header.
fn write_bonding(part: &mut [u8], setting: &[u8; SETTING_BYTES])
    requires { length part.old ≡ 4 }
    ensures { part.new ≡ bonding_bytes (setting_of setting.now) }
{
    part[0] = setting[BONDING];
    part[1] = setting[CARRIERS];
    part[2] = setting[SEQUENCE];
    part[3] = setting[FRAMES] % 16 * 16 + setting[POSITION] % 16;
}

// Auxiliary information, the bonding fields and reserved bytes.
fn write_extended(part: &mut [u8], setting: &[u8; SETTING_BYTES])
    requires { length part.old ≡ extended_bytes }
    ensures { (z : Size) (pid : ℕ) → run 8 part.new ≡ line_bits z pid (setting_of setting.now) (private_table Kind.Extended) }
{
    slices::copy(&mut part[0..AUXILIARY_BYTES], &setting[AUXILIARY..BONDING]);
    write_bonding(
        &mut part[AUXILIARY_BYTES..AUXILIARY_BYTES + header_layout::BONDING_BYTES],
        setting,
    );
    slices::fill(
        &mut part[AUXILIARY_BYTES + header_layout::BONDING_BYTES..EXTENDED_BYTES],
        0xFF,
    );
}

// The private data of a plain or a short header, as many as it has room for; else what an extended header has in their place.
fn write_private(part: &mut [u8], kind: Kind, setting: &[u8; SETTING_BYTES])
    requires { length part.old ≡ 184 - private_start (size_of kind) }
    ensures { (pid : ℕ) → run 8 part.new ≡ line_bits (size_of kind) pid (setting_of setting.now) (private_table kind) }
{
    match kind {
        Kind::Plain => slices::copy(
            &mut part[0..LONG_PRIVATE_BYTES],
            &setting[PRIVATE..PRIVATE + LONG_PRIVATE_BYTES],
        ),
        Kind::Short => slices::copy(&mut part[0..PRIVATE_BYTES], &setting[PRIVATE..AUXILIARY]),
        Kind::Extended => write_extended(part, setting),
    }
}

// Everything before the CRC.
pub(crate) fn write_body(part: &mut [u8], pid: u16, kind: Kind, setting: &[u8; SETTING_BYTES])
    requires { length part.old ≡ 184 }
    ensures { run 8 part.new ≡ body kind pid (setting_of setting.now) }
{
    let size = setting::size_of(kind);
    let streams = usize::from(size.streams);
    let at = header_layout::places_of(kind);
    let identifiers = at.identifiers;
    let control = at.control;
    let numbers = at.numbers;
    let private = at.private;
    write_start(&mut part[0..header_layout::AVAILABILITY], pid, setting);
    write_streams(
        &mut part[header_layout::AVAILABILITY..identifiers],
        kind,
        setting,
    );
    write_identifiers(
        &mut part[identifiers..control],
        &setting[STREAM_IDS..NETWORK_IDS],
        &setting[NETWORK_IDS..STATUSES],
        streams,
    );
    write_control(&mut part[control..numbers], setting);
    write_numbers(
        &mut part[numbers..private],
        kind,
        &setting[NUMBERS..PRIVATE],
    );
    write_private(&mut part[private..header_layout::CRC], kind, setting);
}

// A number of 32 bits, high byte first.
pub(crate) fn write_word(part: &mut [u8], word: u32)
    requires { length part.old ≡ 4 }
    ensures { run 8 part.new ≡ bits_of 32 word }
{
    part.copy_from_slice(&word.to_be_bytes());
}

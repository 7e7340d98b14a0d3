// Lengths in bytes, and where the fields of a setting stand in its bytes.
use counters::{SHORT_SLOTS, SLOTS, STREAMS};
use packet::PACKET_BYTES;
use setting::{AUXILIARY_BYTES, Kind, PRIVATE_BYTES};
use setting_bytes::{BONDING, in_setting};
use std::fmt;

#[derive(Clone, Copy)]
pub(crate) struct Length {
    name: &'static str,
    bytes: usize,
}

impl fmt::Display for Length {
    fn fmt<W: fmt::Write>(&self, f: &mut fmt::Formatter<W>) -> fmt::Result {
        let name = self.name;
        let bytes = self.bytes;
        write!(f, "length\t{name}\t{bytes}")
    }
}

// Where a field starts, and how many bytes it has.
#[derive(Clone, Copy)]
pub(crate) struct Place {
    name: &'static str,
    at: usize,
    bytes: usize,
}

impl fmt::Display for Place {
    fn fmt<W: fmt::Write>(&self, f: &mut fmt::Formatter<W>) -> fmt::Result {
        let name = self.name;
        let at = self.at;
        let bytes = self.bytes;
        write!(f, "place\t{name}\t{at}\t{bytes}")
    }
}

fn length_of(name: &'static str, bytes: usize) -> Length {
    Length { name, bytes }
}

fn place_of(name: &'static str, at: usize, bytes: usize) -> Place {
    Place { name, at, bytes }
}

pub(crate) fn lengths() -> [Length; 8] {
    [
        length_of("packet", PACKET_BYTES),
        length_of("frame", packet::FRAME_BYTES),
        length_of("store", receiver::STORE_BYTES),
        length_of("short_frame", packet::frame_bytes(Kind::Short)),
        length_of("short_store", PACKET_BYTES * SHORT_SLOTS),
        length_of("setting", setting_bytes::SETTING_BYTES),
        length_of("composer", composer::COMPOSER_BYTES),
        length_of("receiver", receiver::RECEIVER_BYTES),
    ]
}

// How much of a setting's private data a plain header has, and a short one.
pub(crate) fn private_lengths() -> [Length; 2] {
    let plain = setting::size_of(Kind::Plain);
    let short = setting::size_of(Kind::Short);
    [
        length_of("private_data", plain.private_bytes as usize),
        length_of("short_private_data", short.private_bytes as usize),
    ]
}

pub(crate) fn places() -> [Place; 5] {
    [
        place_of("continuity_counter", setting_bytes::COUNTER, 1),
        place_of("version_number", setting_bytes::VERSION, 1),
        place_of("slot_allocation_type", in_setting::SLOT_ALLOCATION_TYPE, 1),
        place_of("frame_type", in_setting::FRAME_TYPE, 1),
        place_of("availability", in_setting::AVAILABILITY, 2),
    ]
}

// What a setting has for each stream and for each slot.
pub(crate) fn stream_places() -> [Place; 5] {
    [
        place_of("ts_id", in_setting::STREAM_IDS, 2 * STREAMS),
        place_of("original_network_id", in_setting::NETWORK_IDS, 2 * STREAMS),
        place_of("receive_status", in_setting::STATUSES, STREAMS),
        place_of("emergency_indicator", in_setting::EMERGENCY, 1),
        place_of("relative_ts_number", setting_bytes::NUMBERS, SLOTS),
    ]
}

// The private data, and the fields of an extended header.
pub(crate) fn extended_places() -> [Place; 7] {
    [
        place_of("private_data", setting_bytes::PRIVATE, PRIVATE_BYTES),
        place_of("auxiliary", setting_bytes::AUXILIARY, AUXILIARY_BYTES),
        place_of("group_id", BONDING, 1),
        place_of("number_of_carriers", setting_bytes::CARRIERS, 1),
        place_of("carrier_sequence", setting_bytes::SEQUENCE, 1),
        place_of("number_of_frames", setting_bytes::FRAMES, 1),
        place_of("frame_position", setting_bytes::POSITION, 1),
    ]
}

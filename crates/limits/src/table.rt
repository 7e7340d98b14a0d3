// The table of refusals: each refusal's number and its name, in the table's order.
use refusals::Refusal;
use std::fmt;

#[derive(Clone, Copy)]
pub(crate) struct Row(Refusal, &'static str);

impl fmt::Display for Row {
    fn fmt<W: fmt::Write>(&self, f: &mut fmt::Formatter<W>) -> fmt::Result {
        let Row(refusal, name) = *self;
        let number = refusal.number();
        write!(f, "refusal\t{number}\t{name}")
    }
}

// The checks of a call's own arguments.
pub(crate) fn lent() -> [Row; 4] {
    [
        Row(Refusal::Length, "length"),
        Row(Refusal::HeaderPid, "header_pid"),
        Row(Refusal::OutOfRange, "out_of_range"),
        Row(Refusal::NoFrame, "no_frame"),
    ]
}

// The checks of a header.
pub(crate) fn header() -> [Row; 6] {
    [
        Row(Refusal::SyncByte, "sync_byte"),
        Row(Refusal::OtherPid, "other_pid"),
        Row(Refusal::FixedBits, "fixed_bits"),
        Row(Refusal::SyncBits, "sync_bits"),
        Row(Refusal::Crc, "crc"),
        Row(Refusal::ReservedBits, "reserved_bits"),
    ]
}

// The checks of its setting.
pub(crate) fn setting() -> [Row; 4] {
    [
        Row(Refusal::FrameType, "frame_type"),
        Row(Refusal::UnavailableNumber, "unavailable_number"),
        Row(Refusal::EqualIdentifiers, "equal_identifiers"),
        Row(Refusal::BondingFields, "bonding_fields"),
    ]
}

// The checks behind those of the headers.
pub(crate) fn call() -> [Row; 4] {
    [
        Row(Refusal::Group, "group"),
        Row(Refusal::UnavailableStream, "unavailable_stream"),
        Row(Refusal::Room, "room"),
        Row(Refusal::UnfitPacket, "unfit_packet"),
    ]
}

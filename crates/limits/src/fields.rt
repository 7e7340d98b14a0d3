// The fields that a caller can set, each with what plain, what extended and what short headers allow.
use counters::{FramePosition, RelativeNumber, Slot};
use refusals::Refusal;
use setting::limits;
use std::fmt;

// The largest number that a field of one byte holds, and of two.
const BYTE: u64 = 0xFF;

const WORD: u64 = 0xFFFF;

// What a kind of header allows, and the refusal of any other value.
#[derive(Clone, Copy)]
struct Range {
    first: u64,
    last: u64,
    refusal: Option<Refusal>,
}

// A refusal's number; 0 where nothing is refused.
fn number(refusal: Option<Refusal>) -> u8 {
    refusal.map_or(0, |refusal| refusal.number())
}

impl fmt::Display for Range {
    fn fmt<W: fmt::Write>(&self, f: &mut fmt::Formatter<W>) -> fmt::Result {
        let Range {
            first,
            last,
            refusal,
        } = *self;
        let refused = number(refusal);
        write!(f, "{first}\t{last}\t{refused}")
    }
}

// A field, with what plain, extended and short headers allow; nothing where no call of that kind has it. The refusals are for values up to
// `up_to`; a larger value gets the one `above` (none: the field's bytes hold no larger value).
#[derive(Clone, Copy)]
pub(crate) struct Field {
    name: &'static str,
    kinds: [Option<Range>; 3],
    up_to: u64,
    above: Option<Refusal>,
}

impl fmt::Display for Field {
    fn fmt<W: fmt::Write>(&self, f: &mut fmt::Formatter<W>) -> fmt::Result {
        let name = self.name;
        write!(f, "field\t{name}")?;
        for kind in &self.kinds {
            match kind {
                Some(range) => write!(f, "\t{range}")?,
                None => write!(f, "\t-\t-\t-")?,
            }
        }
        let up_to = self.up_to;
        let above = number(self.above);
        write!(f, "\t{up_to}\t{above}")
    }
}

// The availability with a bit for each stream of a short header. Stream r has bit 15 - r in every kind.
const LAST_SHORT_AVAILABILITY: u64 = ((1 << RelativeNumber::LAST_SHORT) - 1)
    << (RelativeNumber::LAST - RelativeNumber::LAST_SHORT);

// A kind that does not have the field has a 0 there.
const ABSENT: Range = Range {
    first: 0,
    last: 0,
    refusal: Some(Refusal::OutOfRange),
};

// The values from the first to the last. Any other value is a 17.
fn within(first: u64, last: u64) -> Range {
    Range {
        first,
        last,
        refusal: Some(Refusal::OutOfRange),
    }
}

// A field that may hold anything.
fn any(held: u64) -> Range {
    Range {
        first: 0,
        last: held,
        refusal: None,
    }
}

// The frame types that a kind allows.
fn types(first: u8, last: u8) -> Range {
    Range {
        first: u64::from(first),
        last: u64::from(last),
        refusal: Some(Refusal::FrameType),
    }
}

fn by_kind(name: &'static str, plain: Range, extended: Range, short: Range, held: u64) -> Field {
    Field {
        name,
        kinds: [Some(plain), Some(extended), Some(short)],
        up_to: held,
        above: None,
    }
}

// A field that all kinds have, with the same range.
fn same(name: &'static str, range: Range, held: u64) -> Field {
    by_kind(name, range, range, range, held)
}

// A frame_type that does not fit its bits is a 17 before it is an 8.
fn frame_type() -> Field {
    Field {
        above: Some(Refusal::OutOfRange),
        ..by_kind(
            "frame_type",
            types(limits::FIRST_FRAME_TYPE, limits::FIRST_FRAME_TYPE),
            types(limits::FIRST_FRAME_TYPE, limits::LAST_FRAME_TYPE),
            types(limits::SHORT_FRAME_TYPE, limits::SHORT_FRAME_TYPE),
            u64::from(limits::FRAME_TYPES - 1),
        )
    }
}

pub(crate) fn header_fields() -> [Field; 5] {
    let pids = Range {
        first: u64::from(limits::FIRST_PID),
        last: u64::from(limits::LAST_PID),
        refusal: Some(Refusal::HeaderPid),
    };
    let counters = within(0, u64::from(limits::COUNTERS - 1));
    let versions = within(0, u64::from(limits::VERSIONS - 1));
    let allocation_types = within(0, u64::from(limits::SLOT_ALLOCATION_TYPES - 1));
    [
        same("header_pid", pids, WORD),
        same("continuity_counter", counters, BYTE),
        same("version_number", versions, BYTE),
        same("slot_allocation_type", allocation_types, BYTE),
        frame_type(),
    ]
}

// What a header says of its streams and slots.
pub(crate) fn stream_fields() -> [Field; 6] {
    let availabilities = within(0, u64::from(limits::AVAILABILITIES - 1));
    let short_availabilities = within(0, LAST_SHORT_AVAILABILITY);
    let statuses = within(0, u64::from(limits::RECEIVE_STATUSES - 1));
    let emergencies = within(0, u64::from(limits::EMERGENCY_INDICATORS - 1));
    let numbers = within(0, u64::from(limits::NUMBERS - 1));
    let short_numbers = within(0, u64::from(RelativeNumber::LAST_SHORT));
    [
        by_kind(
            "availability",
            availabilities,
            availabilities,
            short_availabilities,
            WORD,
        ),
        same("ts_id", any(WORD), WORD),
        same("original_network_id", any(WORD), WORD),
        same("receive_status", statuses, BYTE),
        same("emergency_indicator", emergencies, BYTE),
        by_kind("relative_ts_number", numbers, numbers, short_numbers, BYTE),
    ]
}

// A bonding field of an extended header.
fn bonding(name: &'static str, first: u8, last: u8) -> Field {
    let range = Range {
        first: u64::from(first),
        last: u64::from(last),
        refusal: Some(Refusal::BondingFields),
    };
    by_kind(name, ABSENT, range, ABSENT, BYTE)
}

// Private data, which extended headers do not have, and what they alone have. A carrier's sequence is at most the number of carriers, and
// a frame's position at most the number of frames.
pub(crate) fn bonding_fields() -> [Field; 7] {
    [
        by_kind("private_data", any(BYTE), ABSENT, any(BYTE), BYTE),
        by_kind("auxiliary", ABSENT, any(BYTE), ABSENT, BYTE),
        by_kind("group_id", ABSENT, any(BYTE), ABSENT, BYTE),
        bonding(
            "number_of_carriers",
            limits::FIRST_CARRIER,
            limits::LAST_CARRIER,
        ),
        bonding(
            "carrier_sequence",
            limits::FIRST_CARRIER,
            limits::LAST_CARRIER,
        ),
        bonding(
            "number_of_frames",
            limits::FEWEST_FRAMES,
            limits::MOST_FRAMES,
        ),
        bonding("frame_position", FramePosition::FIRST, FramePosition::LAST),
    ]
}

// A number that calls take.
fn taken(name: &'static str, first: u8, last: u8, last_short: u8) -> Field {
    let range = within(u64::from(first), u64::from(last));
    let short = within(u64::from(first), u64::from(last_short));
    by_kind(name, range, range, short, BYTE)
}

// The numbers that calls take: a slot of a plan, a stream, the carriers of a group. A group has extended headers only, so carriers have no
// range for others.
pub(crate) fn numbers() -> [Field; 3] {
    let carriers = within(
        u64::from(limits::FIRST_CARRIER),
        u64::from(limits::LAST_CARRIER),
    );
    [
        taken("slot", Slot::FIRST, Slot::LAST, Slot::LAST_SHORT),
        taken(
            "stream",
            RelativeNumber::FIRST,
            RelativeNumber::LAST,
            RelativeNumber::LAST_SHORT,
        ),
        Field {
            name: "carriers",
            kinds: [None, Some(carriers), None],
            up_to: BYTE,
            above: None,
        },
    ]
}

// The header's 188 bytes: where its parts start, computed from the numbers of streams and slots. The table, what stands in it and how a
// packet is read by it are in specs/; the laws that the writer and the reader need are in proofs/.
#![tactic(auto)]

ghost use Rattle.std.specs.Prelude.{◌≡◌, ◌+◌, ◌≤◌};
ghost use Rattle.setting.specs.Size.{size_of};
ghost use Rattle.header_layout.specs.Layout.{streams_start};
ghost use Rattle.header_layout.specs.Places.{places_of};

use counters::{SHORT_SLOTS, SHORT_STREAMS, SLOTS, STREAMS};
use setting::Kind;

pub const HEADER_LENGTH: usize = 188;
// The CRC covers the bytes from here on.
pub const TSMF_SYNC: usize = 4;

// The availability of the streams stands behind the bytes that are the same for every size.
pub const AVAILABILITY: usize = 7;

// Each stream has its TS_id, and its original_network_id behind that.
pub const STREAM_BYTES: u8 = 4;

// The parts behind the availability: identifiers, control information, the slots' numbers, private data. The availability and the bit behind
// it are whole bytes. So are the statuses, of two bits each, with the two bits behind them, and the slots' numbers.
pub const IDENTIFIERS: usize = AVAILABILITY + (STREAMS + 1) / 8;

pub const CONTROL: usize = IDENTIFIERS + STREAM_BYTES as usize * STREAMS;

pub const NUMBERS: usize = CONTROL + (STREAMS + 1) / 4;

pub const PRIVATE: usize = NUMBERS + SLOTS * 4 / 8;

// The same of a short header.
pub const SHORT_IDENTIFIERS: usize = AVAILABILITY + (SHORT_STREAMS + 1) / 8;

pub const SHORT_CONTROL: usize = SHORT_IDENTIFIERS + STREAM_BYTES as usize * SHORT_STREAMS;

pub const SHORT_NUMBERS: usize = SHORT_CONTROL + (SHORT_STREAMS + 1) / 4;

pub const SHORT_PRIVATE: usize = SHORT_NUMBERS + SHORT_SLOTS * 3 / 8;

pub const CRC: usize = HEADER_LENGTH - 4;

// The reserved bytes of an extended header, before the CRC.
pub const RESERVED_BYTES: usize = 53;

pub const RESERVED: usize = CRC - RESERVED_BYTES;

// Before them: group_id, number_of_carriers, carrier_sequence, then number_of_frames and frame_position.
pub const BONDING_BYTES: usize = 4;

pub const BONDING: usize = RESERVED - BONDING_BYTES;

// The bytes at which the parts start whose place depends on the size.
#[derive(Clone, Copy)]
pub struct Places {
    pub identifiers: usize,
    pub control: usize,
    pub numbers: usize,
    pub private: usize,
}

// Where the parts of a plain or an extended header start.
fn long_places() -> Places
    ensures { result ≡ places_of (size_of Kind.Plain) }
{
    Places {
        identifiers: IDENTIFIERS,
        control: CONTROL,
        numbers: NUMBERS,
        private: PRIVATE,
    }
}

// Where the parts of a kind's header start.
pub fn places_of(kind: Kind) -> Places
    ensures value { result ≡ places_of (size_of kind) }
    ensures identifiers_bound { (result.identifiers + 60 ≤ 184) × (result.identifiers ≤ result.control) × (result.control + 1 ≤ result.numbers) × (result.numbers ≤ result.private) × (result.private ≤ 184) × (streams_start ≤ result.identifiers) }
{
    match kind {
        // One pattern for these two is slower: a short header then takes a tenth longer to write.
        Kind::Plain => long_places(),
        Kind::Extended => long_places(),
        Kind::Short => Places {
            identifiers: SHORT_IDENTIFIERS,
            control: SHORT_CONTROL,
            numbers: SHORT_NUMBERS,
            private: SHORT_PRIVATE,
        },
    }
}

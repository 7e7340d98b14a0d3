// The receiver: where it stands, what a packet does to it, and where its state has its parts. The state is 58 bytes that the caller lends,
// from Rattle as from C; the packets stand in a lent store, slot i at 188 × (i − 1). What each call answers and leaves is said in specs/.
#![tactic(auto)]

ghost use Rattle.std.specs.Prelude.{◌≡◌};
ghost use Rattle.receiver.specs.Bytes.{told};

use counters::SLOTS;
use packet::PACKET_BYTES;

// Where a receiver stands.
#[derive(Clone, Copy)]
pub enum Stage {
    // No frame is open.
    Waiting,
    // A frame is open: its header's counter, and how many packets are stored.
    Open(u8, u8),
    // A frame with this counter was just opened, nothing of it is stored, and the frame before it is ready.
    Ready(u8),
}

// What a packet did, by the receiver's table.
#[derive(Clone, Copy, Debug, PartialEq, Eq)]
pub enum Event {
    // Nothing: the receiver waits, or the call was refused.
    Nothing,
    Opened,
    Stored,
    // The frame before is ready, and a new one opened.
    Ready,
    // The frame before is dropped, and a new one opened: it had fewer packets than slots, or the counter did not step by one.
    Short,
    Jump,
    // The open frame is dropped: by a packet for which there is no slot, or by a broken one. Beside 'broken' stands the remainder of a header
    // that is refused by 7; 0 stands for any other cause.
    Long,
    Broken(u32),
}

impl Event {
    // The number by which C knows the event.
    #[tactic(auto, unfolding(crate::specs::Bytes::told))]
    pub fn number(self) -> u8
        ensures { result ≡ (told self).event }
    {
        match self {
            Event::Nothing => 0,
            Event::Opened => 1,
            Event::Stored => 2,
            Event::Ready => 3,
            Event::Short => 4,
            Event::Jump => 5,
            Event::Long => 6,
            Event::Broken(_) => 7,
        }
    }

    // The remainder that stands beside it.
    #[tactic(auto, unfolding(crate::specs::Bytes::told))]
    pub fn remainder(self) -> u32
        ensures { result ≡ (told self).remainder }
    {
        match self {
            Event::Broken(remainder) => remainder,
            _ => 0,
        }
    }
}

// A row of the receiver's table: what happened, and where the receiver stands then.
#[derive(Clone, Copy)]
pub struct Row {
    pub event: Event,
    pub stage: Stage,
}

// The most bytes that a store has: a packet for each of 52 slots.
pub const STORE_BYTES: usize = PACKET_BYTES * SLOTS;

// How many bytes the numbers of all slots take, two a byte as a header has them.
pub const PACKED_BYTES: usize = SLOTS * 4 / 8;

// The PID, in two bytes, and the kind. Then come the stage, the open frame's counter and how many of its packets are stored; then the slots'
// numbers, by the open frame's header and by the header before it.
pub const PID: usize = 0;

pub const PID_LOW: usize = PID + 1;

pub const KIND: usize = PID_LOW + 1;

pub const STAGE: usize = KIND + 1;

pub const COUNTER: usize = STAGE + 1;

pub const STORED: usize = COUNTER + 1;

pub const NUMBERS: usize = STORED + 1;

pub const BEFORE: usize = NUMBERS + PACKED_BYTES;

// How many bytes a state takes.
pub const RECEIVER_BYTES: usize = BEFORE + PACKED_BYTES;

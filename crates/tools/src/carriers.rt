// A group of carriers: its sizes, and where the super frame of each carrier stands.
ghost use Rattle.std.specs.Prelude.{◌+◌, ◌*◌, ◌≤◌, IfOk};
ghost use Rattle.counters.specs.Counters.{last_carrier, last_position, last_slot};
ghost use Rattle.packet.specs.Packets.{frame_length};
ghost use Rattle.tools.specs.Sizes.{group_length};

use crate::problem::{About, Field, Problem};
use bond_group::headers::FRAMES;
use counters::SLOTS;
use packet::{FRAME_BYTES, PACKET_BYTES};
use setting::limits;

// The bytes of a group that has the most frames, and of a stream that fills all its slots.
pub(crate) const GROUP_BYTES: usize = FRAME_BYTES * FRAMES;

pub(crate) const STREAM_PACKETS: usize = SLOTS * FRAMES;

pub(crate) const STREAM_BYTES: usize = PACKET_BYTES * STREAM_PACKETS;

pub(crate) const SUPER_BYTES: usize = FRAME_BYTES * limits::MOST_FRAMES as usize;

// A run has so many carriers, if a group can have them.
pub(crate) fn count(carriers: usize) -> Result<u8, Problem>
    ensures { IfOk result (λ count. count ≤ last_carrier) }
{
    match u8::try_from(carriers) {
        Ok(count) if count <= limits::LAST_CARRIER => Ok(count),
        _ => {
            let field = Field::up_to("carriers", limits::LAST_CARRIER);
            Err(Problem::Range(About::Run, field))
        }
    }
}

// How many frames a super frame has, by the number in its headers: 3 or 4.
pub(crate) fn frames_of(number: u8) -> u8
    ensures { (3 ≤ result) × (result ≤ last_position) }
{
    if number == limits::FEWEST_FRAMES {
        return limits::FEWEST_FRAMES;
    }
    limits::MOST_FRAMES
}

// What a carrier of the group has: its number, where its super frame starts in the group, how many frames that has, and in how many slots of
// each the stream is.
#[derive(Clone, Copy)]
pub(crate) struct Share {
    pub(crate) number: u8,
    pub(crate) at: usize,
    pub(crate) frames: u8,
    pub(crate) slots: u8,
    ghost few: { frames ≤ last_position },
    ghost inside: { at + frame_length last_slot * frames ≤ group_length },
}

impl Share {
    // Where the super frame ends in the group.
    pub(crate) fn end(&self) -> usize
        ensures { (self.now.at ≤ result) × (result ≤ group_length) }
    {
        self.at + FRAME_BYTES * usize::from(self.frames)
    }

    // How many packets of the stream the super frame takes.
    pub(crate) fn packets(&self) -> usize {
        usize::from(self.frames) * usize::from(self.slots)
    }
}

// One carrier of a group, read packet by packet. A run's first header has counter 0. As long as no more than fifteen headers in a row are
// lost, a header's counter tells its frame's place in the run, and so which super frame it belongs to.
ghost use Rattle.std.specs.Prelude.{◌*◌, ◌≤◌, length, IfSome};
ghost use Rattle.counters.specs.Counters.{last_position, last_slot};
ghost use Rattle.packet.specs.Packets.{frame_length};

use crate::carriers::{SUPER_BYTES, frames_of};
use crate::problem::About;
use crate::tally::Tally;
use crate::{input, receiving};
use counters::{FramePosition, SLOTS};
use host::Input;
use packet::{FRAME_BYTES, PACKET_BYTES};
use receiver::{Event, RECEIVER_BYTES};
use setting::{Kind, limits};

// How many packets are read at a time.
const BLOCK_PACKETS: usize = 53;

const BLOCK_BYTES: usize = PACKET_BYTES * BLOCK_PACKETS;

// A carrier's buffers: a block of its input; the open frame, its header and its packets; and the wanted super frame. They lie apart from the
// carrier: what is dropped at the end is copied for it, and with these it would take twice as much stack.
#[derive(Clone, Copy)]
pub(crate) struct Buffers {
    block: [u8; BLOCK_BYTES],
    frame: [u8; FRAME_BYTES],
    wanted: [u8; SUPER_BYTES],
}

impl Buffers {
    pub(crate) const EMPTY: Buffers = Buffers {
        block: [0u8; BLOCK_BYTES],
        frame: [0u8; FRAME_BYTES],
        wanted: [0u8; SUPER_BYTES],
    };
}

// The packets of an input, read in blocks: how many packets the block has, and how many of them were taken. A buffer and its counts, since the
// programs have no heap for a reader of the library's.
#[derive(Drop)]
struct Packets {
    input: Input,
    count: usize,
    taken: usize,
    ghost few: { count ≤ 53 },
}

impl Packets {
    // Reads the next block.
    fn refill(&mut self, rt: HostRuntime, block: &mut [u8; BLOCK_BYTES]) {
        let got = input::read_block(rt, &self.input, block);
        input::say_part(rt, About::Run, got);
        self.count = got / PACKET_BYTES;
        self.taken = 0;
    }

    // The next packet, or none at the end of the input.
    fn next(
        &mut self,
        rt: HostRuntime,
        block: &mut [u8; BLOCK_BYTES],
    ) -> Option<[u8; PACKET_BYTES]> {
        if self.count <= self.taken {
            self.refill(rt, block);
        }
        if self.count <= self.taken {
            return None;
        }
        let at = PACKET_BYTES * self.taken;
        self.taken += 1;
        let mut packet = [0u8; PACKET_BYTES];
        packet.copy_from_slice(&block[at..at + PACKET_BYTES]);
        Some(packet)
    }
}

// What the last good header says: how many frames its super frame has, and the place in the run, from 0, of the frame that it opened; and
// how many packets had come by then.
#[derive(Clone, Copy)]
struct Place {
    frames: u8,
    number: u64,
    came: u64,
    ghost right: { (3 ≤ frames) × (frames ≤ last_position) },
}

impl Place {
    // The number of the super frame to which the frame belongs.
    fn super_frame(&self) -> u64 {
        self.number / u64::from(self.frames)
    }

    // The frame's position in its super frame.
    fn position(&self) -> FramePosition
        ensures { (1 ≤ result.0) × (result.0 ≤ last_position) }
    {
        FramePosition((self.number % u64::from(self.frames)) as u8 + FramePosition::FIRST)
    }

    // The counter of its header.
    fn counter(&self) -> u8 {
        (self.number % u64::from(limits::COUNTERS)) as u8
    }

    // The number of the next header's frame. That header has this counter.
    fn behind(&self, counter: u8) -> u64 {
        let step = counter.wrapping_sub(self.counter()) % limits::COUNTERS;
        match step {
            0 => self.number.wrapping_add(u64::from(limits::COUNTERS)),
            _ => self.number.wrapping_add(u64::from(step)),
        }
    }
}

#[derive(Drop)]
pub(crate) struct Carrier {
    rt: HostRuntime,
    pid: u16,
    number: u8,
    packets: Packets,
    // Whether the input has ended.
    pub(crate) ended: bool,
    // The receiver's state.
    state: [u8; RECEIVER_BYTES],
    // Where the run stands; nowhere before the first good header.
    place: Option<Place>,
    // Which frames of the wanted super frame came whole, a bit for each.
    pub(crate) have: u8,
    tally: Tally,
}

impl Carrier {
    pub(crate) fn start(rt: HostRuntime, pid: u16, number: u8, input: Input) -> Carrier {
        Carrier {
            rt,
            pid,
            number,
            packets: Packets {
                input,
                count: 0,
                taken: 0,
            },
            ended: false,
            state: receiving::start(pid, Kind::Extended),
            place: None,
            have: 0,
            tally: Tally::new(pid, Kind::Extended),
        }
    }

    // Says what became of the carrier's frames.
    pub(crate) fn say(&self) {
        let _ = eprintln!(self.rt; "{}{}", About::Carrier(self.number), self.tally);
    }

    // The wanted super frame, if all of its frames came whole.
    pub(crate) fn super_frame<'a>(&self, buffers: &'a Buffers) -> Option<&'a [u8]>
        ensures { IfSome result (λ frames. length frames.now ≤ frame_length last_slot * last_position) }
    {
        let place = self.place?;
        if self.have != (1u8 << u32::from(place.frames)) - 1 {
            return None;
        }
        Some(&buffers.wanted[..FRAME_BYTES * usize::from(place.frames)])
    }

    // Whether the open frame belongs to a later super frame.
    fn is_past(&self, want: u64) -> bool {
        match self.place {
            Some(place) => want < place.super_frame(),
            None => false,
        }
    }

    // Gives up the carrier, whose place in the run is no longer known: no more of its packets are used.
    fn lose(&mut self) {
        let _ = eprintln!(self.rt;
            "a header came twice: the carrier's place in the run is no longer known"
        );
        self.place = None;
        self.have = 0;
        self.ended = true;
    }

    // Whether a header with this counter is the last one again. It could also be the sixteenth behind it; but then more packets than a
    // frame's slots would have come in between.
    fn is_repeated(&self, place: Place, counter: u8) -> bool {
        place.counter() == counter && self.tally.came.wrapping_sub(place.came) <= SLOTS as u64
    }

    // Takes a good header.
    fn take_header(&mut self, packet: &[u8]) {
        let Ok(said) = header_codec::read(packet, self.pid, Kind::Extended) else {
            return;
        };
        let counter = said.continuity_counter;
        let number = match self.place {
            None => u64::from(counter),
            Some(place) => {
                if self.is_repeated(place, counter) {
                    self.lose();
                    return;
                }
                place.behind(counter)
            }
        };
        self.place = Some(Place {
            frames: frames_of(said.number_of_frames),
            number,
            came: self.tally.came,
        });
    }

    // Keeps the frame that became ready, if it belongs to the wanted super frame.
    fn keep(&mut self, buffers: &mut Buffers, want: u64) {
        let Some(place) = self.place else {
            return;
        };
        if place.super_frame() != want {
            return;
        }
        let before = place.position().0 - FramePosition::FIRST;
        let at = FRAME_BYTES * usize::from(before);
        buffers.wanted[at..at + FRAME_BYTES].copy_from_slice(&buffers.frame);
        self.have |= 1u8 << u32::from(before);
    }

    // Takes one packet. If it opens a frame, it is kept as that frame's header.
    fn take(&mut self, buffers: &mut Buffers, packet: &[u8; PACKET_BYTES], want: u64) {
        let event = receiving::receive(&mut self.state, packet, &mut buffers.frame[PACKET_BYTES..]);
        self.tally.count(self.rt, event, packet);
        if let Event::Ready = event {
            self.keep(buffers, want);
        }
        if receiving::opens(event) {
            buffers.frame[..PACKET_BYTES].copy_from_slice(packet);
            self.take_header(packet);
        }
    }

    // Reads on until a super frame behind the one with this number has begun, or the input has ended. A proved loop has to end: this one does, at
    // the latest, when the numbers run out.
    pub(crate) fn read_on(&mut self, buffers: &mut Buffers, want: u64) {
        self.have = 0;
        for _ in 0..u64::MAX {
            if self.is_past(want) {
                return;
            }
            match self.packets.next(self.rt, &mut buffers.block) {
                Some(packet) => {
                    self.ended = false;
                    self.take(buffers, &packet, want);
                }
                None => self.ended = true,
            }
            if self.ended {
                return;
            }
        }
    }
}

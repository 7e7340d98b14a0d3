// Counts what happened to the frames of an input, and prints the summary.
use crate::problem::{FRAMES_PROGRESS, Why, say_progress};
use crate::receiving;
use header_check::Refused;
use receiver::Event;
use refusals::Refusal;
use setting::Kind;
use std::fmt;

// A header with a wrong CRC that dropped a frame: its remainder, and the packet's number in the input, from 0.
#[derive(Clone, Copy)]
struct Spoiled {
    remainder: u32,
    packet: u64,
}

// The counts. Each would wrap at 2^64.
#[derive(Clone, Copy)]
pub(crate) struct Tally {
    // The PID and the kind of the headers.
    pid: u16,
    kind: Kind,
    // Packets that came in, and those of them that are headers.
    pub(crate) came: u64,
    pub(crate) headers: u64,
    // While no header came: why the first packet with the header PID is none.
    refusal: Option<Refused>,
    ready: u64,
    // Frames dropped, by the reason.
    short: u64,
    jump: u64,
    long: u64,
    broken: u64,
    // The first header with a wrong CRC that dropped a frame.
    spoiled: Option<Spoiled>,
}

// Whether a packet that is refused as a header for this has the header PID: the checks up to that of the PID found nothing.
fn has_pid(refusal: Refusal) -> bool {
    !matches!(
        refusal,
        Refusal::Length | Refusal::HeaderPid | Refusal::SyncByte | Refusal::OtherPid
    )
}

impl Tally {
    pub(crate) fn new(pid: u16, kind: Kind) -> Tally {
        Tally {
            pid,
            kind,
            came: 0,
            headers: 0,
            refusal: None,
            ready: 0,
            short: 0,
            jump: 0,
            long: 0,
            broken: 0,
            spoiled: None,
        }
    }

    // Counts one more packet, and what it did.
    pub(crate) fn count(&mut self, rt: HostRuntime, event: Event, packet: &[u8]) {
        let number = self.came;
        self.came = number.wrapping_add(1);
        if receiving::opens(event) {
            self.headers = self.headers.wrapping_add(1);
        }
        match event {
            Event::Ready => {
                self.ready = self.ready.wrapping_add(1);
                say_progress(rt, self.ready, FRAMES_PROGRESS, "frames ready");
            }
            Event::Short => self.short = self.short.wrapping_add(1),
            Event::Jump => self.jump = self.jump.wrapping_add(1),
            Event::Long => self.long = self.long.wrapping_add(1),
            Event::Broken(remainder) => {
                self.broken = self.broken.wrapping_add(1);
                self.keep_remainder(remainder, number);
            }
            Event::Nothing | Event::Opened | Event::Stored => {}
        }
        self.keep_refusal(packet);
    }

    // Keeps the remainder of the packet with this number, if it is the first that has one.
    fn keep_remainder(&mut self, remainder: u32, packet: u64) {
        if remainder != 0 && self.spoiled.is_none() {
            self.spoiled = Some(Spoiled { remainder, packet });
        }
    }

    // Keeps why the packet is no header, if no header came and it is the first with the header PID.
    fn keep_refusal(&mut self, packet: &[u8]) {
        if self.headers != 0 || self.refusal.is_some() {
            return;
        }
        if let Err(why) = header_codec::read(packet, self.pid, self.kind)
            && has_pid(why.refusal)
        {
            self.refusal = Some(why);
        }
    }
}

impl fmt::Display for Spoiled {
    fn fmt<W: fmt::Write>(&self, f: &mut fmt::Formatter<W>) -> fmt::Result {
        write!(
            f,
            " (first remainder {:08x} at packet {})",
            self.remainder, self.packet
        )
    }
}

// What became of the frames, or why there is none.
impl fmt::Display for Tally {
    fn fmt<W: fmt::Write>(&self, f: &mut fmt::Formatter<W>) -> fmt::Result {
        if self.headers == 0 {
            write!(
                f,
                "no header with PID {} in {} packets",
                self.pid, self.came
            )?;
            return match self.refusal {
                Some(why) => write!(f, "; the first with this PID: {}", Why(why)),
                None => write!(f, ": another PID, or not cut on packet borders"),
            };
        }
        write!(
            f,
            "frames ready {}; dropped: short {}, jump {}, long {}, broken {}",
            self.ready, self.short, self.jump, self.long, self.broken
        )?;
        match self.spoiled {
            Some(spoiled) => write!(f, "{spoiled}"),
            None => Ok(()),
        }
    }
}

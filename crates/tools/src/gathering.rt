// Gathers the super frames of all carriers, one after another, and counts what became of them.
ghost use Rattle.std.specs.Prelude.{◌≤◌, IfSome};
ghost use Rattle.tools.specs.Sizes.{group_length};

use crate::arguments::Arguments;
use crate::carrier::{Buffers, Carrier};
use crate::carriers::{GROUP_BYTES, STREAM_BYTES, STREAM_PACKETS};
use crate::input;
use crate::problem::{About, Problem, SUPER_FRAMES_PROGRESS, said, say_progress};
use bond_group::Bond;
use bond_group::headers::CARRIERS;
use header_check::Refused;
use packet::PACKET_BYTES;
use std::fmt;

// What became of the super frames.
#[derive(Clone, Copy, Default)]
pub(crate) struct Count {
    out: u64,
    dropped: u64,
    packets: u64,
    // Whether a refusal was reported. Later ones are only counted.
    said: bool,
}

impl Count {
    // Counts a super frame that went out, with so many packets.
    fn count_out(&mut self, rt: HostRuntime, packets: usize) {
        self.out = self.out.wrapping_add(1);
        self.packets = self.packets.wrapping_add(packets as u64);
        say_progress(rt, self.out, SUPER_FRAMES_PROGRESS, "super frames out");
    }

    pub(crate) fn count_dropped(&mut self) {
        self.dropped = self.dropped.wrapping_add(1);
    }

    // Counts a super frame that was refused. The first refusal is reported.
    fn count_refused(&mut self, rt: HostRuntime, why: Refused) {
        if !self.said {
            Problem::Refused(About::Run, "super frame", why).say(rt);
            self.said = true;
        }
        self.count_dropped();
    }
}

impl fmt::Display for Count {
    fn fmt<W: fmt::Write>(&self, f: &mut fmt::Formatter<W>) -> fmt::Result {
        write!(
            f,
            "super frames out {}; dropped {}; packets out {}",
            self.out, self.dropped, self.packets
        )
    }
}

// Copies the carriers' super frames into the group, one behind another. Answers how many bytes they take, or none if some carrier lacks part
// of its super frame.
fn join(
    group: &mut [u8; GROUP_BYTES],
    carriers: &[Option<Carrier>; CARRIERS],
    buffers: &[Buffers; CARRIERS],
) -> Option<usize>
    ensures { IfSome result (λ end. end ≤ group_length) }
{
    let mut end = 0;
    for (c, place) in carriers.iter().enumerate() {
        if let Some(carrier) = place {
            let part = carrier.super_frame(&buffers[c])?;
            let behind = end + part.len();
            group[end..behind].copy_from_slice(part);
            end = behind;
        }
    }
    Some(end)
}

// The carriers of a group, and what became of their super frames so far.
#[derive(Drop)]
pub(crate) struct Group {
    rt: HostRuntime,
    bond: Bond,
    carriers: [Option<Carrier>; CARRIERS],
    count: Count,
}

impl Group {
    pub(crate) fn new(rt: HostRuntime, bond: Bond) -> Group {
        Group {
            rt,
            bond,
            carriers: [const { None }; CARRIERS],
            count: Count::default(),
        }
    }

    // Opens the carriers' files, and says of each that cannot be opened. Answers whether all were opened: a `Result` could tell one problem alone.
    pub(crate) fn open(&mut self, args: Arguments) -> bool {
        let Bond { carriers, pid, .. } = self.bond;
        let count = usize::from(carriers);
        for (c, carrier) in self.carriers.iter_mut().take(count).enumerate() {
            if let Some(input) = said(args.rt, args.open(c)) {
                *carrier = Some(Carrier::start(args.rt, pid, c as u8 + 1, input));
            }
        }
        self.carriers.iter().flatten().count() == count
    }

    // Reads each carrier to the end of the super frame with this number, or to the end of its input.
    fn read_on(&mut self, buffers: &mut [Buffers; CARRIERS], want: u64) {
        for (carrier, own) in self.carriers.iter_mut().zip(buffers) {
            if let Some(carrier) = carrier {
                carrier.read_on(own, want);
            }
        }
    }

    // Gathers a group, and writes the stream.
    fn gather(&mut self, group: &[u8], stream: &mut [u8; STREAM_BYTES]) -> Result<(), Problem> {
        match bond::gather(group, stream, self.bond) {
            Ok(packets) => {
                let end = PACKET_BYTES * packets.min(STREAM_PACKETS);
                input::print(self.rt, &stream[..end])?;
                self.count.count_out(self.rt, packets);
            }
            Err(why) => self.count.count_refused(self.rt, why),
        }
        Ok(())
    }

    // Counts a super frame that some carrier lacks part of. Behind the end of an input there may be none.
    fn drop_super(&mut self, ended: bool) {
        if !ended
            || self
                .carriers
                .iter()
                .flatten()
                .any(|carrier| carrier.have != 0)
        {
            self.count.count_dropped();
        }
    }

    // Reads and gathers until the input ends. A proved loop has to end: this one does, at the latest, when the numbers run out.
    pub(crate) fn gather_all(
        &mut self,
        buffers: &mut [Buffers; CARRIERS],
        group: &mut [u8; GROUP_BYTES],
        stream: &mut [u8; STREAM_BYTES],
    ) -> Result<(), Problem> {
        for want in 0..u64::MAX {
            self.read_on(buffers, want);
            if let Some(end) = join(group, &self.carriers, buffers) {
                self.gather(&group[..end], stream)?;
                continue;
            }
            let ended = self.carriers.iter().flatten().any(|carrier| carrier.ended);
            self.drop_super(ended);
            if ended {
                return Ok(());
            }
        }
        Ok(())
    }

    // Says what became of each carrier's frames, and of the super frames.
    pub(crate) fn say(&self) {
        for carrier in self.carriers.iter().flatten() {
            carrier.say();
        }
        let _ = eprintln!(self.rt; "{}", self.count);
    }
}

// bond: one stream in, the super frames of its carriers out, one file for each carrier.
ghost use Rattle.std.specs.Prelude.{◌≤◌};
ghost use Rattle.counters.specs.Counters.{last_carrier};
ghost use Rattle.tools.specs.Sizes.{group_length};

use crate::arguments::{Arguments, NETWORK_ID, PID, TS_ID};
use crate::carriers::{GROUP_BYTES, STREAM_BYTES, STREAM_PACKETS, Share};
use crate::headings::Bonded;
use crate::problem::{About, Field, Problem, SUPER_FRAMES_PROGRESS, allowed, said, say_progress};
use crate::{carriers, headings, input, nulls};
use bond_group::Bond;
use bond_group::headers::CARRIERS;
use counters::Slot;
use host::{Input, Output};
use packet::{FRAME_BYTES, PACKET_BYTES};
use refusals::Refusal;
use setting::limits;

// The arguments: PID, GROUP, TS_ID, NETWORK_ID and FILE; then for each carrier FRAMES, SLOTS and CARRIER_FILE.
const HEAD: usize = 5;

const WORDS: usize = 3;

const USAGE: &str =
    "bond PID GROUP TS_ID NETWORK_ID FILE FRAMES SLOTS CARRIER_FILE [FRAMES SLOTS CARRIER_FILE]..";

const GROUP: Field = Field {
    name: "GROUP",
    first: 0,
    last: 255,
    refusal: Refusal::OutOfRange,
};

const FRAMES: Field = Field {
    name: "FRAMES",
    first: limits::FEWEST_FRAMES as u32,
    last: limits::MOST_FRAMES as u32,
    refusal: Refusal::OutOfRange,
};

// Reads how many frames and slots each of so many carriers has. Stops behind the first of which one is out of range, and says so; then there
// are none. Both numbers of a carrier may be said, so it answers none and no problem.
fn read_shares(args: Arguments, count: usize) -> Option<[Option<Share>; CARRIERS]>
    requires { count ≤ last_carrier }
{
    let mut shares = [None; CARRIERS];
    let mut at = 0usize;
    for (c, share) in shares[..count].iter_mut().enumerate() {
        let number = c as u8 + 1;
        let about = About::Carrier(number);
        let words = args.behind(WORDS * c);
        let frames = said(args.rt, words.number(0, about, FRAMES));
        let slots = said(
            args.rt,
            words.number(1, about, Field::up_to("SLOTS", Slot::LAST)),
        );
        let (frames, slots) = (carriers::frames_of(frames?), slots?);
        *share = Some(Share {
            number,
            at,
            frames,
            slots,
        });
        at += FRAME_BYTES * usize::from(frames);
    }
    Some(shares)
}

// A carrier: its share of the group, and its file.
#[derive(Drop)]
struct Carrier {
    share: Share,
    output: Output,
}

// Makes the carriers' files.
fn create_all(
    args: Arguments,
    shares: &[Option<Share>; CARRIERS],
) -> Result<[Option<Carrier>; CARRIERS], Problem> {
    let mut created = [const { None }; CARRIERS];
    for (c, (carrier, share)) in created.iter_mut().zip(shares).enumerate() {
        if let Some(share) = *share {
            *carrier = Some(Carrier {
                share,
                output: args.create(WORDS * c + 2)?,
            });
        }
    }
    Ok(created)
}

impl Carrier {
    fn write(&self, bytes: &[u8]) -> Result<(), Problem> {
        host::write(&self.output, bytes).map_err(|error| Problem::Write(
            About::Carrier(self.share.number),
            error,
        ))
    }

    // Writes the carrier's super frame.
    fn write_super(&self, group: &[u8; GROUP_BYTES]) -> Result<(), Problem> {
        self.write(&group[self.share.at..self.share.end()])
    }

    // Writes the header that vouches for the carrier's last frame.
    fn write_last(&self, group: &[u8; GROUP_BYTES]) -> Result<(), Problem> {
        let super_frame = &group[self.share.at..self.share.end()];
        self.write(&super_frame[..PACKET_BYTES.min(super_frame.len())])
    }
}

// Reads as many packets as a super frame takes. If fewer are left, null packets fill the rest. Answers whether there was a packet.
fn read_stream(rt: HostRuntime, input: &Input, stream: &mut [u8]) -> bool {
    let got = input::read_block(rt, input, stream);
    input::say_part(rt, About::Run, got);
    let whole = got - got % PACKET_BYTES;
    nulls::write_nulls(&mut stream[whole..]);
    whole != 0
}

// A run: its bond, its carriers, and how many bytes of a group and how many packets of the stream they take together.
#[derive(Drop)]
struct Bonding {
    rt: HostRuntime,
    bonded: Bonded,
    carriers: [Option<Carrier>; CARRIERS],
    bytes: usize,
    packets: usize,
    ghost inside: { bytes ≤ group_length },
}

impl Bonding {
    fn new(rt: HostRuntime, bonded: Bonded, carriers: [Option<Carrier>; CARRIERS]) -> Bonding {
        let mut bytes = 0;
        let mut packets = 0usize;
        for carrier in carriers.iter().flatten() {
            bytes = carrier.share.end();
            packets = packets.saturating_add(carrier.share.packets());
        }
        Bonding {
            rt,
            bonded,
            carriers,
            bytes,
            packets,
        }
    }

    // Writes the headers of the super frame with this number.
    fn write_headers(&self, group: &mut [u8; GROUP_BYTES], number: u64) -> Result<(), Problem> {
        for carrier in self.carriers.iter().flatten() {
            headings::write_super(group, self.bonded, carrier.share, number)?;
        }
        Ok(())
    }

    // Fills and writes a super frame of the group, whose headers are in place.
    fn fill(&self, group: &mut [u8; GROUP_BYTES], stream: &[u8]) -> Result<(), Problem> {
        let spread = bond::spread(&mut group[..self.bytes], stream, self.bonded.bond);
        allowed(About::Run, "input", spread)?;
        for carrier in self.carriers.iter().flatten() {
            carrier.write_super(group)?;
        }
        Ok(())
    }

    // Ends each carrier. One that takes no more is said, and the others are ended too.
    fn end(&self, group: &[u8; GROUP_BYTES]) {
        for carrier in self.carriers.iter().flatten() {
            said(self.rt, carrier.write_last(group));
        }
    }

    // Makes super frames until the stream is used up. A proved loop has to end: this one does, at the latest, when the numbers run out.
    fn make_all(
        &self,
        input: &Input,
        group: &mut [u8; GROUP_BYTES],
        stream: &mut [u8; STREAM_BYTES],
    ) -> Result<(), Problem> {
        let stream = &mut stream[..PACKET_BYTES * self.packets.min(STREAM_PACKETS)];
        for number in 0..u64::MAX {
            self.write_headers(group, number)?;
            if !read_stream(self.rt, input, stream) {
                self.end(group);
                return Ok(());
            }
            self.fill(group, stream)?;
            say_progress(self.rt, number + 1, SUPER_FRAMES_PROGRESS, "super frames");
        }
        Ok(())
    }

    fn make(&self, input: &Input) -> Result<(), Problem> {
        let mut group = [0u8; GROUP_BYTES];
        let mut stream = [0u8; STREAM_BYTES];
        nulls::write_nulls(&mut group);
        self.make_all(input, &mut group, &mut stream)
    }
}

// The stream whose identifiers are arguments i and the next one, bonded over so many carriers.
pub(crate) fn bond_at(args: Arguments, i: usize, pid: u16, carriers: u8) -> Result<Bond, Problem> {
    Ok(Bond {
        carriers,
        pid,
        ts_id: args.behind(i).number(0, About::Run, TS_ID)?,
        original_network_id: args.behind(i).number(1, About::Run, NETWORK_ID)?,
    })
}

// Reads the arguments of so many carriers, and makes their super frames.
fn run_carriers(args: Arguments, count: u8) -> Result<(), Problem>
    requires { count ≤ last_carrier }
{
    let pid = args.number(0, About::Run, PID)?;
    let group_id = args.number(1, About::Run, GROUP)?;
    let bond = bond_at(args, 2, pid, count)?;
    let words = args.behind(HEAD);
    let Some(shares) = read_shares(words, usize::from(count)) else {
        return Ok(());
    };
    let input = args.open(HEAD - 1)?;
    let carriers = create_all(words, &shares)?;
    Bonding::new(args.rt, Bonded { bond, group_id }, carriers).make(&input)
}

// Apart from the other programs, so that only the one that runs takes stack for its buffers.
#[inline(never)]
pub(crate) fn run(args: Arguments) -> Result<(), Problem> {
    let words = args.count().saturating_sub(HEAD);
    if words == 0 || words % WORDS != 0 {
        return Err(Problem::Usage(USAGE));
    }
    run_carriers(args, carriers::count(words / WORDS)?)
}

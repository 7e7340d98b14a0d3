// demux: frames in, one stream out.
ghost use Rattle.std.specs.Prelude.{◌≤◌};
ghost use Rattle.counters.specs.Counters.{last_slot};
ghost use Rattle.receiver.specs.Store.{store_length};

use crate::arguments::{Arguments, NETWORK_ID, PID, TS_ID};
use crate::problem::{About, Field, Problem, said};
use crate::tally::Tally;
use crate::{input, receiving, settings, sizes};
use counters::RelativeNumber;
use host::Input;
use packet::PACKET_BYTES;
use receiver::{Event, RECEIVER_BYTES, STORE_BYTES};
use setting::{Kind, Setting};

// How many packets are read at a time.
const BLOCK_PACKETS: usize = 340;

const BLOCK_BYTES: usize = PACKET_BYTES * BLOCK_PACKETS;

const USAGE: &str =
    "demux [--short] PID STREAM [FILE] > STREAM; STREAM is a number from 1 to 15, with --short from 1 to 7, or TS_ID:NETWORK_ID";

// Which stream: by its number, or by its identifiers.
#[derive(Clone, Copy)]
enum Choice {
    Number(RelativeNumber),
    Pair(u16, u16),
}

// What is asked for: the PID and the kind of the headers, and the stream.
#[derive(Clone, Copy)]
struct Asked {
    pid: u16,
    kind: Kind,
    choice: Choice,
}

// The stream that a text names, of so many streams.
fn choose(text: &[u8], last: u8) -> Result<Choice, Problem> {
    if let Some(at) = text.iter().position(|b| *b == b':') {
        let ts_id = TS_ID.read(About::Run, &text[..at])?;
        let network_id = NETWORK_ID.read(About::Run, &text[at + 1..])?;
        return Ok(Choice::Pair(ts_id, network_id));
    }
    let field = Field::up_to("STREAM", last);
    RelativeNumber::new(field.read(About::Run, text)?)
        .map(Choice::Number)
        .map_err(|_| Problem::Range(About::Run, field))
}

// The stream that argument i names, in headers of this kind.
fn chosen_at(args: Arguments, i: usize, kind: Kind) -> Result<Choice, Problem> {
    let mut buffer = io::buffer();
    choose(args.word(i, &mut buffer), sizes::streams_of(kind))
}

// The number that a header gives the stream with these identifiers.
fn number_in(s: &Setting, ts_id: u16, network_id: u16) -> Option<RelativeNumber> {
    let pairs = s.ts_id.iter().zip(&s.original_network_id);
    for (i, (ts, network)) in pairs.enumerate() {
        let r = settings::stream_at(i);
        if r.is_available(s.availability) && *ts == ts_id && *network == network_id {
            return Some(r);
        }
    }
    None
}

// Receives a packet, with so many bytes of the store.
fn receive(
    state: &mut [u8; RECEIVER_BYTES],
    packet: &[u8],
    store: &mut [u8; STORE_BYTES],
    end: usize,
) -> Event
    requires { end ≤ store_length last_slot }
{
    receiving::receive(state, packet, &mut store[..end])
}

#[derive(Drop)]
struct Demux {
    rt: HostRuntime,
    asked: Asked,
    // The receiver's state, and the packets of the open frame.
    state: [u8; RECEIVER_BYTES],
    store: [u8; STORE_BYTES],
    // Room for the stream's packets of a frame.
    out: [u8; STORE_BYTES],
    // The stream's number in the open frame, what happened so far, and how many packets of the stream went out.
    number: Option<RelativeNumber>,
    tally: Tally,
    went: u64,
}

impl Demux {
    fn start(rt: HostRuntime, asked: Asked) -> Demux {
        let Asked { pid, kind, .. } = asked;
        Demux {
            rt,
            asked,
            state: receiving::start(pid, kind),
            store: [0u8; STORE_BYTES],
            out: [0u8; STORE_BYTES],
            number: None,
            tally: Tally::new(pid, kind),
            went: 0,
        }
    }

    // The bytes of the store of this kind.
    fn store_bytes(&self) -> usize
        ensures { result ≤ store_length last_slot }
    {
        PACKET_BYTES * usize::from(sizes::slots_of(self.asked.kind))
    }

    // Writes the stream's packets of the frame that just became ready.
    fn hand_out(&mut self) -> Result<(), Problem> {
        let Some(r) = self.number else {
            return Ok(());
        };
        let store = &self.store[..self.store_bytes()];
        let packets = receiving::hand_out(&self.state, store, &mut self.out, r);
        input::print(self.rt, &self.out[..PACKET_BYTES * packets])?;
        self.went = self.went.wrapping_add(packets as u64);
        Ok(())
    }

    // The stream's number in the frame that the packet opened. If it opened none, the number stays.
    fn number_after(&self, event: Event, packet: &[u8]) -> Option<RelativeNumber> {
        match self.asked.choice {
            Choice::Number(r) => Some(r),
            Choice::Pair(ts_id, network_id) => {
                if !receiving::opens(event) {
                    return self.number;
                }
                let said = header_codec::read(packet, self.asked.pid, self.asked.kind).ok()?;
                number_in(&said, ts_id, network_id)
            }
        }
    }

    // Takes one packet.
    fn take(&mut self, packet: &[u8]) -> Result<(), Problem> {
        let end = self.store_bytes();
        let event = receive(&mut self.state, packet, &mut self.store, end);
        self.tally.count(self.rt, event, packet);
        if let Event::Ready = event {
            self.hand_out()?;
        }
        self.number = self.number_after(event, packet);
        Ok(())
    }

    // Reads blocks to the end of the input, and takes their packets. A proved loop has to end: this one does, at the latest, when the numbers
    // of blocks run out.
    fn take_all(&mut self, input: &Input) -> Result<(), Problem> {
        let mut block = [0u8; BLOCK_BYTES];
        for _ in 0..u64::MAX {
            let got = input::read_block(self.rt, input, &mut block);
            for packet in block[..got].chunks_exact(PACKET_BYTES) {
                self.take(packet)?;
            }
            if got < BLOCK_BYTES {
                input::say_part(self.rt, About::Run, got);
                return Ok(());
            }
        }
        Ok(())
    }

    // Says what became of the frames, and how many packets of the stream went out. If the input has no header, it says so.
    fn say(&self) {
        let _ = if self.tally.headers == 0 {
            eprintln!(self.rt; "{}", self.tally)
        } else {
            eprintln!(self.rt; "{}; packets out {}", self.tally, self.went)
        };
    }
}

// The input: the file that argument i names, or standard input if there is no such argument.
fn source(args: Arguments, i: usize) -> Result<Input, Problem> {
    if i < args.count() {
        return args.open(i);
    }
    Ok(Input::Standard(args.rt.stdin()))
}

// Apart from the other programs, so that only the one that runs takes stack for its buffers.
#[inline(never)]
pub(crate) fn run(args: Arguments) -> Result<(), Problem> {
    let (kind, args) = args.kind();
    let count = args.count();
    if count < 2 || 3 < count {
        return Err(Problem::Usage(USAGE));
    }
    let pid = args.number(0, About::Run, PID)?;
    let input = source(args, 2)?;
    let choice = chosen_at(args, 1, kind)?;
    input::check_cut(args.rt, &input)?;
    let mut demux = Demux::start(args.rt, Asked { pid, kind, choice });
    let ended = demux.take_all(&input);
    said(args.rt, ended);
    demux.say();
    Ok(())
}

// mux: transport streams in, frames out.
ghost use Rattle.std.specs.Prelude.{◌≡◌, ◌≤◌, length, replicate};
ghost use Rattle.io.specs.Counts.{IsPrefixLen};
ghost use Rattle.packet.specs.Packets.{packet_length};
ghost use Rattle.setting_bytes.specs.Kinds.{kind_number};
ghost use Rattle.composer.specs.States.{composer_length};
ghost use Rattle.composer.specs.Calls.{start_state};

use crate::arguments::{Arguments, NETWORK_ID, PID, TS_ID};
use crate::plan::SHARES;
use crate::problem::{About, FRAMES_PROGRESS, Field, Problem, allowed, said, say_progress};
use crate::{input, plan, settings, sizes};
use composer::COMPOSER_BYTES;
use counters::{RelativeNumber, SLOTS, STREAMS};
use host::Input;
use packet::{FRAME_BYTES, PACKET_BYTES};
use receiver::STORE_BYTES;
use setting::{Kind, Setting, limits};
use setting_bytes::SETTING_BYTES;

// The arguments of each stream: SLOTS, TS_ID, NETWORK_ID and FILE.
const WORDS: usize = 4;

const USAGE: &str =
    "mux [--short] PID SLOTS TS_ID NETWORK_ID FILE [SLOTS TS_ID NETWORK_ID FILE].. > FRAMES";

// What the arguments say of a stream.
#[derive(Clone, Copy)]
struct Words {
    slots: u8,
    ts_id: u16,
    network_id: u16,
}

// Reads them. Says what is out of range: that may be several of them, so it answers none and no problem.
fn read_words(args: Arguments, r: RelativeNumber, all: u8) -> Option<Words> {
    let about = About::Stream(r.0);
    let slots = said(args.rt, args.number(0, about, Field::up_to("SLOTS", all)));
    let ts_id = said(args.rt, args.number(1, about, TS_ID))?;
    let network_id = said(args.rt, args.number(2, about, NETWORK_ID))?;
    Some(Words {
        slots: slots?,
        ts_id,
        network_id,
    })
}

// The frame type of a run's headers.
fn frame_type(kind: Kind) -> u8 {
    match kind {
        Kind::Short => limits::SHORT_FRAME_TYPE,
        Kind::Plain | Kind::Extended => limits::FIRST_FRAME_TYPE,
    }
}

// The number of all slots that are asked for.
fn sum(shares: &[u8; SHARES]) -> u32 {
    shares.iter().map(|slots| u32::from(*slots)).sum()
}

// The setting of all headers. Streams that together need more slots than a frame has are refused.
fn setting_of(kind: Kind, streams: &[Option<Words>; STREAMS]) -> Result<Setting, Problem> {
    let all = sizes::slots_of(kind);
    let mut setting = Setting::blank();
    let mut shares = [0u8; SHARES];
    for (i, words) in streams.iter().enumerate() {
        if let Some(words) = words {
            let r = settings::stream_at(i);
            setting = settings::with_stream(setting, r, words.ts_id, words.network_id);
            shares[i + 1] = words.slots;
        }
    }
    let Some(left) = u32::from(all).checked_sub(sum(&shares)) else {
        let field = Field::up_to("SLOTS of all streams together", all);
        return Err(Problem::Range(About::Run, field));
    };
    shares[0] = left as u8;
    setting.frame_type = frame_type(kind);
    setting.relative_ts_number = plan::numbers(&shares, all);
    Ok(setting)
}

// A stream that is to be multiplexed: its number, how many slots of a frame it has, and where its packets come from.
#[derive(Drop)]
struct Stream {
    r: RelativeNumber,
    slots: u8,
    input: Input,
}

// Opens the streams' files.
fn open_all(
    args: Arguments,
    streams: &[Option<Words>; STREAMS],
) -> Result<[Option<Stream>; STREAMS], Problem> {
    let mut opened = [const { None }; STREAMS];
    for (i, (stream, words)) in opened.iter_mut().zip(streams).enumerate() {
        if let Some(words) = words {
            *stream = Some(Stream {
                r: settings::stream_at(i),
                slots: words.slots,
                input: args.open(WORDS * i + 3)?,
            });
        }
    }
    Ok(opened)
}

impl Stream {
    // Reads as many packets as there are slots, or all that are left. Answers the bytes of the whole packets.
    fn read(&self, rt: HostRuntime, bytes: &mut [u8; STORE_BYTES]) -> usize
        ensures { IsPrefixLen result bytes.new }
    {
        let most = usize::from(self.slots).min(SLOTS);
        let got = input::read_block(rt, &self.input, &mut bytes[..PACKET_BYTES * most]);
        input::say_part(rt, About::Stream(self.r.0), got);
        got - got % PACKET_BYTES
    }

    // Puts the packets of the stream that come next into the frame. No more are read than there are slots: so none are left over.
    fn put(&self, rt: HostRuntime, state: &mut [u8], frame: &mut [u8]) -> Result<usize, Problem> {
        let mut bytes = [0u8; STORE_BYTES];
        let n = self.read(rt, &mut bytes);
        let put = composer_put::put(state, frame, &bytes[..n], self.r);
        Ok(allowed(About::Stream(self.r.0), "input", put)?.packets)
    }
}

// Writes a frame. Of one for which no stream had packets only the header is written: it vouches for the frame before.
fn write_frame(rt: HostRuntime, frame: &[u8], packets: usize) -> Result<(), Problem>
    requires { packet_length ≤ length frame.now }
{
    let end = if packets == 0 {
        PACKET_BYTES
    } else {
        frame.len()
    };
    input::print(rt, &frame[..end])
}

// The state of a run that starts with this PID and kind. By the call for C, since the theorems on runs begin with what it leaves.
fn start(pid: u16, kind: Kind) -> [u8; COMPOSER_BYTES]
    ensures { result ≡ start_state (replicate composer_length 0) pid (kind_number kind) }
{
    let mut state = [0u8; COMPOSER_BYTES];
    composer_start::niranbok_composer_start(&mut state, pid, setting_bytes::kind_number(kind));
    state
}

// A run: the composer's state, the setting of all headers, and the streams.
#[derive(Drop)]
struct Mux {
    rt: HostRuntime,
    state: [u8; COMPOSER_BYTES],
    setting: [u8; SETTING_BYTES],
    streams: [Option<Stream>; STREAMS],
}

impl Mux {
    fn start(
        rt: HostRuntime,
        pid: u16,
        kind: Kind,
        said: Setting,
        streams: [Option<Stream>; STREAMS],
    ) -> Mux {
        let state = start(pid, kind);
        let mut setting = [0u8; SETTING_BYTES];
        setting_write::write_setting(&mut setting, said);
        Mux {
            rt,
            state,
            setting,
            streams,
        }
    }

    // Makes a frame: its header, and the packets of one stream after another. Answers how many packets it has.
    fn make_frame(&mut self, frame: &mut [u8]) -> Result<usize, Problem> {
        let begun = composer_begin::begin(&mut self.state, frame, &self.setting);
        allowed(About::Run, "streams", begun)?;
        let mut packets = 0usize;
        for stream in self.streams.iter().flatten() {
            packets = packets.wrapping_add(stream.put(self.rt, &mut self.state, frame)?);
        }
        let closed = composer_close::close(&mut self.state, frame);
        allowed(About::Run, "close", closed)?;
        Ok(packets)
    }

    // Makes and writes frames until the streams are used up. A proved loop has to end: this one does, at the latest, when the numbers run
    // out.
    fn make_frames(&mut self, frame: &mut [u8]) -> Result<(), Problem>
        requires { packet_length ≤ length frame.old }
    {
        for made in 1..u64::MAX {
            let packets = self.make_frame(frame)?;
            write_frame(self.rt, frame, packets)?;
            if packets == 0 {
                return Ok(());
            }
            say_progress(self.rt, made, FRAMES_PROGRESS, "frames");
        }
        Ok(())
    }
}

// Reads the arguments of so many streams, and makes the frames. Where some are out of range, that is said, and no frames are made.
fn run_streams(args: Arguments, pid: u16, kind: Kind, count: usize) -> Result<(), Problem> {
    let mut streams = [None; STREAMS];
    for (i, words) in streams.iter_mut().take(count).enumerate() {
        let r = settings::stream_at(i);
        *words = read_words(args.behind(WORDS * i), r, sizes::slots_of(kind));
    }
    let setting = setting_of(kind, &streams)?;
    if streams.iter().flatten().count() < count {
        return Ok(());
    }
    let opened = open_all(args, &streams)?;
    let mut buffer = [0u8; FRAME_BYTES];
    let frame = &mut buffer[..sizes::frame_bytes(kind)];
    Mux::start(args.rt, pid, kind, setting, opened).make_frames(frame)
}

// Apart from the other programs, so that only the one that runs takes stack for its buffers.
#[inline(never)]
pub(crate) fn run(args: Arguments) -> Result<(), Problem> {
    let (kind, args) = args.kind();
    let words = args.count().saturating_sub(1);
    if words == 0 || words % WORDS != 0 {
        return Err(Problem::Usage(USAGE));
    }
    let most = sizes::streams_of(kind);
    if usize::from(most) < words / WORDS {
        return Err(Problem::Range(About::Run, Field::up_to("streams", most)));
    }
    let pid = args.number(0, About::Run, PID)?;
    run_streams(args.behind(1), pid, kind, words / WORDS)
}

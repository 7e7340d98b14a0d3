// The headers of a group, each read once: whether they stand where they should, and what they say of the stream.
ghost use Rattle.std.specs.Prelude.{◌≡◌, true, false, ◌≤◌, ◌%◌, length, set, Ok, is_some, is_err, unwrap_or};
ghost use Rattle.std.specs.Int.Count.{ones};
ghost use Rattle.counters.specs.Counters.{first_slot, last_slot, last_stream, last_position, last_carrier};
ghost use Rattle.slices.specs.Slices.{copied};
ghost use Rattle.slot_bits.specs.Bits.{slots_as_bits};
ghost use Rattle.setting.specs.declared.Setting.{Setting};
ghost use Rattle.setting.specs.Setting.{blank};
ghost use Rattle.setting.specs.Refusal.{first_of};
ghost use Rattle.setting.specs.Rules.{pid_allowed};
ghost use Rattle.setting_pairs.specs.Identifiers.{ids_apart, ids_length};
ghost use Rattle.header_layout.specs.Header.{header_length, reading};
ghost use Rattle.refusals.specs.Refusals.{answer};
ghost use Rattle.header_check.specs.OnPaper.{on_paper};
ghost use Rattle.header_check.specs.Checking.{bare, parts_of};
ghost use Rattle.packet.specs.Packets.{frame_length};
ghost use Rattle.bond_places.specs.Order.{frame_packets};
ghost use Rattle.bond_group.specs.Group.{has_number, number_of, carries};
ghost use Rattle.bond_group.specs.Standing.{shown_by, is_last, is_end, next_carrier, next_position, standing_checks};
ghost use Rattle.bond_group.specs.Plan.{passing, marks, nothing_seen, headers_in, headers_of, planned_by};

use crate::Bond;
use counters::{FramePosition, RelativeNumber, SLOTS, STREAMS};
use header_check::{Refused, Said};
use packet::{FRAME_BYTES, PACKET_BYTES};
use refusals::Refusal;
use setting::{Kind, limits};

// The most carriers of a group, and the most frames.
pub const CARRIERS: usize = limits::LAST_CARRIER as usize;

pub const FRAMES: usize = CARRIERS * FramePosition::LAST as usize;

// The fields of a header that tell where its frame stands in the group.
#[derive(Clone, Copy)]
pub struct Shown {
    pub group_id: u8,
    pub number_of_carriers: u8,
    pub carrier_sequence: u8,
    pub number_of_frames: u8,
    pub frame_position: FramePosition,
}

// The stream's relative number in a header, or 0 if the header does not carry it. `ts` and `os` start at the first TS_id and at the first
// original_network_id. The contract says so for every setting with these identifiers. A number and no `Option`, since specs/ have the number, with
// 0 for no stream.
fn number_of(ts: &[u8], os: &[u8], availability: u16, b: Bond) -> u8
    requires { (ids_length 4 ≤ length ts.now) × (ids_length 4 ≤ length os.now) }
    ensures value { (s : Setting) → s.availability ≡ availability → s.ts_id ≡ ids_apart 4 last_stream ts.now → s.original_network_id ≡ ids_apart 4 last_stream os.now → result ≡ number_of b s }
    ensures upper_bound { result ≤ last_stream }
{
    let mut number = 0u8;
    // By number, as the definition counts the streams: `ts` starts at the first TS_id, `os` two bytes behind it.
    for k in 0..STREAMS {
        let at = header_layout::STREAM_BYTES as usize * k;
        let ts_id = bits::word(ts[at], ts[at + 1]);
        let network_id = bits::word(os[at], os[at + 1]);
        if ts_id == b.ts_id {
            if network_id == b.original_network_id {
                let r = k as u8 + 1;
                if RelativeNumber(r).is_available(availability) {
                    number = r;
                }
            }
        }
    }
    number
}

// The slots with number r as bits, slot i in bit i; no slot if r is 0. The loop never stops early, so that the compiler can compare many
// slots at a time.
fn marks_of(numbers: &[u8], r: RelativeNumber) -> u64
    requires { length numbers.now ≡ last_slot }
    ensures { result ≡ slots_as_bits (passing (has_number numbers.now r.0) first_slot last_slot) }
{
    let mut marks = [false; SLOTS];
    for (i, mark) in marks.iter_mut().enumerate() {
        *mark = (r.0 != 0) & (numbers[i] == r.0);
    }
    slot_bits::slots_as_bits(&marks)
}

// In which slots a header carries the stream, slot i in bit i; none if it does not carry it.
fn bonded_by(packet: &[u8], said: Said, b: Bond) -> Option<u64>
    requires packet_len { length packet.now ≡ header_length }
    requires said_value { on_paper (Ok said) ≡ parts_of (bare 0) (reading Kind.Extended packet.now) }
    ensures is_carried { is_some result ≡ carries b (reading Kind.Extended packet.now) }
    ensures marks { unwrap_or result 0 ≡ marks b (reading Kind.Extended packet.now) }
    ensures marks_bound { ones (unwrap_or result 0) ≤ frame_packets }
{
    let number = number_of(
        &packet[header_layout::IDENTIFIERS..header_layout::CONTROL],
        &packet[header_layout::IDENTIFIERS + 2..header_layout::CONTROL],
        said.availability,
        b,
    );
    let r = RelativeNumber::new(number).ok()?;
    let mut numbers = [0u8; SLOTS];
    header_check::read_numbers(&mut numbers, packet, Kind::Extended);
    Some(marks_of(&numbers, r))
}

// What is taken for the header before the first one.
fn nothing_shown() -> Shown
    ensures { result ≡ shown_by blank }
{
    Shown {
        group_id: 0,
        number_of_carriers: 0,
        carrier_sequence: 0,
        number_of_frames: 0,
        frame_position: FramePosition(0),
    }
}

impl From<Said> for Shown {
    ghost from_gives = { λ said shown. (s : Setting) → on_paper (Ok said) ≡ parts_of (bare 0) s → shown ≡ shown_by s };

    fn from(said: Said) -> Shown {
        Shown {
            group_id: said.group_id,
            number_of_carriers: said.number_of_carriers,
            carrier_sequence: said.carrier_sequence,
            number_of_frames: said.number_of_frames,
            frame_position: said.frame_position,
        }
    }
}

// Whether a frame is the last of its super frame.
fn is_last(h: Shown) -> bool
    ensures { result ≡ is_last h }
{
    let position = h.frame_position;
    position.0 == h.number_of_frames
}

// Whether it is the last frame of the last carrier.
fn is_end(h: Shown, carriers: u8) -> bool
    ensures { result ≡ is_end carriers h }
{
    if !is_last(h) {
        return false;
    }
    h.carrier_sequence == carriers
}

// The carrier that the next header has to show.
fn next_carrier(h: Shown) -> u8
    requires { h.carrier_sequence ≤ last_carrier }
    ensures { result ≡ next_carrier h }
{
    if is_last(h) {
        return h.carrier_sequence + 1;
    }
    h.carrier_sequence
}

// The position that the next header has to show.
fn next_position(h: Shown) -> FramePosition
    requires { h.frame_position.0 ≤ last_position }
    ensures { result ≡ record { 0 = next_position h } }
{
    if is_last(h) {
        return FramePosition(FramePosition::FIRST);
    }
    let position = h.frame_position;
    FramePosition(position.0 + 1)
}

// Refusal 14: whether a header follows the one before it, `behind`, and has the first header's group id.
fn standing_refusal(h: Shown, behind: Shown, carriers: u8, group_id: u8) -> Result<(), Refusal>
    requires { (behind.carrier_sequence ≤ last_carrier) × (behind.frame_position.0 ≤ last_position) }
    ensures { answer result ≡ first_of (standing_checks carriers group_id behind h) }
{
    if is_end(behind, carriers) {
        return Err(Refusal::Group);
    }
    if h.carrier_sequence != next_carrier(behind) {
        return Err(Refusal::Group);
    }
    if h.group_id != group_id {
        return Err(Refusal::Group);
    }
    if h.number_of_carriers != carriers {
        return Err(Refusal::Group);
    }
    if !is_last(behind) {
        if h.number_of_frames != behind.number_of_frames {
            return Err(Refusal::Group);
        }
    }
    if h.frame_position != next_position(behind) {
        return Err(Refusal::Group);
    }
    Ok(())
}

// Sets number i to v, if there is room for it.
fn set_number<T: Copy>(numbers: &mut [T], i: usize, v: T)
    ensures { numbers.new ≡ set numbers.old i v }
{
    if i < numbers.len() {
        numbers[i] = v;
    }
}

// Writes the numbers of the plan before the first header is read, and of a group that is refused: zeros, as many as there is room for. What a
// longer list has behind them stays as it was.
pub(crate) fn clear(frames: &mut [u8], slots: &mut [u64])
    ensures frames_after { frames.new ≡ copied frames.old nothing_seen.frames }
    ensures slots_after { slots.new ≡ copied slots.old nothing_seen.slots }
{
    let carriers = frames.len().min(CARRIERS);
    frames[..carriers].fill(0);
    let places = slots.len().min(FRAMES);
    slots[..places].fill(0);
}

// Checks the headers of the group, one after another: each as a header and then for 14, where its frame stands. At the end 14 again, for
// missing frames. Answers how many bonded slots there are, or none if no header carries the stream. Writes each carrier's number of frames and
// the bonded slots of each frame, slot i in bit i, into what the caller lends and has cleared. A group that is refused leaves numbers there, so
// that the caller clears again; what stands behind the plan's numbers stays as it was.
pub(crate) fn plan_of(
    group: &[u8],
    b: Bond,
    frames: &mut [u8],
    slots: &mut [u64],
) -> Result<Option<usize>, Refused>
    requires last_slot_len { (length group.now % frame_length last_slot ≡ 0) × (pid_allowed b.pid ≡ true) }
    requires le_carriers { (1 ≤ b.carriers) × (b.carriers ≤ last_carrier) }
    requires cleared { (frames.now ≡ copied frames.now nothing_seen.frames) × (slots.now ≡ copied slots.now nothing_seen.slots) }
    ensures value { headers_in result ≡ headers_of (planned_by b group.now) }
    ensures frames_after { is_err result ≡ false → frames.new ≡ copied frames.old (planned_by b group.now).plan.frames }
    ensures slots_after { is_err result ≡ false → slots.new ≡ copied slots.old (planned_by b group.now).plan.slots }
    ensures cleared_again { (copied frames.new nothing_seen.frames ≡ copied frames.old nothing_seen.frames)
        × (copied slots.new nothing_seen.slots ≡ copied slots.old nothing_seen.slots) }
{
    let count = group.len() / FRAME_BYTES;
    // Kept beside the count: a header may carry the stream in no slot, which is another answer than no header that carries it.
    let mut is_carried = false;
    let mut packets = 0;
    let mut behind = nothing_shown();
    // The first header sets it, and so is compared with itself.
    let mut group_id = 0u8;
    for j in 0..count {
        let at = FRAME_BYTES * j;
        let header = &group[at..at + PACKET_BYTES];
        let said = header_check::check(header, b.pid, Kind::Extended)?;
        let shown = Shown::from(said);
        if j == 0 {
            group_id = shown.group_id;
        }
        standing_refusal(shown, behind, b.carriers, group_id)?;
        let bonded = bonded_by(header, said, b);
        let marks = bonded.unwrap_or(0);
        let carrier = shown.carrier_sequence as usize - 1;
        set_number(frames, carrier, shown.number_of_frames);
        set_number(slots, j, marks);
        is_carried = is_carried | bonded.is_some();
        packets += marks.count_ones() as usize;
        behind = shown;
    }
    if !is_end(behind, b.carriers) {
        return Err(Refused::from(Refusal::Group));
    }
    Ok(is_carried.then_some(packets))
}

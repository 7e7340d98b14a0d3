// The marked places of a group, listed in order, a round at a time. A super frame is 53 rounds, and a round is twelve parts, called twelfths.
// A carrier with F frames has F places in a round, at the same twelfths in every round; from one round to the next each place moves on by F
// packets. So the places of the first round are noted, and then used for every round.
ghost use Rattle.std.specs.Prelude.{◌≡◌, ℕ, ◌+◌, ◌*◌, ◌≤◌, ◌<◌, length, take};
ghost use Rattle.bond_places.specs.Order.{frame_packets};
ghost use Rattle.counters.specs.Counters.{last_carrier};
ghost use Rattle.bond_places.specs.Walk.{most_frames, is_marked, Walkable};
ghost use Rattle.bond.specs.Listing.{round_twelfths, round_steps, Noted, packet_in, marked_in};

use bond_group::headers::CARRIERS;
use counters::SLOTS;

// The packets of a frame. A super frame has as many rounds.
pub(crate) const FRAME_PACKETS: usize = SLOTS + 1;

// The twelfths of a round, and room for its notes: one for each place that it can have.
const ROUND_TWELFTHS: usize = 12;

pub(crate) const NOTES: usize = CARRIERS * ROUND_TWELFTHS;

// Room for each place of a round, and for one more: a packet is listed first and tested afterwards.
pub(crate) const LISTED: usize = NOTES + 1;

// A place of the first round: its packet, and how many packets it moves on in each round.
#[derive(Clone, Copy)]
pub(crate) struct Note {
    pub packet: u16,
    pub further: u16,
}

impl Note {
    // What stands where nothing is noted.
    pub(crate) const NONE: Note = Note {
        packet: 0,
        further: 0,
    };
}

// Where a group's packets are bonded: how many carriers it has, the number of frames of each, and the bonded slots of each frame, slot i in
// bit i. That it can be walked stands in clauses and not on the type: that fact goes by cases, 3 frames or 4, which a ghost field does not keep in a
// form that proofs can take apart. The number of carriers stands beside the eight numbers of frames, as the walk of the definitions has them.
#[derive(Clone, Copy)]
pub(crate) struct Plan<'a> {
    pub carriers: usize,
    pub frames: &'a [u8],
    pub slots: &'a [u64],
}

// Notes the places at one twelfth of the first round, behind those noted before. Answers how many places are noted now.
fn note_twelfth(notes: &mut [Note], noted: usize, twelfth: usize, plan: Plan) -> usize
    requires walkable { Walkable plan.carriers plan.frames.now }
    requires twelfth_lt_round_twelfths { twelfth < round_twelfths }
    requires noted { Noted plan.carriers plan.frames.now notes.old noted (last_carrier * twelfth) }
    ensures { Noted plan.entry.carriers plan.entry.frames.now notes.new result (last_carrier * (twelfth + 1)) }
{
    let mut n = noted;
    let mut frame = 0;
    for count in &plan.frames[..plan.carriers] {
        let f = *count as usize;
        let part = twelfth * f;
        if part % ROUND_TWELFTHS == 0 {
            notes[n] = Note {
                packet: (FRAME_PACKETS * frame + part / ROUND_TWELFTHS) as u16,
                further: f as u16,
            };
            n += 1;
        }
        frame += f;
    }
    n
}

// Notes the places of the first round. Answers how many there are.
pub(crate) fn note_round(notes: &mut [Note], plan: Plan) -> usize
    requires walkable { Walkable plan.carriers plan.frames.now }
    requires notes_len { length notes.old ≡ round_steps }
    ensures { Noted plan.entry.carriers plan.entry.frames.now notes.new result round_steps }
{
    let mut noted = 0;
    for twelfth in 0..ROUND_TWELFTHS {
        noted = note_twelfth(notes, noted, twelfth, plan);
    }
    noted
}

// Whether packet m of the group is marked.
fn is_marked(slots: &[u64], m: usize) -> bool
    requires { (length slots.now ≡ most_frames) × (m < frame_packets * most_frames) }
    ensures { result ≡ is_marked slots.now m }
{
    (slots[m / FRAME_PACKETS] >> ((m % FRAME_PACKETS) as u32)) % 2 == 1
}

// Lists the marked packets of a round. Answers how many there are. Every packet is written to the list, and counted only if it is marked:
// this spares the processor a branch that it cannot predict.
pub(crate) fn list_round(list: &mut [u16], round: usize, notes: &[Note], slots: &[u64]) -> usize
    requires notes_bound { (length notes.now ≤ round_steps) × (length slots.now ≡ most_frames) }
    requires by_index { (e : ℕ) → e < length notes.now → packet_in notes.now round e < frame_packets * most_frames }
    requires round_steps_in_bounds { round_steps < length list.old }
    ensures list_after { take result list.new ≡ marked_in slots.now notes.now round 0 (length notes.now) }
    ensures value { result ≡ length (marked_in slots.now notes.now round 0 (length notes.now)) }
    ensures upper_bound { result ≤ length notes.now }
{
    let mut n = 0;
    for note in notes {
        let m = note.packet as usize + round * note.further as usize;
        list[n] = m as u16;
        if is_marked(slots, m) {
            n += 1;
        }
    }
    n
}

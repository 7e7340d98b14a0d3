// Moves a stream's packets to and from the marked places of a group, a round at a time: so the list of places stays short. Its room is made
// once for all rounds: made anew in each, it costs 5 % of the speed.
ghost use Rattle.std.specs.Prelude.{◌≡◌, ◌+◌, ◌*◌, ◌≤◌, length, take, drop};
ghost use Rattle.slices.specs.Slices.{copied, over};
ghost use Rattle.packet.specs.Packets.{packet_length};
ghost use Rattle.bond.specs.Bonding.{spread_over, gathered};
ghost use Rattle.bond.specs.Listing.{Within, places_from, Listable};

use crate::rounds;
use crate::rounds::{FRAME_PACKETS, LISTED, NOTES, Note, Plan};
use packet::PACKET_BYTES;

// Copies the packet that starts at `place` in `from` over the one that starts at `at` in `to`.
fn move_packet(to: &mut [u8], at: usize, from: &[u8], place: usize)
    requires { (at + packet_length ≤ length to.old) × (place + packet_length ≤ length from.now) }
    ensures { to.new ≡ over at (take packet_length (drop place from.now)) to.old }
{
    slices::copy(
        &mut to[at..at + PACKET_BYTES],
        &from[place..place + PACKET_BYTES],
    );
}

// Writes the stream's packets to the listed places.
fn spread_listed(group: &mut [u8], stream: &[u8], list: &[u16])
    requires stream_len { length stream.now ≡ packet_length * length list.now }
    requires within { Within list.now group.old }
    ensures { group.new ≡ spread_over list.now stream.now group.old }
{
    for (k, packet) in list.iter().enumerate() {
        let place = PACKET_BYTES * *packet as usize;
        move_packet(group, place, stream, PACKET_BYTES * k);
    }
}

// Copies the packets at the listed places to the front of `out`. It stays beside `spread_listed`: place and number change sides, and one loop for
// both would have to be told which.
fn gather_listed(out: &mut [u8], group: &[u8], list: &[u16])
    requires list_in_bounds { packet_length * length list.now ≤ length out.old }
    requires within { Within list.now group.now }
    ensures { out.new ≡ copied out.old (gathered list.now group.now) }
{
    for (k, packet) in list.iter().enumerate() {
        let place = PACKET_BYTES * *packet as usize;
        move_packet(out, PACKET_BYTES * k, group, place);
    }
}

// Writes the stream's packets to the marked places.
pub(crate) fn spread_over(group: &mut [u8], stream: &[u8], plan: Plan)
    requires listable { Listable plan.carriers plan.frames.now plan.slots.now }
    requires stream_len { length stream.now ≡ packet_length * length (places_from plan.carriers plan.frames.now plan.slots.now 0) }
    requires within { Within (places_from plan.carriers plan.frames.now plan.slots.now 0) group.old }
    ensures { group.new ≡ spread_over (places_from plan.entry.carriers plan.entry.frames.now plan.entry.slots.now 0) stream.now group.old }
{
    let mut list = [0u16; LISTED];
    let mut notes = [Note::NONE; NOTES];
    let noted = rounds::note_round(&mut notes, plan);
    let mut moved = 0;
    for round in 0..FRAME_PACKETS {
        let n = rounds::list_round(&mut list, round, &notes[..noted], plan.slots);
        spread_listed(
            group,
            &stream[PACKET_BYTES * moved..PACKET_BYTES * (moved + n)],
            &list[0..n],
        );
        moved += n;
    }
}

// Copies the packets at the marked places to the front of `out`. It stays beside `spread_over`: one walk for both would take a closure that writes
// to what it borrows, with the rounds' bounds in its clauses, and would be no plainer.
pub(crate) fn gather_over(out: &mut [u8], group: &[u8], plan: Plan)
    requires listable { Listable plan.carriers plan.frames.now plan.slots.now }
    requires slots_in_bounds { packet_length * length (places_from plan.carriers plan.frames.now plan.slots.now 0) ≤ length out.old }
    requires within { Within (places_from plan.carriers plan.frames.now plan.slots.now 0) group.now }
    ensures { out.new ≡ copied out.old (gathered (places_from plan.entry.carriers plan.entry.frames.now plan.entry.slots.now 0) group.now) }
{
    let mut list = [0u16; LISTED];
    let mut notes = [Note::NONE; NOTES];
    let noted = rounds::note_round(&mut notes, plan);
    let mut moved = 0;
    for round in 0..FRAME_PACKETS {
        let n = rounds::list_round(&mut list, round, &notes[..noted], plan.slots);
        gather_listed(
            &mut out[PACKET_BYTES * moved..PACKET_BYTES * (moved + n)],
            group,
            &list[0..n],
        );
        moved += n;
    }
}

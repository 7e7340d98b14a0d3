// The slots of a frame: slot i is the 188 bytes at 188 × i. A set of slots is a number, slot i in bit i. A byte of 1 marks a filled slot.
ghost use Rattle.std.specs.Prelude.{◌*◌, ◌/◌, ◌^◌, ◌<◌, min, ◌≡◌, Bool, false, ◌||◌, length};
ghost use mathlib.Core.List.{List, ◌∷◌, map, zip_with};
ghost use Rattle.std.specs.Int.Count.{ones};
ghost use Rattle.slices.specs.Slices.{some_at_least};
ghost use Rattle.counters.specs.Counters.{last_slot};
ghost use Rattle.packet.specs.Packets.{packet_length, rest_of};
ghost use Rattle.composer.specs.Slots.{empty_for, slots_in, filled_by, slots_with};
ghost use Rattle.composer.specs.States.{mark_byte, marks_of};
ghost use Rattle.slot_bits.specs.Bits.{slots_as_bits};

use counters::{RelativeNumber, SLOTS, Slot};
use packet::PACKET_BYTES;

// The still empty slots planned for stream r, as bits. Plan and marks are parts of the state: as arrays they would want a test of their length that
// cannot fail. The loop never stops early, so that the compiler can compare many slots at a
// time.
pub(crate) fn empty_slots(plan: &[u8], filled: &[u8], r: RelativeNumber) -> u64
    requires { (length plan.now ≡ last_slot) × (length filled.now ≡ last_slot) }
    ensures { result ≡ slots_as_bits (empty_for r.0 plan.now (marks_of filled.now)) }
{
    let mut marks = [false; SLOTS];
    for (i, mark) in marks.iter_mut().enumerate() {
        *mark = (plan[i] == r.0) & (filled[i] != 1);
    }
    slot_bits::slots_as_bits(&marks)
}

// How many packets the slots take from a stream of so many bytes.
pub(crate) fn packets_for(slots: u64, bytes: usize) -> usize
    ensures { result ≡ min (bytes / packet_length) (ones slots) }
{
    (bytes / PACKET_BYTES).min(slots.count_ones() as usize)
}

// Where a slot's packet starts in the frame.
fn start_of(slot: Slot) -> usize
    ensures { result ≡ packet_length * slot.0 }
{
    PACKET_BYTES * slot.0 as usize
}

// Copies the stream's packets into the slots, in rising order, until slots or packets run out; marks these slots filled, and hands
// back the rest of the stream. The lowest bit that is set is the next slot's, and is cleared once the slot is filled. The contract
// speaks of the set of slots that the bits stand for, all of which the frame has.
// It stays a `while`: it goes along the set bits and the stream at once, and an iterator over both would be no plainer.
pub(crate) fn place<'a>(
    frame: &mut [u8],
    stream: &'a [u8],
    filled: &mut [u8],
    slots: u64,
) -> &'a [u8]
    requires slots_bound { (slots < 2 ^ (length frame.old / packet_length)) × (length filled.old ≡ last_slot) }
    requires filled_value { some_at_least 2 filled.old ≡ false }
    requires empty_len { (empty : List Bool) × (length empty ≡ last_slot) × (slots ≡ slots_as_bits empty) }
    ensures result_value { (empty : List Bool) → length empty ≡ last_slot → slots ≡ slots_as_bits empty → result.now ≡ rest_of stream.now (slots_in (filled_by stream.now empty)) }
    ensures frame_after { (empty : List Bool) → length empty ≡ last_slot → slots ≡ slots_as_bits empty → frame.new ≡ slots_with (false ∷ filled_by stream.now empty) stream.now frame.old }
    ensures filled_after { (empty : List Bool) → length empty ≡ last_slot → slots ≡ slots_as_bits empty → filled.new ≡ map mark_byte (zip_with ◌||◌ (marks_of filled.old) (filled_by stream.now empty)) }
{
    let mut rest = slots;
    let mut at = 0;
    while (rest != 0) & (PACKET_BYTES <= stream.len() - at) {
        let slot = Slot(u64::trailing_zeros(rest) as u8);
        filled[slot.0 as usize - 1] = 1;
        let to = start_of(slot);
        slices::copy(
            &mut frame[to..to + PACKET_BYTES],
            &stream[at..at + PACKET_BYTES],
        );
        at += PACKET_BYTES;
        rest -= 1u64 << (slot.0 as u32);
    }
    &stream[at..]
}

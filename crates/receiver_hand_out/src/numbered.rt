// The slots with one number: marked sixteen at a time, counted, and their packets one behind the other.
ghost use Rattle.std.specs.Prelude.{◌≡◌, cond, ◌++◌, ◌+◌, ◌*◌, ◌≤◌, ltb, length, take, drop, replicate};
ghost use Rattle.packet.specs.Packets.{packet_length};
ghost use Rattle.slices.specs.Slices.{over};
ghost use Rattle.receiver.specs.Packed.{packed_length, unpacked};
ghost use Rattle.receiver.specs.Store.{numbered, slots_for, HasPackets};
ghost use Rattle.receiver_hand_out.specs.Handing.{handed};
ghost use Rattle.receiver_hand_out.specs.Halves.{halves_of, marked};

use counters::RelativeNumber;
use packet::PACKET_BYTES;
use receiver::PACKED_BYTES;
use refusals::Refusal;

// A word of marks: each half of it is 8, the mark of a slot, or 0.
#[derive(Clone, Copy)]
struct Marks {
    word: u64,
    ghost are_marks: { marked 8 (halves_of word) ≡ halves_of word },
}

// Marks each half byte of `word` that is r, by the highest bit of that half. In x such a half is 0. In y the highest bit of a half is set
// unless that half of x is 0; the sum carries nothing from one half to the next.
fn mark(word: u64, r: RelativeNumber) -> Marks
    requires { r.0 ≤ 15 }
    ensures { halves_of result.word ≡ marked r.0 (halves_of word) }
{
    let x = word ^ (bits::wide(r.0) * 0x1111_1111_1111_1111);
    let y = ((x & 0x7777_7777_7777_7777) + 0x7777_7777_7777_7777) | x;
    Marks {
        word: (y & 0x8888_8888_8888_8888) ^ 0x8888_8888_8888_8888,
    }
}

// The slots with number r among the sixteen whose numbers stand from byte `at` on.
fn marks_at(numbers: &[u8; PACKED_BYTES], at: usize, r: RelativeNumber) -> Marks
    requires { (at + 8 ≤ packed_length) × (r.0 ≤ 15) }
    ensures { halves_of result.word ≡ marked r.0 (take 16 (drop (2 * at) (unpacked numbers.now))) }
{
    mark(bits::long(&numbers[at..at + 8]), r)
}

// The same for the last four slots, whose marks are in the four low halves.
fn last_marks(numbers: &[u8; PACKED_BYTES], r: RelativeNumber) -> Marks
    requires { r.0 ≤ 15 }
    ensures { halves_of result.word ≡ replicate 12 0 ++ marked r.0 (take 4 (drop 48 (unpacked numbers.now))) }
{
    let sixteen = mark(bits::long(&numbers[24..26]), r);
    Marks {
        word: sixteen.word % 0x1_0000,
    }
}

// How many slots are marked in four words. A mark takes one bit of its half. So the four words, shifted by 0 to 3 bits, fit into one word,
// and its ones are counted once.
fn count(a: Marks, b: Marks, c: Marks, d: Marks) -> usize
    ensures value { result ≡ slots_for 8 (halves_of a.word) + slots_for 8 (halves_of b.word) + slots_for 8 (halves_of c.word) + slots_for 8 (halves_of d.word) }
    ensures upper_bound { result ≤ 64 }
{
    u64::count_ones(a.word + b.word / 2 + c.word / 4 + d.word / 8) as usize
}

// Copies the packets of the marked slots to `out`, from place `from` on. The marks are for the sixteen slots behind slot `first`. Answers
// where the copies end. It stays a `while`: an iterator over the set bits would need a type of its own with its laws, for this one loop.
fn copy_marked(out: &mut [u8], from: usize, store: &[u8], first: usize, marks: Marks) -> usize
    requires { (HasPackets 8 (halves_of marks.word) (drop (packet_length * first) store.now)) × (from + packet_length * slots_for 8 (halves_of marks.word) ≤ length out.old) }
    ensures value { result ≡ from + packet_length * slots_for 8 (halves_of marks.word) }
    ensures out_after { out.new ≡ over from (numbered 8 (halves_of marks.word) (drop (packet_length * first) store.now)) out.old }
{
    let mut rest = marks.word;
    let mut at = from;
    while rest != 0 {
        let zeros = u64::leading_zeros(rest);
        let start = PACKET_BYTES * (first + (zeros / 4) as usize);
        slices::copy(
            &mut out[at..at + PACKET_BYTES],
            &store[start..start + PACKET_BYTES],
        );
        at += PACKET_BYTES;
        rest -= 0x8000_0000_0000_0000 >> zeros;
    }
    at
}

// Copies the packets with number r, in slot order, to the front of `out`; 15 if it has no room for them. The marks of the last four slots
// are the end of those for the last sixteen. The four words stand apart: they start at slots 0, 16, 32 and 36, and the last one has four marks,
// so a table of them would have as many lines.
pub(crate) fn hand_out(
    out: &mut [u8],
    store: &[u8],
    numbers: &[u8; PACKED_BYTES],
    r: RelativeNumber,
) -> Result<usize, Refusal>
    requires { (HasPackets r.0 (unpacked numbers.now) store.now) × (r.0 ≤ 15) }
    ensures value { handed result ≡ cond (ltb (length out.old) (packet_length * slots_for r.0 (unpacked numbers.now))) (record { refusal = 15; packets = 0 }) (record { refusal = 0; packets = slots_for r.0 (unpacked numbers.now) }) }
    ensures out_after { out.new ≡ cond (ltb (length out.old) (packet_length * slots_for r.0 (unpacked numbers.now))) out.old (over 0 (numbered r.0 (unpacked numbers.now) store.now) out.old) }
{
    let a = marks_at(numbers, 0, r);
    let b = marks_at(numbers, 8, r);
    let c = marks_at(numbers, 16, r);
    let d = last_marks(numbers, r);
    let packets = count(a, b, c, d);
    if out.len() < PACKET_BYTES * packets {
        return Err(Refusal::Room);
    }
    let at = copy_marked(out, 0, store, 0, a);
    let at = copy_marked(out, at, store, 16, b);
    let at = copy_marked(out, at, store, 32, c);
    copy_marked(out, at, store, 36, d);
    Ok(packets)
}

// Slots as bits of one number: slot i in bit i. Bit 0 is the header's place, and always 0.
#![tactic(auto)]

ghost use Rattle.std.specs.Prelude.{◌*◌, ◌%◌, ◌^◌, ◌≤◌, ◌<◌, ◌≡◌, cond, length};
ghost use Rattle.slot_bits.specs.Bits.{slots_as_bits, total, in_bytes};

use counters::SLOTS;

// How many bytes the slots' bits fill, eight in each.
const BYTES: usize = SLOTS / 8 + 1;

// The bit of mark i, from 0, in its byte, if that slot is marked; else 0.
fn bit_of(is_marked: bool, i: usize) -> u8
    ensures { result ≡ cond (is_marked) (2 ^ (i % 8)) 0 }
{
    if is_marked {
        return 1u8 << ((i % 8) as u32);
    }
    0
}

// The byte of up to eight slots: their bits added up.
fn byte_of(bits: &[u8]) -> u64
    requires { length bits.now ≤ 8 }
    ensures value { result ≡ total bits.now }
    ensures upper_bound { result ≤ 255 * 8 }
{
    let mut sum = 0u64;
    for &bit in bits {
        sum += u64::from(bit);
    }
    sum
}

// The bytes side by side, the first one lowest.
fn number_of(bits: &[u8; 8 * BYTES]) -> u64
    ensures value { result ≡ in_bytes 0 bits.now }
    ensures upper_bound { result < 2 ^ 60 }
{
    let mut number = 0u64;
    for byte in 0..BYTES {
        let at = 8 * byte;
        number += byte_of(&bits[at..at + 8]) << (at as u32);
    }
    number
}

// The marked slots as bits of one number; the first mark is slot 1's. The bits of eight slots at a time are added into a byte, and no loop
// stops early, so that the compiler works on many slots at once: that is faster than a shift for each slot. The bytes have slot 1 in bit 0,
// so their number is doubled to have it in bit 1.
pub fn slots_as_bits(marks: &[bool; SLOTS]) -> u64
    ensures { result ≡ slots_as_bits marks.now }
{
    let mut bits = [0u8; 8 * BYTES];
    for (i, &is_marked) in marks.iter().enumerate() {
        bits[i] = bit_of(is_marked, i);
    }
    2 * number_of(&bits)
}

// Reads records of a length, two bytes with the high one first, and as many bytes; writes for each the register that its bytes
// leave, as a line of eight hexadecimal digits.
#![tactic(auto)]

use std::io::{Read, Result};

// The most bytes of a record, and one more.
const MOST_BYTES: usize = 65536;

// One record and its line; an error where the input ends first, or where the line cannot be written.
fn answer(rt: HostRuntime, bytes: &mut [u8; MOST_BYTES]) -> Result<()> {
    let mut input = rt.stdin();
    let mut head = [0u8; 2];
    input.read_exact(&mut head)?;
    let length = u16::from_be_bytes(head) as usize;
    input.read_exact(&mut bytes[..length])?;
    let register = crc::register(&bytes[..length]);
    println!(rt; "{register:08x}")
}

// A loop that is proved has to end, and nothing says that the input does: its turns are more than any input has.
fn main(rt: HostRuntime) {
    let mut bytes = [0u8; MOST_BYTES];
    for _ in 0..u64::MAX {
        if answer(rt, &mut bytes).is_err() {
            return;
        }
    }
}

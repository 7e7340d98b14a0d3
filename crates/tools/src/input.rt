// Reads whole blocks, checks whether a file ends at the end of a packet, and writes to standard output.
ghost use Rattle.io.specs.Counts.{IsPrefixLen};
ghost use Rattle.std.specs.Prelude.{◌≤◌, length};

use crate::problem::{About, Problem};
use host::Input;
use packet::PACKET_BYTES;

// Reads until the block is full or nothing more comes. A read that fails is reported, and counts as no bytes.
pub(crate) fn read_block(rt: HostRuntime, input: &Input, block: &mut [u8]) -> usize
    ensures { IsPrefixLen result block.new }
{
    host::read_block(input, block, |error| Problem::Read(error).say(rt))
}

// Reports it if the last block ends inside a packet.
pub(crate) fn say_part(rt: HostRuntime, about: About, bytes: usize) {
    let tail = bytes % PACKET_BYTES;
    if tail != 0 {
        Problem::NotCut(about, tail as u64).say(rt);
    }
}

// Whether the rest of an input is whole packets. For a pipe this cannot be known before its end, and nothing is wrong.
pub(crate) fn check_cut(rt: HostRuntime, input: &Input) -> Result<(), Problem> {
    let tail = host::left(rt, input).unwrap_or(0) % PACKET_BYTES as u64;
    if tail != 0 {
        return Err(Problem::NotCut(About::Run, tail));
    }
    Ok(())
}

// Writes all of the bytes to standard output.
pub(crate) fn print(rt: HostRuntime, bytes: &[u8]) -> Result<(), Problem> {
    host::print(rt, bytes).map_err(Problem::Print)
}

// Lists recordings with plain headers of PID 0x1FF0: each file that an argument names, where `-` is standard input, or
// standard input if there are no arguments.
#![tactic(auto)]

ghost use Rattle.std.specs.Prelude.{◌+◌, ◌^◌, ◌≤◌, ◌<◌, ◌≡◌, length};
ghost use Rattle.io.specs.Counts.{IsPrefixLen};
ghost use Rattle.listing.specs.Listing.{packets_in, room_for, listing, over_front};

use host::Input;

// The packets of a block, its bytes, and room for its lines. Input is read and output is written a block at a time.
const BLOCK_PACKETS: usize = 174;

const BLOCK_BYTES: usize = packet::PACKET_BYTES * BLOCK_PACKETS;

const TEXT_BYTES: usize = listing::LINE_BYTES * (BLOCK_PACKETS + 1);

// Puts the listing of a block to the front of a buffer, if no check refuses it. Answers its length.
fn put_block(out: &mut [u8], block: &[u8], first: u64) -> usize
    requires block_in_bounds { room_for (length block.now) ≤ length out.old }
    requires block_bound { first + packets_in (length block.now) ≤ 2 ^ 64 }
    ensures value { result ≡ length (listing first block.now) }
    ensures out_after { out.new ≡ over_front (listing first block.now) out.old }
    ensures prefix_len { IsPrefixLen result out.new }
{
    listing::list(out, block, first).unwrap_or(0)
}

// Lists one block, whose first packet has this number. Answers whether more may follow.
fn list_block(rt: HostRuntime, input: &Input, name: &[u8], first: u64) -> bool
    requires { first + 174 < 2 ^ 64 }
{
    let mut block = [0u8; BLOCK_BYTES];
    let got = host::read_block(input, &mut block, |error| host::fail(name, error));
    let mut out = [0u8; TEXT_BYTES];
    let end = put_block(&mut out, &block[..got], first);
    if let Err(error) = host::print(rt, &out[..end]) {
        host::fail(b"standard output", error);
        return false;
    }
    got == BLOCK_BYTES
}

// Lists the open file. A proved loop has to end: this one does, at the latest, when the numbers of packets run out.
fn list_open(rt: HostRuntime, input: &Input, name: &[u8]) {
    let step = BLOCK_PACKETS as u64;
    for block in 0..u64::MAX / step {
        if !list_block(rt, input, name, step * block) {
            return;
        }
    }
}

fn list_named(rt: HostRuntime, name: &[u8]) {
    if name == b"-".as_slice() {
        list_open(rt, &Input::Standard(rt.stdin()), name);
        return;
    }
    match host::open(rt, name) {
        Ok(input) => list_open(rt, &input, name),
        Err(error) => host::fail(name, error),
    }
}

fn list_argument(rt: HostRuntime, i: usize) {
    let mut name = io::buffer();
    match host::argument(rt, i, &mut name) {
        Ok(length) => list_named(rt, &name[..length]),
        Err(error) => host::fail(b"name of a file", error),
    }
}

fn main(rt: HostRuntime) {
    let count = host::argument_count(rt);
    if count < 2 {
        list_open(rt, &Input::Standard(rt.stdin()), b"-");
    }
    for i in 1..count {
        list_argument(rt, i);
    }
}

// The lines of a listing, put into a lent buffer.
ghost use Rattle.std.specs.Prelude.{◌+◌, ◌≤◌, ◌^◌, length};
ghost use Rattle.refusals.specs.Refusals.{number};
ghost use Rattle.listing.specs.Text.{Puts};
ghost use Rattle.listing.specs.Listing.{line_room, room_for, packets_in, refused_fields, header_fields, line, tail_line, listing};

use crate::text::{put_field, put_hex, put_number};
use header_check::Refused;
use packet::PACKET_BYTES;
use refusals::Refusal;
use setting::Kind;

// The header PID of a recording that is listed.
const PID: u16 = 0x1FF0;

// The refusal's number, and behind 7 the remainder.
fn put_refused(out: &mut [u8], at: usize, why: Refused) -> usize
    requires { at + 38 ≤ length out.old }
    ensures puts { Puts out.old at (refused_fields (record { number = number why.refusal; remainder = why.remainder })) out.new result }
    ensures upper_bound { result ≤ at + 38 }
{
    let second = put_field(out, at, b"refused", b' ');
    let number = why.refusal.number() as u64;
    if let Refusal::Crc = why.refusal {
        let third = put_number(out, second, number, b' ');
        return put_hex(out, third, why.remainder, b'\n');
    }
    put_number(out, second, number, b'\n')
}

fn put_header(out: &mut [u8], at: usize, counter: u8, version: u8, available: u32) -> usize
    requires { at + 70 ≤ length out.old }
    ensures puts { Puts out.old at (header_fields counter version available) out.new result }
    ensures upper_bound { result ≤ at + 70 }
{
    let second = put_field(out, at, b"header", b' ');
    let third = put_number(out, second, counter as u64, b' ');
    let fourth = put_number(out, third, version as u64, b' ');
    put_number(out, fourth, available as u64, b'\n')
}

// The line of a packet.
fn put_line(out: &mut [u8], at: usize, number: u64, packet: &[u8]) -> usize
    requires { at + line_room ≤ length out.old }
    ensures puts { Puts out.old at (line number packet.now) out.new result }
    ensures upper_bound { result ≤ at + line_room }
{
    let next = put_number(out, at, number, b' ');
    match header_read::read(packet, PID, Kind::Plain) {
        Ok(setting) => put_header(
            out,
            next,
            setting.continuity_counter,
            setting.version_number,
            counters::count_available(setting.availability),
        ),
        Err(why) => put_refused(out, next, why),
    }
}

// The line for left-over bytes, if there are any.
fn put_tail(out: &mut [u8], at: usize, left: usize) -> usize
    requires { at + line_room ≤ length out.old }
    ensures puts { Puts out.old at (tail_line left) out.new result }
    ensures upper_bound { result ≤ at + line_room }
{
    if left == 0 {
        return at;
    }
    let next = put_field(out, at, b"tail", b' ');
    put_number(out, next, left as u64, b'\n')
}

// The listing of `bytes`, whose first packet has the number `first`, at the front of a buffer with room for it.
pub(crate) fn put_listing(out: &mut [u8], bytes: &[u8], first: u64) -> usize
    requires bytes_in_bounds { room_for (length bytes.now) ≤ length out.old }
    requires bytes_bound { first + packets_in (length bytes.now) ≤ 2 ^ 64 }
    ensures puts { Puts out.old 0 (listing first bytes.now) out.new result }
    ensures upper_bound { result ≤ length out.new }
{
    let mut at = 0;
    for (k, packet) in bytes.chunks_exact(PACKET_BYTES).enumerate() {
        at = put_line(out, at, first + k as u64, packet);
    }
    put_tail(out, at, bytes.len() % PACKET_BYTES)
}

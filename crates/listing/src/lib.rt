// The listing of a recording of packets: for each packet a line that says what it is, read as a plain header.
#![tactic(auto)]

ghost use Rattle.std.specs.Prelude.{◌≡◌, length};
ghost use Rattle.io.specs.Counts.{IsPrefixLen};
ghost use Rattle.refusals.specs.Refusals.{answer};
ghost use Rattle.listing.specs.Listing.{list_refusal, listed_in, listed, listed_over};

use packet::PACKET_BYTES;
use refusals::Refusal;

mod lines;
mod text;

// The most bytes that a line takes. A line for each packet and one more is room enough.
pub const LINE_BYTES: usize = 96;

// 17 and 15: the packets' numbers, and the room for their lines.
fn list_refusal(lent: usize, first: u64, room: usize) -> Result<(), Refusal>
    ensures { answer result ≡ list_refusal first lent room }
{
    let packets = lent / PACKET_BYTES;
    if packets > 0 && u64::MAX - first < packets as u64 - 1 {
        return Err(Refusal::OutOfRange);
    }
    if room < LINE_BYTES * (packets + 1) {
        return Err(Refusal::Room);
    }
    Ok(())
}

// Puts the listing of `bytes`, whose first packet has the number `first`, at the front of `out`. Answers its length. A refusal leaves `out` as
// it was.
pub fn list(out: &mut [u8], bytes: &[u8], first: u64) -> Result<usize, Refusal>
    ensures value { listed_in result ≡ listed first bytes.now (length out.old) }
    ensures out_after { out.new ≡ listed_over first bytes.now out.old }
    ensures prefix_len { IsPrefixLen (listed_in result).length out.new }
{
    list_refusal(bytes.len(), first, out.len())?;
    Ok(lines::put_listing(out, bytes, first))
}

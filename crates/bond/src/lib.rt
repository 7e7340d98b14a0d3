// One stream over bonded carriers: spread over the slots of their super frames, and gathered again in its original order.
#![tactic(auto)]

mod checks;
mod moving;
mod rounds;

ghost use Rattle.std.specs.Prelude.{◌≡◌, length};
ghost use Rattle.bond.specs.Bonding.{moved_in, spread_of, spread_group, gather_of, gather_buffer};

use bond_group::Bond;
use bond_group::headers::{CARRIERS, FRAMES};
use header_check::Refused;
use packet::PACKET_BYTES;
use refusals::Refusal;
use rounds::Plan;

// Writes the stream's packets into the bonded slots of the group, in order, and nothing else. Answers how many.
pub fn spread(group: &mut [u8], stream: &[u8], b: Bond) -> Result<usize, Refused>
    ensures value { moved_in result ≡ spread_of b group.old stream.now }
    ensures group_after { group.new ≡ spread_group b group.old stream.now }
{
    if stream.len() % PACKET_BYTES != 0 {
        return Err(Refused::from(Refusal::Length));
    }
    let mut frames = [0u8; CARRIERS];
    let mut slots = [0u64; FRAMES];
    let headers = bond_group::read_headers(group, b, &mut frames, &mut slots);
    let packets = checks::packets_to_spread(headers?, stream, b.pid)?;
    let plan = Plan {
        carriers: b.carriers as usize,
        frames: &frames,
        slots: &slots,
    };
    moving::spread_over(group, stream, plan);
    Ok(packets)
}

// Copies the bonded slots of the group, in order, to the front of the output buffer. Answers how many.
pub fn gather(group: &[u8], out: &mut [u8], b: Bond) -> Result<usize, Refused>
    ensures value { moved_in result ≡ gather_of b group.now (length out.old) }
    ensures out_after { out.new ≡ gather_buffer b group.now out.old }
{
    let mut frames = [0u8; CARRIERS];
    let mut slots = [0u64; FRAMES];
    let headers = bond_group::read_headers(group, b, &mut frames, &mut slots);
    let packets = checks::packets_to_gather(headers?, out.len())?;
    let plan = Plan {
        carriers: b.carriers as usize,
        frames: &frames,
        slots: &slots,
    };
    moving::gather_over(out, group, plan);
    Ok(packets)
}

// What each call checks of its buffers, in the order of the table of refusals. The headers are checked elsewhere.
ghost use Rattle.std.specs.Prelude.{◌≡◌, not, [], ◌∷◌, ◌*◌, ◌%◌, ltb, eqb, length, is_some, unwrap_or, Ok, Some, ℕ};
ghost use Rattle.refusals.specs.Refusals.{answer};
ghost use Rattle.setting.specs.Refusal.{first_of};
ghost use Rattle.packet.specs.Packets.{packet_length, some_unfit_in};

use packet::PACKET_BYTES;
use refusals::Refusal;

// Refusals 13, 15 and 12: the stream, compared with the bonded slots that the headers show. Answers how many packets it has.
pub(crate) fn packets_to_spread(
    bonded: Option<usize>,
    stream: &[u8],
    pid: u16,
) -> Result<usize, Refusal>
    requires { length stream.now % packet_length ≡ 0 }
    ensures value { answer result ≡ first_of ((13, not (is_some bonded)) ∷ (15, not (eqb (length stream.now) (packet_length * unwrap_or bonded 0))) ∷ (12, some_unfit_in pid stream.now) ∷ []) }
    ensures packets { (n : ℕ) → result ≡ Ok n → bonded ≡ Some n }
{
    let slots = bonded.ok_or(Refusal::UnavailableStream)?;
    if stream.len() / PACKET_BYTES != slots {
        return Err(Refusal::Room);
    }
    if packet::has_unfit(stream, pid) {
        return Err(Refusal::UnfitPacket);
    }
    Ok(slots)
}

// Refusals 13 and 15: the output buffer, compared with the bonded slots that the headers show. Answers how many packets are gathered.
pub(crate) fn packets_to_gather(bonded: Option<usize>, out: usize) -> Result<usize, Refusal>
    ensures value { answer result ≡ first_of ((13, not (is_some bonded)) ∷ (15, ltb out (packet_length * unwrap_or bonded 0)) ∷ []) }
    ensures packets { (n : ℕ) → result ≡ Ok n → bonded ≡ Some n }
{
    let packets = bonded.ok_or(Refusal::UnavailableStream)?;
    if out / PACKET_BYTES < packets {
        return Err(Refusal::Room);
    }
    Ok(packets)
}

// Packets of 188 bytes: whether one may stand in a slot, and what is left of a stream of them.
#![tactic(auto)]

ghost use Rattle.std.specs.Prelude.{◌≡◌, length};
ghost use Rattle.refusals.specs.Refusals.{answer};
ghost use Rattle.setting.specs.Size.{slots_of};
ghost use Rattle.packet.specs.Packets.{frame_length, place_refusal, some_unfit_in, rest_of};

use counters::SLOTS;
use header_layout::HEADER_LENGTH;
use refusals::Refusal;
use setting::Kind;

// A header is a packet.
pub const PACKET_BYTES: usize = HEADER_LENGTH;

// The bytes of a frame that has as many slots as there can be.
pub const FRAME_BYTES: usize = PACKET_BYTES * (SLOTS + 1);

// How many bytes a frame of this kind has: its header, and a packet for each slot.
pub fn frame_bytes(kind: Kind) -> usize
    ensures { result ≡ frame_length (slots_of kind) }
{
    let size = setting::size_of(kind);
    PACKET_BYTES * (usize::from(size.slots) + 1)
}

// Whether a packet may stand in a slot: it is 188 bytes (else 1), begins with 0x47 and does not bear the header PID (else 12).
pub fn place_refusal(packet: &[u8], pid: u16) -> Result<(), Refusal>
    ensures { answer result ≡ place_refusal pid packet.now }
{
    if packet.len() != PACKET_BYTES {
        return Err(Refusal::Length);
    }
    if packet[0] != 0x47 {
        return Err(Refusal::UnfitPacket);
    }
    if bits::word(packet[1] % 32, packet[2]) == pid {
        return Err(Refusal::UnfitPacket);
    }
    Ok(())
}

// Whether any whole packet of a stream lacks 0x47 or bears the header PID.
pub fn has_unfit(stream: &[u8], pid: u16) -> bool
    ensures { result ≡ some_unfit_in pid stream.now }
{
    for packet in stream.chunks_exact(PACKET_BYTES) {
        if place_refusal(packet, pid).is_err() {
            return true;
        }
    }
    false
}

// The rest of a stream from which so many packets were placed.
pub fn rest(stream: &[u8], placed: usize) -> &[u8]
    ensures { result.now ≡ rest_of stream.now placed }
{
    let end = stream.len();
    if end / PACKET_BYTES < placed {
        return &stream[end..];
    }
    &stream[PACKET_BYTES * placed..]
}

// Whether a packet may stand in a slot.
#[unsafe(no_mangle)]
pub extern "C" fn niranbok_place_refusal(packet: &[u8], pid: u16) -> u8
    ensures { result ≡ place_refusal pid packet.now }
{
    refusals::answer(place_refusal(packet, pid))
}

// How many bytes of a stream are left after so many packets were placed.
#[unsafe(no_mangle)]
pub extern "C" fn niranbok_composer_rest(stream: &[u8], placed: usize) -> usize
    ensures { result ≡ length (rest_of stream.now placed) }
{
    rest(stream, placed).len()
}

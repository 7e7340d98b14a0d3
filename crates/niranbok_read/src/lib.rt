// The calls of include/niranbok.h that read headers and look at packets, as C has them: each calls the library's function of the same name,
// and has its clauses, word for word.
#![tactic(auto)]

ghost use Rattle.std.specs.Prelude.{◌≡◌, length};
ghost use Rattle.packet.specs.Packets.{place_refusal, rest_of};
ghost use Rattle.header_calls.specs.Calls.{read_refused, read_remainder, read_memory};

// Whether a packet may stand in a slot.
#[unsafe(no_mangle)]
pub extern "C" fn niranbok_place_refusal(packet: &[u8], pid: u16) -> u8
    ensures { result ≡ place_refusal pid packet.now }
{
    packet::niranbok_place_refusal(packet, pid)
}

// How many bytes of a stream are left after so many packets were placed.
#[unsafe(no_mangle)]
pub extern "C" fn niranbok_composer_rest(stream: &[u8], placed: usize) -> usize
    ensures { result ≡ length (rest_of stream.now placed) }
{
    packet::niranbok_composer_rest(stream, placed)
}

// Reads the packet as a header: writes its setting, and the remainder.
#[unsafe(no_mangle)]
pub extern "C" fn niranbok_header_read(
    packet: &[u8],
    pid: u16,
    kind: u8,
    setting: &mut [u8],
    remainder: &mut u32,
) -> u8
    ensures value { result ≡ read_refused packet.now pid kind setting.old }
    ensures remainder_after { remainder.new ≡ read_remainder packet.now pid kind setting.old }
    ensures setting_after { setting.new ≡ read_memory packet.now pid kind setting.old }
{
    header_calls::niranbok_header_read(packet, pid, kind, setting, remainder)
}

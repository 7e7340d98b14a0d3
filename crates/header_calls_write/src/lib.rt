// The call that writes a header. It has a crate of its own: in one crate with the call that reads, the compiler would make the CRC a shared
// function instead of inlining it, and writing would take 15 % longer.
#![tactic(auto)]

ghost use Rattle.std.specs.Prelude.{◌≡◌};
ghost use Rattle.refusals.specs.Refusals.{answer};
ghost use Rattle.header_calls.specs.Calls.{write_refused, write_memory};

use refusals::Refusal;

fn write(packet: &mut [u8], pid: u16, kind: u8, setting: &[u8]) -> Result<(), Refusal>
    ensures value { answer result ≡ write_refused packet.old pid kind setting.now }
    ensures packet_after { packet.new ≡ write_memory packet.old pid kind setting.now }
{
    header_calls::call_refusal(packet.len(), setting.len(), pid, kind)?;
    header_write::write(packet, pid, setting_bytes::kind_of(kind), setting)
}

// Writes the setting's header.
#[unsafe(no_mangle)]
pub extern "C" fn niranbok_header_write(packet: &mut [u8], pid: u16, kind: u8, setting: &[u8]) -> u8
    ensures value { result ≡ write_refused packet.old pid kind setting.now }
    ensures packet_after { packet.new ≡ write_memory packet.old pid kind setting.now }
{
    refusals::answer(write(packet, pid, kind, setting))
}

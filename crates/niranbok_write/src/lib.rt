// The call of include/niranbok.h that writes a header, as C has it: it calls the library's function of the same name, and has its clauses,
// word for word.
#![tactic(auto)]

ghost use Rattle.std.specs.Prelude.{◌≡◌};
ghost use Rattle.header_calls.specs.Calls.{write_refused, write_memory};

// Writes the setting's header.
#[unsafe(no_mangle)]
pub extern "C" fn niranbok_header_write(packet: &mut [u8], pid: u16, kind: u8, setting: &[u8]) -> u8
    ensures value { result ≡ write_refused packet.old pid kind setting.now }
    ensures packet_after { packet.new ≡ write_memory packet.old pid kind setting.now }
{
    header_calls_write::niranbok_header_write(packet, pid, kind, setting)
}

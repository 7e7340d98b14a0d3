// The reader of the header: into the bytes of a setting, and as a setting.
#![tactic(auto)]

ghost use Rattle.std.specs.Prelude.{◌≡◌};
ghost use Rattle.header_check.specs.OnPaper.{refusal_in};
ghost use Rattle.header_read.specs.Reader.{reading_in, read_of, into_refused, into_memory};

use header_check::Refused;
use header_layout::HEADER_LENGTH;
use refusals::Refusal;
use setting::{Kind, Setting};
use setting_bytes::SETTING_BYTES;

mod reader;

// Reads the packet as a header and writes its setting into the lent 298 bytes. A refusal leaves the bytes as they were. Bytes of any other
// length are a 1.
pub fn read_into(packet: &[u8], pid: u16, kind: Kind, setting: &mut [u8]) -> Result<(), Refused>
    ensures value { refusal_in result ≡ into_refused kind pid packet.now setting.old }
    ensures setting_after { setting.new ≡ into_memory kind pid packet.now setting.old }
{
    if setting.len() != SETTING_BYTES {
        return Err(Refused::from(Refusal::Length));
    }
    // The length is asked here and not only in the check, so that the parts behind it have it from the type.
    let packet: &[u8; HEADER_LENGTH] = packet.as_array().ok_or(Refusal::Length)?;
    let said = header_check::check(packet, pid, kind)?;
    reader::read_setting(setting, packet, kind, said);
    Ok(())
}

// Reads the packet as a header. Answers its setting.
pub fn read(packet: &[u8], pid: u16, kind: Kind) -> Result<Setting, Refused>
    ensures { reading_in result ≡ read_of kind pid packet.now }
{
    let mut bytes = [0u8; SETTING_BYTES];
    read_into(packet, pid, kind, &mut bytes)?;
    Ok(setting_read::setting_of(&bytes))
}

// The calls that write and read a header, with the setting as bytes: what they answer and leave, the checks of both, and the one that reads.
#![tactic(auto)]

ghost use Rattle.std.specs.Prelude.{◌≡◌};
ghost use Rattle.refusals.specs.Refusals.{answer};
ghost use Rattle.header_check.specs.OnPaper.{refusal_in};
ghost use Rattle.header_calls.specs.Calls.{call_refused, read_refused, read_remainder, read_memory};

use header_check::Refused;
use packet::PACKET_BYTES;
use refusals::Refusal;
use setting_bytes::{LAST_KIND, SETTING_BYTES};

// 1, 2, 17: the lengths of the buffers, the PID, the kind.
pub fn call_refusal(packet: usize, setting: usize, pid: u16, kind: u8) -> Result<(), Refusal>
    ensures { answer result ≡ call_refused packet setting pid kind }
{
    if packet != PACKET_BYTES {
        return Err(Refusal::Length);
    }
    if setting != SETTING_BYTES {
        return Err(Refusal::Length);
    }
    if !setting::pid_allowed(pid) {
        return Err(Refusal::HeaderPid);
    }
    if LAST_KIND < kind {
        return Err(Refusal::OutOfRange);
    }
    Ok(())
}

fn read(packet: &[u8], pid: u16, kind: u8, setting: &mut [u8]) -> Result<(), Refused>
    ensures value { (refusal_in result).number ≡ read_refused packet.now pid kind setting.old }
    ensures remainder_shown { (refusal_in result).remainder ≡ read_remainder packet.now pid kind setting.old }
    ensures setting_after { setting.new ≡ read_memory packet.now pid kind setting.old }
{
    call_refusal(packet.len(), setting.len(), pid, kind)?;
    header_read::read_into(packet, pid, setting_bytes::kind_of(kind), setting)
}

// Reads the packet as a header: writes its setting. Writes the remainder too, which is 0 unless the answer is 7.
#[unsafe(no_mangle)]
pub extern "C" fn niranbok_header_read(
    packet: &[u8],
    pid: u16,
    kind: u8,
    setting: &mut [u8],
    remainder: &mut u32,
) -> u8
    ensures value { result ≡ read_refused packet.now pid kind setting.old }
    ensures remainder_after { remainder.new ≡ read_remainder packet.now pid kind setting.old }
    ensures setting_after { setting.new ≡ read_memory packet.now pid kind setting.old }
{
    header_check::answer(read(packet, pid, kind, setting), remainder)
}

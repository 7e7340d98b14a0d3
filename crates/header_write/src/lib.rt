// The writer of the header. It writes each field from the setting's bytes straight into the caller's buffer, so it takes little stack.
#![tactic(auto)]

ghost use Rattle.std.specs.Prelude.{◌≡◌, cond, ◌&&◌, eqb, length};
ghost use Rattle.refusals.specs.Refusals.{answer};
ghost use Rattle.setting.specs.Refusal.{of_length};
ghost use Rattle.setting_bytes.specs.Settings.{setting_length, setting_of};
ghost use Rattle.header_layout.specs.Header.{header_length, header};
ghost use Rattle.header_write.specs.Writing.{write_refusal, written};

use refusals::Refusal;
use setting::Kind;
use setting_bytes::SETTING_BYTES;

mod packed;
mod writer;

// Writes the header of a setting into a buffer of 188 bytes, each field by its low bits. If the buffer or the setting has any other length, the
// buffer stays as it was. The rules are not checked here: the caller has checked them.
pub fn write_header(buffer: &mut [u8], pid: u16, kind: Kind, setting: &[u8])
    ensures { buffer.new ≡ cond (eqb (length buffer.old) header_length && eqb (length setting.now) setting_length) (header kind pid (setting_of setting.now)) buffer.old }
{
    if buffer.len() != header_layout::HEADER_LENGTH {
        return;
    }
    let Some(setting) = setting.as_array::<SETTING_BYTES>() else {
        return;
    };
    writer::write_body(&mut buffer[0..header_layout::CRC], pid, kind, setting);
    let word = crc::register(&buffer[header_layout::TSMF_SYNC..header_layout::CRC]);
    writer::write_word(
        &mut buffer[header_layout::CRC..header_layout::HEADER_LENGTH],
        word,
    );
}

// Writes the setting's header into a buffer of 188 bytes. A refusal leaves the buffer as it was: a 1 also where the setting is not 298 bytes.
pub fn write(buffer: &mut [u8], pid: u16, kind: Kind, setting: &[u8]) -> Result<(), Refusal>
    ensures value { answer result ≡ of_length setting_length (length setting.now) (write_refusal kind pid (setting_of setting.now) (length buffer.old)) }
    ensures buffer_after { buffer.new ≡ cond (eqb (length setting.now) setting_length) (written kind pid (setting_of setting.now) buffer.old) buffer.old }
{
    if setting.len() != SETTING_BYTES {
        return Err(Refusal::Length);
    }
    if buffer.len() != header_layout::HEADER_LENGTH {
        return Err(Refusal::Length);
    }
    if !setting::pid_allowed(pid) {
        return Err(Refusal::HeaderPid);
    }
    setting_checks::width_refusal(kind, setting)?;
    setting_checks::rule_refusal(kind, setting)?;
    write_header(buffer, pid, kind, setting);
    Ok(())
}

// The calls on a setting: a blank one, and what its widths and its rules refuse.
#![tactic(auto)]

ghost use Rattle.std.specs.Prelude.{◌≡◌};
ghost use Rattle.refusals.specs.Refusals.{answer};
ghost use Rattle.setting_calls.specs.Calls.{call_refused, blank_refused, blank_memory, widths_refused, rules_refused};

use refusals::Refusal;
use setting::Setting;
use setting_bytes::{LAST_KIND, SETTING_BYTES};

// 1, 17: the length of a setting, the kind.
fn call_refusal(setting: usize, kind: u8) -> Result<(), Refusal>
    ensures { answer result ≡ call_refused setting kind }
{
    if setting != SETTING_BYTES {
        return Err(Refusal::Length);
    }
    if LAST_KIND < kind {
        return Err(Refusal::OutOfRange);
    }
    Ok(())
}

fn write_blank(setting: &mut [u8]) -> Result<(), Refusal>
    ensures value { answer result ≡ blank_refused setting.old }
    ensures setting_after { setting.new ≡ blank_memory setting.old }
{
    call_refusal(setting.len(), 0)?;
    setting_write::write_setting(setting, Setting::blank());
    Ok(())
}

fn check_widths(setting: &[u8], kind: u8) -> Result<(), Refusal>
    ensures { answer result ≡ widths_refused setting.now kind }
{
    call_refusal(setting.len(), kind)?;
    setting_checks::width_refusal(setting_bytes::kind_of(kind), setting)
}

fn check_rules(setting: &[u8], kind: u8) -> Result<(), Refusal>
    ensures { answer result ≡ rules_refused setting.now kind }
{
    call_refusal(setting.len(), kind)?;
    setting_checks::rule_refusal(setting_bytes::kind_of(kind), setting)
}

// Writes a setting of zeros.
#[unsafe(no_mangle)]
pub extern "C" fn niranbok_setting_blank(setting: &mut [u8]) -> u8
    ensures value { result ≡ blank_refused setting.old }
    ensures setting_after { setting.new ≡ blank_memory setting.old }
{
    refusals::answer(write_blank(setting))
}

// Whether every field of a setting fits its bits.
#[unsafe(no_mangle)]
pub extern "C" fn niranbok_setting_widths(setting: &[u8], kind: u8) -> u8
    ensures { result ≡ widths_refused setting.now kind }
{
    refusals::answer(check_widths(setting, kind))
}

// Whether a setting obeys the rules of a header.
#[unsafe(no_mangle)]
pub extern "C" fn niranbok_setting_rules(setting: &[u8], kind: u8) -> u8
    ensures { result ≡ rules_refused setting.now kind }
{
    refusals::answer(check_rules(setting, kind))
}

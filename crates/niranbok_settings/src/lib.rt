// The calls of include/niranbok.h on settings, as C has them: each calls the library's function of the same name, and has its clauses, word
// for word.
#![tactic(auto)]

ghost use Rattle.std.specs.Prelude.{◌≡◌};
ghost use Rattle.setting.specs.Rules.{pid_allowed};
ghost use Rattle.setting_calls.specs.Calls.{blank_refused, blank_memory, widths_refused, rules_refused};

// Whether a number is a header PID.
#[unsafe(no_mangle)]
pub extern "C" fn niranbok_pid_allowed(pid: u16) -> bool
    ensures { result ≡ pid_allowed pid }
{
    setting::niranbok_pid_allowed(pid)
}

// Writes a setting of zeros.
#[unsafe(no_mangle)]
pub extern "C" fn niranbok_setting_blank(setting: &mut [u8]) -> u8
    ensures value { result ≡ blank_refused setting.old }
    ensures setting_after { setting.new ≡ blank_memory setting.old }
{
    setting_calls::niranbok_setting_blank(setting)
}

// Whether every field of a setting fits its bits.
#[unsafe(no_mangle)]
pub extern "C" fn niranbok_setting_widths(setting: &[u8], kind: u8) -> u8
    ensures { result ≡ widths_refused setting.now kind }
{
    setting_calls::niranbok_setting_widths(setting, kind)
}

// Whether a setting obeys the rules of a header.
#[unsafe(no_mangle)]
pub extern "C" fn niranbok_setting_rules(setting: &[u8], kind: u8) -> u8
    ensures { result ≡ rules_refused setting.now kind }
{
    setting_calls::niranbok_setting_rules(setting, kind)
}

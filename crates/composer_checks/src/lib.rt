// What every call checks of a composer's state, read straight from its 436 bytes. Any other length is a 1.
#![tactic(auto)]

ghost use Rattle.std.specs.Prelude.{◌≡◌, length};
ghost use Rattle.counters.specs.Counters.{last_slot};
ghost use Rattle.refusals.specs.Refusals.{answer};
ghost use Rattle.setting.specs.Refusal.{first_of, of_length};
ghost use Rattle.setting.specs.Rules.{width_checks};
ghost use Rattle.setting.specs.Announcing.{announced_checks};
ghost use Rattle.setting_bytes.specs.Settings.{part, announced_length, announced_of};
ghost use Rattle.composer.specs.Slots.{some_unplanned};
ghost use Rattle.composer.specs.Composing.{asked, state_checks, open_rule_checks, mark_checks, open_checks};
ghost use Rattle.composer.specs.States.{composer_length, last_at, marks_of, is_coded, composer_of};

use composer::{
    COMPOSER_BYTES, COUNTER, FILLED, KIND, LAST, OPEN, PID, PID_LOW, PLAN, SETTING, VERSION,
};
use counters::SLOTS;
use refusals::Refusal;
use setting::{Kind, limits};
use setting_bytes::LAST_KIND;

// Whether bytes code a state, whatever its numbers.
fn is_coded(bytes: &[u8; COMPOSER_BYTES]) -> bool
    ensures { result ≡ is_coded bytes.now }
{
    if LAST_KIND < bytes[KIND] {
        return false;
    }
    if 1 < bytes[OPEN] {
        return false;
    }
    !slices::some_at_least(&bytes[FILLED..COMPOSER_BYTES], 2)
}

// 17: while a frame is open, the fields of its setting.
#[inline(always)]
fn open_width_refusal(bytes: &[u8; COMPOSER_BYTES]) -> Result<(), Refusal>
    ensures { answer result ≡ first_of (asked (composer_of bytes.now).is_open (width_checks (composer_of bytes.now).kind (composer_of bytes.now).setting)) }
{
    if bytes[OPEN] != 1 {
        return Ok(());
    }
    setting_checks::width_refusal(setting_bytes::kind_of(bytes[KIND]), &bytes[SETTING..FILLED])
}

// 17: what the last header announced. Apart from the other checks: put among them it would take stack that the composer's calls do not have.
#[inline(never)]
fn last_refusal(kind: Kind, bytes: &[u8; COMPOSER_BYTES]) -> Result<(), Refusal>
    ensures { answer result ≡ of_length announced_length (length (part last_at announced_length bytes.now)) (first_of (announced_checks kind (announced_of (part last_at announced_length bytes.now)))) }
{
    setting_checks::announced_refusal(kind, &bytes[LAST..OPEN])
}

#[inline(always)]
fn long_state_refusal(bytes: &[u8; COMPOSER_BYTES]) -> Result<(), Refusal>
    ensures { answer result ≡ first_of (state_checks (composer_of bytes.now)) }
{
    if !setting::pid_allowed(bits::word(bytes[PID], bytes[PID_LOW])) {
        return Err(Refusal::HeaderPid);
    }
    if !is_coded(bytes) {
        return Err(Refusal::OutOfRange);
    }
    if limits::COUNTERS <= bytes[COUNTER] {
        return Err(Refusal::OutOfRange);
    }
    if limits::VERSIONS <= bytes[VERSION] {
        return Err(Refusal::OutOfRange);
    }
    let kind = setting_bytes::kind_of(bytes[KIND]);
    last_refusal(kind, bytes)?;
    open_width_refusal(bytes)
}

// 2 and 17: the state's PID and numbers, and, while a frame is open, the fields of its setting. Put into its callers: a call more would take
// stack that they do not have.
#[inline(always)]
pub fn state_refusal(bytes: &[u8]) -> Result<(), Refusal>
    ensures { answer result ≡ of_length composer_length (length bytes.now) (first_of (state_checks (composer_of bytes.now))) }
{
    let bytes: &[u8; COMPOSER_BYTES] = bytes.as_array().ok_or(Refusal::Length)?;
    long_state_refusal(bytes)
}

// 8 to 11: while a frame is open, the rules of its setting.
pub fn open_rule_refusal(bytes: &[u8]) -> Result<(), Refusal>
    ensures { answer result ≡ of_length composer_length (length bytes.now) (first_of (open_rule_checks (composer_of bytes.now))) }
{
    let bytes: &[u8; COMPOSER_BYTES] = bytes.as_array().ok_or(Refusal::Length)?;
    if bytes[OPEN] != 1 {
        return Ok(());
    }
    setting_checks::rule_refusal(setting_bytes::kind_of(bytes[KIND]), &bytes[SETTING..FILLED])
}

// Whether a slot that is planned for no stream is marked filled. Plan and marks are parts of the state: as arrays they would want a test of their
// length that cannot fail. The loop never stops early, so that the compiler can compare many
// slots at a time.
fn has_unplanned(plan: &[u8], filled: &[u8]) -> bool
    requires { (length plan.now ≡ last_slot) × (length filled.now ≡ last_slot) }
    ensures { result ≡ some_unplanned plan.now (marks_of filled.now) }
{
    let mut found = false;
    for (number, mark) in plan.iter().zip(filled) {
        found |= (*mark == 1) & (*number == 0);
    }
    found
}

// 17: a filled mark on a slot that is planned for no stream. A call of its own, for the same reason as `last_refusal`.
#[inline(never)]
pub fn mark_refusal(bytes: &[u8]) -> Result<(), Refusal>
    ensures { answer result ≡ of_length composer_length (length bytes.now) (first_of (mark_checks (composer_of bytes.now))) }
{
    let bytes: &[u8; COMPOSER_BYTES] = bytes.as_array().ok_or(Refusal::Length)?;
    if bytes[OPEN] != 1 {
        return Ok(());
    }
    if has_unplanned(&bytes[PLAN..PLAN + SLOTS], &bytes[FILLED..COMPOSER_BYTES]) {
        return Err(Refusal::OutOfRange);
    }
    Ok(())
}

// 16, and the checks of an open frame.
pub fn open_refusal(bytes: &[u8]) -> Result<(), Refusal>
    ensures { answer result ≡ of_length composer_length (length bytes.now) (first_of (open_checks (composer_of bytes.now))) }
{
    let bytes: &[u8; COMPOSER_BYTES] = bytes.as_array().ok_or(Refusal::Length)?;
    if bytes[OPEN] != 1 {
        return Err(Refusal::NoFrame);
    }
    open_rule_refusal(bytes)?;
    mark_refusal(bytes)
}

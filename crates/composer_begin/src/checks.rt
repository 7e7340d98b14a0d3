// What begin checks of its state and its other buffers, in the order of the table of refusals.
ghost use Rattle.std.specs.Prelude.{◌≡◌};
ghost use Rattle.refusals.specs.Refusals.{answer};
ghost use Rattle.setting.specs.Refusal.{first_of};
ghost use Rattle.setting.specs.Rules.{rule_checks};
ghost use Rattle.setting_bytes.specs.Settings.{setting_of};
ghost use Rattle.composer.specs.Composing.{open_rule_checks, in_turn, begin_refusal};
ghost use Rattle.composer.specs.States.{composer_of};

use composer::{COMPOSER_BYTES, KIND};
use refusals::Refusal;
use setting_bytes::SETTING_BYTES;

// 8 to 11, of the open frame's setting, if a frame is open, and of the new one. The checks go number by number, so of two
// refusals the smaller is the answer.
fn both_rules_refusal(
    state: &[u8; COMPOSER_BYTES],
    setting: &[u8; SETTING_BYTES],
) -> Result<(), Refusal>
    ensures { answer result ≡ first_of (in_turn (open_rule_checks (composer_of state.now)) (rule_checks (composer_of state.now).kind (setting_of setting.now))) }
{
    let kind = setting_bytes::kind_of(state[KIND]);
    let Err(first) = composer_checks::open_rule_refusal(state) else {
        return setting_checks::rule_refusal(kind, setting);
    };
    match setting_checks::rule_refusal(kind, setting) {
        Err(second) if second.number() < first.number() => Err(second),
        _ => Err(first),
    }
}

pub(crate) fn begin_refusal(
    state: &[u8; COMPOSER_BYTES],
    setting: &[u8; SETTING_BYTES],
    lent: usize,
) -> Result<(), Refusal>
    ensures { answer result ≡ begin_refusal (composer_of state.now) (setting_of setting.now) lent }
{
    let kind = setting_bytes::kind_of(state[KIND]);
    if lent != packet::frame_bytes(kind) {
        return Err(Refusal::Length);
    }
    composer_checks::state_refusal(state)?;
    setting_checks::width_refusal(kind, setting)?;
    both_rules_refusal(state, setting)?;
    composer_checks::mark_refusal(state)
}

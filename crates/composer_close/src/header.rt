// What the header of an open frame says: its setting, with the run's counter and version, and with the slots that were filled. It is made in
// the state, in the setting's own place, and the header is written from there.
ghost use Rattle.std.specs.Prelude.{◌≡◌, false, ◌∷◌, ◌++◌, ◌+◌, ◌^◌, ◌<◌, length, drop};
ghost use Rattle.counters.specs.Counters.{last_slot};
ghost use Rattle.slices.specs.Slices.{some_at_least, over};
ghost use Rattle.setting_bytes.specs.Settings.{part, announced_at, announced_length, numbers_at, private_at, setting_length};
ghost use Rattle.composer.specs.Slots.{numbers_of};
ghost use Rattle.composer.specs.Composing.{next_version};
ghost use Rattle.composer.specs.States.{composer_of, marks_of};

use composer::{COMPOSER_BYTES, LAST, OPEN, PLAN, SAID, VERSION};
use counters::SLOTS;
use setting_bytes::{NUMBERS, SETTING_BYTES};

// Gives the slots of a setting the numbers that the header says: a filled slot keeps its planned number, an empty slot gets 0. Behind the
// setting stand the marks: a byte of 1 marks a filled slot.
fn number(opened: &mut [u8])
    requires { length opened.old ≡ setting_length + last_slot }
    ensures { opened.new ≡ over numbers_at (numbers_of (part numbers_at last_slot opened.old) (marks_of (drop setting_length opened.old))) opened.old }
{
    let (setting, marks) = opened.split_at_mut(SETTING_BYTES);
    // By number: behind `zip` a proof does not know what was written.
    for (i, n) in setting[NUMBERS..NUMBERS + SLOTS].iter_mut().enumerate() {
        *n = if marks[i] == 1 { *n } else { 0 };
    }
}

// Makes the setting of an open frame what its header says. Behind it stand the marks of the filled slots.
pub(crate) fn say(opened: &mut [u8], counter: u8, version: u8)
    requires { length opened.old ≡ setting_length + last_slot }
    ensures { opened.new ≡ counter ∷ version ∷ (part announced_at announced_length opened.old ++ (numbers_of (part numbers_at last_slot opened.old) (marks_of (drop setting_length opened.old)) ++ drop private_at opened.old)) }
{
    opened[setting_bytes::COUNTER] = counter;
    opened[setting_bytes::VERSION] = version;
    number(opened);
}

// The version of the open frame's header: raised if it announces something else than the last header. What each announces stands in the
// state as bytes, so the bytes are compared.
pub(crate) fn next_version(state: &[u8; COMPOSER_BYTES]) -> u8
    requires bytes { some_at_least (2 ^ 8) state.now ≡ false }
    requires version { (composer_of state.now).version < 8 }
    ensures { result ≡ next_version (composer_of state.now) }
{
    let version = state[VERSION];
    if state[SAID..PLAN] != state[LAST..OPEN] {
        return (version + 1) % 8;
    }
    version
}

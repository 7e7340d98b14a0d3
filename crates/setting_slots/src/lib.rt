// The rule of 9: a slot with the number of an unavailable stream.
#![tactic(auto)]

ghost use Rattle.std.specs.Prelude.{◌≡◌, ◌+◌, ◌-◌, ◌*◌, ◌/◌, ◌%◌, ◌^◌, ◌≤◌, eqb, length};
ghost use Rattle.bits.specs.Fields.{run, cut};
ghost use Rattle.counters.specs.Counters.{last_stream};
ghost use Rattle.setting.specs.Rules.{some_unavailable};

use counters::RelativeNumber;
use setting::limits;

// A bit for each number that a slot may have: bit 15 - r for number r. Bit 15, that of number 0, is always set: a slot may carry no stream.
fn allowed_by(availability: u16) -> u16
    ensures { result ≡ 2 ^ last_stream + availability % 2 ^ last_stream }
{
    limits::AVAILABILITIES + availability % limits::AVAILABILITIES
}

// Whether the bit of a number is not set.
fn is_barred(allowed: u16, number: u8) -> bool
    requires { number ≤ last_stream }
    ensures { result ≡ eqb (allowed / 2 ^ (last_stream - number) % 2) 0 }
{
    (allowed >> u32::from(RelativeNumber::LAST - number)) % 2 == 0
}

// Whether a slot has the number of an unavailable stream. A number above 15 is no stream's. The loop goes
// through all slots and does not stop early, since the compiler then compares many at a time.
pub fn has_unavailable(availability: u16, numbers: &[u8]) -> bool
    ensures { result ≡ some_unavailable availability numbers.now }
{
    if slices::some_at_least(numbers, limits::NUMBERS) {
        return true;
    }
    let allowed = allowed_by(availability);
    let mut found = false;
    for &number in numbers {
        found |= is_barred(allowed, number);
    }
    found
}

// The same of numbers that stand two to a byte, as in a header with fifteen streams, where none is above 15. A function of its own, since the
// numbers lie differently: a byte each there, two in a byte here.
pub fn has_unavailable_half(availability: u16, bytes: &[u8]) -> bool
    ensures { result ≡ some_unavailable availability (cut 4 (2 * length bytes.now) (run 8 bytes.now)) }
{
    let allowed = allowed_by(availability);
    let mut found = false;
    for &byte in bytes {
        found |= is_barred(allowed, byte / 16) | is_barred(allowed, byte % 16);
    }
    found
}

// The checks of a group before its headers are read, in the order of the table of refusals.
ghost use Rattle.std.specs.Prelude.{◌≡◌};
ghost use Rattle.refusals.specs.Refusals.{answer};
ghost use Rattle.setting.specs.Refusal.{first_of};
ghost use Rattle.bond_group.specs.Standing.{call_checks};

use crate::Bond;
use crate::headers::CARRIERS;
use packet::FRAME_BYTES;
use refusals::Refusal;

// Refusals 1, 2 and 17: the group's length, the PID and the number of carriers.
pub(crate) fn call_refusal(b: Bond, group: usize) -> Result<(), Refusal>
    ensures { answer result ≡ first_of (call_checks b group) }
{
    if group == 0 {
        return Err(Refusal::Length);
    }
    if group % FRAME_BYTES != 0 {
        return Err(Refusal::Length);
    }
    if !setting::pid_allowed(b.pid) {
        return Err(Refusal::HeaderPid);
    }
    if b.carriers < 1 {
        return Err(Refusal::OutOfRange);
    }
    if (CARRIERS as u8) < b.carriers {
        return Err(Refusal::OutOfRange);
    }
    Ok(())
}

// A group of bonded carriers, their super frames one behind another in one buffer: its headers read, and what they say of a stream.
#![tactic(auto)]

mod checks;
pub mod headers;

ghost use Rattle.std.specs.Prelude.{◌≡◌};
ghost use Rattle.slices.specs.Slices.{copied};
ghost use Rattle.bond_group.specs.Plan.{headers_in, headers_of, planned_of};

use header_check::Refused;

// A bond: the number of carriers, the header PID, and the stream's identifiers.
#[derive(Clone, Copy)]
pub struct Bond {
    pub carriers: u8,
    pub pid: u16,
    pub ts_id: u16,
    pub original_network_id: u16,
}

// Reads the headers of the group, once each. Answers how many bonded slots they have for the stream, or none if no header carries it. Writes
// the plan of the bonded slots into what the caller lends: each carrier's number of frames, and the bonded slots of each frame, slot i in
// bit i; zeros if it refuses. As many numbers are written as there is room for.
pub fn read_headers(
    group: &[u8],
    b: Bond,
    frames: &mut [u8],
    slots: &mut [u64],
) -> Result<Option<usize>, Refused>
    ensures value { headers_in result ≡ headers_of (planned_of b group.now) }
    ensures frames_after { frames.new ≡ copied frames.old (planned_of b group.now).plan.frames }
    ensures slots_after { slots.new ≡ copied slots.old (planned_of b group.now).plan.slots }
{
    headers::clear(frames, slots);
    checks::call_refusal(b, group.len())?;
    let planned = headers::plan_of(group, b, frames, slots);
    if let Err(why) = planned {
        headers::clear(frames, slots);
        return Err(why);
    }
    planned
}

// The plan of a frame: each stream's slots spread evenly over it.
ghost use Rattle.std.specs.Prelude.{◌<◌};
ghost use Rattle.tools.specs.Sizes.{share_count};

use counters::{SLOTS, STREAMS};

// The shares of a frame: number 0 is for slots of no stream, then one for each stream.
pub(crate) const SHARES: usize = STREAMS + 1;

// The first share with the most credit.
fn richest(credits: &[u32; SHARES]) -> usize
    ensures { result < share_count }
{
    let mut best = 0;
    for (r, credit) in credits.iter().enumerate() {
        if credits[best] < *credit {
            best = r;
        }
    }
    best
}

// The number of the next slot. Each share gains as much credit as it has slots in a frame. The share with the most credit gets the slot, and
// pays for it as much as all shares together gain for a slot: as many as a frame has slots.
fn next(credits: &mut [u32; SHARES], slots: &[u8; SHARES], all: u8) -> u8 {
    for (credit, gain) in credits.iter_mut().zip(slots) {
        *credit = credit.wrapping_add(u32::from(*gain));
    }
    let best = richest(credits);
    credits[best] = credits[best].wrapping_sub(u32::from(all));
    best as u8
}

// The credit of each share before the first slot. It is more than a share can lose.
const START: u32 = 1000;

// The number of each slot of a frame that has so many, if number r gets so many of them, and number 0 those that are left. Behind the last
// slot there are zeros.
pub(crate) fn numbers(slots: &[u8; SHARES], all: u8) -> [u8; SLOTS] {
    let mut plan = [0u8; SLOTS];
    let mut credits = [START; SHARES];
    for number in plan.iter_mut().take(usize::from(all)) {
        *number = next(&mut credits, slots, all);
    }
    plan
}

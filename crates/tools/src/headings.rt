// The headers of the super frames that bond writes.
ghost use Rattle.std.specs.Prelude.{◌≤◌};
ghost use Rattle.counters.specs.Counters.{last_position};

use crate::carriers::{GROUP_BYTES, Share};
use crate::plan::SHARES;
use crate::problem::{About, Problem, allowed};
use crate::{plan, settings};
use bond_group::Bond;
use counters::{FramePosition, SLOTS, Slot};
use packet::{FRAME_BYTES, PACKET_BYTES};
use setting::{Kind, Setting, limits};
use setting_bytes::SETTING_BYTES;

// A bond and the id of its group.
#[derive(Clone, Copy)]
pub(crate) struct Bonded {
    pub(crate) bond: Bond,
    pub(crate) group_id: u8,
}

// The plan of a carrier on which the stream has so many slots in each frame.
fn plan_of(slots: u8) -> [u8; SLOTS] {
    let mut shares = [0u8; SHARES];
    shares[1] = slots.min(Slot::LAST);
    shares[0] = Slot::LAST - shares[1];
    plan::numbers(&shares, Slot::LAST)
}

// The counter of a frame in the super frame with this number: the run's first header has 0.
fn counter(number: u64, frames: u8, position: FramePosition) -> u8
    requires { 1 ≤ position.0 }
{
    let before = number.wrapping_mul(u64::from(frames));
    let here = u64::from(position.0 - FramePosition::FIRST);
    (before.wrapping_add(here) % u64::from(limits::COUNTERS)) as u8
}

// The setting of a carrier's frame in the super frame with this number.
fn setting_of(b: Bonded, share: Share, position: FramePosition, number: u64) -> Setting
    requires { (1 ≤ position.0) × (position.0 ≤ last_position) }
{
    let bond = b.bond;
    let r = settings::stream_at(0);
    let stream = settings::with_stream(Setting::blank(), r, bond.ts_id, bond.original_network_id);
    Setting {
        continuity_counter: counter(number, share.frames, position),
        frame_type: limits::LAST_FRAME_TYPE,
        relative_ts_number: plan_of(share.slots),
        group_id: b.group_id,
        number_of_carriers: bond.carriers,
        carrier_sequence: share.number,
        number_of_frames: share.frames,
        frame_position: position,
        ..stream
    }
}

// Writes a header with this setting into the packet.
fn write_header(packet: &mut [u8], pid: u16, s: Setting) -> Result<(), Problem> {
    let mut setting = [0u8; SETTING_BYTES];
    setting_write::write_setting(&mut setting, s);
    let written = header_codec::write(packet, pid, Kind::Extended, &setting);
    allowed(About::Run, "header", written)
}

// Writes the headers of a carrier's super frame.
pub(crate) fn write_super(
    group: &mut [u8; GROUP_BYTES],
    b: Bonded,
    share: Share,
    number: u64,
) -> Result<(), Problem> {
    for f in 0..share.frames {
        let at = share.at + FRAME_BYTES * usize::from(f);
        let s = setting_of(b, share, FramePosition(f + 1), number);
        write_header(&mut group[at..at + PACKET_BYTES], b.bond.pid, s)?;
    }
    Ok(())
}

// The calls that read the headers of a group, spread a stream over it and gather it again. A bond is passed as its four numbers. Each writes
// the remainder too: that of the header which is refused if the answer is 7, else 0.
#![tactic(auto)]

ghost use Rattle.std.specs.Prelude.{◌≡◌, cond, length};
ghost use Rattle.bond_group.specs.Plan.{planned_of};
ghost use Rattle.bond.specs.Bonding.{spread_of, spread_group, gather_of, gather_buffer};
ghost use Rattle.bond_calls.specs.Bonds.{bond_of};

use bond_group::Bond;

// Reads the headers of a group: whether any of them carries the stream, and how many bonded slots the group has.
#[unsafe(no_mangle)]
pub extern "C" fn niranbok_read_headers(
    group: &[u8],
    carriers: u8,
    pid: u16,
    ts_id: u16,
    original_network_id: u16,
    is_carried: &mut u8,
    packets: &mut usize,
    remainder: &mut u32,
) -> u8
    ensures value { result ≡ (planned_of (bond_of carriers pid ts_id original_network_id) group.now).refusal.number }
    ensures remainder_after { remainder.new ≡ (planned_of (bond_of carriers pid ts_id original_network_id) group.now).refusal.remainder }
    ensures is_carried_after { is_carried.new ≡ cond (planned_of (bond_of carriers pid ts_id original_network_id) group.now).plan.is_carried 1 0 }
    ensures packets_after { packets.new ≡ (planned_of (bond_of carriers pid ts_id original_network_id) group.now).plan.packets }
{
    // This call has no use for the plan itself: it lends no room for it.
    let headers = bond_group::read_headers(
        group,
        Bond {
            carriers,
            pid,
            ts_id,
            original_network_id,
        },
        &mut [],
        &mut [],
    );
    *is_carried = 0;
    *packets = 0;
    if let Ok(Some(bonded)) = headers {
        *is_carried = 1;
        *packets = bonded;
    }
    header_check::answer(headers, remainder)
}

// Writes a stream's packets into the bonded slots of a group, in order.
#[unsafe(no_mangle)]
pub extern "C" fn niranbok_spread(
    group: &mut [u8],
    stream: &[u8],
    carriers: u8,
    pid: u16,
    ts_id: u16,
    original_network_id: u16,
    packets: &mut usize,
    remainder: &mut u32,
) -> u8
    ensures value { result ≡ (spread_of (bond_of carriers pid ts_id original_network_id) group.old stream.now).refusal.number }
    ensures remainder_after { remainder.new ≡ (spread_of (bond_of carriers pid ts_id original_network_id) group.old stream.now).refusal.remainder }
    ensures packets_after { packets.new ≡ (spread_of (bond_of carriers pid ts_id original_network_id) group.old stream.now).packets }
    ensures group_after { group.new ≡ spread_group (bond_of carriers pid ts_id original_network_id) group.old stream.now }
{
    let spread = bond::spread(
        group,
        stream,
        Bond {
            carriers,
            pid,
            ts_id,
            original_network_id,
        },
    );
    *packets = spread.unwrap_or(0);
    header_check::answer(spread, remainder)
}

// Copies the bonded slots of a group, in order, to the front of `out`.
#[unsafe(no_mangle)]
pub extern "C" fn niranbok_gather(
    group: &[u8],
    out: &mut [u8],
    carriers: u8,
    pid: u16,
    ts_id: u16,
    original_network_id: u16,
    packets: &mut usize,
    remainder: &mut u32,
) -> u8
    ensures value { result ≡ (gather_of (bond_of carriers pid ts_id original_network_id) group.now (length out.old)).refusal.number }
    ensures remainder_after { remainder.new ≡ (gather_of (bond_of carriers pid ts_id original_network_id) group.now (length out.old)).refusal.remainder }
    ensures packets_after { packets.new ≡ (gather_of (bond_of carriers pid ts_id original_network_id) group.now (length out.old)).packets }
    ensures out_after { out.new ≡ gather_buffer (bond_of carriers pid ts_id original_network_id) group.now out.old }
{
    let gathered = bond::gather(
        group,
        out,
        Bond {
            carriers,
            pid,
            ts_id,
            original_network_id,
        },
    );
    *packets = gathered.unwrap_or(0);
    header_check::answer(gathered, remainder)
}
